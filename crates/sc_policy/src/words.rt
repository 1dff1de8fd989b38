//! The words of a line, and what each of them says.

ghost use Rattle.sc_policy.specs.Lines.{words_of};
ghost use Rattle.sc_policy.specs.Reading.{arg_of, compare_of, maybe_arg_of, maybe_test_of, name_after, test_of, who_of};
ghost use Rattle.std.specs.Prelude.{◌≡◌, IfOk, map};

use crate::{ArgTest, Compare, Test, Who};
use sc_base::Name;
use sc_number::{integer, number_within};
use std::alloc::{AllocError, Global};

/// What stands before, between and after the single spaces of a line.
pub(crate) fn words(alloc: Global, line: &[u8]) -> Result<Vec<&[u8]>, AllocError>
    ensures { IfOk result (λ words. map (λ word. word.now) words.items ≡ words_of line.now) }
{
    line.split(|byte| *byte == b' ').collect(alloc)
}

/// The name that follows these bytes on the line.
pub(crate) fn name_after(prefix: &[u8], line: &[u8]) -> Option<Name>
    ensures { result ≡ name_after prefix.now line.now }
{
    if !line.starts_with(prefix) {
        return None;
    }
    Name::new(&line[prefix.len()..])
}

pub(crate) fn who_of(word: &[u8]) -> Option<Who>
    ensures { result ≡ who_of word.now }
{
    if word == b"*".as_slice() {
        return Some(Who::Any);
    }
    let name = Name::new(word)?;
    Some(Who::Named(name))
}

fn compare_of(word: &[u8]) -> Option<Compare>
    ensures { result ≡ compare_of word.now }
{
    if word == b"=".as_slice() {
        Some(Compare::Equal)
    } else if word == b"!=".as_slice() {
        Some(Compare::NotEqual)
    } else if word == b"<".as_slice() {
        Some(Compare::Less)
    } else if word == b"<=".as_slice() {
        Some(Compare::LessEqual)
    } else if word == b">".as_slice() {
        Some(Compare::Greater)
    } else if word == b">=".as_slice() {
        Some(Compare::GreaterEqual)
    } else {
        None
    }
}

fn test_of(op: &[u8], value: &[u8]) -> Option<Test>
    ensures { result ≡ test_of op.now value.now }
{
    let op = compare_of(op)?;
    let value = integer(value)?;
    Some(Test { op, value })
}

/// The test that the words say, if any do.
pub(crate) fn maybe_test_of(words: &[&[u8]]) -> Option<Option<Test>>
    ensures { result ≡ maybe_test_of (map (λ word. word.now) words.now) }
{
    match words {
        [] => Some(None),
        [op, value] => Some(Some(test_of(op, value)?)),
        _ => None,
    }
}

fn arg_of(number: &[u8], op: &[u8], value: &[u8]) -> Option<ArgTest>
    ensures { result ≡ arg_of number.now op.now value.now }
{
    let place = number_within(number, 1, 8)? as u8;
    let test = test_of(op, value)?;
    Some(ArgTest { place, test })
}

/// The test of an argument that the words say, if any do.
pub(crate) fn maybe_arg_of(words: &[&[u8]]) -> Option<Option<ArgTest>>
    ensures { result ≡ maybe_arg_of (map (λ word. word.now) words.now) }
{
    match words {
        [] => Some(None),
        [word, number, op, value] => {
            if *word == b"arg".as_slice() {
                Some(Some(arg_of(number, op, value)?))
            } else {
                None
            }
        }
        _ => None,
    }
}
