ghost use Rattle.sc_top_words.specs.Prelude.{first_piece, integer, integer_list, number_within, pieces_after};
ghost use Rattle.std.specs.Prelude.{◌≡◌, Some, None, IfOk, IsErrOf, length, option_map};

use crate::WordsFault;
use sqlite_items::Items;
use std::alloc::Global;

// How many integers a list has at most.
const LIST_LIMIT: usize = 65_536;

/// The number of a text of digits, from `low` to `high`.
pub(crate) fn read_number(text: &str, low: u32, high: u32) -> Option<u32>
    ensures { result ≡ number_within low high text.now }
{
    sc_number::number_within(text.as_bytes(), low, high)
}

fn read_integer(text: &str) -> Option<i32>
    ensures { result ≡ integer text.now }
{
    sc_number::integer(text.as_bytes())
}

/// The integers of a text between its commas.
pub(crate) fn read_list(alloc: Global, text: &str) -> Result<Items<i32>, WordsFault>
    ensures ok { IfOk result (λ list. integer_list text.now ≡ Some list) }
    ensures usage { IsErrOf result WordsFault.Usage → integer_list text.now ≡ None }
{
    let mut list = Items::new(alloc);
    let mut left = text;
    for _ in 0..LIST_LIMIT {
        let (piece, rest) = first_piece(left);
        let Some(integer) = read_integer(piece) else {
            return Err(WordsFault::Usage);
        };
        list.push(integer)?;
        match rest {
            None => return Ok(list),
            Some(following) => left = following,
        }
    }
    Err(WordsFault::Usage)
}

/// What stands before the first comma, and what follows it, if there is one.
#[tactic(auto, using(crate::proofs::Digits::no_comma))]
pub(crate) fn first_piece(text: &str) -> (&str, Option<&str>)
    ensures piece { result.0.now ≡ first_piece text.now }
    ensures following { option_map (λ rest. rest.now) result.1 ≡ pieces_after text.now }
{
    match text.split_once(',') {
        None => (text, None),
        Some((piece, rest)) => (piece, Some(rest)),
    }
}
