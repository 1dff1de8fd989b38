ghost use Rattle.std.specs.Prelude.{◌≡◌, ◌≤◌, length, replicate, IsTrue, ◌==◌};
ghost use Rattle.std.specs.Cmp.Lexicographic.{pointwise};
ghost use Rattle.std.specs.Cmp.Rules.{comparing, hashing};
ghost use Rattle.std.specs.Hash as fed;
ghost use Rattle.std.specs.List.{list_all};
ghost use Rattle.std.proofs.Common.{rules};
ghost use Rattle.sc_base.specs.Filled.{filled};
ghost use Rattle.sc_base.specs.Identifier.{is_name, name_of, is_digit, is_nondigit, is_name_byte};

use std::hash::{Hash, Hasher};
use std::marker::Model;

/// An identifier (C11 6.4.2.1) of 1 to 63 bytes, kept without memory of its own. Contracts see its bytes.
#[derive(Clone, Copy)]
pub struct Name {
    len: u8,
    // The identifier, and zeros after it.
    bytes: [u8; 63],
}

impl Model for Name {
    ghost use Rattle.std.specs.Prelude.{List, ℕ, take, length};
    ghost use Rattle.std.specs.Coded.{coded_list, coded_ℕ};
    ghost use Rattle.sc_base.specs.Filled.{filled, IsFilled, refilled, prefix_length};

    ghost Value = { List ℕ };

    ghost coded = { coded_list coded_ℕ };

    ghost view = { λ name. take name.len name.bytes };

    ghost invariant = { λ name. IsFilled name.len name.bytes };

    ghost inverse = { λ text. record { len = length text; bytes = filled text } };

    ghost inverse_ok = { λ name is i. record {
      len = prefix_length name.len name.bytes is i;
      bytes = refilled name.len name.bytes is i;
    } };
}

impl Name {
    /// How many bytes a name has at most.
    pub const LIMIT: usize = 63;

    /// The text as a name, `None` where it is no identifier of 1 to 63 bytes.
    #[tactic(auto, using(crate::proofs::Filled::names))]
    pub fn new(text: &[u8]) -> Option<Name>
        ensures { result ≡ name_of text.now }
    {
        if !is_name(text) {
            return None;
        }
        Some(Name {
            len: text.len() as u8,
            bytes: filled(text),
        })
    }

    /// The bytes, 1 to 63 of them.
    pub fn as_bytes(&self) -> &[u8]
        ensures value { result.now ≡ self.now }
        ensures named { IsTrue (is_name self.now) }
    {
        &self.bytes[..usize::from(self.len)]
    }
}

impl PartialEq for Name {
    ghost eq = { pointwise ◌==◌ };

    ghost laws = { Prim.search (comparing, rules) };

    fn eq(&self, other: &Name) -> bool {
        self.as_bytes() == other.as_bytes()
    }
}

impl Eq for Name {
    ghost laws = { Prim.search (comparing, rules) };
}

impl Hash for Name {
    ghost hash_input = { fed.slice fed.u8 };

    ghost respects_eq = { Prim.search (hashing, rules) };

    fn hash<H: Hasher>(&self, state: &mut H) {
        self.as_bytes().hash(state);
    }
}

/// Whether the text is an identifier of 1 to 63 bytes.
#[tactic(auto, unfolding(crate::specs::Identifier::is_name))]
pub fn is_name(text: &[u8]) -> bool
    ensures { result ≡ is_name text.now }
{
    match text.split_first() {
        None => false,
        Some((first, rest)) => {
            is_nondigit(*first) && are_name_bytes(rest) && rest.len() < Name::LIMIT
        }
    }
}

// The array that starts with the text.
#[tactic(auto, using(crate::proofs::Filled::arrays))]
fn filled(text: &[u8]) -> [u8; 63]
    requires { length text.now ≤ 63 }
    ensures { result ≡ filled text.now }
{
    let mut array = blank();
    array[..text.len()].copy_from_slice(text);
    array
}

// Apart, since a goal that lists each zero is long.
fn blank() -> [u8; 63]
    ensures { result ≡ replicate 63 0 }
{
    [0; 63]
}

fn are_name_bytes(rest: &[u8]) -> bool
    ensures { result ≡ list_all is_name_byte rest.now }
{
    rest.iter().all(|byte| is_name_byte(*byte))
}

fn is_name_byte(byte: u8) -> bool
    ensures { result ≡ is_name_byte byte }
{
    is_nondigit(byte) || is_digit(byte)
}

fn is_nondigit(byte: u8) -> bool
    ensures { result ≡ is_nondigit byte }
{
    byte == b'_' || byte.is_ascii_uppercase() || byte.is_ascii_lowercase()
}

fn is_digit(byte: u8) -> bool
    ensures { result ≡ is_digit byte }
{
    byte.is_ascii_digit()
}
