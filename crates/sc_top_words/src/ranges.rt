//! Ranges of bytes, as three decimals with commas between them.

ghost use Rattle.sc_top_words.specs.Prelude.{number_within, pieces, range_of, range_within};
ghost use Rattle.std.specs.Prelude.{◌≡◌, ◌∷◌, ◌<◌, ◌^◌, [], None, IfSome};

use crate::DataRange;
use crate::numbers::{first_piece, read_number};
use sc_event::CompId;

/// The range of the text.
pub(crate) fn read_range(text: &str) -> Option<DataRange>
    ensures { result ≡ range_of (pieces text.now) }
{
    let (start, bytes, comp) = three_pieces(text)?;
    let start = read_number(start, 0, u32::MAX)?;
    let bytes = read_number(bytes, 0, u32::MAX)?;
    range_within(start, bytes, read_comp(comp)?)
}

// What stands before, between and after two commas, if there are as many.
fn three_pieces(text: &str) -> Option<(&str, &str, &str)>
    ensures some { IfSome result (λ found. pieces text.now ≡ found.0.now ∷ found.1.now ∷ found.2.now ∷ []) }
    ensures none { result ≡ None → range_of (pieces text.now) ≡ None }
{
    let (first, rest) = first_piece(text);
    let (second, rest) = first_piece(rest?);
    let (third, rest) = first_piece(rest?);
    match rest {
        None => Some((first, second, third)),
        Some(_) => None,
    }
}

// The compartment of a number.
fn read_comp(text: &str) -> Option<CompId>
    ensures { result ≡ number_within 0 31 text.now }
{
    let number = read_number(text, 0, 31)?;
    CompId::new(number as u8)
}

// The range, if all its addresses are of 32 bits.
fn range_within(start: u32, bytes: u32, comp: CompId) -> Option<DataRange>
    ensures { result ≡ range_within start bytes comp }
{
    if u64::from(start) + u64::from(bytes) <= 1 << 32 {
        Some(DataRange { start, bytes, comp })
    } else {
        None
    }
}
