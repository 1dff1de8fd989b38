//! The tag of each byte.

ghost use Rattle.sc_base.specs.Prelude.{most_compartments};
ghost use Rattle.sc_image.specs.Prelude.{comp_of_code, comp_of_data, most_globals, word_at};
ghost use Rattle.sc_tags.specs.Prelude.{all_tagged, is_data_byte, is_in_range, is_tag, owner_of, retagged, tag_at};
ghost use Rattle.sc_tags.specs.TagHart.{IsApart, has_data_at};
ghost use Rattle.std.specs.Prelude.{All, IsTrue, fold, is_some, length, ◌≡◌, ◌%◌, ◌+◌, ◌<◌, ◌^◌, ◌≤◌};

use crate::tag::{ByteTag, TagRange};
use sc_event::CompId;
use sc_image::layout::{CODE, DATA, STACK_SIZE, STRETCH, ZONE, ZONE_SIZE, comp_id, comp_of_code};
use sc_image::{CompPart, Image};

/// The tag of the byte at an address.
pub(crate) fn tag_at(image: &Image, ranges: &[TagRange], at: u32) -> ByteTag
    ensures { result ≡ tag_at image.now ranges.now at }
{
    match owner_of(image, at) {
        ByteTag::Unowned => ByteTag::Unowned,
        owner => given_by(ranges, at, owner),
    }
}

/// The tag that ranges give to an owned byte.
fn given_by(ranges: &[TagRange], at: u32, owner: ByteTag) -> ByteTag
    ensures { result ≡ fold (retagged at) owner ranges.now }
{
    let mut tag = owner;
    for range in ranges {
        if contains(range, at) {
            tag = range.tag;
        }
    }
    tag
}

/// Whether the range has the address.
fn contains(range: &TagRange, at: u32) -> bool
    ensures { result ≡ is_in_range range.now at }
{
    range.start <= at && at - range.start < range.bytes
}

/// Whether no range has any of the `size` bytes at an address. Where it says no, there may be none all the same.
pub(crate) fn are_untouched(ranges: &[TagRange], address: u32, size: u32) -> bool
    ensures { IsTrue result → All (λ range. IsApart range address size) ranges.now }
{
    ranges.iter().all(|range| is_apart(range, address, size))
}

fn is_apart(range: &TagRange, address: u32, size: u32) -> bool
    ensures { IsTrue result → IsApart range.now address size }
{
    if address < range.start {
        return range.start - address >= size;
    }
    address - range.start >= range.bytes
}

/// The tag by who owns the byte at an address.
fn owner_of(image: &Image, at: u32) -> ByteTag
    ensures { result ≡ owner_of image.now at }
{
    let word = at / 4 * 4;
    if is_code_word(image, word) {
        return ByteTag::Code(comp_id(comp_of_code(word)));
    }
    if is_data_byte(image, at) {
        return ByteTag::Data(comp_id(comp_of_data(at)));
    }
    ByteTag::Unowned
}

/// Whether there is a word of somebody's code at an address.
fn is_code_word(image: &Image, word: u32) -> bool
    requires { word % 4 ≡ 0 }
    ensures is { result ≡ is_some (word_at image.now (comp_of_code word) word) }
    ensures within { IsTrue result → comp_of_code word < most_compartments }
{
    if word < CODE {
        return false;
    }
    match image.parts().comps.get(comp_of_code(word)) {
        Some(part) => (((word - CODE) % STRETCH / 4) as usize) < part.code.len(),
        None => false,
    }
}

/// The number of the compartment in whose stretch of data an address lies. There may be none of that number.
fn comp_of_data(at: u32) -> usize
    ensures { result ≡ comp_of_data at }
{
    (at.saturating_sub(DATA) / STRETCH) as usize
}

/// Whether the byte at an address is one of somebody's data.
fn is_data_byte(image: &Image, at: u32) -> bool
    ensures is { result ≡ is_data_byte image.now at }
    ensures within { IsTrue result → comp_of_data at < most_compartments }
{
    if at < DATA {
        return false;
    }
    match image.parts().comps.get(comp_of_data(at)) {
        Some(part) => has_data(part, (at - DATA) % STRETCH),
        None => false,
    }
}

/// Whether a compartment has data at an offset from where its data begin.
fn has_data(part: &CompPart, offset: u32) -> bool
    requires { length part.now.globals ≤ most_globals }
    ensures { result ≡ has_data_at part.now offset }
{
    if offset < STACK_SIZE + part.globals.as_bytes().len() as u32 {
        return true;
    }
    if !part.heap {
        return false;
    }
    ZONE <= offset && offset < ZONE + ZONE_SIZE
}

/// Whether a tag is the one that is wanted.
fn is_tag(wanted: &ByteTag, tag: ByteTag) -> bool
    ensures { result ≡ is_tag wanted.now tag }
{
    match *wanted {
        ByteTag::Code(comp) => is_code(comp, tag),
        ByteTag::Data(comp) => is_data(comp, tag),
        ByteTag::Unowned => matches!(tag, ByteTag::Unowned),
    }
}

fn is_code(wanted: CompId, tag: ByteTag) -> bool
    ensures { result ≡ is_tag (ByteTag.Code wanted) tag }
{
    match tag {
        ByteTag::Code(comp) => comp == wanted,
        _ => false,
    }
}

fn is_data(wanted: CompId, tag: ByteTag) -> bool
    ensures { result ≡ is_tag (ByteTag.Data wanted) tag }
{
    match tag {
        ByteTag::Data(comp) => comp == wanted,
        _ => false,
    }
}

/// Whether the `size` bytes at an address all have this tag.
pub(crate) fn all_tagged(
    image: &Image,
    ranges: &[TagRange],
    wanted: ByteTag,
    address: u32,
    size: u32,
) -> bool
    requires { address + size ≤ 2 ^ 32 }
    ensures { result ≡ all_tagged (tag_at image.now ranges.now) wanted address size }
{
    for place in 0..size {
        if !is_tag(&wanted, tag_at(image, ranges, address + place)) {
            return false;
        }
    }
    true
}
