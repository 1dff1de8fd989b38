ghost use Rattle.std.specs.Prelude.{◌≡◌, ◌<◌, ◌≤◌, ℕ, length, vec_len, MatchOption, IfSome, IsTrue, MatchResult, OnErr};
ghost use Rattle.std.specs.Prelude.{Ok, Err, None};
ghost use Rattle.std.specs.List.{HoldsAt, remove_range};
ghost use Rattle.sc_blocks.specs.Cells.{stored_in};
ghost use Rattle.sc_blocks.specs.Rows.{cause_of};
ghost use Rattle.sc_core.specs.Memory.{variable};
ghost use Rattle.sc_blocks.specs.Slots.{HasCells, IsRising, count_below, slot_among};

use crate::BlockFault;
use crate::cells::Cells;
use sc_core::Cell;

/// A block that lives: its number among those that its compartment ever had, its cells, and its place in the zone where
/// it was allocated there.
#[derive(Drop)]
pub(crate) struct Slot {
    pub number: usize,
    pub cells: Cells,
    pub place: Option<u32>,
}

/// The place of the block of a number, among blocks whose numbers rise. A variable of the call that runs stands as far
/// from the last one as its number says, and a global variable at its number: only others have to be searched for.
#[inline(always)]
pub(crate) fn place_of(slots: &[Slot], number: usize) -> Option<usize>
    ensures within { IfSome result (λ place. place < length slots.now) }
    ensures found { MatchOption result
        ((from made : ℕ) → IsRising from made slots.now → slot_among slots.now number ≡ None)
        (HoldsAt (λ slot. slot.number ≡ number) slots.now) }
{
    if is_at(slots, number, number) {
        return Some(number);
    }
    if let Some(last) = slots.last() {
        let place = slots
            .len()
            .wrapping_add(number)
            .wrapping_sub(last.number)
            .wrapping_sub(1);
        if is_at(slots, place, number) {
            return Some(place);
        }
    }
    search(slots, number)
}

// Whether the block at a place has this number.
#[inline(always)]
fn is_at(slots: &[Slot], place: usize, number: usize) -> bool
    ensures within { IsTrue result → place < length slots.now }
    ensures number { IsTrue result → HoldsAt (λ slot. slot.number ≡ number) slots.now place }
{
    if place < slots.len() {
        return slots[place].number == number;
    }
    false
}

// The place of the block of a number, wherever it is.
fn search(slots: &[Slot], number: usize) -> Option<usize>
    ensures within { IfSome result (λ place. place < length slots.now) }
    ensures found { MatchOption result
        ((from made : ℕ) → IsRising from made slots.now → slot_among slots.now number ≡ None)
        (HoldsAt (λ slot. slot.number ≡ number) slots.now) }
{
    match slots.binary_search_by_key(&number, |slot| slot.number) {
        Ok(place) => Some(place),
        Err(_) => None,
    }
}

/// The cells of the block of a number.
#[inline(always)]
pub(crate) fn cells_in(slots: &[Slot], number: usize) -> Option<&Cells>
    ensures { MatchOption result
        ((from made : ℕ) → IsRising from made slots.now → slot_among slots.now number ≡ None)
        (λ cells. (from made : ℕ) → IsRising from made slots.now → HasCells slots.now number cells.now) }
{
    match place_of(slots, number) {
        Some(place) => Some(&slots[place].cells),
        None => None,
    }
}

/// How many blocks have a lower number, by halves.
pub(crate) fn below(slots: &[Slot], number: usize) -> usize
    ensures within { result ≤ length slots.now }
    ensures count { (from made : ℕ) → IsRising from made slots.now → result ≡ count_below number slots.now }
{
    match slots.binary_search_by_key(&number, |slot| slot.number) {
        Ok(place) => place,
        Err(place) => place,
    }
}

/// How many blocks have a lower number. It looks from the end, where the blocks of the last call stand.
#[inline(never)]
pub(crate) fn lower(slots: &[Slot], number: usize) -> usize
    ensures within { result ≤ length slots.now }
    ensures count { (from made : ℕ) → IsRising from made slots.now → result ≡ count_below number slots.now }
{
    let mut count = slots.len();
    while count > 0 && slots[count - 1].number >= number {
        count -= 1;
    }
    count
}

/// Takes out the blocks from a place up to another. Mostly these are the last ones.
pub(crate) fn remove(slots: &mut Vec<Slot>, from: usize, to: usize)
    requires order { from ≤ to }
    requires within { to ≤ vec_len slots.old }
    ensures { slots.new.items ≡ remove_range slots.old.items from to }
{
    if to == slots.len() {
        slots.truncate(from);
        return;
    }
    slots.drain(from..to);
}

/// Puts a cell into a block.
#[inline(always)]
pub(crate) fn put(slot: &mut Slot, index: u32, cell: Cell) -> Result<(), BlockFault>
    ensures value { MatchResult result
        (λ _. stored_in (variable slot.old.cells) index cell ≡ Ok (variable slot.new.cells))
        (λ fault. stored_in (variable slot.old.cells) index cell ≡ Err (cause_of fault)) }
    ensures number { slot.new.number ≡ slot.old.number }
    ensures place { slot.new.place ≡ slot.old.place }
    ensures long { length slot.new.cells ≡ length slot.old.cells }
    ensures err { OnErr result (slot.new ≡ slot.old) }
{
    if index >= slot.cells.len() {
        return Err(BlockFault::OutOfBounds);
    }
    slot.cells.set(index, cell);
    Ok(())
}
