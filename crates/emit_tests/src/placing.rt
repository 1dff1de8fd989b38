// Places that a test chooses for the temporaries of a function, and a frame for them.

ghost use Rattle.sc_tac.specs.Prelude.{is_place};
ghost use Rattle.std.specs.List.{list_all};
ghost use Rattle.std.specs.Prelude.{◌≡◌, ◌==◌, ◌%◌, All, IsTrue, length};

use sc_base::OutOfMemory;
use sc_emit_select::select;
use sc_tac::{Code, Frame, FrameTree, Offsets, Place, Places, TacFn};
use sqlite_items::Items;
use std::alloc::Global;

/// How many nodes a function has at most whose jumps reach over all of its code.
const MOST_NODES: u32 = 10_922;

/// Where the temporaries of a function lie.
#[derive(Clone, Copy)]
pub struct Choice {
    /// The places of the first four. The next four lie four registers or slots further, and so on.
    pub places: [Place; 4],
    /// At which word of the frame the slots begin. The objects follow them.
    pub first_slot: u32,
}

/// Where slots begin: after the return address; so that they cross the last offset that one instruction reaches; and
/// beyond it, across the first whose low 12 bits are small again.
pub const FIRST_SLOTS: [u32; 3] = [1, 508, 1_020];

fn is_place(place: Place, temps: usize) -> bool
    ensures { result ≡ is_place temps place }
{
    match place {
        Place::Register(register) => register < 18,
        Place::Slot(slot) => (slot as usize) < temps,
    }
}

fn are_places(list: &[Place]) -> bool
    ensures { result ≡ list_all (is_place (length list.now)) list.now }
{
    list.iter().all(|place| is_place(*place, list.len()))
}

fn places_of(list: Items<Place>) -> Option<Places> {
    if are_places(list.as_slice()) {
        Some(Places::new(list))
    } else {
        None
    }
}

fn is_offset(offset: u32) -> bool
    ensures { result ≡ (offset % 4 == 0) }
{
    offset % 4 == 0
}

fn are_offsets(offsets: &[u32]) -> bool
    ensures { IsTrue result → All (λ offset. offset % 4 ≡ 0) offsets.now }
{
    offsets.iter().all(|offset| is_offset(*offset))
}

fn frame_of(tree: FrameTree) -> Option<Frame> {
    let bytes = tree.bytes;
    if bytes % 4 == 0
        && are_offsets(tree.objects.as_slice())
        && are_offsets(tree.slots.as_slice())
    {
        Some(Frame::new(tree))
    } else {
        None
    }
}

// Slots from this word of the frame on.
fn lay_slots(alloc: Global, first: u32, count: u32) -> Result<Offsets, OutOfMemory> {
    let mut slots = Offsets::new(alloc);
    for slot in 0..count {
        slots.push(first.wrapping_add(slot).wrapping_mul(4))?;
    }
    Ok(slots)
}

// A frame with `count` slots from the word `first` on, and after them objects of these sizes in cells.
fn lay(alloc: Global, first: u32, count: u32, cells: &[u32]) -> Result<Option<Frame>, OutOfMemory> {
    let slots = lay_slots(alloc, first, count)?;
    let mut objects = Offsets::new(alloc);
    let mut word = first.wrapping_add(count);
    for count in cells {
        objects.push(word.wrapping_mul(4))?;
        word = word.wrapping_add(*count);
    }
    Ok(frame_of(FrameTree {
        bytes: word.wrapping_mul(4),
        objects,
        slots,
    }))
}

// Registers are taken in turn: no temporary of the tests is read so long after its assignment that it is lost.
fn place_of(choice: Choice, temp: u32) -> Place {
    let further = temp - temp % 4;
    match choice.places[(temp % 4) as usize] {
        Place::Register(register) => {
            let moved = further.wrapping_add(u32::from(register)) % 18;
            Place::Register(moved as u8)
        }
        Place::Slot(slot) => Place::Slot(slot.wrapping_add(further)),
    }
}

/// The machine code of a function by such a choice; `None` where it is too large, or a place isn't one.
pub fn code_by(
    alloc: Global,
    function: &TacFn,
    choice: Choice,
) -> Result<Option<Code>, OutOfMemory> {
    let tree = function.tree();
    let mut list = Items::new(alloc);
    for temp in 0..tree.temps {
        list.push(place_of(choice, temp))?;
    }
    let Some(places) = places_of(list) else {
        return Ok(None);
    };
    let Some(frame) = lay(
        alloc,
        choice.first_slot,
        tree.temps,
        tree.objects.as_slice(),
    )?
    else {
        return Ok(None);
    };
    if tree.nodes > MOST_NODES {
        return Ok(None);
    }
    Ok(Some(select(alloc, function, &places, &frame)?))
}
