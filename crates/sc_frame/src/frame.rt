ghost use Rattle.sc_core.specs.Prelude.{most_frame};
ghost use Rattle.sc_core.specs.Prelude.{frame_bound, total};
ghost use Rattle.sc_tac.specs.Prelude.{FrameFits, frame_of, is_place, offsets_from, slots_of, slots_up_to};
ghost use Rattle.std.specs.Prelude.{◌≡◌, ◌≤◌, ◌<◌, ◌+◌, ◌*◌, map, length, IfOk, IsTrue};
ghost use Rattle.std.specs.List.{list_all, range_with_len};

use sc_base::OutOfMemory;
use sc_tac::{Frame, FrameTree, Offsets, Place, Places, TacFn};
use std::alloc::Global;

fn slots_up_to(place: Place, temps: u32) -> u32
    requires { IsTrue (is_place temps place) }
    ensures count { result ≡ slots_up_to place }
    ensures bound { result ≤ temps }
{
    match place {
        Place::Register(_) => 0,
        Place::Slot(slot) => slot + 1,
    }
}

// How many slots there are where these places are all. No place names a slot from `temps` on.
fn slots_of(places: &[Place], temps: u32) -> u32
    requires { IsTrue (list_all (is_place temps) places.now) }
    ensures count { result ≡ slots_of places.now }
    ensures bound { result ≤ temps }
{
    let mut count = 0;
    for place in places {
        count = count.max(slots_up_to(*place, temps));
    }
    count
}

// The offsets of `count` slots.
fn lay_slots(alloc: Global, count: u32) -> Result<Offsets, OutOfMemory>
    requires { count < 8192 }
    ensures { IfOk result (λ slots. slots ≡ map (λ slot. 4 + 4 * slot) (range_with_len 0 count)) }
{
    let mut slots = Offsets::from_vec(Vec::with_capacity(alloc, count as usize)?);
    for slot in 0..count {
        slots.push(4 + 4 * slot)?;
    }
    Ok(slots)
}

/// Objects one after the other.
#[derive(Drop)]
struct Objects {
    offsets: Offsets,
    end: u32,
}

// Objects of these sizes in cells, from this offset on.
fn lay_objects(alloc: Global, from: u32, cells: &[u32]) -> Result<Objects, OutOfMemory>
    requires { from + 4 * total cells.now ≤ most_frame }
    ensures { IfOk result (λ objects. objects ≡ record {
      offsets = offsets_from from cells.now;
      end = from + 4 * total cells.now;
    }) }
{
    let mut offsets = Offsets::from_vec(Vec::with_capacity(alloc, cells.len())?);
    let mut end = from;
    for count in cells {
        offsets.push(end)?;
        end += 4 * *count;
    }
    Ok(Objects { offsets, end })
}

/// The frame of a function whose temporaries lie in these places.
pub fn lay(alloc: Global, f: &TacFn, places: &Places) -> Result<Frame, OutOfMemory>
    requires each { length places.now ≡ f.now.temps }
    requires small { frame_bound f.now.objects f.now.nodes ≤ most_frame }
    ensures frame { IfOk result (λ frame. frame ≡ frame_of f.now.objects places.now) }
    ensures frame_fits { IfOk result (FrameFits f.now.objects places.now f.now.nodes) }
{
    let f = f.tree();
    let count = slots_of(places.as_slice(), f.temps);
    let slots = lay_slots(alloc, count)?;
    let objects = lay_objects(alloc, 4 + 4 * count, f.objects.as_slice())?;
    Ok(Frame::new(FrameTree {
        bytes: objects.end,
        objects: objects.offsets,
        slots,
    }))
}
