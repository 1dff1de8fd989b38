ghost use Rattle.sc_alloc.specs.Prelude.{AreFair, AreKnown, AreNumbered, ArePlaced, IsAssignment, IsSparing, Placement};
ghost use Rattle.sc_alloc.specs.Prelude.{assigned, at_first, scan_next, sorted_by};
ghost use Rattle.sc_tac.specs.Prelude.{AreIntervals};
ghost use Rattle.std.specs.Prelude.{◌≡◌, ◌≤◌, ◌<◌, ◌^◌, length, map, All, IfOk};
ghost use Rattle.std.specs.List.{fold};
ghost use Rattle.std.specs.List.Sorted.{IsNonDecreasingBy, IsPermutation};
ghost use Rattle.sc_tac.specs.declared.interval.Interval.{Interval};

use crate::placements::Placement;
use crate::scan::Scan;
use sc_base::OutOfMemory;
use sc_tac::{Interval, Intervals, Place, Places};
use sqlite_items::Items;
use std::alloc::Global;

fn is_word(number: u32)
    ensures { number < 2 ^ 32 }
{}

// Temporaries are numbers of 32 bits.
fn are_few(intervals: &[Interval])
    requires { AreIntervals intervals.now }
    ensures { length intervals.now ≤ 2 ^ 32 }
{
    if intervals.is_empty() {
        return;
    }
    match intervals.get(intervals.len() - 1) {
        Some(last) => is_word(last.temp),
        None => {}
    }
}

fn by_start(alloc: Global, intervals: &[Interval]) -> Result<Vec<Interval>, OutOfMemory>
    requires { AreIntervals intervals.now }
    ensures same { IfOk result (λ order. IsPermutation intervals.now order.items) }
    ensures few { IfOk result (λ order. length order.items ≤ 2 ^ 32) }
    ensures rising { IfOk result (λ order. IsNonDecreasingBy {X = Interval} (λ x. x.first) order.items) }
    ensures sorted { IfOk result (λ order. order.items ≡ sorted_by {A = Interval} (λ x. x.first) intervals.now) }
{
    are_few(intervals);
    let mut order = Vec::from_slice(alloc, intervals)?;
    order.sort_by_key(|interval| interval.first)?;
    Ok(order)
}

// A place for each of the intervals, which come in the order in which they begin.
fn scan(alloc: Global, order: &[Interval]) -> Result<Items<Placement>, OutOfMemory>
    requires ordered { All (λ (x : Interval). x.first ≤ x.last) order.now }
    requires few { length order.now ≤ 2 ^ 32 }
    requires rising { IsNonDecreasingBy {X = Interval} (λ x. x.first) order.now }
    ensures places { IfOk result (λ placements. placements ≡ (fold scan_next at_first order.now).placements) }
    ensures each { IfOk result (λ placements. map {A = Placement} (λ g. g.interval) placements ≡ order.now) }
    ensures fair { IfOk result AreFair }
    ensures known { IfOk result AreKnown }
{
    let mut scan = Scan::new(alloc, order.len())?;
    for interval in order {
        scan.add(*interval)?;
    }
    Ok(scan.finish())
}

// The places in the order of the temporaries' numbers. Each of those that it begins with is replaced.
fn by_temp(alloc: Global, placements: &[Placement]) -> Result<Items<Place>, OutOfMemory>
    requires { AreNumbered placements.now }
    ensures { IfOk result (ArePlaced placements.now) }
{
    let mut places = Items::from_vec(vec![in alloc; Place::Slot(0); placements.len()]?);
    for one in placements {
        places.set(one.interval.temp as usize, one.place);
    }
    Ok(places)
}

/// A place for each interval, by linear scan: in the order in which they begin, each gets the first register that is
/// free there, else the slot that is free soonest, if it is free there, else a new slot.
pub fn assign(alloc: Global, intervals: &Intervals) -> Result<Places, OutOfMemory>
    ensures places { IfOk result (λ places. places ≡ assigned intervals.now) }
    ensures assignment { IfOk result (IsAssignment intervals.now) }
    ensures sparing { IfOk result (IsSparing intervals.now) }
{
    let order = by_start(alloc, intervals.as_slice())?;
    let placements = scan(alloc, order.as_slice())?;
    Ok(Places::new(by_temp(alloc, placements.as_slice())?))
}
