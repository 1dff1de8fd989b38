// Places of intervals: worked cases, and many intervals of which no two may meet in a place.
use sc_alloc::assign;
use sc_base::OutOfMemory;
use sc_tac::{Interval, Intervals, Place, Places};
use sqlite_items::Items;
use std::alloc::Global;
use std::test::Fail;

fn from_to(first: u32, last: u32) -> Interval {
    Interval {
        temp: 0,
        first,
        last,
        spans_call: false,
    }
}

// These, for the temporaries from 0 on. None ends before it begins.
fn numbered(alloc: Global, spans: &[Interval]) -> Option<Intervals> {
    let mut list = Items::new(alloc);
    let mut temp: u32 = 0;
    for span in spans {
        if span.last < span.first {
            return None;
        }
        list.push(Interval {
            temp,
            first: span.first,
            last: span.last,
            spans_call: span.spans_call,
        })
        .ok()?;
        temp = temp.checked_add(1)?;
    }
    Some(Intervals::new(list))
}

fn places_of(alloc: Global, spans: &[Interval]) -> Option<Places> {
    let intervals = numbered(alloc, spans)?;
    assign(alloc, &intervals).ok()
}

fn is_slot(place: &Place) -> bool {
    match place {
        Place::Register(_) => false,
        Place::Slot(_) => true,
    }
}

pub(crate) fn is_register(place: &Place) -> bool {
    !is_slot(place)
}

#[test]
fn nineteen_at_once(rt: HostRuntime) {
    let spans = [from_to(0, 1); 19];
    let places = places_of(rt.alloc(), &spans).expect(&rt, "places");
    let places = places.as_slice();
    for register in 0..18 {
        assert!(rt; places.contains(&Place::Register(register)));
    }
    assert!(rt; places.contains(&Place::Slot(0)));
}

#[test]
fn one_after_the_other(rt: HostRuntime) {
    let spans = [from_to(0, 1), from_to(2, 3)];
    let places = places_of(rt.alloc(), &spans).expect(&rt, "places");
    assert!(rt; places.as_slice().iter().all(is_register));
}

#[test]
fn over_a_call(rt: HostRuntime) {
    let mut span = from_to(0, 2);
    span.spans_call = true;
    let places = places_of(rt.alloc(), &[span]).expect(&rt, "places");
    assert!(rt; places.as_slice() == [Place::Slot(0)].as_slice());
}

const POINTS: u32 = 200_000;

// The next of a row of numbers (Marsaglia, Xorshift RNGs).
fn xorshift(seed: u32) -> u32 {
    let a = seed ^ (seed << 13);
    let b = a ^ (a >> 17);
    b ^ (b << 5)
}

// Many intervals in no order. One in eight spans a call.
fn many(alloc: Global, count: usize) -> Result<Vec<Interval>, OutOfMemory> {
    let mut spans = Vec::new(alloc);
    let mut seed = 2_463_534_242;
    for _ in 0..count {
        seed = xorshift(seed);
        let first = seed % POINTS;
        seed = xorshift(seed);
        spans.push(Interval {
            temp: 0,
            first,
            last: (first + seed % 64).min(POINTS - 1),
            spans_call: seed >> 29 == 0,
        })?;
    }
    Ok(spans)
}

// No point lies in two intervals with this place.
fn is_apart(alloc: Global, spans: &[Interval], places: &[Place], place: Place) -> Option<bool> {
    let mut taken = vec![in alloc; false; POINTS as usize].ok()?;
    for (span, own) in spans.iter().zip(places) {
        if *own == place {
            for point in span.first..span.last.saturating_add(1) {
                let entry = taken.get_mut(point as usize)?;
                if *entry {
                    return Some(false);
                }
                *entry = true;
            }
        }
    }
    Some(true)
}

/// How many slots places take.
pub(crate) fn slot_count(places: &[Place]) -> u32 {
    let mut count = 0;
    for place in places {
        if let Place::Slot(slot) = place {
            count = count.max(slot.saturating_add(1));
        }
    }
    count
}

#[test]
fn a_hundred_thousand(rt: HostRuntime) -> Result<(), Fail> {
    let alloc = rt.alloc();
    let spans = many(alloc, 100_000)?;
    let assigned = places_of(alloc, spans.as_slice()).expect(&rt, "places");
    let places = assigned.as_slice();
    let registers = places.iter().filter(|place| is_register(place)).count();
    let slots = slot_count(places);
    for register in 0..18 {
        assert!(rt;
            is_apart(alloc, spans.as_slice(), places, Place::Register(register)) == Some(true)
        );
    }
    for slot in 0..slots {
        assert!(rt; is_apart(alloc, spans.as_slice(), places, Place::Slot(slot)) == Some(true));
    }
    let _ = println!(rt; "{registers} in registers, {slots} slots");
    Ok(())
}
