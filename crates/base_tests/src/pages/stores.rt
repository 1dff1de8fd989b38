// The calls of a store that keeps pages.

ghost use Rattle.sc_store.specs.Prelude.{HasBytes};
ghost use Rattle.std.specs.Prelude.{IsTrue};

use sc_store::{OutOfMemory, PagedStore, Region, Store};
use std::alloc::Global;
use std::process::Abort;

#[derive(Clone, Copy)]
pub(crate) enum Step {
    Load8,
    Load16,
    Load32,
    Store8(u32),
    Store16(u32),
    Store32(u32),
}

fn has_all<S: Store>(store: &S, at: u32, size: u32) -> bool
    ensures { IsTrue result → HasBytes (S.bytes store.now) at size }
{
    for k in 0..size {
        if at > u32::MAX - k || !store.has(at + k) {
            return false;
        }
    }
    true
}

// What a load gives, and 0 for a store, or nothing where the store lacks a byte of the access.
pub(crate) fn take<S: Store>(store: &mut S, step: Step, at: u32) -> Option<u32> {
    match step {
        Step::Load8 if has_all(store, at, 1) => Some(store.load8(at)),
        Step::Load16 if has_all(store, at, 2) => Some(store.load16(at)),
        Step::Load32 if has_all(store, at, 4) => Some(store.load32(at)),
        Step::Store8(value) if has_all(store, at, 1) => {
            store.store8(at, value);
            Some(0)
        }
        Step::Store16(value) if has_all(store, at, 2) => {
            store.store16(at, value);
            Some(0)
        }
        Step::Store32(value) if has_all(store, at, 4) => {
            store.store32(at, value);
            Some(0)
        }
        _ => None,
    }
}

// Two regions that touch, the first of which is longer than 16 pages by 2 bytes. The one of this address is in focus.
fn exercise<S: Store>(rt: &impl Abort, alloc: Global, focus: u32) -> Result<(), OutOfMemory> {
    let regions = [(0x1000, 65_538), (0x1_1002, 6)];
    let regions = regions.map(|(start, bytes)| Region { start, bytes });
    let mut store = S::zeroed(alloc, &regions)?;
    store.focus(focus);
    for (step, at, want) in STEPS {
        assert_eq!(rt; take(&mut store, step, at), want, "at {at}");
    }
    Ok(())
}

// No region, and each of both.
const FOCUSES: [u32; 3] = [0x0fff, 0x1_1001, 0x1_1002];

const STEPS: [(Step, u32, Option<u32>); 20] = [
    (Step::Load32, 0x1000, Some(0)),
    (Step::Load8, 0x0fff, None),
    // a zero where no page is taken yet
    (Step::Store32(0), 0x1000, Some(0)),
    (Step::Load32, 0x1000, Some(0)),
    // the last word of one page and the first of the next
    (Step::Store32(0x8765_4321), 0x1ffc, Some(0)),
    (Step::Store32(0x0fed_cba9), 0x2000, Some(0)),
    (Step::Load32, 0x1ffc, Some(0x8765_4321)),
    (Step::Load32, 0x2000, Some(0x0fed_cba9)),
    (Step::Load32, 0x1ffe, Some(0xcba9_8765)),
    (Step::Load32, 0x2ffc, Some(0)),
    // over the border of two pages
    (Step::Store32(0xaabb_ccdd), 0x2fff, Some(0)),
    (Step::Load8, 0x2fff, Some(0xdd)),
    (Step::Load16, 0x3000, Some(0xbbcc)),
    (Step::Load32, 0x2fff, Some(0xaabb_ccdd)),
    // over the border of two regions
    (Step::Store32(0x1122_3344), 0x1_1000, Some(0)),
    (Step::Load16, 0x1_1002, Some(0x1122)),
    (Step::Load16, 0x1_1001, Some(0x2233)),
    (Step::Store16(1), 0x1_1007, None),
    (Step::Load8, 0x1_1007, Some(0)),
    (Step::Load8, 0x1_1008, None),
];

#[test]
fn pages(rt: HostRuntime) -> Result<(), OutOfMemory> {
    for focus in FOCUSES {
        exercise::<PagedStore>(&rt, rt.alloc(), focus)?;
    }
    Ok(())
}

// One region that ends 2 bytes into its last page.
#[test]
fn last_page(rt: HostRuntime) -> Result<(), OutOfMemory> {
    let region = Region {
        start: 0x1000,
        bytes: 65_538,
    };
    let store = PagedStore::zeroed(rt.alloc(), &[region])?;
    assert!(rt; store.has(0x1000 + 65_537));
    assert!(rt; !store.has(0x1000 + 65_538));
    Ok(())
}

// What one region has stays when another comes into focus.
#[test]
fn focus_moves(rt: HostRuntime) -> Result<(), OutOfMemory> {
    let regions = [(0x1000, 4096), (0x8000, 4096)];
    let regions = regions.map(|(start, bytes)| Region { start, bytes });
    let mut store = PagedStore::zeroed(rt.alloc(), &regions)?;
    let steps = [
        (Step::Store32(7), 0x1010),
        (Step::Store32(9), 0x8010),
        (Step::Load32, 0x1010),
        (Step::Load32, 0x8010),
        (Step::Load32, 0x8010),
    ];
    let mut given = [None; 5];
    for (k, (step, at)) in steps.iter().enumerate() {
        store.focus(at ^ 0x9000);
        given[k] = take(&mut store, *step, *at);
        store.focus(*at);
    }
    assert_eq!(rt; given, [Some(0), Some(0), Some(7), Some(9), Some(9)]);
    Ok(())
}
