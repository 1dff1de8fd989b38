// Loads and stores at the borders of small regions, over both stores.
use crate::pages::stores::{Step, take};
use sc_store::{FlatStore, OutOfMemory, PagedStore, Region, Store};
use std::alloc::Global;
use std::process::Abort;
use std::test::Fail;

// Two regions that touch, and one up to the last address. The one of this address is in focus.
fn exercise<S: Store>(rt: &impl Abort, alloc: Global, focus: u32) -> Result<(), OutOfMemory> {
    let regions = [(0x1000, 5), (0x1005, 6), (0xffff_fffc, 4)];
    let regions = regions.map(|(start, bytes)| Region { start, bytes });
    let mut store = S::zeroed(alloc, &regions)?;
    store.focus(focus);
    for (step, at, want) in STEPS {
        assert_eq!(rt; take(&mut store, step, at), want, "at {at}");
    }
    Ok(())
}

// No region, and each of the three.
const FOCUSES: [u32; 4] = [0x0fff, 0x1004, 0x1005, 0xffff_ffff];

const STEPS: [(Step, u32, Option<u32>); 26] = [
    (Step::Load32, 0x1000, Some(0)),
    (Step::Store32(0x8765_4321), 0x1000, Some(0)),
    (Step::Load8, 0x1000, Some(0x21)),
    (Step::Load8, 0x1003, Some(0x87)),
    (Step::Load16, 0x1002, Some(0x8765)),
    (Step::Load32, 0x1001, Some(0x0087_6543)),
    // over the border of two regions
    (Step::Store32(0xaabb_ccdd), 0x1003, Some(0)),
    (Step::Load32, 0x1003, Some(0xaabb_ccdd)),
    (Step::Load16, 0x1004, Some(0xbbcc)),
    (Step::Load8, 0x1005, Some(0xbb)),
    (Step::Load16, 0x1006, Some(0x00aa)),
    (Step::Load8, 0x1002, Some(0x65)),
    // numbers that are too large
    (Step::Store8(0x01ff), 0x1000, Some(0)),
    (Step::Load16, 0x1000, Some(0x43ff)),
    (Step::Store16(0xabcd_1234), 0x1000, Some(0)),
    (Step::Load32, 0x1000, Some(0xdd65_1234)),
    // the ends of the regions
    (Step::Load8, 0x0fff, None),
    (Step::Load8, 0x100a, Some(0)),
    (Step::Load8, 0x100b, None),
    (Step::Store16(1), 0x100a, None),
    (Step::Load32, 0x1008, None),
    (Step::Load8, 0xffff_fffb, None),
    (Step::Store32(1), 0xffff_fffc, Some(0)),
    (Step::Store8(0x80), 0xffff_ffff, Some(0)),
    (Step::Load32, 0xffff_fffc, Some(0x8000_0001)),
    (Step::Load16, 0xffff_ffff, None),
];

#[test]
fn flat(rt: HostRuntime) -> Result<(), OutOfMemory> {
    for focus in FOCUSES {
        exercise::<FlatStore>(&rt, rt.alloc(), focus)?;
    }
    Ok(())
}

#[test]
fn paged(rt: HostRuntime) -> Result<(), OutOfMemory> {
    for focus in FOCUSES {
        exercise::<PagedStore>(&rt, rt.alloc(), focus)?;
    }
    Ok(())
}

#[test]
fn message(rt: HostRuntime) -> Result<(), Fail> {
    assert!(rt; OutOfMemory.to_string(rt.alloc())?.as_str() == "out of memory");
    Ok(())
}
