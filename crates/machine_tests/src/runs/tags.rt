use super::machines::{CALL, SEVEN, STACK_TOP, START, pair, second, single, trap};
use super::tagged::Tagged;
use sc_base::Stop::{self, Ended, StepsOut};
use sc_base::TrapReason;
use sc_event::{CompId, Entry, Event};
use sc_gate::CrossEntry;
use sc_tags::{ByteTag, TagRange};
use std::alloc::Global;
use std::test::Fail;

fn range(start: u32, bytes: u32, tag: ByteTag) -> TagRange {
    TagRange { start, bytes, tag }
}

fn code() -> ByteTag {
    ByteTag::Code(CompId::first())
}

fn data() -> ByteTag {
    ByteTag::Data(CompId::first())
}

// Whether the program that outputs 7 comes to this with these ranges, in two runs.
fn comes_to(alloc: Global, ranges: &[TagRange], stop: Stop, events: usize) -> Result<bool, Fail> {
    let comp = CompId::first();
    let all = [Event::Out { comp, value: 7 }, Event::End { comp, value: 0 }];
    let image = single(alloc, true, &SEVEN, &[])?;
    let mut machine = Tagged::load(alloc, image, ranges)?;
    let first = machine.run(2);
    let last = machine.run(100);
    let trace = machine.trace();
    Ok(
        first == StepsOut
            && last == stop
            && trace.len() == events
            && all.starts_with(trace)
            && machine.level() == 0
            && machine.capability(0).is_none(),
    )
}

// Without ranges code and data are as in the machine with regions. The third word as data is met after two steps.
#[test]
fn runs_what_is_tagged_as_code(rt: HostRuntime) -> Result<(), Fail> {
    let alloc = rt.alloc();
    let met = trap(TrapReason::BadJump, 8);
    assert!(rt; comes_to(alloc, &[], Ended, 2)?);
    assert!(rt; comes_to(alloc, &[range(START + 8, 4, data())], met, 0)?);
    assert!(rt; comes_to(alloc, &[range(START + 11, 1, data())], met, 0)?);
    assert!(rt; comes_to(alloc, &[range(START + 20, 4, data())], Ended, 2)?);
    assert!(rt; comes_to(alloc, &[range(START + 8, 0, data())], Ended, 2)?);
    let both = [range(START + 8, 4, data()), range(START, 64, code())];
    assert!(rt; comes_to(alloc, &both, Ended, 2)?);
    Ok(())
}

const CODE: [u32; 5] = [START, START + 6, START + 19, STACK_TOP, STACK_TOP + 1];

const DATA: [u32; 2] = [START + 4, STACK_TOP - 1];

const UNOWNED: [u32; 5] = [START - 1, START + 5, START + 20, STACK_TOP + 2, u32::MAX];

#[test]
fn tags_by_owner_and_the_last_range(rt: HostRuntime) -> Result<(), Fail> {
    let image = single(rt.alloc(), true, &SEVEN, &[1, 2])?;
    let ranges = [
        range(START + 4, 2, data()),
        range(STACK_TOP, 9, code()),
        range(START + 5, 1, ByteTag::Unowned),
    ];
    let machine = Tagged::load(rt.alloc(), image, &ranges)?;
    assert!(rt; CODE.iter().all(|at| machine.tag(*at) == code()));
    assert!(rt; DATA.iter().all(|at| machine.tag(*at) == data()));
    assert!(rt;
        UNOWNED
            .iter()
            .all(|at| machine.tag(*at) == ByteTag::Unowned)
    );
    Ok(())
}

// Whether a machine, after two steps, has one capability, which is that of the call.
fn has_the_capability(machine: &mut Tagged) -> bool {
    let call = CrossEntry {
        caller: CompId::first(),
        pc: START + 8,
        sp: STACK_TOP,
        callee: second(),
        entry: Entry::Export(0),
        saved: STACK_TOP + 0x10_0000,
    };
    machine.run(2) == StepsOut
        && machine.level() == 1
        && machine.capability(1).is_none()
        && machine.capability(0) == Some(call)
}

// Whether it has none after one more step.
fn has_consumed_it(machine: &mut Tagged) -> bool {
    machine.run(1) == StepsOut && machine.level() == 0 && machine.capability(0).is_none()
}

// A call makes a capability of level 0, and its return consumes it.
#[test]
fn has_a_capability_below_its_level(rt: HostRuntime) -> Result<(), Fail> {
    let image = pair(rt.alloc(), true, &CALL)?;
    let mut machine = Tagged::load(rt.alloc(), image, &[])?;
    assert!(rt; has_the_capability(&mut machine));
    assert!(rt; has_consumed_it(&mut machine));
    assert!(rt; machine.run(9) == trap(TrapReason::BadCall, 8));
    Ok(())
}

// Whether a retagged entry takes the call, and stops so.
fn enters_it(alloc: Global, stop: Stop) -> Result<bool, Fail> {
    let ranges = [range(0x0110_0000, 4, ByteTag::Data(second()))];
    let mut machine = Tagged::load(alloc, pair(alloc, true, &CALL)?, &ranges)?;
    Ok(machine.run(9) == stop && machine.level() == 1 && machine.trace().len() == 1)
}

// A retagged entry still takes the call, and its compartment traps at the first fetch.
#[test]
fn calls_a_retagged_entry(rt: HostRuntime) -> Result<(), Fail> {
    let stop = Stop::Trap {
        reason: TrapReason::BadJump,
        pc: 0x0110_0000,
    };
    assert!(rt; enters_it(rt.alloc(), stop)?);
    Ok(())
}
