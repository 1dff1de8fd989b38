// Images in version 2, and compartments with a heap.
use crate::runs::images::cause;
use crate::runs::machines::{append_part, trap};
use crate::runs::plain::Plain;
use sc_base::Stop::{self, Ended};
use sc_base::{OutOfMemory, Text, TrapReason};
use sc_event::{CompId, Event};
use sc_image::{read_image, write_image};
use std::alloc::Global;
use std::test::Fail;

// Takes 2 times 1 words of the zone, outputs their address and ends: addi a0,x0,2; addi a1,x0,1; addi a7,x0,3; ecall;
// addi a7,x0,2; ecall; addi a0,x0,0; jalr x0,0(ra).
const TAKES: [u32; 8] = [
    0x00200513, 0x00100593, 0x00300893, 0x00000073, 0x00200893, 0x00000073, 0x00000513, 0x00008067,
];

// Gives back a block at 4, where there is none: addi a0,x0,4; addi a7,x0,4; ecall.
const GIVES_BACK: [u32; 3] = [0x00400513, 0x00400893, 0x00000073];

// The image, in this version, of a compartment `M` with these flags, this code and no globals.
fn image(alloc: Global, version: u8, flags: u8, code: &[u32]) -> Result<Text, OutOfMemory> {
    let mut bytes = Text::new(alloc);
    bytes.append(b"SCIM")?;
    bytes.append(&[version, 0, 1, 0, 0, 0, 0, 1])?;
    append_part(&mut bytes, (&[1, b'M', flags, 0, 0, 0, 0], code, &[]))?;
    Ok(bytes)
}

// Why a prefix of `TAKES`' image, of fewer than its 59 bytes, is no image.
fn cause_of_cut(length: usize) -> u8 {
    match length {
        0..=3 => 1,
        4 | 5 => 2,
        6 => 3,
        7..=11 => 4,
        12..=14 => 5,
        15 | 16 => 6,
        17 | 18 => 7,
        _ => 8,
    }
}

// Why it is none with 255 in the place of a byte, or 0: a word of code may be any.
fn cause_of_change(place: usize) -> u8 {
    match place {
        8..=11 => 9,
        23..=54 => 0,
        _ => cause_of_cut(place),
    }
}

// A version, flags, and why they make no image, or 0.
const VERSIONS: [(u8, u8, u8); 8] = [
    (0, 2, 2),
    (1, 3, 0),
    (1, 4, 5),
    (1, 6, 5),
    (2, 0, 0),
    (2, 7, 0),
    (2, 8, 5),
    (3, 2, 2),
];

fn cause_of_version(alloc: Global, version: u8, flags: u8) -> Result<u8, OutOfMemory> {
    let bytes = image(alloc, version, flags, &TAKES)?;
    Ok(cause(alloc, bytes.as_bytes()))
}

#[test]
fn knows_two_versions(rt: HostRuntime) -> Result<(), OutOfMemory> {
    for (version, flags, want) in VERSIONS {
        assert!(rt; cause_of_version(rt.alloc(), version, flags)? == want);
    }
    Ok(())
}

// Whether each prefix of `TAKES`' image, which has 59 bytes, is none for the cause that it should be.
fn are_causes_of_cuts(alloc: Global) -> Result<bool, OutOfMemory> {
    let text = image(alloc, 2, 6, &TAKES)?;
    let bytes = text.as_bytes();
    let right = (0..59).all(|length| match bytes.get(..length) {
        Some(part) => cause(alloc, part) == cause_of_cut(length),
        None => false,
    });
    Ok(right && bytes.len() == 59 && cause(alloc, bytes) == 0)
}

#[test]
fn gives_the_cause_of_each_cut(rt: HostRuntime) -> Result<(), OutOfMemory> {
    assert!(rt; are_causes_of_cuts(rt.alloc())?);
    Ok(())
}

// The cause with 255 in the place of a byte.
fn cause_with(alloc: Global, place: usize) -> Result<u8, Fail> {
    let bytes = image(alloc, 2, 6, &TAKES)?;
    let mut changed = bytes.as_bytes().to_vec(alloc)?;
    *changed.get_mut(place).ok_or("59 bytes")? = 0xff;
    Ok(cause(alloc, &changed))
}

#[test]
fn gives_the_cause_of_each_change(rt: HostRuntime) -> Result<(), Fail> {
    for place in 0..59 {
        assert!(rt; cause_with(rt.alloc(), place)? == cause_of_change(place));
    }
    Ok(())
}

// Whether an image in this version is written in version 2.
fn is_written(alloc: Global, version: u8, flags: u8) -> Result<bool, Fail> {
    let bytes = image(alloc, version, flags, &TAKES)?;
    let read = read_image(alloc, bytes.as_bytes())?;
    let text = write_image(alloc, &read)?;
    let want = image(alloc, 2, flags, &TAKES)?;
    Ok(text.as_bytes() == want.as_bytes())
}

#[test]
fn writes_version_two(rt: HostRuntime) -> Result<(), Fail> {
    for (version, flags) in [(1, 2), (2, 2), (2, 6)] {
        assert!(rt; is_written(rt.alloc(), version, flags)?);
    }
    Ok(())
}

// Why an image with these flags and this code stops, and how many events it emitted.
fn runs_to(alloc: Global, flags: u8, code: &[u32]) -> Result<(Stop, usize), Fail> {
    let bytes = image(alloc, 2, flags, code)?;
    let mut machine = Plain::load(alloc, read_image(alloc, bytes.as_bytes())?, &[], 9)?;
    let stop = machine.run(99);
    if begins_as_it_should(&machine) {
        Ok((stop, machine.trace().len()))
    } else {
        Err("other events")?
    }
}

// Whether the events are the first of those of `TAKES`.
fn begins_as_it_should(machine: &Plain) -> bool {
    let comp = CompId::first();
    let all = [
        Event::Out {
            comp,
            value: 268_959_744,
        },
        Event::End { comp, value: 0 },
    ];
    all.starts_with(machine.trace())
}

#[test]
fn takes_and_gives_back_words(rt: HostRuntime) -> Result<(), Fail> {
    let alloc = rt.alloc();
    assert!(rt; runs_to(alloc, 6, &TAKES)? == (Ended, 2));
    assert!(rt; runs_to(alloc, 2, &TAKES)? == (trap(TrapReason::BadCall, 12), 0));
    assert!(rt; runs_to(alloc, 6, &GIVES_BACK)? == (trap(TrapReason::BadFree, 8), 0));
    Ok(())
}
