ghost use Rattle.std.specs.Prelude.{◌≡◌, ◌<◌, length, IfOk};

use super::plain::Plain;
use sc_base::Stop::{self, Ended, EventsOut, StepsOut, Trap};
use sc_base::{OutOfMemory, Text, TrapReason};
use sc_event::{Args, CompId, Event};
use sc_image::{Image, read_image};
use sc_machine::Machine;
use sc_store::FlatStore;
use std::alloc::Global;
use std::test::Fail;

pub(crate) const START: u32 = 0x01000000;

pub(crate) const STACK_TOP: u32 = 0x10010000;

// An image's compartment: its name with what it offers and may call, and its code and globals.
pub(crate) type Part<'a> = (&'a [u8], &'a [u32], &'a [u8]);

fn append_size(file: &mut Text, size: usize) -> Result<(), OutOfMemory> {
    file.append(&u32::try_from(size).unwrap_or(u32::MAX).to_le_bytes())
}

pub(crate) fn append_part(file: &mut Text, part: Part<'_>) -> Result<(), OutOfMemory> {
    let (interface, code, globals) = part;
    file.append(interface)?;
    append_size(file, code.len().saturating_mul(4))?;
    for word in code {
        file.append(&word.to_le_bytes())?;
    }
    append_size(file, globals.len())?;
    file.append(globals)
}

// The image of these compartments, the first of which is the main one.
pub(crate) fn image(alloc: Global, parts: &[Part<'_>]) -> Result<Image, Fail> {
    let mut file = Text::new(alloc);
    file.append(b"SCIM\x01\0")?;
    file.append(&[u8::try_from(parts.len()).unwrap_or(0), 0])?;
    file.append(&START.to_le_bytes())?;
    for part in parts {
        append_part(&mut file, *part)?;
    }
    Ok(read_image(alloc, file.as_bytes())?)
}

// One compartment with this code and these globals, which may read inputs and may output or not.
pub(crate) fn single(
    alloc: Global,
    output: bool,
    code: &[u32],
    globals: &[u8],
) -> Result<Image, Fail> {
    let interface: &[u8] = if output {
        b"\x01A\x03\0\0\0\0"
    } else {
        b"\x01A\x01\0\0\0\0"
    };
    image(alloc, &[(interface, code, globals)])
}

pub(crate) fn loaded(alloc: Global, image: Image) -> Result<Machine<FlatStore>, OutOfMemory>
    ensures { IfOk result (λ machine. machine.image ≡ image) }
{
    Machine::load(alloc, image, &[], 9).map_err(|_| OutOfMemory)
}

// addi a0,x0,7; addi a7,x0,2; ecall; addi a0,x0,0; jalr x0,0(x1)
pub(crate) const SEVEN: [u32; 5] = [0x00700513, 0x00200893, 0x00000073, 0x00000513, 0x00008067];

// Whether it may output, the room for events, and how many calls of how many steps.
type Calls = (bool, u32, u8, u32);

// Why it stops, how many events it emitted, how far the pc is, and a0.
type Left = (Stop, usize, u32, u32);

const NO_IMPORT: Stop = Trap {
    reason: TrapReason::NoImport,
    pc: START + 8,
};

const SEVEN_RUNS: [(Calls, Left); 11] = [
    ((true, 10, 1, 0), (StepsOut, 0, 0, 0)),
    ((true, 10, 1, 100), (Ended, 2, 16, 0)),
    ((true, 10, 4, 1), (StepsOut, 1, 16, 0)),
    ((true, 10, 5, 1), (Ended, 2, 16, 0)),
    ((true, 2, 3, 5), (Ended, 2, 16, 0)),
    ((true, 0, 2, 100), (EventsOut, 0, 0, 0)),
    ((true, 1, 2, 100), (EventsOut, 1, 12, 7)),
    ((false, 10, 1, 2), (StepsOut, 0, 8, 7)),
    ((false, 10, 1, 3), (NO_IMPORT, 0, 8, 7)),
    ((false, 10, 5, 2), (NO_IMPORT, 0, 8, 7)),
    ((false, 10, 1, 4_294_967_295), (NO_IMPORT, 0, 8, 7)),
];

// What these calls leave, and whether the events are those of the program, and all else is as before.
fn left_after(alloc: Global, calls: Calls) -> Result<(Left, bool), Fail> {
    let (output, events, number, steps) = calls;
    let image = single(alloc, output, &SEVEN, &[])?;
    let mut machine = Plain::load(alloc, image, &[], events)?;
    let mut stop = StepsOut;
    for _ in 0..number {
        stop = machine.run(steps);
    }
    let left = (
        stop,
        machine.trace().len(),
        machine.offset(),
        machine.register(10),
    );
    Ok((left, is_otherwise_as_before(&machine)))
}

// Whether a machine that runs the program emitted its first events, and the other registers that a program may change,
// and the compartment, are as at the start.
fn is_otherwise_as_before(machine: &Plain) -> bool {
    let comp = CompId::first();
    let all = [Event::Out { comp, value: 7 }, Event::End { comp, value: 0 }];
    all.starts_with(machine.trace())
        && machine.has(&[(0, 0), (1, 0x100), (2, STACK_TOP)])
        && machine.active() == comp
}

#[test]
fn outputs_and_ends(rt: HostRuntime) -> Result<(), Fail> {
    for (calls, left) in SEVEN_RUNS {
        let (found, same) = left_after(rt.alloc(), calls)?;
        assert!(rt; found == left);
        assert!(rt; same);
    }
    Ok(())
}

pub(crate) fn trap(reason: TrapReason, offset: u32) -> Stop
    requires { offset < 4096 }
{
    Trap {
        reason,
        pc: START + offset,
    }
}

const BYTES: [(u32, Option<u8>); 7] = [
    (STACK_TOP, Some(0x34)),
    (STACK_TOP + 1, Some(0x12)),
    (STACK_TOP + 2, None),
    (STACK_TOP - 1, Some(0)),
    (STACK_TOP - 0x1_0000, Some(0)),
    (STACK_TOP - 0x1_0001, None),
    (START, None),
];

// The machine with this code and these globals, after at most so many steps, if it stopped so.
fn stopped(
    alloc: Global,
    code: &[u32],
    globals: &[u8],
    steps: u32,
    stop: Stop,
) -> Result<Plain, Fail> {
    let image = single(alloc, true, code, globals)?;
    let mut machine = Plain::load(alloc, image, &[], 9)?;
    if machine.run(steps) == stop {
        Ok(machine)
    } else {
        Err("another stop")?
    }
}

// A half word is all that the compartment owns above its stack, so the load of a word there traps.
#[test]
fn owns_a_half_word(rt: HostRuntime) -> Result<(), Fail> {
    // lhu a0,0(sp); lw a0,0(sp)
    let code = [0x00015503, 0x00012503];
    let machine = stopped(
        rt.alloc(),
        &code,
        &[0x34, 0x12],
        9,
        trap(TrapReason::Owner, 4),
    )?;
    assert!(rt; machine.register(10) == 0x1234);
    assert!(rt; BYTES.iter().all(|(at, byte)| machine.byte(*at) == *byte));
    Ok(())
}

// Loads, stores, a branch and a product.
#[test]
fn loads_and_stores(rt: HostRuntime) -> Result<(), Fail> {
    // addi a0,x0,-128; sw a0,-4(sp); lb a1,-4(sp); lbu a2,-4(sp); bltu a2,a1,8; ebreak;
    // mul a0,a1,a2; sh a2,-6(sp); lh a3,-6(sp); jal x0,8; ebreak; lw a4,-8(sp); lw a5,2(sp)
    let code = [
        0xf8000513, 0xfea12e23, 0xffc10583, 0xffc14603, 0x00b66463, 0x00100073, 0x02c58533,
        0xfec11d23, 0xffa11683, 0x0080006f, 0x00100073, 0xff812703, 0x00212783,
    ];
    let machine = stopped(rt.alloc(), &code, &[], 20, trap(TrapReason::Misaligned, 48))?;
    assert!(rt; machine.has(&LOADED));
    assert!(rt; machine.byte(STACK_TOP - 4) == Some(0x80));
    assert!(rt; machine.byte(STACK_TOP - 5) == Some(0));
    Ok(())
}

const LOADED: [(u8, u32); 6] = [
    (10, 0xffffc000),
    (11, 0xffffff80),
    (12, 0x80),
    (13, 0x80),
    (14, 0x00800000),
    (15, 0),
];

// A machine with two inputs, after three steps that read both, stops after two more, where it reads 0.
fn reads_all(alloc: Global) -> Result<bool, Fail> {
    // addi a7,x0,1; ecall; ecall; ecall; ebreak
    let code = [0x00100893, 0x00000073, 0x00000073, 0x00000073, 0x00100073];
    let image = single(alloc, true, &code, &[])?;
    let mut machine = Plain::load(alloc, image, &[-5, 3], 9)?;
    let stops = (machine.run(3), machine.register(10), machine.run(9));
    let comp = CompId::first();
    let events = [0xfffffffb, 3, 0].map(|value| Event::In { comp, value });
    Ok(
        stops == (StepsOut, 3, trap(TrapReason::Breakpoint, 16))
            && machine.trace() == events.as_slice()
            && machine.register(10) == 0,
    )
}

#[test]
fn reads_inputs(rt: HostRuntime) -> Result<(), Fail> {
    assert!(rt; reads_all(rt.alloc())?);
    Ok(())
}

const REFUSED: [(u32, TrapReason); 11] = [
    (0, TrapReason::Illegal),
    // jalr x1,0(x1), which is no call; jalr x0,2(x1)
    (0x000080e7, TrapReason::BadJump),
    (0x00208067, TrapReason::Misaligned),
    // jal x1,4, past the code; jal x5,2
    (0x004000ef, TrapReason::BadJump),
    (0x002002ef, TrapReason::Misaligned),
    // lw sp,1(sp); lw sp,0(sp); sw sp,0(x0); sb sp,-1(x0)
    (0x00112103, TrapReason::Misaligned),
    (0x00012103, TrapReason::Owner),
    (0x00202023, TrapReason::Owner),
    (0xfe200fa3, TrapReason::Owner),
    // ecall, with a7 at 0; ebreak
    (0x73, TrapReason::BadCall),
    (0x00100073, TrapReason::Breakpoint),
];

// Whether a code of this word stops so, again and again, and leaves everything as it was.
fn changes_nothing(alloc: Global, word: u32, stop: Stop) -> Result<bool, Fail> {
    let mut machine = stopped(alloc, &[word], &[], 9, stop)?;
    let before = [(1, 0x100), (2, STACK_TOP), (5, 0)];
    Ok(
        machine.offset() == 0
            && machine.has(&before)
            && machine.trace().is_empty()
            && machine.run(9) == stop,
    )
}

// One instruction that can't be executed leaves everything as it was.
#[test]
fn traps_change_nothing(rt: HostRuntime) -> Result<(), Fail> {
    for (word, reason) in REFUSED {
        assert!(rt; changes_nothing(rt.alloc(), word, trap(reason, 0))?);
    }
    Ok(())
}

// The second compartment.
pub(crate) fn second() -> CompId
    ensures { result ≡ 1 }
{
    CompId::new(1).unwrap()
}

// `A`, which may call the function of `B` or not, and `B`, whose function `f` takes nothing and returns at once.
pub(crate) fn pair(alloc: Global, imported: bool, code: &[u32]) -> Result<Image, Fail>
    ensures { IfOk result (λ image. length image.comps ≡ 2) }
{
    let first: &[u8] = if imported {
        b"\x01A\0\0\0\x01\0\x01\0\0"
    } else {
        b"\x01A\0\0\0\0\0"
    };
    let second = b"\x01B\0\x01\0\x01f\0\0\0\0\x10\x01\0\0";
    let image = image(
        alloc,
        &[(first, code, &[]), (second, &[0x00008067, 0x00008067], &[])],
    )?;
    if image.parts().comps.len() == 2 {
        Ok(image)
    } else {
        Err("two compartments")?
    }
}

// lui x5,0x01100; jalr x1,4(x5): a jump past the entry of `f`
const PAST_ENTRY: [u32; 2] = [0x011002b7, 0x004280e7];

// lui x5,0x01100; jalr x1,0(x5); ecall
pub(crate) const CALL: [u32; 3] = [0x011002b7, 0x000280e7, 0x00000073];

// The machine that runs this code of `A`, which may call `f` or not.
fn paired(alloc: Global, imported: bool, code: &[u32]) -> Result<Plain, Fail> {
    let image = pair(alloc, imported, code)?;
    Ok(Plain::load(alloc, image, &[], 9)?)
}

// Whether the second instruction of this code traps so, and no event is emitted.
fn traps_at_the_jump(
    alloc: Global,
    imported: bool,
    code: &[u32],
    reason: TrapReason,
) -> Result<bool, Fail> {
    let mut machine = paired(alloc, imported, code)?;
    let stop = machine.run(9);
    Ok(stop == trap(reason, 4) && machine.trace().is_empty() && machine.has(&[(5, 0x01100000)]))
}

#[test]
fn refuses_other_jumps(rt: HostRuntime) -> Result<(), Fail> {
    let alloc = rt.alloc();
    assert!(rt; traps_at_the_jump(alloc, false, &PAST_ENTRY, TrapReason::BadJump)?);
    assert!(rt; traps_at_the_jump(alloc, true, &PAST_ENTRY, TrapReason::BadJump)?);
    assert!(rt; traps_at_the_jump(alloc, false, &CALL, TrapReason::NoImport)?);
    Ok(())
}

// Whether a machine stands at the entry of `f` after two steps.
fn stands_at_the_entry(machine: &mut Plain) -> bool {
    machine.run(2) == StepsOut
        && machine.active() == second()
        && machine.pc() == 0x01100000
        && machine.has(&[(1, 0x100), (2, STACK_TOP + 0x10_0000), (5, 0)])
}

// Whether it comes back behind the call, and traps there.
fn comes_back(machine: &mut Plain) -> bool {
    machine.run(9) == trap(TrapReason::BadCall, 8)
        && machine.active() == CompId::first()
        && machine.has(&[(1, 0), (2, STACK_TOP)])
}

#[test]
fn calls_and_returns(rt: HostRuntime) -> Result<(), Fail> {
    let (a, b) = (CompId::first(), second());
    let mut machine = paired(rt.alloc(), true, &CALL)?;
    assert!(rt; stands_at_the_entry(&mut machine));
    assert!(rt; comes_back(&mut machine));
    let events = [
        Event::Call {
            from: a,
            to: b,
            index: 0,
            args: Args::new(rt.alloc()),
        },
        Event::Ret {
            from: b,
            to: a,
            value: None,
        },
    ];
    assert!(rt; machine.trace() == events.as_slice());
    Ok(())
}

// Whether a machine gives at a call the stack that compartment 1 owns, and nothing of the others'.
fn owns_only_its_part(alloc: Global) -> Result<bool, Fail> {
    let mut machine = loaded(alloc, pair(alloc, true, &CALL)?)?;
    let stop = machine.run(2);
    let part = machine.own_part(second());
    let top = STACK_TOP + 0x10_0000;
    Ok(
        stop == StepsOut
            && part.saved_sp() == top
            && part.byte(top - 1) == Some(0)
            && part.byte(top).is_none()
            && part.byte(STACK_TOP - 1).is_none(),
    )
}

// Each compartment owns only its own stack.
#[test]
fn owns_its_part(rt: HostRuntime) -> Result<(), Fail> {
    assert!(rt; owns_only_its_part(rt.alloc())?);
    Ok(())
}

// The machine with `A` and `B`, each with its interface and its code.
fn of_two(alloc: Global, first: Part<'_>, second: Part<'_>) -> Result<Plain, Fail> {
    Ok(Plain::load(alloc, image(alloc, &[first, second])?, &[], 9)?)
}

// A function gets its arguments, its own stack and the gate, and its caller the result and its own stack. Every other
// register is 0.
#[test]
fn passes_only_numbers(rt: HostRuntime) -> Result<(), Fail> {
    // addi a0,x0,7; addi a1,x0,8; addi a2,x0,9; addi x5,x0,5; lui x6,0x01100; jalr x1,0(x6); ebreak
    let caller = [
        0x00700513, 0x00800593, 0x00900613, 0x00500293, 0x01100337, 0x000300e7, 0x00100073,
    ];
    // add a0,a0,a1; addi a1,x0,3; jalr x0,0(x1)
    let sum = [0x00b50533, 0x00300593, 0x00008067];
    let mut machine = of_two(
        rt.alloc(),
        (b"\x01A\0\0\0\x01\0\x01\0\0", &caller, &[]),
        (b"\x01B\0\x01\0\x01f\x02\x01\0\0\x10\x01\0\0", &sum, &[]),
    )?;
    assert!(rt; machine.run(6) == StepsOut);
    assert!(rt; machine.has_only(&[(1, 0x100), (2, STACK_TOP + 0x10_0000), (10, 7), (11, 8)]));
    assert!(rt; machine.run(99) == trap(TrapReason::Breakpoint, 24));
    assert!(rt; machine.has_only(&[(2, STACK_TOP), (10, 15)]));
    Ok(())
}

// A takes 16 bytes of its stack and calls g of B, which takes 16 of its own and calls h of A. h runs below the stack
// that A has in use, and gives back where that is.
#[test]
fn comes_back_below_the_stack_in_use(rt: HostRuntime) -> Result<(), Fail> {
    // addi sp,sp,-16; lui x6,0x01100; jalr x1,0(x6); ebreak; then h: addi a0,sp,0; jalr x0,0(x1)
    let first = [
        0xff010113, 0x01100337, 0x000300e7, 0x00100073, 0x00010513, 0x00008067,
    ];
    // addi sp,sp,-16; sw ra,12(sp); lui x6,0x01000; jalr x1,16(x6); lw ra,12(sp); addi sp,sp,16; jalr x0,0(x1)
    let second = [
        0xff010113, 0x00112623, 0x01000337, 0x010300e7, 0x00c12083, 0x01010113, 0x00008067,
    ];
    let mut machine = of_two(
        rt.alloc(),
        (
            b"\x01A\0\x01\0\x01h\0\x01\x10\0\0\x01\x01\0\x01\0\0",
            &first,
            &[],
        ),
        (
            b"\x01B\0\x01\0\x01g\0\x01\0\0\x10\x01\x01\0\0\0\0",
            &second,
            &[],
        ),
    )?;
    assert!(rt; machine.run(99) == trap(TrapReason::Breakpoint, 12));
    assert!(rt; machine.has_only(&[(2, STACK_TOP - 16), (10, STACK_TOP - 16)]));
    assert!(rt; machine.trace().len() == 4);
    Ok(())
}

// The way out of the main function: bit 0 of the address is cleared.
#[test]
fn ends_through_the_gate(rt: HostRuntime) -> Result<(), Fail> {
    // jalr x0,1(x1)
    let machine = stopped(rt.alloc(), &[0x00108067], &[], 9, Ended)?;
    assert!(rt; machine.pc() == START);
    Ok(())
}
