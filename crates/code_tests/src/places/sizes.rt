// What whole programs take, function by function, beside the bounds.
use crate::places::assignment::{is_register, slot_count};
use crate::places::frames::lay_out;
use code_texts::{PROGRAMS, lowered, repeated};
use sc_alloc::assign;
use sc_base::OutOfMemory;
use sc_live::intervals;
use sc_tac::{Tac, TacFn};
use sc_types::TextFault;
use std::alloc::Global;
use std::fmt;
use std::process::Abort;
use std::test::Fail;

/// What a function takes, and how many choices its text has.
#[derive(Clone, Copy)]
struct Taken {
    temps: u32,
    nodes: u32,
    weight: u32,
    branches: u32,
    choices: u32,
    registers: usize,
    slots: usize,
    bytes: u32,
}

impl Taken {
    fn is_within(&self) -> bool {
        self.temps <= self.nodes
            && u64::from(self.weight) < 24 * u64::from(self.nodes)
            && self.branches == self.choices
    }
}

impl fmt::Display for Taken {
    fn fmt<W: fmt::Write>(&self, f: &mut fmt::Formatter<W>) -> fmt::Result {
        let Taken {
            temps,
            nodes,
            weight,
            branches,
            choices,
            registers,
            slots,
            bytes,
        } = self;
        write!(f, "{temps} temporaries of {nodes}, weight {weight}, ")?;
        write!(f, "{branches} branches of {choices}: ")?;
        write!(f, "{registers} in registers, {slots} slots, {bytes} bytes")
    }
}

// What a function of this text takes, if its frame fits.
fn taken_by(alloc: Global, function: &TacFn, text: &[u8]) -> Result<Option<Taken>, OutOfMemory> {
    let Some(laid) = lay_out(alloc, function)? else {
        return Ok(None);
    };
    let places = laid.places.as_slice().iter();
    Ok(Some(Taken {
        temps: function.tree().temps,
        nodes: function.tree().nodes,
        weight: function.weight(),
        branches: function.branches(),
        choices: choices_of(text),
        registers: places.filter(|place| is_register(place)).count(),
        slots: laid.frame.tree().slots.len(),
        bytes: laid.frame.tree().bytes,
    }))
}

// What each function of a text takes, if all frames fit.
fn all_taken(alloc: Global, code: &Tac, text: &[u8]) -> Result<Option<Vec<Taken>>, OutOfMemory> {
    let mut rest = text;
    let mut found = Vec::new(alloc);
    for section in code.tree().sections.as_slice() {
        for function in section.functions.as_slice() {
            let (own, following) = split_function(rest);
            rest = following;
            match taken_by(alloc, function, own)? {
                None => return Ok(None),
                Some(taken) => found.push(taken)?,
            }
        }
    }
    Ok(Some(found))
}

// How often a word stands in a text.
fn count_of(text: &[u8], word: &[u8]) -> u32 {
    let mut count = 0u32;
    for at in 0..text.len() {
        if text[at..].starts_with(word) {
            count = count.wrapping_add(1);
        }
    }
    count
}

// How many statements and operators of a text choose.
fn choices_of(text: &[u8]) -> u32 {
    let mut count = 0u32;
    for word in [b"if (".as_slice(), b"for (", b"while (", b"&&", b"||"] {
        count = count.wrapping_add(count_of(text, word));
    }
    count
}

// The text up to the end of its first function, and the rest, which begins at that end.
fn split_function(text: &[u8]) -> (&[u8], &[u8]) {
    for at in 1..text.len() {
        if text[at..].starts_with(b"\n}\n") {
            return text.split_at(at);
        }
    }
    (text, b"")
}

const RETURNING: &[u8] = b"#pragma compartment Main
int main(void) {
  return ";

const OUTPUTTING: &[u8] = b"#pragma compartment Main
#pragma import Env output
void output(int v);
int main(void) {
";

const END: &[u8] = b"  return 0;
}
";

// Operators and brackets as deep as they may be, and many calls.
fn long_texts(alloc: Global) -> Result<[Vec<u8>; 4], OutOfMemory> {
    let opened = repeated(alloc, RETURNING, b"(", 1_023, b"1")?;
    Ok([
        repeated(alloc, RETURNING, b"~", 254, b"1;\n}\n")?,
        repeated(alloc, opened.as_slice(), b")", 1_023, b";\n}\n")?,
        repeated(alloc, OUTPUTTING, b"  output(1);\n", 1_023, END)?,
        repeated(alloc, OUTPUTTING, b"  output(1);\n", 1_024, END)?,
    ])
}

// A text's functions are within their bounds, and no function is left out. What each takes is printed.
fn look_at(rt: &(impl Abort + Print), alloc: Global, text: &[u8]) -> Result<(), TextFault> {
    let code = lowered(alloc, text)?;
    let all = all_taken(alloc, &code, text)?.expect(rt, "frames that fit");
    let mut branches = 0u32;
    for taken in all.as_slice() {
        let _ = println!(rt; "{taken}");
        assert!(rt; taken.is_within());
        branches = branches.wrapping_add(taken.branches);
    }
    assert_eq!(rt; branches, choices_of(text));
    Ok(())
}

#[test]
fn functions_are_within_their_bounds(rt: HostRuntime) -> Result<(), Fail> {
    for text in PROGRAMS {
        look_at(&rt, rt.alloc(), text)?;
    }
    Ok(())
}

#[test]
fn long_functions_are_within_their_bounds(rt: HostRuntime) -> Result<(), Fail> {
    for text in &long_texts(rt.alloc())? {
        look_at(&rt, rt.alloc(), text.as_slice())?;
    }
    Ok(())
}

const BEGIN: &[u8] = b"#pragma compartment M
int main(void) {
  int x = 0;
";

const RETURNED: &[u8] = b"  return x;
}
";

// What a frame of `slots` slots takes, also where it doesn't fit: the return address, the slots and the cells of
// objects.
fn frame_bytes(slots: u32, objects: &[u32]) -> u32 {
    let mut cells = slots.saturating_add(1);
    for count in objects {
        cells = cells.saturating_add(*count);
    }
    cells.saturating_mul(4)
}

// The temporaries, slots and bytes of a function, also where its frame doesn't fit.
fn size_of(alloc: Global, function: &TacFn) -> Result<(u32, u32, u32), OutOfMemory> {
    let places = assign(alloc, &intervals(alloc, function)?)?;
    let slots = slot_count(places.as_slice());
    let bytes = frame_bytes(slots, function.tree().objects.as_slice());
    Ok((function.tree().temps, slots, bytes))
}

fn all_sizes(alloc: Global, code: &Tac) -> Result<Vec<(u32, u32, u32)>, OutOfMemory> {
    let mut found = Vec::new(alloc);
    for section in code.tree().sections.as_slice() {
        for function in section.functions.as_slice() {
            found.push(size_of(alloc, function)?)?;
        }
    }
    Ok(found)
}

#[test]
fn a_hundred_thousand_temporaries(rt: HostRuntime) -> Result<(), Fail> {
    let text = repeated(rt.alloc(), BEGIN, b"  x = x + 1;\n", 25_000, RETURNED)?;
    let code = lowered(rt.alloc(), text.as_slice())?;
    let all = all_sizes(rt.alloc(), &code)?;
    assert!(rt; all.as_slice() == [(100_003, 0, 8)].as_slice());
    Ok(())
}
