//! Texts of programs, each from a seed: a chain of two to four compartments, each of which calls the next one.

ghost use Rattle.std.specs.Prelude.{◌<◌};

use sc_base::{OutOfMemory, Text};
use std::alloc::Global;

/// The first seed.
pub const FIRST: u32 = 1;

/// The turns of meanings, and the steps of the machine.
pub const STEPS: u32 = 20_000;

/// The events of runs.
pub const EVENTS: u32 = 64;

// Numbers that follow from a seed.
#[derive(Drop)]
struct Draws {
    state: u32,
}

impl Draws {
    // A number below this one.
    fn below(&mut self, limit: u32) -> u32
        requires { 0 < limit }
    {
        self.state = self
            .state
            .wrapping_mul(1_664_525)
            .wrapping_add(1_013_904_223);
        (self.state >> 16) % limit
    }
}

// The names of a compartment, and of the next one, empty where there is none.
#[derive(Clone, Copy)]
struct Place<'a> {
    name: &'a [u8],
    next: &'a [u8],
}

// A number between two texts.
fn append_number(
    text: &mut Text,
    before: &[u8],
    number: u32,
    following: &[u8],
) -> Result<(), OutOfMemory> {
    text.append(before)?;
    text.append_signed(number)?;
    text.append(following)
}

// A name between two texts.
fn append_name(
    text: &mut Text,
    before: &[u8],
    name: &[u8],
    following: &[u8],
) -> Result<(), OutOfMemory> {
    text.append(before)?;
    text.append(name)?;
    text.append(following)
}

// A statement, or none, of a function with the variables `i`, `s` and `u`.
fn append_statement(text: &mut Text, draws: &mut Draws) -> Result<(), OutOfMemory> {
    match draws.below(16) {
        0 | 1 => append_number(
            text,
            b"  for (i = 0; i < ",
            draws.below(9),
            b"; i++) {\n    s = s + i;\n  }\n",
        ),
        2 => append_number(
            text,
            b"  for (i = 0; i < ",
            draws.below(7),
            b"; i++) {\n    a[i] = s;\n  }\n",
        ),
        3 | 4 => append_number(text, b"  a[", draws.below(6), b"] = s;\n"),
        5 => append_number(text, b"  s = s + a[", draws.below(5), b"];\n"),
        6 => append_number(
            text,
            b"  if (s > ",
            draws.below(12),
            b") {\n    u = 1;\n  }\n  s = s + u;\n",
        ),
        7 => append_number(text, b"  u = ", draws.below(9), b";\n"),
        8 => append_number(
            text,
            b"  s = s + ",
            draws.below(24).wrapping_add(2_147_483_624),
            b";\n",
        ),
        9 => append_number(text, b"  s = s / ", draws.below(4), b";\n"),
        10 | 11 => text.append(b"  output(s);\n"),
        12 => text.append(b"  k = k + 1;\n  s = s + k;\n"),
        _ => Ok(()),
    }
}

fn append_statements(text: &mut Text, draws: &mut Draws, count: u32) -> Result<(), OutOfMemory> {
    for _ in 0..count {
        append_statement(text, draws)?;
    }
    Ok(())
}

// What a compartment imports and declares.
fn append_declarations(text: &mut Text, place: Place) -> Result<(), OutOfMemory> {
    if place.next.len() > 0 {
        append_name(text, b"#pragma import ", place.next, b" f")?;
        append_name(text, b"", place.next, b"\n")?;
    }
    if place.name == b"B".as_slice() {
        text.append(b"#pragma import A h\n")?;
    }
    text.append(b"#pragma import Env output\nvoid output(int v);\n")?;
    if place.next.len() > 0 {
        append_name(text, b"int f", place.next, b"(int x);\n")?;
    }
    if place.name == b"B".as_slice() {
        text.append(b"int h(int v);\n")?;
    }
    text.append(b"int a[4];\nint k;\nint b[4];\n")
}

// The variables and statements of a function, and the calls among them.
fn append_body(text: &mut Text, draws: &mut Draws, place: Place) -> Result<(), OutOfMemory> {
    text.append(b"  int i;\n  int s;\n  int u;\n")?;
    append_number(text, b"  s = ", draws.below(9), b";\n")?;
    if draws.below(2) == 0 {
        text.append(b"  u = 2;\n")?;
    }
    append_statements(text, draws, 3)?;
    if place.next.len() > 0 {
        append_name(text, b"  s = f", place.next, b"(s);\n")?;
    }
    if place.name == b"B".as_slice() && draws.below(2) == 0 {
        text.append(b"  s = h(s);\n")?;
    }
    append_statements(text, draws, 2)
}

// The section of a compartment after `Main`.
fn append_section(text: &mut Text, draws: &mut Draws, place: Place) -> Result<(), OutOfMemory> {
    append_name(text, b"#pragma compartment ", place.name, b"\n")?;
    append_name(text, b"#pragma export f", place.name, b"\n")?;
    if place.name == b"A".as_slice() {
        text.append(b"#pragma export h\n")?;
    }
    append_declarations(text, place)?;
    append_name(text, b"int f", place.name, b"(int x) {\n")?;
    append_body(text, draws, place)?;
    text.append(b"  return s;\n}\n")?;
    if place.name == b"A".as_slice() {
        text.append(b"int h(int v) {\n  k = k + v;\n  return k;\n}\n")?;
    }
    Ok(())
}

fn append_main(text: &mut Text, draws: &mut Draws) -> Result<(), OutOfMemory> {
    let place = Place {
        name: b"Main",
        next: b"A",
    };
    text.append(b"#pragma compartment Main\n")?;
    append_declarations(text, place)?;
    text.append(b"int main(void) {\n")?;
    append_body(text, draws, place)?;
    text.append(b"  output(s);\n  return 0;\n}\n")
}

// The name of the compartment that is called at this depth, empty beyond the last one.
fn name_at(depth: u32, count: u32) -> &'static [u8] {
    if depth > count {
        return b"";
    }
    match depth {
        1 => b"A",
        2 => b"B",
        3 => b"C",
        _ => b"",
    }
}

/// The text of a program.
pub fn generated(alloc: Global, seed: u32) -> Result<Text, OutOfMemory> {
    let mut draws = Draws { state: seed };
    let mut text = Text::new(alloc);
    let count = draws.below(3).wrapping_add(1);
    append_main(&mut text, &mut draws)?;
    for depth in 1..4 {
        let name = name_at(depth, count);
        if name.len() > 0 {
            let next = name_at(depth.wrapping_add(1), count);
            append_section(&mut text, &mut draws, Place { name, next })?;
        }
    }
    Ok(text)
}
