//! The text of a program that is made from a size and a seed.

ghost use Rattle.std.specs.Prelude.{◌≡◌, ◌≤◌, ◌++◌, ◌/◌, ℕ, IfOk, OnOk, decimal, flat_map};
ghost use Rattle.sc_report.specs.Made.{all_functions, made_call, made_export, function_name, made_function};
ghost use Rattle.sc_report.specs.Made.{worker_functions, made_import, made_text, made_main, next_state};
ghost use Rattle.sc_report.specs.Made.{numbers_from};
ghost use Rattle.sc_report.specs.Made.{made_proto, worker_name, worker_text, workers};
ghost use Rattle.sc_report.specs.Making.{IsDrawn, call_with, function_with, rounds_text, state_at};

use itoa::Buffer;
use sc_base::{OutOfMemory, Text};
use std::alloc::Global;

/// The text of the program with `size` functions, at least one, whose numbers are drawn from the seed.
pub fn make_text(alloc: Global, size: u32, seed: u32) -> Result<Text, OutOfMemory>
    requires { 1 ≤ size }
    ensures { IfOk result (λ text. text ≡ made_text size seed) }
{
    let mut text = Text::new(alloc);
    append_main(&mut text, size, seed)?;
    append_workers(&mut text, size, seed)?;
    Ok(text)
}

// In how many compartments the functions stand.
fn workers(size: u32) -> u32
    ensures { result ≡ workers size }
{
    size.min(31)
}

// Draws of a linear congruential generator.
#[derive(Drop)]
struct Draws {
    state: u32,
}

// What is drawn for a function: what it is called with, and what it adds to.
#[derive(Clone, Copy)]
struct Drawn {
    argument: u32,
    addend: u32,
}

impl Draws {
    fn next(&mut self) -> u32
        ensures state { self.new.state ≡ next_state self.old.state }
        ensures drawn { result ≡ next_state self.old.state / 65536 }
    {
        self.state = self
            .state
            .wrapping_mul(1_664_525)
            .wrapping_add(1_013_904_223);
        self.state / 65_536
    }

    fn next_function(&mut self) -> Drawn
        ensures { (seed j : ℕ) → self.old.state ≡ state_at seed j → IsDrawn seed j result self.new.state }
    {
        let argument = self.next();
        let addend = self.next();
        Drawn { argument, addend }
    }
}

// The section of `Main`.

fn append_main(text: &mut Text, size: u32, seed: u32) -> Result<(), OutOfMemory>
    requires { 1 ≤ size }
    ensures { OnOk result (text.new ≡ text.old ++ made_main size seed) }
{
    text.append(b"#pragma compartment Main\n")?;
    append_imports(text, size)?;
    text.append(b"#pragma import Env output\n")?;
    append_protos(text, size)?;
    text.append(b"void output(int v);\nint main(void) {\n  int r;\n")?;
    append_calls(text, size, seed)?;
    text.append(b"  return 0;\n}\n")
}

fn append_imports(text: &mut Text, size: u32) -> Result<(), OutOfMemory>
    requires { 1 ≤ size }
    ensures { OnOk result (text.new ≡ text.old ++ flat_map (made_import size) (all_functions size)) }
{
    for j in 0..size {
        append_import(text, size, j)?;
    }
    Ok(())
}

fn append_import(text: &mut Text, size: u32, j: u32) -> Result<(), OutOfMemory>
    requires { 1 ≤ size }
    ensures { OnOk result (text.new ≡ text.old ++ made_import size j) }
{
    text.append(b"#pragma import ")?;
    append_worker_name(text, j % workers(size))?;
    text.append(b" ")?;
    append_function_name(text, j)?;
    text.append(b"\n")
}

fn append_protos(text: &mut Text, size: u32) -> Result<(), OutOfMemory>
    ensures { OnOk result (text.new ≡ text.old ++ flat_map made_proto (all_functions size)) }
{
    for j in 0..size {
        append_proto(text, j)?;
    }
    Ok(())
}

fn append_proto(text: &mut Text, j: u32) -> Result<(), OutOfMemory>
    ensures { OnOk result (text.new ≡ text.old ++ made_proto j) }
{
    text.append(b"int ")?;
    append_function_name(text, j)?;
    text.append(b"(int x);\n")
}

fn append_calls(text: &mut Text, size: u32, seed: u32) -> Result<(), OutOfMemory>
    ensures { OnOk result (text.new ≡ text.old ++ flat_map (made_call seed) (all_functions size)) }
{
    let mut draws = Draws { state: seed };
    for j in 0..size {
        append_call(text, j, draws.next_function().argument)?;
    }
    Ok(())
}

fn append_call(text: &mut Text, j: u32, argument: u32) -> Result<(), OutOfMemory>
    ensures { OnOk result (text.new ≡ text.old ++ call_with j argument) }
{
    text.append(b"  r = ")?;
    append_function_name(text, j)?;
    text.append(b"(")?;
    append_decimal(text, argument)?;
    text.append(b");\n  output(r);\n")
}

// The sections of the workers.

fn append_workers(text: &mut Text, size: u32, seed: u32) -> Result<(), OutOfMemory>
    requires { 1 ≤ size }
    ensures { OnOk result (text.new ≡ text.old ++ flat_map (worker_text size seed) (numbers_from 0 (workers size))) }
{
    for worker in 0..workers(size) {
        append_worker(text, size, seed, worker)?;
    }
    Ok(())
}

fn append_worker(text: &mut Text, size: u32, seed: u32, worker: u32) -> Result<(), OutOfMemory>
    requires { 1 ≤ size }
    ensures { OnOk result (text.new ≡ text.old ++ worker_text size seed worker) }
{
    text.append(b"#pragma compartment ")?;
    append_worker_name(text, worker)?;
    text.append(b"\n")?;
    append_exports(text, size, worker)?;
    text.append(b"int t[16];\n")?;
    append_functions(text, size, seed, worker)
}

fn append_exports(text: &mut Text, size: u32, worker: u32) -> Result<(), OutOfMemory>
    requires { 1 ≤ size }
    ensures { OnOk result (text.new ≡ text.old ++ flat_map made_export (worker_functions size worker)) }
{
    for j in 0..size {
        if j % workers(size) == worker {
            append_export(text, j)?;
        }
    }
    Ok(())
}

fn append_export(text: &mut Text, j: u32) -> Result<(), OutOfMemory>
    ensures { OnOk result (text.new ≡ text.old ++ made_export j) }
{
    text.append(b"#pragma export ")?;
    append_function_name(text, j)?;
    text.append(b"\n")
}

fn append_functions(text: &mut Text, size: u32, seed: u32, worker: u32) -> Result<(), OutOfMemory>
    requires { 1 ≤ size }
    ensures { OnOk result (text.new ≡ text.old ++ flat_map (made_function seed) (worker_functions size worker)) }
{
    let mut draws = Draws { state: seed };
    for j in 0..size {
        let drawn = draws.next_function();
        if j % workers(size) == worker {
            append_function(text, j, drawn.addend)?;
        }
    }
    Ok(())
}

fn append_function(text: &mut Text, j: u32, addend: u32) -> Result<(), OutOfMemory>
    ensures { OnOk result (text.new ≡ text.old ++ function_with j addend) }
{
    text.append(b"int ")?;
    append_function_name(text, j)?;
    text.append(b"(int x) {\n  int i;\n  int s;\n  s = ")?;
    append_decimal(text, addend)?;
    append_rounds(text)
}

// The rest of a function: a loop of 64 rounds over an array of 16 elements.
fn append_rounds(text: &mut Text) -> Result<(), OutOfMemory>
    ensures { OnOk result (text.new ≡ text.old ++ rounds_text) }
{
    text.append(
        b";\n  for (i = 0; i < 64; i++) {\n    t[i & 15] = x + i;\n    s = s + t[i & 15];\n  }\n  return s;\n}\n",
    )
}

// Names.

fn append_worker_name(text: &mut Text, worker: u32) -> Result<(), OutOfMemory>
    ensures { OnOk result (text.new ≡ text.old ++ worker_name worker) }
{
    text.append(b"W")?;
    append_decimal(text, worker)
}

fn append_function_name(text: &mut Text, j: u32) -> Result<(), OutOfMemory>
    ensures { OnOk result (text.new ≡ text.old ++ function_name j) }
{
    text.append(b"f")?;
    append_decimal(text, j)
}

fn append_decimal(text: &mut Text, number: u32) -> Result<(), OutOfMemory>
    ensures { OnOk result (text.new ≡ text.old ++ decimal number) }
{
    let mut buffer = Buffer::new();
    text.append(buffer.format(number).as_bytes())
}
