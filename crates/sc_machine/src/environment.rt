//! Calls of the environment.
#![tactic(auto, unfolding(sc_image::specs::Step::execute_by))]

ghost use Rattle.sc_machine.specs.Prelude.{Goes, IsReady, LeavesSound, ByteMemory, StaysSound, environment_call};
ghost use Rattle.sc_machine.specs.Prelude.{input_at, may_input, may_output, next, on_input, on_output};
ghost use Rattle.sc_machine.specs.Prelude.{outcome_of, state_in};
ghost use Rattle.sc_machine.specs.Prelude.{word_of};
ghost use Rattle.std.specs.Prelude.{◌≡◌, ◌+◌, ◌^◌, ◌<◌, map, OnErr};

use crate::hart::Hart;
use crate::heap::{alloc, free};
use crate::here::Here;
use sc_base::TrapReason;
use sc_event::Event;
use sc_image::layout::{A0, A7, ALLOC, FREE, INPUT, OUTPUT};

#[inline(never)]
pub fn environment_call(here: &Here<'_>, inputs: &[i32], hart: &mut Hart) -> Result<(), TrapReason>
    requires pc { hart.old.core.pc + 4 < 2 ^ 32 }
    requires ready { IsReady here.now hart.old }
    ensures outcome { (memory : ByteMemory) → outcome_of result (state_in memory hart.new) ≡
        environment_call here.now.image (map word_of inputs.now) (state_in memory hart.old) }
    ensures leaves { LeavesSound here.now.image result hart.old hart.new }
{
    match hart.core.registers[A7] {
        INPUT if may_input(here) => {
            input(here, inputs, hart);
            Ok(())
        }
        OUTPUT if may_output(here) => {
            output(here, hart);
            Ok(())
        }
        INPUT | OUTPUT => Err(TrapReason::NoImport),
        _ if !here.has_zone() => Err(TrapReason::BadCall),
        ALLOC => {
            alloc(here, hart);
            Ok(())
        }
        FREE => free(here, hart),
        _ => Err(TrapReason::BadCall),
    }
}

/// Emits a0.
fn output(here: &Here<'_>, hart: &mut Hart)
    requires pc { hart.old.core.pc + 4 < 2 ^ 32 }
    requires ready { IsReady here.now hart.old }
    ensures state { (memory : ByteMemory) → Goes (state_in memory hart.new) ≡
        next (on_output (state_in memory hart.old)) }
    ensures stays { StaysSound here.now.image hart.old hart.new }
{
    hart.emit(Event::Out {
        comp: here.comp(),
        value: hart.core.registers[A0],
    });
    hart.core.advance();
}

/// The input of that number as a word, and 0 after the last.
fn input_at(inputs: &[i32], number: usize) -> u32
    ensures { result ≡ input_at (map word_of inputs.now) number }
{
    match inputs.get(number) {
        Some(input) => input.cast_unsigned(),
        None => 0,
    }
}

/// Puts the next input into a0, and emits it.
fn input(here: &Here<'_>, inputs: &[i32], hart: &mut Hart)
    requires pc { hart.old.core.pc + 4 < 2 ^ 32 }
    requires ready { IsReady here.now hart.old }
    ensures state { (memory : ByteMemory) → Goes (state_in memory hart.new) ≡
        next (on_input (map word_of inputs.now) (state_in memory hart.old)) }
    ensures stays { StaysSound here.now.image hart.old hart.new }
{
    let word = input_at(inputs, hart.input);
    hart.core.registers[A0] = word;
    hart.input += 1;
    hart.emit(Event::In {
        comp: here.comp(),
        value: word,
    });
    hart.core.advance();
}

/// Whether the compartment may read inputs.
fn may_input(here: &Here<'_>) -> bool
    ensures { result ≡ may_input here.now.image here.now.comp }
{
    match here
        .image()
        .parts()
        .comps
        .get(here.comp().number() as usize)
    {
        Some(part) => part.input,
        None => false,
    }
}

/// Whether the compartment may output.
fn may_output(here: &Here<'_>) -> bool
    ensures { result ≡ may_output here.now.image here.now.comp }
{
    match here
        .image()
        .parts()
        .comps
        .get(here.comp().number() as usize)
    {
        Some(part) => part.output,
        None => false,
    }
}
