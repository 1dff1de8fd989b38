//! The commands that read texts.

ghost use Rattle.sc_top.specs.Prelude.{Accepts, Check, Compile, HasImage, IsCompiling, IsOutput, IsOutputCause};
ghost use Rattle.sc_top.specs.Prelude.{IsReading, IsSource, Meaning, Run, meaning_asked};
ghost use Rattle.std.specs.Prelude.{◌≡◌, IfOk, IfErr};
ghost use Rattle.sc_report.specs.Report.{meaning_text};

use crate::failure::{Failure, compile_failure};
use crate::machine::compiled_text;
use sc_base::{OutOfMemory, Text};
use sc_compile::compile;
use sc_core::Program;
use sc_core_laws::traces_are_legal;
use sc_image::{Image, write_image};
use sc_run::run_source;
use sc_top_words::{MeaningOptions, RunOptions};
use sc_types::SourceText;
use std::alloc::Global;

/// The text as an accepted one.
pub(crate) fn read_source(alloc: Global, bytes: &[u8]) -> Result<SourceText, Failure>
    ensures accepted { IfOk result (λ source. (source.bytes ≡ bytes.now) × Accepts bytes.now source.program) }
    ensures parts { IfOk result IsSource }
    ensures cause { IfErr result (IsReading bytes.now) }
{
    Ok(SourceText::read(alloc, bytes)?)
}

/// What the compartments of the text export and import.
pub(crate) fn check(alloc: Global, bytes: &[u8]) -> Result<Text, Failure>
    ensures ok { IfOk result (IsOutput Check bytes.now) }
    ensures cause { IfErr result (IsOutputCause Check bytes.now) }
{
    let source = read_source(alloc, bytes)?;
    Ok(sc_report::check_text(alloc, source.program().interfaces())?)
}

/// What the text means: its events and how it ends.
pub(crate) fn meaning(
    alloc: Global,
    options: &MeaningOptions,
    bytes: &[u8],
) -> Result<Text, Failure>
    ensures ok { IfOk result (IsOutput (Meaning options.now) bytes.now) }
    ensures cause { IfErr result (IsOutputCause (Meaning options.now) bytes.now) }
{
    let source = read_source(alloc, bytes)?;
    Ok(meaning_text(alloc, options, source.program())?)
}

fn meaning_text(
    alloc: Global,
    options: &MeaningOptions,
    program: &Program,
) -> Result<Text, OutOfMemory>
    ensures { IfOk result (λ text. text ≡ meaning_text program.now.interfaces (meaning_asked options.now program.now)) }
{
    // Every program is well typed, so that its main compartment is there, and its trace is legal.
    let _tree = program.tree();
    traces_are_legal();
    let inputs = options.inputs.as_slice();
    let run = run_source(alloc, program, inputs, options.turns, options.events)?;
    sc_report::meaning_text(alloc, program.interfaces(), &run)
}

// The image of a program.
fn compiled_image(alloc: Global, program: &Program) -> Result<Image, Failure>
    ensures image { IfOk result (HasImage program.now) }
    ensures cause { IfErr result (IsCompiling program.now) }
{
    // Every program is well typed, so that each section has a compartment.
    let _tree = program.tree();
    match compile(alloc, program) {
        Ok(image) => Ok(image),
        Err(fault) => Err(compile_failure(program.interfaces(), fault)),
    }
}

/// The image of the compiled text.
pub(crate) fn compiled(alloc: Global, bytes: &[u8]) -> Result<Text, Failure>
    ensures ok { IfOk result (IsOutput Compile bytes.now) }
    ensures cause { IfErr result (IsOutputCause Compile bytes.now) }
{
    let source = read_source(alloc, bytes)?;
    let image = compiled_image(alloc, source.program())?;
    Ok(write_image(alloc, &image)?)
}

/// The machine's trace on that image, by the names of the text.
pub(crate) fn run(alloc: Global, options: &RunOptions, bytes: &[u8]) -> Result<Text, Failure>
    ensures ok { IfOk result (IsOutput (Run options.now) bytes.now) }
    ensures cause { IfErr result (IsOutputCause (Run options.now) bytes.now) }
{
    let source = read_source(alloc, bytes)?;
    let program = source.program();
    let image = compiled_image(alloc, program)?;
    Ok(compiled_text(alloc, program, options, image)?)
}
