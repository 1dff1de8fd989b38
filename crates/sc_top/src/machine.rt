ghost use Rattle.sc_top.specs.Prelude.{IsCompiled, IsKnown, machine_run, machine_text};
ghost use Rattle.std.specs.Prelude.{◌≡◌, All, IfOk};

use sc_base::{OutOfMemory, Text};
use sc_core::Program;
use sc_event::Interfaces;
use sc_image::Image;
use sc_machine::{LoadFault, Machine};
use sc_store::PagedStore;
use sc_top_words::RunOptions;
use std::alloc::Global;

/// The machine's trace on the image, by these names, and why it stops.
pub(crate) fn machine_text(
    alloc: Global,
    names: &Interfaces,
    options: &RunOptions,
    image: Image,
) -> Result<Text, OutOfMemory>
    requires { All (IsKnown names.now) (machine_run options.now image).state.trace }
    ensures { IfOk result (λ text. text ≡ machine_text names.now options.now image) }
{
    let inputs = options.inputs.as_slice();
    let mut machine = Machine::<PagedStore>::load(alloc, image, inputs, options.events).map_err(
        |LoadFault::OutOfMemory(_)| OutOfMemory,
    )?;
    let stop = machine.run(options.steps);
    sc_report::run_text(alloc, names, machine.trace(), stop)
}

/// The machine's trace on the image of a program, by the program's names.
pub(crate) fn compiled_text(
    alloc: Global,
    program: &Program,
    options: &RunOptions,
    image: Image,
) -> Result<Text, OutOfMemory>
    requires { IsCompiled program.now image }
    ensures { IfOk result (λ text. text ≡ machine_text program.now.interfaces options.now image) }
{
    // Every program is well typed, so that its main compartment is there.
    let _tree = program.tree();
    machine_text(alloc, program.interfaces(), options, image)
}
