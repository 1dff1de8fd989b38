ghost use Rattle.sc_top.specs.Prelude.{Exec, IsOutput, IsOutputCause};
ghost use Rattle.std.specs.Prelude.{◌≡◌, ℕ, Some, IfOk, IfErr};

use crate::failure::Failure;
use crate::machine::machine_text;
use sc_base::Text;
use sc_image::{image_interfaces, read_image, traces_are_legal};
use sc_top_words::RunOptions;
use std::alloc::Global;

/// The machine's trace on the image that the bytes are.
pub(crate) fn execute(alloc: Global, options: &RunOptions, bytes: &[u8]) -> Result<Text, Failure>
    ensures ok { IfOk result (IsOutput (Exec options.now) bytes.now) }
    ensures cause { IfErr result (IsOutputCause (Exec options.now) bytes.now) }
{
    let image = read_image(alloc, bytes)?;
    // Every image is well formed, so that its traces are legal.
    let _parts = image.parts();
    traces_are_legal();
    let names = image_interfaces(alloc, &image)?;
    Ok(machine_text(alloc, &names, options, image)?)
}
