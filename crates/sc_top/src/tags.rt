ghost use Rattle.sc_tags.specs.Prelude.{IsWithinAddresses};
ghost use Rattle.sc_top.specs.Prelude.{IsKnown, IsOutput, IsOutputCause, Tags, ranges_of, tag_run, tag_text};
ghost use Rattle.std.specs.Prelude.{◌≡◌, All, IfErr, IfOk};

use crate::failure::Failure;
use sc_base::{OutOfMemory, Text};
use sc_event::Interfaces;
use sc_image::{Image, image_interfaces, read_image};
use sc_store::PagedStore;
use sc_tags::{ByteTag, TagLoadFault, TagMachine, TagRange, tag_traces_are_known};
use sc_top_words::{DataRange, RunOptions};
use sqlite_items::Items;
use std::alloc::Global;

/// The trace of the machine with tags on the image that the bytes are.
pub(crate) fn tags(
    alloc: Global,
    options: &RunOptions,
    range: Option<DataRange>,
    bytes: &[u8],
) -> Result<Text, Failure>
    requires { All IsWithinAddresses (ranges_of range) }
    ensures ok { IfOk result (IsOutput (Tags options.now range) bytes.now) }
    ensures cause { IfErr result (IsOutputCause (Tags options.now range) bytes.now) }
{
    let image = read_image(alloc, bytes)?;
    // Every image is well formed, so that the events of its runs are known.
    let _parts = image.parts();
    tag_traces_are_known();
    let names = image_interfaces(alloc, &image)?;
    Ok(tag_text(alloc, &names, options, range, image)?)
}

fn tag_text(
    alloc: Global,
    names: &Interfaces,
    options: &RunOptions,
    range: Option<DataRange>,
    image: Image,
) -> Result<Text, OutOfMemory>
    requires within { All IsWithinAddresses (ranges_of range) }
    requires known { All (IsKnown names.now) (tag_run options.now range image).state.core.trace }
    ensures { IfOk result (λ text. text ≡ tag_text names.now options.now range image) }
{
    let ranges = ranges_of(alloc, range)?;
    let inputs = options.inputs.as_slice();
    let mut machine = TagMachine::<PagedStore>::load(
        alloc,
        image,
        ranges.as_slice(),
        inputs,
        options.events,
    ).map_err(|TagLoadFault::OutOfMemory(_)| OutOfMemory)?;
    let stop = machine.run(options.steps);
    sc_report::run_text(alloc, names, machine.trace(), stop)
}

// The range of the option, if it is given.
fn ranges_of(alloc: Global, range: Option<DataRange>) -> Result<Items<TagRange>, OutOfMemory>
    ensures { IfOk result (λ ranges. ranges ≡ ranges_of range) }
{
    let mut ranges = Items::new(alloc);
    match range {
        None => Ok(ranges),
        Some(range) => {
            ranges.push(TagRange {
                start: range.start,
                bytes: range.bytes,
                tag: ByteTag::Data(range.comp),
            })?;
            Ok(ranges)
        }
    }
}
