//! The command that links objects.

ghost use Rattle.sc_base.specs.Prelude.{most_image};
ghost use Rattle.sc_top.specs.Prelude.{IsJoining, IsOutput, IsOutputCause, Link};
ghost use Rattle.sc_object.specs.Prelude.{AreBytesOf, IsJoined, join_fault};
ghost use Rattle.std.specs.Prelude.{◌≡◌, ◌≤◌, length, None, IfErr, IfOk};

use crate::failure::{Failure, join_failure};
use sc_base::Text;
use sc_image::{Image, write_image};
use sc_object::{Objects, link_objects, read_objects};
use std::alloc::Global;

/// The image of the objects whose bytes stand one after the other. The bytes go once the objects are read, and these
/// once they are joined: of bytes, objects, image and output two are there at a time.
pub(crate) fn link(alloc: Global, bytes: Text) -> Result<Text, Failure>
    requires { length bytes ≤ most_image }
    ensures ok { IfOk result (IsOutput Link bytes) }
    ensures cause { IfErr result (IsOutputCause Link bytes) }
{
    let objects = read(alloc, bytes)?;
    let image = joined(alloc, objects)?;
    // Every image is well formed.
    let _parts = image.parts();
    Ok(write_image(alloc, &image)?)
}

// The objects, for their bytes.
fn read(alloc: Global, bytes: Text) -> Result<Objects, Failure>
    requires { length bytes ≤ most_image }
    ensures objects { IfOk result (λ objects. AreBytesOf objects bytes) }
    ensures cause { IfErr result (IsOutputCause Link bytes) }
{
    Ok(read_objects(alloc, bytes.as_bytes())?)
}

// The image, for the objects.
fn joined(alloc: Global, objects: Objects) -> Result<Image, Failure>
    ensures image { IfOk result (IsJoined objects) }
    ensures good { IfOk result (λ _. join_fault objects ≡ None) }
    ensures cause { IfErr result (IsJoining objects) }
{
    linked(alloc, &objects)
}

fn linked(alloc: Global, objects: &Objects) -> Result<Image, Failure>
    ensures image { IfOk result (IsJoined objects.now) }
    ensures good { IfOk result (λ _. join_fault objects.now ≡ None) }
    ensures cause { IfErr result (IsJoining objects.now) }
{
    match link_objects(alloc, objects) {
        Ok(image) => Ok(image),
        Err(fault) => Err(join_failure(objects, fault)),
    }
}
