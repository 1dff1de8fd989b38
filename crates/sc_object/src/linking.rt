//! Linking: the image of objects.

ghost use Rattle.sc_object.specs.Prelude.{CanBeJoined, HasOwn, IsJoinFault, IsJoined, IsObject, NamesFace};
ghost use Rattle.sc_object.specs.Prelude.{differ_from, has_number, join_as, join_fault, joined_part, joined_parts};
ghost use Rattle.sc_object.specs.Prelude.{missing_from, object_for, twice_from, with_entries};
ghost use Rattle.sc_base.specs.Prelude.{most_compartments, most_exports};
ghost use Rattle.sc_image.specs.Prelude.{stretch};
ghost use Rattle.std.specs.Prelude.{◌≡◌, ◌≤◌, ◌<◌, ◌^◌, [], All, IfErr, IfOk, None, Some, length};
ghost use Rattle.std.specs.Option.{option_copied, option_map_or};
ghost use Rattle.sc_object.specs.declared.linking.JoinFault.TheVariants.{OutOfMemory};

use crate::compiling::copied;
use crate::same::is_same_program;
use crate::{Face, FaceExport, ObjectParts, Objects};
use sc_base::{OutOfMemory, Text, Words};
use sc_event::CompId;
use sc_image::layout::{code_start, comp_id};
use sc_image::{CompPart, CompParts, ExportPart, ExportParts, Image, ImageParts};
use sqlite_items::Items;
use std::alloc::Global;
use thiserror::Error;

/// Why objects are not linked. Objects are named by their indexes, counted from 0.
#[derive(Clone, Copy, Debug, PartialEq, Eq, Error)]
pub enum JoinFault {
    /// An object says something else of the program than object 0: the main compartment, or what the compartments are
    /// to each other.
    #[error("object {second} is of another program than object 0")]
    Differ { second: u32 },
    /// An earlier object is of the same compartment.
    #[error("object {second} is of a compartment that has an object")]
    Twice { comp: CompId, second: u32 },
    /// A compartment has no object.
    #[error("a compartment has no object")]
    Missing { comp: CompId },
    #[error("out of memory")]
    OutOfMemory,
}

impl From<OutOfMemory> for JoinFault {
    ghost from_gives = { λ _ fault. fault ≡ OutOfMemory };

    fn from(_: OutOfMemory) -> JoinFault {
        JoinFault::OutOfMemory
    }
}

/// The image that the objects are joined to: of each compartment the code, the globals and the heap are those of its
/// own object.
pub fn link_objects(alloc: Global, objects: &Objects) -> Result<Image, JoinFault>
    ensures image { IfOk result (IsJoined objects.now) }
    ensures good { IfOk result (λ _. join_fault objects.now ≡ None) }
    ensures own { IfOk result (λ image. All (HasOwn image) objects.now) }
    ensures fault { IfErr result (IsJoinFault objects.now) }
    ensures named { IfErr result (NamesFace objects.now) }
{
    let list = objects.as_slice();
    let head = &list[0];
    check_program(head, list)?;
    check_once(list)?;
    check_all(list, head.faces.len())?;
    let image = joined(alloc, head, list)?;
    Ok(image)
}

// The image of objects that can be joined.
fn joined(alloc: Global, head: &ObjectParts, objects: &[ObjectParts]) -> Result<Image, OutOfMemory>
    requires { CanBeJoined head.now objects.now }
    ensures image { IfOk result (λ image. image ≡ join_as head.now objects.now) }
    ensures own { IfOk result (λ image. All (HasOwn image) objects.now) }
{
    let parts = join(alloc, head, objects)?;
    Ok(Image::new(parts))
}

// Whether all say the same of the program as the head.
fn check_program(head: &ObjectParts, objects: &[ObjectParts]) -> Result<(), JoinFault>
    requires { length objects.now < 2 ^ 32 }
    ensures none { IfOk result (λ _. differ_from head.now 0 objects.now ≡ None) }
    ensures found { IfErr result (λ fault. differ_from head.now 0 objects.now ≡ Some fault) }
{
    for (second, object) in objects.iter().enumerate() {
        if !is_same_program(head, object) {
            return Err(JoinFault::Differ {
                second: second as u32,
            });
        }
    }
    Ok(())
}

// Whether no two are of the same compartment.
fn check_once(objects: &[ObjectParts]) -> Result<(), JoinFault>
    requires { length objects.now < 2 ^ 32 }
    ensures none { IfOk result (λ _. twice_from [] 0 objects.now ≡ None) }
    ensures found { IfErr result (λ fault. twice_from [] 0 objects.now ≡ Some fault) }
{
    for (second, object) in objects.iter().enumerate() {
        if has_number(&objects[..second], object.own) {
            return Err(JoinFault::Twice {
                comp: object.own,
                second: second as u32,
            });
        }
    }
    Ok(())
}

// Whether each of `comps` compartments has an object.
fn check_all(objects: &[ObjectParts], comps: usize) -> Result<(), JoinFault>
    requires { comps ≤ most_compartments }
    ensures none { IfOk result (λ _. missing_from objects.now 0 comps ≡ None) }
    ensures found { IfErr result (λ fault. missing_from objects.now 0 comps ≡ Some fault) }
{
    for number in 0..comps {
        let comp = comp_id(number);
        if !has_number(objects, comp) {
            return Err(JoinFault::Missing { comp });
        }
    }
    Ok(())
}

// Whether an object is of the compartment.
fn has_number(objects: &[ObjectParts], comp: CompId) -> bool
    ensures { result ≡ has_number objects.now comp }
{
    objects
        .iter()
        .any(|object| object.own.number() == comp.number())
}

// The image, with the main compartment and the faces of the head.
fn join(
    alloc: Global,
    head: &ObjectParts,
    objects: &[ObjectParts],
) -> Result<ImageParts, OutOfMemory>
    requires head { IsObject head.now }
    requires each { All IsObject objects.now }
    ensures { IfOk result (λ image. image ≡ join_as head.now objects.now) }
{
    Ok(ImageParts {
        main: head.main,
        entry: code_start(head.main) + main_at(objects, head.main),
        comps: joined_parts(alloc, head.faces.as_slice(), objects)?,
    })
}

fn main_at(objects: &[ObjectParts], main: CompId) -> u32
    requires { All IsObject objects.now }
    ensures offset { result ≡ option_map_or (λ object. object.main_at) (object_for objects.now main) 0 }
    ensures low { result ≤ stretch }
{
    match object_for(objects, main) {
        None => 0,
        Some(object) => object.main_at,
    }
}

// The object of a compartment.
fn object_for(objects: &[ObjectParts], comp: CompId) -> Option<&ObjectParts>
    ensures { option_copied result ≡ object_for objects.now comp }
{
    objects
        .iter()
        .find(|object| object.own.number() == comp.number())
}

fn joined_parts(
    alloc: Global,
    faces: &[Face],
    objects: &[ObjectParts],
) -> Result<CompParts, OutOfMemory>
    requires few { length faces.now ≤ most_compartments }
    requires exports { All (λ face. length face.exports ≤ most_exports) faces.now }
    ensures { IfOk result (λ parts. parts ≡ joined_parts objects.now 0 faces.now) }
{
    let mut parts = CompParts::new(alloc);
    for number in 0..faces.len() {
        let comp = comp_id(number);
        let part = joined_part(alloc, comp, &faces[number], object_for(objects, comp))?;
        parts.push(part)?;
    }
    Ok(parts)
}

// A compartment, by its face and its object.
fn joined_part(
    alloc: Global,
    comp: CompId,
    face: &Face,
    object: Option<&ObjectParts>,
) -> Result<CompPart, OutOfMemory>
    requires { length face.now.exports ≤ most_exports }
    ensures { IfOk result (λ part. part ≡ joined_part comp face.now (option_copied object.entry)) }
{
    let (heap, code, globals) = match object {
        None => (false, Words::new(alloc), Text::new(alloc)),
        Some(object) => (
            object.heap,
            Items::from_slice(alloc, object.code.as_slice())?,
            copied(alloc, object.globals.as_bytes())?,
        ),
    };
    Ok(CompPart {
        name: face.name,
        input: face.input,
        output: face.output,
        heap,
        exports: with_entries(alloc, comp, face.exports.as_slice())?,
        imports: Items::from_slice(alloc, face.imports.as_slice())?,
        code,
        globals,
    })
}

// The exports of a compartment, each of which enters at a word of the code's start.
fn with_entries(
    alloc: Global,
    comp: CompId,
    exports: &[FaceExport],
) -> Result<ExportParts, OutOfMemory>
    requires { length exports.now ≤ most_exports }
    ensures { IfOk result (λ parts. parts ≡ with_entries comp 0 exports.now) }
{
    let mut parts = ExportParts::new(alloc);
    let mut entry = code_start(comp);
    for export in exports {
        parts.push(ExportPart {
            name: export.name,
            params: export.params,
            result: export.result,
            entry,
        })?;
        entry += 4;
    }
    Ok(parts)
}
