//! The object of one section of a program.

ghost use Rattle.sc_compile.specs.Prelude.{IsFault};
ghost use Rattle.sc_object.specs.Prelude.{HasEntries, IsObjectOf, face_export, face_of, object_of};
ghost use Rattle.std.specs.Prelude.{◌≡◌, ◌<◌, ◌-◌, ◌==◌, if◌then◌else◌, length, map, IfErr, IfOk};
ghost use Rattle.sc_image.specs.Prelude.{code_start};

use crate::{Face, FaceExport, FaceExports, Faces, Object, ObjectParts};
use sc_base::{OutOfMemory, Text};
use sc_compile::{CompileFault, compile};
use sc_core::Program;
use sc_event::CompId;
use sc_image::layout::code_start;
use sc_image::{CompPart, ExportPart, Image, ImageParts};
use sqlite_items::Items;
use std::alloc::Global;

/// The object of a compartment of a program.
pub fn object(alloc: Global, program: &Program, comp: CompId) -> Result<Object, CompileFault>
    requires { comp < length program.now.interfaces.comps }
    ensures object { IfOk result (IsObjectOf program.now comp) }
    ensures fault { IfErr result (IsFault program.now) }
{
    let image = compile(alloc, program)?;
    match object_in(alloc, &image, comp) {
        Ok(object) => Ok(object),
        Err(_) => Err(CompileFault::OutOfMemory),
    }
}

// The object of a compartment of an image.
fn object_in(alloc: Global, image: &Image, comp: CompId) -> Result<Object, OutOfMemory>
    requires there { comp < length image.now.comps }
    requires entries { HasEntries image.now }
    ensures { IfOk result (λ object. object ≡ object_of image.now comp) }
{
    let parts = image.parts();
    let object = object_parts(alloc, parts, comp)?;
    Ok(Object::new(object))
}

fn object_parts(alloc: Global, parts: &ImageParts, comp: CompId) -> Result<ObjectParts, OutOfMemory>
    requires { comp < length parts.now.comps }
    ensures { IfOk result (λ object. object ≡ object_of parts.now comp) }
{
    let comps = parts.comps.as_slice();
    let part = &comps[usize::from(comp.number())];
    Ok(ObjectParts {
        main: parts.main,
        own: comp,
        faces: faces_of(alloc, comps)?,
        heap: part.heap,
        code: Items::from_slice(alloc, part.code.as_slice())?,
        main_at: main_at(parts.main, parts.entry, comp),
        globals: copied(alloc, part.globals.as_bytes())?,
    })
}

// How many bytes of code stand before the entry, in the main compartment.
fn main_at(main: CompId, entry: u32, comp: CompId) -> u32
    ensures { result ≡ (if main == comp then entry - code_start comp else 0) }
{
    if main.number() == comp.number() {
        entry.saturating_sub(code_start(comp))
    } else {
        0
    }
}

/// The same bytes again.
pub(crate) fn copied(alloc: Global, bytes: &[u8]) -> Result<Text, OutOfMemory>
    ensures { IfOk result (λ text. text ≡ bytes.now) }
{
    let mut text = Text::new(alloc);
    text.append(bytes)?;
    Ok(text)
}

fn faces_of(alloc: Global, comps: &[CompPart]) -> Result<Faces, OutOfMemory>
    ensures { IfOk result (λ faces. faces ≡ map face_of comps.now) }
{
    let mut faces = Faces::new(alloc);
    for comp in comps {
        faces.push(face_of(alloc, comp)?)?;
    }
    Ok(faces)
}

fn face_of(alloc: Global, comp: &CompPart) -> Result<Face, OutOfMemory>
    ensures { IfOk result (λ face. face ≡ face_of comp.now) }
{
    let exports = exports_of(alloc, comp.exports.as_slice())?;
    let imports = Items::from_slice(alloc, comp.imports.as_slice())?;
    Ok(Face {
        name: comp.name,
        input: comp.input,
        output: comp.output,
        exports,
        imports,
    })
}

fn exports_of(alloc: Global, exports: &[ExportPart]) -> Result<FaceExports, OutOfMemory>
    ensures { IfOk result (λ faces. faces ≡ map face_export exports.now) }
{
    let mut faces = FaceExports::new(alloc);
    for export in exports {
        faces.push(FaceExport {
            name: export.name,
            params: export.params,
            result: export.result,
        })?;
    }
    Ok(faces)
}
