ghost use Rattle.sc_object.specs.Prelude.{FaceFits, IsObject, face_bytes, face_export_bytes, face_exports_bytes};
ghost use Rattle.sc_object.specs.Prelude.{face_flags, object_bytes};
ghost use Rattle.std.specs.Prelude.{◌≡◌, ◌^◌, ◌<◌, ◌++◌, length, flat_map, All, IfOk, OnOk};

use crate::reading::VERSION;
use crate::{Face, FaceExport, Object};
use sc_base::{OutOfMemory, Text};
use sc_fields::{append_code, append_globals, append_imports, append_name, append_u16, append_u32};
use std::alloc::Global;

/// The bytes of the object.
pub fn write_object(alloc: Global, object: &Object) -> Result<Text, OutOfMemory>
    ensures { IfOk result (λ text. text ≡ object_bytes object.now) }
{
    let parts = object.parts();
    let faces = parts.faces.as_slice();
    let mut text = Text::new(alloc);
    text.append(b"SCOB")?;
    append_u16(&mut text, VERSION)?;
    text.push(faces.len() as u8)?;
    text.push(parts.main.number())?;
    text.push(parts.own.number())?;
    append_faces(&mut text, faces)?;
    text.push(u8::from(parts.heap))?;
    append_code(&mut text, parts.code.as_slice())?;
    append_u32(&mut text, parts.main_at)?;
    append_globals(&mut text, parts.globals.as_bytes())?;
    Ok(text)
}

fn append_faces(text: &mut Text, faces: &[Face]) -> Result<(), OutOfMemory>
    requires { All FaceFits faces.now }
    ensures { OnOk result (text.new ≡ text.old ++ flat_map face_bytes faces.now) }
{
    for face in faces {
        append_face(text, face)?;
    }
    Ok(())
}

fn append_face(text: &mut Text, face: &Face) -> Result<(), OutOfMemory>
    requires { FaceFits face.now }
    ensures { OnOk result (text.new ≡ text.old ++ face_bytes face.now) }
{
    append_name(text, &face.name)?;
    text.push(flags(face))?;
    append_exports(text, face.exports.as_slice())?;
    append_imports(text, face.imports.as_slice())
}

fn flags(face: &Face) -> u8
    ensures { result ≡ face_flags face.now }
{
    u8::from(face.input) + 2 * u8::from(face.output)
}

fn append_exports(text: &mut Text, exports: &[FaceExport]) -> Result<(), OutOfMemory>
    requires { length exports.now < 2 ^ 16 }
    ensures { OnOk result (text.new ≡ text.old ++ face_exports_bytes exports.now) }
{
    append_u16(text, exports.len() as u16)?;
    for export in exports {
        append_export(text, export)?;
    }
    Ok(())
}

fn append_export(text: &mut Text, export: &FaceExport) -> Result<(), OutOfMemory>
    ensures { OnOk result (text.new ≡ text.old ++ face_export_bytes export.now) }
{
    append_name(text, &export.name)?;
    text.push(export.params)?;
    text.push(u8::from(export.result))
}
