//! Objects read from their bytes. After the first, each function takes a field, or several, from the start of the bytes
//! that are left.

ghost use Rattle.sc_object.specs.Prelude.{AreBytesOf, IsFirstBad, IsReadSo, count_at, face_at, face_exports_at};
ghost use Rattle.sc_object.specs.Prelude.{is_start, object_at, parts_at, read_face_export, start_at, version_at};
ghost use Rattle.sc_fields.specs.Prelude.{Gives, fields_at};
ghost use Rattle.sc_base.specs.Prelude.{most_compartments};
ghost use Rattle.std.specs.Prelude.{◌≡◌, ◌≤◌, ◌<◌, ◌^◌, ℕ, length, Err, IfOk, IsErrOf, OnOk};
ghost use Rattle.sc_object.specs.declared.fault.ObjectsFault.TheVariants.{Bad};

use crate::rules::keeps_rules;
use crate::{BadObject, Face, FaceExport, FaceExports, Faces, ObjectParts, Objects, ObjectsFault};
use sc_event::CompId;
use sc_fields::{
    FieldFault, code_at, comp_id_at, comp_name_at, globals_at, imports_at, mark_at, name_at, u8_at,
    u8_up_to, u16_at, u16_up_to, u32_at,
};
use sc_image::layout::{MOST_GLOBALS, STRETCH};
use sqlite_items::Items;
use std::alloc::Global;

/// Why a field of an object was not read.
type BadField = FieldFault<BadObject>;

/// The version of the format.
pub(crate) const VERSION: u16 = 1;

/// The most exports of a compartment.
const MOST_EXPORTS: u16 = 4096;

/// The most parameters of an export.
const MOST_PARAMS: u8 = 8;

/// The objects whose bytes stand one after the other, one at least; or the first that is bad, counted from 0, with the
/// cause of its first field that is missing, incomplete or bad. No bytes at all are a bad object.
pub fn read_objects(alloc: Global, bytes: &[u8]) -> Result<Objects, ObjectsFault>
    requires { length bytes.now < 2 ^ 32 }
    ensures objects { IfOk result (λ objects. AreBytesOf objects bytes.now) }
    ensures bad { (index : ℕ) (cause : BadObject) → IsErrOf result (Bad index cause) →
        IsFirstBad bytes.now index cause }
{
    let mut rest = bytes;
    let mut objects = Items::new(alloc);
    push_object(alloc, &mut objects, &mut rest)?;
    while !rest.is_empty() {
        push_object(alloc, &mut objects, &mut rest)?;
    }
    Ok(Objects::from_items(objects))
}

// Reads one object more, the next of those that were read.
fn push_object(
    alloc: Global,
    objects: &mut Items<ObjectParts>,
    rest: &mut &[u8],
) -> Result<(), ObjectsFault>
    requires { length objects.old < 2 ^ 32 }
    ensures read { OnOk result (IsReadSo objects.old rest.old.now objects.new rest.new.now) }
    ensures bad { (index : ℕ) (cause : BadObject) → IsErrOf result (Bad index cause) →
        (index ≡ length objects.old) × (object_at rest.old.now ≡ Err cause) }
{
    match object_at(alloc, rest) {
        Ok(parts) => {
            objects.push(parts)?;
            Ok(())
        }
        Err(FieldFault::Bad(cause)) => Err(ObjectsFault::Bad {
            index: objects.len() as u32,
            cause,
        }),
        Err(FieldFault::OutOfMemory) => Err(ObjectsFault::OutOfMemory),
    }
}

#[tactic(auto, unfolding(crate::specs::Reading::object_at))]
fn object_at(alloc: Global, bytes: &mut &[u8]) -> Result<ObjectParts, BadField>
    ensures { Gives (λ x. (x, bytes.new.now)) result (object_at bytes.old.now) }
{
    mark_at(BadObject::Mark, b"SCOB", bytes)?;
    version_at(bytes)?;
    let parts = parts_at(alloc, bytes)?;
    if !keeps_rules(alloc, &parts)? {
        return Err(FieldFault::Bad(BadObject::Whole));
    }
    Ok(parts)
}

fn version_at(bytes: &mut &[u8]) -> Result<u16, BadField>
    ensures { Gives (λ x. (x, bytes.new.now)) result (version_at bytes.old.now) }
{
    let version = u16_at(BadObject::Version, bytes)?;
    if version != VERSION {
        return Err(FieldFault::Bad(BadObject::Version));
    }
    Ok(version)
}

#[tactic(auto, unfolding(crate::specs::Reading::parts_at))]
fn parts_at(alloc: Global, bytes: &mut &[u8]) -> Result<ObjectParts, BadField>
    ensures { Gives (λ x. (x, bytes.new.now)) result (parts_at bytes.old.now) }
{
    let count = count_at(bytes)?;
    let main = comp_id_at(BadObject::Numbers, count, bytes)?;
    let own = comp_id_at(BadObject::Numbers, count, bytes)?;
    let faces = faces_at(alloc, count, bytes)?;
    let heap = u8_up_to(BadObject::Heap, 1, bytes)?;
    let code = code_at(alloc, BadObject::Code, STRETCH, bytes)?;
    let main_at = start_at(main.number() == own.number(), code.len(), bytes)?;
    let globals = globals_at(alloc, BadObject::Globals, MOST_GLOBALS, bytes)?;
    Ok(ObjectParts {
        main,
        own,
        faces,
        heap: heap == 1,
        code,
        main_at,
        globals,
    })
}

fn count_at(bytes: &mut &[u8]) -> Result<u8, BadField>
    ensures count { Gives (λ x. (x, bytes.new.now)) result (count_at bytes.old.now) }
    ensures within { IfOk result (λ count. count ≤ most_compartments) }
{
    let count = u8_at(BadObject::Numbers, bytes)?;
    if count < 1 || count > CompId::LIMIT {
        return Err(FieldFault::Bad(BadObject::Numbers));
    }
    Ok(count)
}

// The offset of `main`, in the object of the main compartment or not, with code of `words` words.
fn start_at(is_main: bool, words: usize, bytes: &mut &[u8]) -> Result<u32, BadField>
    ensures { Gives (λ x. (x, bytes.new.now)) result (start_at is_main words bytes.old.now) }
{
    let at = u32_at(BadObject::Start, bytes)?;
    if !is_start(is_main, words, at) {
        return Err(FieldFault::Bad(BadObject::Start));
    }
    Ok(at)
}

fn is_start(is_main: bool, words: usize, at: u32) -> bool
    ensures { result ≡ is_start is_main words at }
{
    if is_main {
        at % 4 == 0 && ((at / 4) as usize) < words
    } else {
        at == 0
    }
}

fn faces_at(alloc: Global, count: u8, bytes: &mut &[u8]) -> Result<Faces, BadField>
    requires { count ≤ most_compartments }
    ensures { Gives (λ x. (x, bytes.new.now)) result (fields_at (face_at count) count bytes.old.now) }
{
    let mut faces = Faces::new(alloc);
    for _ in 0..count {
        let face = face_at(alloc, count, bytes)?;
        faces.push(face)?;
    }
    Ok(faces)
}

#[tactic(auto, unfolding(crate::specs::Reading::face_at))]
fn face_at(alloc: Global, comps: u8, bytes: &mut &[u8]) -> Result<Face, BadField>
    requires { comps ≤ most_compartments }
    ensures { Gives (λ x. (x, bytes.new.now)) result (face_at comps bytes.old.now) }
{
    let name = comp_name_at(BadObject::Faces, bytes)?;
    let flags = u8_up_to(BadObject::Faces, 3, bytes)?;
    let exports = exports_at(alloc, bytes)?;
    let imports = imports_at(alloc, BadObject::Faces, comps, bytes)?;
    Ok(Face {
        name,
        input: flags % 2 == 1,
        output: flags / 2 == 1,
        exports,
        imports,
    })
}

#[tactic(auto, unfolding(crate::specs::Reading::face_exports_at))]
fn exports_at(alloc: Global, bytes: &mut &[u8]) -> Result<FaceExports, BadField>
    ensures { Gives (λ x. (x, bytes.new.now)) result (face_exports_at bytes.old.now) }
{
    let count = u16_up_to(BadObject::Faces, MOST_EXPORTS, bytes)?;
    several_exports(alloc, count, bytes)
}

fn several_exports(alloc: Global, count: u16, bytes: &mut &[u8]) -> Result<FaceExports, BadField>
    ensures { Gives (λ x. (x, bytes.new.now)) result (fields_at read_face_export count bytes.old.now) }
{
    let mut exports = FaceExports::new(alloc);
    for _ in 0..count {
        let export = export_at(bytes)?;
        exports.push(export)?;
    }
    Ok(exports)
}

#[tactic(auto, unfolding(crate::specs::Reading::read_face_export))]
fn export_at(bytes: &mut &[u8]) -> Result<FaceExport, BadField>
    ensures { Gives (λ x. (x, bytes.new.now)) result (read_face_export bytes.old.now) }
{
    let name = name_at(BadObject::Faces, bytes)?;
    let params = u8_up_to(BadObject::Faces, MOST_PARAMS, bytes)?;
    let result = u8_up_to(BadObject::Faces, 1, bytes)?;
    Ok(FaceExport {
        name,
        params,
        result: result == 1,
    })
}
