//! The rules on a whole object.

ghost use Rattle.sc_object.specs.Prelude.{face_keeps, faces_keep, is_offered, keeps_rules, own_exports};
ghost use Rattle.sc_image.specs.Prelude.{are_distinct_by, is_same_name};
ghost use Rattle.std.specs.Prelude.{◌≡◌, length, map, IfOk};
ghost use Rattle.std.specs.HashSet.{IsFromIterResult};
ghost use Rattle.std.specs.List.{list_all};

use crate::{Face, FaceExport, ObjectParts};
use sc_base::Name;
use sc_image::{ImportPart, are_distinct_imports};
use std::alloc::{AllocError, Global};
use std::collections::HashSet;

/// Whether the parts keep the rules that can't be checked field by field: distinct names and imports, imports of what
/// another compartment offers, and a word of code for each of the own exports.
pub fn keeps_rules(alloc: Global, parts: &ObjectParts) -> Result<bool, AllocError>
    ensures { IfOk result (λ keeps. keeps ≡ keeps_rules parts.now) }
{
    let faces = parts.faces.as_slice();
    Ok(
        have_distinct_names(alloc, faces)?
            && faces_keep(alloc, faces)?
            && own_exports(parts) <= parts.code.len(),
    )
}

// How many functions the own compartment offers.
fn own_exports(parts: &ObjectParts) -> usize
    ensures { result ≡ own_exports parts.now }
{
    match parts.faces.get(usize::from(parts.own.number())) {
        None => 0,
        Some(face) => face.exports.len(),
    }
}

fn faces_keep(alloc: Global, faces: &[Face]) -> Result<bool, AllocError>
    ensures { IfOk result (λ keep. keep ≡ faces_keep faces.now 0 faces.now) }
{
    for (c, face) in faces.iter().enumerate() {
        if !face_keeps(alloc, faces, c, face)? {
            return Ok(false);
        }
    }
    Ok(true)
}

fn face_keeps(alloc: Global, faces: &[Face], c: usize, face: &Face) -> Result<bool, AllocError>
    ensures { IfOk result (λ keeps. keeps ≡ face_keeps faces.now c face.now) }
{
    Ok(
        have_distinct_export_names(alloc, face.exports.as_slice())?
            && are_offered(faces, c, face.imports.as_slice())
            && are_distinct_imports(alloc, face.imports.as_slice())?,
    )
}

fn are_offered(faces: &[Face], c: usize, imports: &[ImportPart]) -> bool
    ensures { result ≡ list_all (is_offered faces.now c) imports.now }
{
    imports.iter().all(|import| is_offered(faces, c, *import))
}

// Whether it is an export of another compartment.
fn is_offered(faces: &[Face], c: usize, import: ImportPart) -> bool
    ensures { result ≡ is_offered faces.now c import }
{
    let owner = usize::from(import.comp.number());
    match faces.get(owner) {
        None => false,
        Some(face) => owner != c && usize::from(import.index) < face.exports.len(),
    }
}

#[tactic(auto, using(sc_image::proofs::Keeping::names_count))]
fn have_distinct_names(alloc: Global, faces: &[Face]) -> Result<bool, AllocError>
    ensures { IfOk result (λ distinct. distinct ≡ are_distinct_by is_same_name (map (λ face. face.name) faces.now)) }
{
    let names = names_of(alloc, faces)?;
    Ok(names.len() == faces.len())
}

fn names_of(alloc: Global, faces: &[Face]) -> Result<HashSet<Name>, AllocError>
    ensures { IfOk result (IsFromIterResult is_same_name (map (λ face. face.name) faces.now)) }
{
    faces.iter().map(|face| face.name).collect(alloc)
}

#[tactic(auto, using(sc_image::proofs::Keeping::names_count))]
fn have_distinct_export_names(alloc: Global, exports: &[FaceExport]) -> Result<bool, AllocError>
    ensures { IfOk result (λ distinct. distinct ≡
        are_distinct_by is_same_name (map (λ export. export.name) exports.now)) }
{
    let names = export_names_of(alloc, exports)?;
    Ok(names.len() == exports.len())
}

fn export_names_of(alloc: Global, exports: &[FaceExport]) -> Result<HashSet<Name>, AllocError>
    ensures { IfOk result (IsFromIterResult is_same_name (map (λ export. export.name) exports.now)) }
{
    exports.iter().map(|export| export.name).collect(alloc)
}
