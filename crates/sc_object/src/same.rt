//! Whether two objects say the same of the program.

ghost use Rattle.sc_object.specs.Prelude.{is_same_export, is_same_face, is_same_program};
ghost use Rattle.std.specs.Prelude.{◌≡◌};
ghost use Rattle.std.specs.Cmp.Lexicographic.{pointwise};

use crate::{Face, FaceExport, ObjectParts};
use sc_image::{are_same_imports, is_same_flag};

/// Whether two objects have the same main compartment and the same faces.
pub(crate) fn is_same_program(a: &ObjectParts, b: &ObjectParts) -> bool
    ensures { result ≡ is_same_program a.now b.now }
{
    a.main.number() == b.main.number() && are_same_faces(a.faces.as_slice(), b.faces.as_slice())
}

#[tactic(auto, using(sc_image::proofs::Alike::places))]
fn are_same_faces(faces: &[Face], others: &[Face]) -> bool
    ensures { result ≡ pointwise is_same_face faces.now others.now }
{
    if faces.len() != others.len() {
        return false;
    }
    for i in 0..faces.len() {
        if !is_same_face(&faces[i], &others[i]) {
            return false;
        }
    }
    true
}

fn is_same_face(a: &Face, b: &Face) -> bool
    ensures { result ≡ is_same_face a.now b.now }
{
    a.name.as_bytes() == b.name.as_bytes()
        && is_same_flag(a.input, b.input)
        && is_same_flag(a.output, b.output)
        && are_same_exports(a.exports.as_slice(), b.exports.as_slice())
        && are_same_imports(a.imports.as_slice(), b.imports.as_slice())
}

#[tactic(auto, using(sc_image::proofs::Alike::places))]
fn are_same_exports(exports: &[FaceExport], others: &[FaceExport]) -> bool
    ensures { result ≡ pointwise is_same_export exports.now others.now }
{
    if exports.len() != others.len() {
        return false;
    }
    for i in 0..exports.len() {
        if !is_same_export(&exports[i], &others[i]) {
            return false;
        }
    }
    true
}

fn is_same_export(a: &FaceExport, b: &FaceExport) -> bool
    ensures { result ≡ is_same_export a.now b.now }
{
    a.name.as_bytes() == b.name.as_bytes()
        && a.params == b.params
        && is_same_flag(a.result, b.result)
}
