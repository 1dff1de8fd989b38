//! Whether two parts of images are the same.

ghost use Rattle.sc_image.specs.Prelude.{is_same_export, is_same_flag, is_same_import, is_same_inside};
ghost use Rattle.sc_image.specs.Prelude.{is_same_outside};
ghost use Rattle.std.specs.Cmp.Lexicographic.{pointwise};
ghost use Rattle.std.specs.Prelude.{◌≡◌};

use crate::{CompPart, ExportPart, ImportPart};

/// Whether the other compartments see the same of two compartments.
pub(crate) fn is_same_outside(a: &CompPart, b: &CompPart) -> bool
    ensures { result ≡ is_same_outside a.now b.now }
{
    a.name.as_bytes() == b.name.as_bytes()
        && is_same_flag(a.input, b.input)
        && is_same_flag(a.output, b.output)
        && are_same_exports(a.exports.as_slice(), b.exports.as_slice())
        && are_same_imports(a.imports.as_slice(), b.imports.as_slice())
}

/// Whether two compartments have the same heap or none, the same code and the same globals.
pub(crate) fn is_same_inside(a: &CompPart, b: &CompPart) -> bool
    ensures { result ≡ is_same_inside a.now b.now }
{
    is_same_flag(a.heap, b.heap)
        && a.code.as_slice() == b.code.as_slice()
        && a.globals.as_bytes() == b.globals.as_bytes()
}

/// Whether two flags are the same.
pub fn is_same_flag(a: bool, b: bool) -> bool
    ensures { result ≡ is_same_flag a b }
{
    if a { b } else { !b }
}

#[tactic(auto, using(crate::proofs::Alike::places))]
fn are_same_exports(exports: &[ExportPart], others: &[ExportPart]) -> bool
    ensures { result ≡ pointwise is_same_export exports.now others.now }
{
    if exports.len() != others.len() {
        return false;
    }
    for i in 0..exports.len() {
        if !is_same_export(&exports[i], &others[i]) {
            return false;
        }
    }
    true
}

fn is_same_export(a: &ExportPart, b: &ExportPart) -> bool
    ensures { result ≡ is_same_export a.now b.now }
{
    a.name.as_bytes() == b.name.as_bytes()
        && a.params == b.params
        && is_same_flag(a.result, b.result)
        && a.entry == b.entry
}

/// Whether two lists have the same imports in the same order.
#[tactic(auto, using(crate::proofs::Alike::places))]
pub fn are_same_imports(imports: &[ImportPart], others: &[ImportPart]) -> bool
    ensures { result ≡ pointwise is_same_import imports.now others.now }
{
    if imports.len() != others.len() {
        return false;
    }
    for i in 0..imports.len() {
        if !is_same_import(imports[i], others[i]) {
            return false;
        }
    }
    true
}

fn is_same_import(a: ImportPart, b: ImportPart) -> bool
    ensures { result ≡ is_same_import a b }
{
    a.comp.number() == b.comp.number() && a.index == b.index
}
