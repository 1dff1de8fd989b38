//! The rules on a whole image.

ghost use Rattle.sc_base.specs.Prelude.{most_compartments};
ghost use Rattle.sc_image.specs.Prelude.{are_distinct_by, code_in, comps_keep, exports_keep, imports_keep, is_entry};
ghost use Rattle.sc_image.specs.Prelude.{is_importable, is_same_import, is_same_name, keeps_rules};
ghost use Rattle.std.specs.Prelude.{◌≡◌, ◌≤◌, ◌==◌, ◌&&◌, length, map, IfOk};
ghost use Rattle.std.specs.HashSet.{IsFromIterResult};
ghost use Rattle.std.specs.List.{list_all};

use crate::layout::{CODE, STRETCH};
use crate::{CompPart, ExportPart, ImageParts, ImportPart};
use sc_base::Name;
use std::alloc::{AllocError, Global};
use std::collections::HashSet;

/// Whether the parts keep the rules that can't be checked field by field: distinct names, entries and imports, entries
/// at words of the code, and imports of what another compartment offers.
pub fn keeps_rules(alloc: Global, parts: &ImageParts) -> Result<bool, AllocError>
    requires { length parts.now.comps ≤ most_compartments }
    ensures { IfOk result (λ keeps. keeps ≡ keeps_rules parts.now) }
{
    let comps = parts.comps.as_slice();
    Ok(
        have_distinct_names(alloc, comps)?
            && is_entry(parts, parts.main.number(), parts.entry)
            && comps_keep(alloc, parts, comps)?,
    )
}

fn comps_keep(alloc: Global, parts: &ImageParts, comps: &[CompPart]) -> Result<bool, AllocError>
    requires { length comps.now ≤ most_compartments }
    ensures { IfOk result (λ keep. keep ≡ comps_keep parts.now 0 comps.now) }
{
    for (c, comp) in comps.iter().enumerate() {
        if !comp_keeps(alloc, parts, c as u8, comp)? {
            return Ok(false);
        }
    }
    Ok(true)
}

fn comp_keeps(alloc: Global, parts: &ImageParts, c: u8, comp: &CompPart) -> Result<bool, AllocError>
    ensures { IfOk result (λ keeps. keeps ≡ (exports_keep parts.now c comp.now.exports &&
        imports_keep parts.now c comp.now.imports)) }
{
    Ok(
        exports_keep(alloc, parts, c, comp.exports.as_slice())?
            && imports_keep(alloc, parts, c, comp.imports.as_slice())?,
    )
}

fn exports_keep(
    alloc: Global,
    parts: &ImageParts,
    c: u8,
    exports: &[ExportPart],
) -> Result<bool, AllocError>
    ensures { IfOk result (λ keep. keep ≡ exports_keep parts.now c exports.now) }
{
    Ok(
        are_entries(parts, c, exports)
            && have_distinct_export_names(alloc, exports)?
            && have_distinct_entries(alloc, exports)?,
    )
}

fn imports_keep(
    alloc: Global,
    parts: &ImageParts,
    c: u8,
    imports: &[ImportPart],
) -> Result<bool, AllocError>
    ensures { IfOk result (λ keep. keep ≡ imports_keep parts.now c imports.now) }
{
    Ok(are_imports(parts, c, imports) && are_distinct_imports(alloc, imports)?)
}

fn are_entries(parts: &ImageParts, c: u8, exports: &[ExportPart]) -> bool
    ensures { result ≡ list_all (λ export. is_entry parts.now c export.entry) exports.now }
{
    exports
        .iter()
        .all(|export| is_entry(parts, c, export.entry))
}

fn are_imports(parts: &ImageParts, c: u8, imports: &[ImportPart]) -> bool
    ensures { result ≡ list_all (is_importable parts.now c) imports.now }
{
    imports.iter().all(|import| is_import(parts, c, *import))
}

// Whether the address is that of a word of the compartment's code.
#[tactic(auto, unfolding(crate::specs::Layout::word_at))]
fn is_entry(parts: &ImageParts, c: u8, entry: u32) -> bool
    ensures { result ≡ is_entry parts.now c entry }
{
    let start = CODE + u32::from(c) * STRETCH;
    if entry % 4 != 0 || entry < start {
        return false;
    }
    let place = (entry - start) / 4;
    (place as usize) < code_len(parts, c)
}

fn code_len(parts: &ImageParts, c: u8) -> usize
    ensures { result ≡ length (code_in parts.now c) }
{
    match parts.comps.get(usize::from(c)) {
        None => 0,
        Some(comp) => comp.code.len(),
    }
}

// Whether it is an export of another compartment.
fn is_import(parts: &ImageParts, c: u8, import: ImportPart) -> bool
    ensures { result ≡ is_importable parts.now c import }
{
    let owner = usize::from(import.comp.number());
    match parts.comps.get(owner) {
        None => false,
        Some(comp) => owner != usize::from(c) && usize::from(import.index) < comp.exports.len(),
    }
}

#[tactic(auto, using(crate::proofs::Keeping::counted))]
fn have_distinct_names(alloc: Global, comps: &[CompPart]) -> Result<bool, AllocError>
    ensures { IfOk result (λ distinct. distinct ≡ are_distinct_by is_same_name (map (λ comp. comp.name) comps.now)) }
{
    let names = names_of(alloc, comps)?;
    Ok(names.len() == comps.len())
}

fn names_of(alloc: Global, comps: &[CompPart]) -> Result<HashSet<Name>, AllocError>
    ensures { IfOk result (IsFromIterResult is_same_name (map (λ comp. comp.name) comps.now)) }
{
    comps.iter().map(|comp| comp.name).collect(alloc)
}

#[tactic(auto, using(crate::proofs::Keeping::counted))]
fn have_distinct_export_names(alloc: Global, exports: &[ExportPart]) -> Result<bool, AllocError>
    ensures { IfOk result (λ distinct. distinct ≡
        are_distinct_by is_same_name (map (λ export. export.name) exports.now)) }
{
    let names = export_names_of(alloc, exports)?;
    Ok(names.len() == exports.len())
}

fn export_names_of(alloc: Global, exports: &[ExportPart]) -> Result<HashSet<Name>, AllocError>
    ensures { IfOk result (IsFromIterResult is_same_name (map (λ export. export.name) exports.now)) }
{
    exports.iter().map(|export| export.name).collect(alloc)
}

#[tactic(auto, using(crate::proofs::Keeping::counted))]
fn have_distinct_entries(alloc: Global, exports: &[ExportPart]) -> Result<bool, AllocError>
    ensures { IfOk result (λ distinct. distinct ≡ are_distinct_by ◌==◌ (map (λ export. export.entry) exports.now)) }
{
    let entries = entries_of(alloc, exports)?;
    Ok(entries.len() == exports.len())
}

fn entries_of(alloc: Global, exports: &[ExportPart]) -> Result<HashSet<u32>, AllocError>
    ensures { IfOk result (IsFromIterResult ◌==◌ (map (λ export. export.entry) exports.now)) }
{
    exports.iter().map(|export| export.entry).collect(alloc)
}

/// Whether no import stands there twice.
#[tactic(auto, using(crate::proofs::Keeping::counted))]
pub fn are_distinct_imports(alloc: Global, imports: &[ImportPart]) -> Result<bool, AllocError>
    ensures { IfOk result (λ distinct. distinct ≡ are_distinct_by is_same_import imports.now) }
{
    let pairs = pairs_of(alloc, imports)?;
    Ok(pairs.len() == imports.len())
}

// Each import as the numbers that distinguish it.
fn pairs_of(alloc: Global, imports: &[ImportPart]) -> Result<HashSet<(u8, u16)>, AllocError>
    ensures { IfOk result (IsFromIterResult (λ a b. a.0 == b.0 && a.1 == b.1)
        (map (λ import. (import.comp, import.index)) imports.now)) }
{
    imports
        .iter()
        .map(|import| (import.comp.number(), import.index))
        .collect(alloc)
}
