//! How many cells types take (C11 6.2.5, 6.7.2.1).

ghost use Rattle.sc_core.specs.Prelude.{base_cells, cells_of, starred_cells, struct_cells, target_cells};
ghost use Rattle.std.specs.Prelude.{◌≡◌, slice_get};

use crate::section::TypedStruct;
use crate::ty::{BaseTy, Ty};

fn struct_cells(structs: &[TypedStruct], number: u32) -> u32
    ensures { result ≡ struct_cells (slice_get structs.now number) }
{
    match structs.get(number as usize) {
        Some(found) => found.cells,
        None => 0,
    }
}

fn base_cells(structs: &[TypedStruct], base: BaseTy) -> u32
    ensures { result ≡ base_cells structs.now base }
{
    match base {
        BaseTy::Int => 1,
        BaseTy::Unsigned => 1,
        BaseTy::Struct(number) => struct_cells(structs, number),
    }
}

fn starred_cells(structs: &[TypedStruct], stars: u64, base: BaseTy) -> u32
    ensures { result ≡ starred_cells structs.now stars base }
{
    if stars == 0 {
        base_cells(structs, base)
    } else {
        1
    }
}

/// The cells of what a pointer of this type points to; 0 for a type that is no pointer.
pub fn target_cells(structs: &[TypedStruct], ty: Ty) -> u32
    ensures { result ≡ target_cells structs.now ty }
{
    match ty {
        Ty::Pointer { stars, base } => starred_cells(structs, stars.saturating_sub(1), base),
        Ty::Array { stars, base, .. } => starred_cells(structs, stars, base),
        _ => 0,
    }
}

/// The cells of a variable of this type.
pub fn cells_of(structs: &[TypedStruct], ty: Ty) -> u64
    ensures { result ≡ cells_of structs.now ty }
{
    match ty {
        Ty::Struct(number) => struct_cells(structs, number) as u64,
        Ty::Array {
            stars,
            base,
            length,
        } => length as u64 * starred_cells(structs, stars, base) as u64,
        _ => 1,
    }
}
