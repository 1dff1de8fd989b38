//! The types that type names write.

ghost use Rattle.sc_types_elab_expr.specs.Prelude.{base_of, cells_under, type_of_name};
ghost use Rattle.std.specs.Prelude.{◌≡◌};

use crate::structs::{MOST_CELLS, Structs};
use sc_ast::{BaseTree, TypeName};
use sc_base::NameList;
use sc_core::{BaseTy, Ty};

/// A type without a `*`, where the structs have these tags. A struct is known by its tag's first place.
pub fn base_of(tags: &NameList, base: &BaseTree) -> BaseTy
    ensures { result ≡ base_of tags.now base.now }
{
    match base {
        BaseTree::Int => BaseTy::Int,
        BaseTree::Unsigned => BaseTy::Unsigned,
        BaseTree::Struct(tag) => BaseTy::Struct(tags.number_of(&tag.name()).unwrap_or(0)),
    }
}

/// The type of a parameter, of a result, or under `sizeof`, where the structs have these tags.
pub fn type_of_name(tags: &NameList, ty: &TypeName) -> Ty
    ensures { result ≡ type_of_name tags.now ty.now }
{
    Ty::starred(ty.stars, base_of(tags, &ty.base))
}

/// The cells of what has this type, where the structs have these tags; they stop at the most that a struct may hold.
#[tactic(auto, using(crate::proofs::Small::small))]
pub fn cells_under(tags: &NameList, structs: &Structs, ty: &TypeName) -> u32
    ensures { result ≡ cells_under tags.now structs.now ty.now }
{
    structs.cells_of(type_of_name(tags, ty)).min(MOST_CELLS)
}
