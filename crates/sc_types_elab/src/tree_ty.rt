//! The types that declarations write.

ghost use Rattle.sc_types_elab.specs.Prelude.{is_sized, type_of, type_of_name};
ghost use Rattle.std.specs.Prelude.{◌≡◌};
ghost use Rattle.std.specs.Option.{option_map};

use sc_ast::{TypeName, TypeTree};
use sc_base::NameList;
use sc_core::Ty;
use sc_types_elab_expr::{base_of, type_of_name};

/// The type of a result, which is absent for `void`.
pub fn type_of_result(tags: &NameList, outcome: &Option<TypeName>) -> Option<Ty>
    ensures { result ≡ option_map (type_of_name tags.now) outcome.now }
{
    match outcome {
        None => None,
        Some(ty) => Some(type_of_name(tags, ty)),
    }
}

/// The type of a variable or a member.
pub fn type_of(tags: &NameList, ty: &TypeTree) -> Ty
    ensures { result ≡ type_of tags.now ty.now }
{
    let base = base_of(tags, &ty.base);
    match ty.length {
        None => Ty::starred(ty.stars, base),
        Some(length) => Ty::Array {
            stars: ty.stars,
            base,
            length: length.elements(),
        },
    }
}

/// Whether an array has an element (C11 6.7.6.2p1).
pub fn is_sized(ty: &TypeTree) -> bool
    ensures { result ≡ is_sized ty.now }
{
    match ty.length {
        None => true,
        Some(length) => length.elements() >= 1,
    }
}
