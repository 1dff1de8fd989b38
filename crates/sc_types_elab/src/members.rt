//! Structs with their offsets.

ghost use Rattle.sc_types_elab.specs.Prelude.{cells_from, cells_of, limited, member_names, members_from, names_of};
ghost use Rattle.sc_types_elab.specs.Prelude.{structs_in, typed_struct, typed_structs};
ghost use Rattle.std.specs.Prelude.{◌≡◌, ◌+◌, ◌∷◌, [], IfOk};

use crate::tree_ty::type_of;
use sc_ast::{Decl, MemberTree, StructTree};
use sc_base::{NameList, OutOfMemory};
use sc_core::{Ty, TypedMember, TypedMembers, TypedStruct};
use sc_types_elab_expr::Structs;
use sqlite_items::Items;
use std::alloc::Global;

// Where a part of this type ends.
fn end_of(structs: &Structs, offset: u32, ty: Ty) -> u32
    ensures { result ≡ limited (offset + cells_of structs.now ty) }
{
    offset.saturating_add(structs.cells_of(ty))
}

// Members one after another, their names, and the cells of them all.
fn build_members(
    alloc: Global,
    tags: &NameList,
    structs: &Structs,
    members: &[MemberTree],
) -> Result<(TypedMembers, NameList, u32), OutOfMemory>
    ensures members { IfOk result (λ built. built.0 ≡ members_from tags.now structs.now 0 members.now) }
    ensures names { IfOk result (λ built. built.1 ≡ names_of built.0) }
    ensures cells { IfOk result (λ built. built.2 ≡ cells_from tags.now structs.now 0 members.now) }
{
    let mut built = Items::new(alloc);
    let mut names = NameList::new(alloc);
    let mut cells = 0;
    for member in members {
        let name = member.name.name();
        let ty = type_of(tags, &member.ty);
        names.push(name)?;
        built.push(TypedMember {
            name,
            ty,
            offset: cells,
        })?;
        cells = end_of(structs, cells, ty);
    }
    Ok((built, names, cells))
}

// A struct over those before it, and its members' names.
fn build_struct(
    alloc: Global,
    tags: &NameList,
    structs: &Structs,
    tree: &StructTree,
) -> Result<(TypedStruct, NameList), OutOfMemory>
    ensures tree { IfOk result (λ built. built.0 ≡ typed_struct tags.now structs.now tree.now) }
    ensures names { IfOk result (λ built. built.1 ≡ member_names built.0) }
{
    let (members, names, cells) = build_members(alloc, tags, structs, tree.members.as_slice())?;
    let name = tree.name.name();
    Ok((
        TypedStruct {
            name,
            members,
            cells,
        },
        names,
    ))
}

// The structs and the one of this declaration, if it is one, after them.
#[tactic(auto, using(crate::proofs::Offsets::few_structs))]
fn with_struct(
    alloc: Global,
    tags: &NameList,
    structs: Structs,
    decl: &Decl,
) -> Result<Structs, OutOfMemory>
    ensures { IfOk result (λ more. more ≡ typed_structs tags.now structs (structs_in (decl.now ∷ []))) }
{
    match decl {
        Decl::Struct(tree) => {
            let (built, names) = build_struct(alloc, tags, &structs, tree)?;
            structs.with(built, names)
        }
        _ => Ok(structs),
    }
}

/// The structs of a section, whose structs have these tags.
pub fn build_structs(alloc: Global, tags: &NameList, decls: &[Decl]) -> Result<Structs, OutOfMemory>
    ensures { IfOk result (λ structs. structs ≡ typed_structs tags.now [] (structs_in decls.now)) }
{
    let mut structs = Structs::new(alloc);
    for decl in decls {
        structs = with_struct(alloc, tags, structs, decl)?;
    }
    Ok(structs)
}
