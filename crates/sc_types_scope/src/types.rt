//! Types: a tag that is used is that of a struct that is defined before.

ghost use Rattle.sc_types_scope.specs.Prelude.{FunctionParam, base_known, head_known, member_known, pointed_known};
ghost use Rattle.sc_types_scope.specs.Prelude.{result_known};
ghost use Rattle.sc_ast.specs.Prelude.{head_of};
ghost use Rattle.std.specs.Prelude.{◌≡◌};
ghost use Rattle.std.specs.List.{list_all};
ghost use Rattle.sc_ast.specs.declared.section.ParamTree.{ParamTree};

use sc_ast::{
    BaseTree, FunctionHead, FunctionParam, HeadTree, Ident, MemberTree, ParamTree, TypeName,
};
use sc_base::NameList;

/// Whether the tag of a base, if it has one, is one of these.
pub fn base_known(tags: &NameList, base: &BaseTree) -> bool
    ensures { result ≡ base_known tags.now base.now }
{
    match *base {
        BaseTree::Struct(tag) => tags.contains(&tag.name()),
        _ => true,
    }
}

// Whether a type is a pointer to the struct that is being defined.
fn pointed_known(own: &Ident, stars: u64, base: &BaseTree) -> bool
    ensures { result ≡ pointed_known own.now stars base.now }
{
    match *base {
        BaseTree::Struct(tag) => tag.as_bytes() == own.as_bytes() && stars != 0,
        _ => false,
    }
}

fn member_known(tags: &NameList, own: &Ident, member: &MemberTree) -> bool
    ensures { result ≡ member_known tags.now own.now member.now }
{
    let base = &member.ty.base;
    base_known(tags, base) || pointed_known(own, member.ty.stars, base)
}

/// Whether the types of a struct's members are known, where `own` is the struct's tag.
pub fn members_known(tags: &NameList, own: &Ident, members: &[MemberTree]) -> bool
    ensures { result ≡ list_all (member_known tags.now own.now) members.now }
{
    members.iter().all(|member| member_known(tags, own, member))
}

fn result_known(tags: &NameList, result_ty: &Option<TypeName>) -> bool
    ensures { result ≡ result_known tags.now result_ty.now }
{
    match result_ty {
        None => true,
        Some(ty) => base_known(tags, &ty.base),
    }
}

fn params_known(tags: &NameList, params: &[ParamTree]) -> bool
    ensures { result ≡ list_all {X = ParamTree} (λ param. base_known tags.now param.ty.base) params.now }
{
    params.iter().all(|param| base_known(tags, &param.ty.base))
}

fn named_known(tags: &NameList, params: &[FunctionParam]) -> bool
    ensures { result ≡ list_all {X = FunctionParam} (λ param. base_known tags.now param.ty.base) params.now }
{
    params.iter().all(|param| base_known(tags, &param.ty.base))
}

/// Whether the types of a prototype are known.
pub fn proto_types_known(tags: &NameList, head: &HeadTree) -> bool
    ensures { result ≡ head_known tags.now head.now }
{
    result_known(tags, &head.result) && params_known(tags, head.params.as_slice())
}

/// Whether the types of a function's head are known.
#[tactic(auto, using(crate::proofs::Heads::heads))]
pub fn head_types_known(tags: &NameList, head: &FunctionHead) -> bool
    ensures { result ≡ head_known tags.now (head_of head.now) }
{
    result_known(tags, &head.result) && named_known(tags, head.params.as_slice())
}
