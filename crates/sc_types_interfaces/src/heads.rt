//! The heads of functions and prototypes, and what their types are.

ghost use Rattle.sc_types_interfaces.specs.Prelude.{agree, crosses, gives_int, head_crosses, is_int_type, is_main_head};
ghost use Rattle.sc_types_interfaces.specs.Prelude.{main_holds, result_crosses, same_named_base, same_params};
ghost use Rattle.sc_types_interfaces.specs.Prelude.{same_result};
ghost use Rattle.sc_types_interfaces.specs.Prelude.{same_type, takes_nothing};
ghost use Rattle.sc_ast.specs.Prelude.{head_of, param_of};
ghost use Rattle.std.specs.Prelude.{◌≡◌, IfOk, map};
ghost use Rattle.std.specs.List.{list_all};

use crate::names::is_main_name;
use sc_ast::{BaseTree, FunctionHead, FunctionParam, HeadTree, ParamTree, ParamTrees, TypeName};
use sc_base::OutOfMemory;
use sqlite_items::Items;
use std::alloc::Global;

/// The same head again.
pub(crate) fn copied(alloc: Global, head: &HeadTree) -> Result<HeadTree, OutOfMemory>
    ensures { IfOk result (λ copy. copy ≡ head.now) }
{
    let params = Items::from_slice(alloc, head.params.as_slice())?;
    Ok(HeadTree {
        result: head.result,
        name: head.name,
        params,
        line: head.line,
    })
}

/// The head of a function as that of a prototype.
pub(crate) fn prototype(alloc: Global, head: &FunctionHead) -> Result<HeadTree, OutOfMemory>
    ensures { IfOk result (λ proto. proto ≡ head_of head.now) }
{
    let params = prototype_params(alloc, head.params.as_slice())?;
    Ok(HeadTree {
        result: head.result,
        name: head.name,
        params,
        line: head.line,
    })
}

fn prototype_params(alloc: Global, params: &[FunctionParam]) -> Result<ParamTrees, OutOfMemory>
    ensures { IfOk result (λ list. list ≡ map param_of params.now) }
{
    let mut list = Items::new(alloc);
    for param in params {
        list.push(ParamTree {
            ty: param.ty,
            name: Some(param.name),
        })?;
    }
    Ok(list)
}

/// Whether two heads agree in the types of their results and of their parameters (C11 6.7.6.3p15).
pub(crate) fn agree(a: &HeadTree, b: &HeadTree) -> bool
    ensures { result ≡ agree a.now b.now }
{
    same_result(&a.result, &b.result) && same_params(a.params.as_slice(), b.params.as_slice())
}

#[tactic(auto, using(crate::proofs::Steps::places))]
fn same_params(params: &[ParamTree], others: &[ParamTree]) -> bool
    ensures { result ≡ same_params params.now others.now }
{
    if params.len() != others.len() {
        return false;
    }
    for i in 0..params.len() {
        if !same_type(&params[i].ty, &others[i].ty) {
            return false;
        }
    }
    true
}

fn same_result(ty: &Option<TypeName>, other: &Option<TypeName>) -> bool
    ensures { result ≡ same_result ty.now other.now }
{
    match (ty, other) {
        (None, None) => true,
        (Some(a), Some(b)) => same_type(a, b),
        _ => false,
    }
}

fn same_type(a: &TypeName, b: &TypeName) -> bool
    ensures { result ≡ same_type a.now b.now }
{
    a.stars == b.stars && same_base(&a.base, &b.base)
}

fn same_base(a: &BaseTree, b: &BaseTree) -> bool
    ensures { result ≡ same_named_base a.now b.now }
{
    match (a, b) {
        (BaseTree::Int, BaseTree::Int) => true,
        (BaseTree::Unsigned, BaseTree::Unsigned) => true,
        (BaseTree::Struct(tag), BaseTree::Struct(other)) => tag.as_bytes() == other.as_bytes(),
        _ => false,
    }
}

/// Whether the types are those that may cross between compartments.
pub(crate) fn head_crosses(head: &HeadTree) -> bool
    ensures { result ≡ head_crosses head.now }
{
    result_crosses(&head.result) && params_cross(head.params.as_slice())
}

fn params_cross(params: &[ParamTree]) -> bool
    ensures { result ≡ list_all (λ param. crosses param.ty) params.now }
{
    params.iter().all(|param| crosses(&param.ty))
}

fn result_crosses(ty: &Option<TypeName>) -> bool
    ensures { result ≡ result_crosses ty.now }
{
    match ty {
        None => true,
        Some(ty) => crosses(ty),
    }
}

fn crosses(ty: &TypeName) -> bool
    ensures { result ≡ crosses ty.now }
{
    ty.stars == 0
        && (same_base(&ty.base, &BaseTree::Int) || same_base(&ty.base, &BaseTree::Unsigned))
}

/// Whether `main` may be defined by this head, where `mains` says that a section before defines it.
pub(crate) fn main_holds(mains: bool, head: &HeadTree) -> bool
    ensures { result ≡ main_holds mains head.now }
{
    !is_main_name(&head.name.name()) || !mains && is_main(head)
}

fn is_main(head: &HeadTree) -> bool
    ensures { result ≡ is_main_head head.now }
{
    gives_int(&head.result) && takes_nothing(head.params.as_slice())
}

fn gives_int(ty: &Option<TypeName>) -> bool
    ensures { result ≡ gives_int ty.now }
{
    match ty {
        None => false,
        Some(ty) => is_int(ty),
    }
}

fn is_int(ty: &TypeName) -> bool
    ensures { result ≡ is_int_type ty.now }
{
    ty.stars == 0 && same_base(&ty.base, &BaseTree::Int)
}

fn takes_nothing(params: &[ParamTree]) -> bool
    ensures { result ≡ takes_nothing params.now }
{
    params.is_empty()
}
