//! What the leaves of declarations keep holds of all of them.

ghost use Rattle.sc_parse_print_laws.specs.Prelude.{head_of, is_kept_decl, kept_const, kept_function};
ghost use Rattle.sc_parse_print_laws.specs.Prelude.{kept_global, kept_head, kept_init, kept_length, kept_local};
ghost use Rattle.sc_parse_print_laws.specs.Prelude.{kept_member, kept_name, kept_param, kept_result, kept_struct};
ghost use Rattle.sc_parse_print_laws.specs.Prelude.{kept_type, param_of, some_kept};
ghost use Rattle.std.specs.Prelude.{◌≡◌, ◌<◌, true, IsTrue, map, length};
ghost use Rattle.std.specs.List.{list_all};

use crate::kept::{keep_leaves, keeps_base, keeps_value};
use sc_ast::{
    ArrayLength, ConstTree, Consts, Decl, Decls, FunctionHead, FunctionParams, FunctionTree,
    GlobalTree, HeadTree, Ident, InitTree, LocalTree, LocalTrees, MemberTree, MemberTrees,
    ParamTree, ParamTrees, StructTree, TypeName, TypeTree,
};

fn keeps_length(length: Option<ArrayLength>)
    ensures { IsTrue (kept_length length) }
{
    if let Some(length) = length {
        let _elements = length.elements();
    }
}

fn keeps_type(ty: &TypeTree)
    ensures { IsTrue (kept_type ty.now) }
{
    keeps_base(&ty.base);
    keeps_length(ty.length);
}

fn keeps_member(member: &MemberTree)
    ensures { IsTrue (kept_member member.now) }
{
    let _name = member.name.as_bytes();
    keeps_type(&member.ty);
}

fn keeps_members(members: &[MemberTree])
    ensures { list_all kept_member members.now ≡ true }
{
    for member in members {
        keeps_member(member);
    }
}

#[tactic(auto, using(crate::proofs::Some::some_from))]
fn keeps_struct(tree: &StructTree)
    ensures { IsTrue (kept_struct tree.now) }
{
    let _name = tree.name.as_bytes();
    keeps_members(tree.members.as_slice());
}

fn keeps_const(constant: &ConstTree)
    ensures { IsTrue (kept_const constant.now) }
{
    let _value = constant.literal.value();
}

fn keeps_consts(constants: &[ConstTree])
    ensures { list_all kept_const constants.now ≡ true }
{
    for constant in constants {
        keeps_const(constant);
    }
}

#[tactic(auto, using(crate::proofs::Some::some_from))]
fn keeps_init(init: &InitTree)
    ensures { IsTrue (kept_init init.now) }
{
    match init {
        InitTree::Absent => (),
        InitTree::One(constant) => keeps_const(constant),
        InitTree::Many(constants) => keeps_consts(constants.as_slice()),
    }
}

fn keeps_global(tree: &GlobalTree)
    ensures { IsTrue (kept_global tree.now) }
{
    let _name = tree.name.as_bytes();
    keeps_type(&tree.ty);
    keeps_init(&tree.init);
}

fn keeps_name(name: &Option<Ident>)
    ensures { IsTrue (kept_name name.now) }
{
    if let Some(name) = name {
        let _name = name.as_bytes();
    }
}

fn keeps_param(param: &ParamTree)
    ensures { IsTrue (kept_param param.now) }
{
    keeps_base(&param.ty.base);
    keeps_name(&param.name);
}

fn keeps_params(params: &ParamTrees)
    ensures { list_all kept_param params.now ≡ true }
{
    for param in params.as_slice() {
        keeps_param(param);
    }
}

fn keeps_named_params(params: &FunctionParams)
    ensures { list_all kept_param (map param_of params.now) ≡ true }
{
    for param in params.as_slice() {
        let _name = param.name.as_bytes();
        keeps_base(&param.ty.base);
    }
}

fn keeps_result(result_type: &Option<TypeName>)
    ensures { IsTrue (kept_result result_type.now) }
{
    if let Some(ty) = result_type {
        keeps_base(&ty.base);
    }
}

fn keeps_proto(head: &HeadTree)
    ensures { IsTrue (kept_head head.now) }
{
    let _name = head.name.as_bytes();
    keeps_result(&head.result);
    keeps_params(&head.params);
}

fn keeps_head(head: &FunctionHead)
    ensures { IsTrue (kept_head (head_of head.now)) }
{
    let _name = head.name.as_bytes();
    keeps_result(&head.result);
    keeps_named_params(&head.params);
}

fn keeps_local(tree: &LocalTree)
    ensures { IsTrue (kept_local tree.now) }
{
    let _name = tree.name.as_bytes();
    keeps_type(&tree.ty);
    keeps_value(&tree.init);
}

fn keeps_locals(locals: &LocalTrees)
    ensures { list_all kept_local locals.now ≡ true }
{
    for local in locals.as_slice() {
        keeps_local(local);
    }
}

fn keeps_function(tree: &FunctionTree)
    ensures { IsTrue (kept_function tree.now) }
{
    keeps_head(&tree.head);
    keeps_locals(&tree.locals);
    keep_leaves(&tree.body);
}

fn keeps_decl(decl: &Decl)
    ensures { IsTrue (is_kept_decl decl.now) }
{
    match decl {
        Decl::Struct(tree) => keeps_struct(tree),
        Decl::Global(tree) => keeps_global(tree),
        Decl::Proto(tree) => keeps_proto(tree),
        Decl::Function(tree) => keeps_function(tree),
    }
}

/// The same of declarations.
pub fn keeps_decls(decls: &Decls)
    ensures { IsTrue (list_all is_kept_decl decls.now) }
{
    for decl in decls.as_slice() {
        keeps_decl(decl);
    }
}
