//! Functions.

ghost use Rattle.sc_types_elab.specs.Prelude.{Stands, StandsIn, called, local_in, local_variable, result_of, type_of};
ghost use Rattle.sc_types_elab.specs.Prelude.{type_of_name, typed_function, typed_locals, typed_param, value_in};
ghost use Rattle.std.specs.Prelude.{◌≡◌, ◌++◌, ◌∷◌, [], length, map, IfOk};
ghost use Rattle.std.specs.Option.{option_map};

use crate::tree_ty::{type_of, type_of_result};
use sc_ast::{ExprTree, FunctionParam, FunctionTree, LocalTree, SectionTree};
use sc_base::{NameList, OutOfMemory};
use sc_core::{Ty, TypedExpr, TypedFunction, TypedLocal, TypedLocals, TypedParam};
use sc_types_elab_expr::{FunctionScope, SectionScope, Variables, type_of_name};
use sc_types_elab_stmt::{build_stmts, build_value};
use sqlite_items::{Boxed, Items};
use std::alloc::Global;

fn param_variables(
    alloc: Global,
    tags: &NameList,
    params: &[FunctionParam],
) -> Result<Variables, OutOfMemory>
    ensures { IfOk result (λ variables. variables ≡ map (typed_param tags.now) params.now) }
{
    let mut variables = Variables::new(alloc);
    for param in params {
        let name = param.name.name();
        let ty = type_of_name(tags, &param.ty);
        variables = variables.with(TypedParam { name, ty })?;
    }
    Ok(variables)
}

// The initialiser of a local of this type.
fn build_init(
    alloc: Global,
    scope: &SectionScope,
    function: &FunctionScope,
    ty: Ty,
    init: &Option<Boxed<ExprTree>>,
) -> Result<Option<TypedExpr>, OutOfMemory>
    ensures { IfOk result (λ built. built ≡ option_map (value_in scope.now function.now ty) init.now) }
{
    match init {
        None => Ok(None),
        Some(init) => {
            let built = build_value(alloc, scope, function, ty, init.get())?;
            Ok(Some(built.expr))
        }
    }
}

// A local, whose initialiser sees these variables.
fn build_local(
    alloc: Global,
    scope: &SectionScope,
    function: &FunctionScope,
    local: &LocalTree,
) -> Result<TypedLocal, OutOfMemory>
    ensures { IfOk result (λ built. built ≡ local_in scope.now function.now local.now) }
{
    let ty = type_of(&scope.tags, &local.ty);
    let init = build_init(alloc, scope, function, ty, &local.init)?;
    Ok(TypedLocal {
        name: local.name.name(),
        ty,
        init,
        line: local.line,
    })
}

/// The function's variables and this local after them.
pub fn with_local(
    tags: &NameList,
    function: FunctionScope,
    local: &LocalTree,
) -> Result<FunctionScope, OutOfMemory>
    ensures { IfOk result (λ more. more ≡ record {
      params = function.params;
      locals = function.locals ++ local_variable tags.now local.now ∷ [];
      result = function.result;
    }) }
{
    let FunctionScope {
        params,
        locals,
        result,
    } = function;
    let name = local.name.name();
    let ty = type_of(tags, &local.ty);
    let locals = locals.with(TypedParam { name, ty })?;
    Ok(FunctionScope {
        params,
        locals,
        result,
    })
}

/// What a function's head gives to its body.
pub fn head_scope(
    alloc: Global,
    scope: &SectionScope,
    tree: &FunctionTree,
) -> Result<FunctionScope, OutOfMemory>
    ensures { IfOk result (λ function. function ≡ record {
      params = map
          (typed_param scope.now.tags) tree.now.head.params;
      locals = [];
      result = option_map (type_of_name scope.now.tags) tree.now.head.result;
    }) }
{
    let params = param_variables(alloc, &scope.tags, tree.head.params.as_slice())?;
    let outcome = type_of_result(&scope.tags, &tree.head.result);
    Ok(FunctionScope {
        params,
        locals: Variables::new(alloc),
        result: outcome,
    })
}

// The locals of a function, and all that its body sees. The section is there only for the contract.
fn build_locals(
    alloc: Global,
    scope: &SectionScope,
    section: &SectionTree,
    tree: &FunctionTree,
    locals: &[LocalTree],
) -> Result<(FunctionScope, TypedLocals), OutOfMemory>
    requires stands { Stands scope.now section.now }
    requires locals { locals.now ≡ tree.now.locals }
    ensures stands { IfOk result (λ built. StandsIn section.now tree.now (length tree.now.locals) built.0) }
    ensures locals { IfOk result (λ built. built.1 ≡ typed_locals section.now tree.now 0 tree.now.locals) }
{
    let _ = section;
    let mut function = head_scope(alloc, scope, tree)?;
    let mut built = Items::new(alloc);
    for local in locals {
        function = with_local(&scope.tags, function, local)?;
        built.push(build_local(alloc, scope, &function, local)?)?;
    }
    Ok((function, built))
}

/// A function of a section, which is there only for the contract.
pub fn build_function(
    alloc: Global,
    scope: &SectionScope,
    section: &SectionTree,
    tree: &FunctionTree,
) -> Result<TypedFunction, OutOfMemory>
    requires { Stands scope.now section.now }
    ensures { IfOk result (λ built. built ≡ typed_function section.now (called scope.now.callees) tree.now) }
{
    let (function, locals) = build_locals(alloc, scope, section, tree, tree.locals.as_slice())?;
    let body = build_stmts(alloc, scope, &function, &tree.body)?;
    let FunctionScope {
        params,
        locals: variables,
        result,
    } = function;
    drop(variables);
    Ok(TypedFunction {
        name: tree.head.name.name(),
        params: params.into_list(),
        locals,
        result,
        body,
        close_line: tree.close_line,
    })
}
