//! Globals and what they begin with.

ghost use Rattle.sc_types_elab.specs.Prelude.{global_variable, globals_in, init_holds, init_words, is_null};
ghost use Rattle.sc_types_elab.specs.Prelude.{typed_global, word_of_const};
ghost use Rattle.std.specs.Prelude.{◌≡◌, ◌-◌, ◌%◌, ◌^◌, ◌++◌, ◌∷◌, [], map, IfOk};
ghost use Rattle.sc_ast.specs.declared.section.InitTree;

use crate::tree_ty::type_of;
use sc_ast::{ConstTree, Decl, GlobalTree, InitTree};
use sc_base::{NameList, OutOfMemory, Words};
use sc_core::{BaseTy, Ty, TypedGlobal, TypedGlobals, TypedParam};
use sc_types_elab_expr::Variables;
use sqlite_items::Items;
use std::alloc::Global;

// The 32 bits of a constant.
fn word_of_const(constant: &ConstTree) -> u32
    ensures { result ≡ word_of_const constant.now }
{
    let value = constant.literal.value();
    if constant.negative {
        negated(value)
    } else {
        value
    }
}

fn negated(word: u32) -> u32
    ensures { result ≡ (2 ^ 32 - word) % 2 ^ 32 }
{
    0u32.wrapping_sub(word)
}

fn words_of(alloc: Global, consts: &[ConstTree]) -> Result<Words, OutOfMemory>
    ensures { IfOk result (λ words. words ≡ map word_of_const consts.now) }
{
    let mut words = Items::new(alloc);
    for constant in consts {
        words.push(word_of_const(constant))?;
    }
    Ok(words)
}

fn init_words(alloc: Global, init: &InitTree) -> Result<Words, OutOfMemory>
    ensures { IfOk result (λ words. words ≡ init_words init.now) }
{
    match init {
        InitTree::Absent => Ok(Items::new(alloc)),
        InitTree::One(constant) => {
            let mut words = Items::new(alloc);
            words.push(word_of_const(constant))?;
            Ok(words)
        }
        InitTree::Many(consts) => words_of(alloc, consts.as_slice()),
    }
}

fn build_global(
    alloc: Global,
    tags: &NameList,
    tree: &GlobalTree,
) -> Result<TypedGlobal, OutOfMemory>
    ensures { IfOk result (λ built. built ≡ typed_global tags.now tree.now) }
{
    let init = init_words(alloc, &tree.init)?;
    let name = tree.name.name();
    let ty = type_of(tags, &tree.ty);
    Ok(TypedGlobal { name, ty, init })
}

// The globals and the one of this declaration, if it is one, after them.
fn with_global(
    alloc: Global,
    tags: &NameList,
    mut globals: TypedGlobals,
    decl: &Decl,
) -> Result<TypedGlobals, OutOfMemory>
    ensures { IfOk result (λ more. more ≡ globals ++ map (typed_global tags.now) (globals_in (decl.now ∷ []))) }
{
    match decl {
        Decl::Global(tree) => {
            globals.push(build_global(alloc, tags, tree)?)?;
            Ok(globals)
        }
        _ => Ok(globals),
    }
}

/// The globals of a section, whose structs have these tags.
pub fn build_globals(
    alloc: Global,
    tags: &NameList,
    decls: &[Decl],
) -> Result<TypedGlobals, OutOfMemory>
    ensures { IfOk result (λ globals. globals ≡ map (typed_global tags.now) (globals_in decls.now)) }
{
    let mut globals = Items::new(alloc);
    for decl in decls {
        globals = with_global(alloc, tags, globals, decl)?;
    }
    Ok(globals)
}

// The variables and the global of this declaration, if it is one, after them.
fn with_variable(
    tags: &NameList,
    variables: Variables,
    decl: &Decl,
) -> Result<Variables, OutOfMemory>
    ensures { IfOk result (λ more. more ≡ variables ++ map (global_variable tags.now) (globals_in (decl.now ∷ []))) }
{
    match decl {
        Decl::Global(tree) => {
            let name = tree.name.name();
            let ty = type_of(tags, &tree.ty);
            variables.with(TypedParam { name, ty })
        }
        _ => Ok(variables),
    }
}

/// The globals of a section as variables.
pub fn global_variables(
    alloc: Global,
    tags: &NameList,
    decls: &[Decl],
) -> Result<Variables, OutOfMemory>
    ensures { IfOk result (λ variables. variables ≡ map (global_variable tags.now) (globals_in decls.now)) }
{
    let mut variables = Variables::new(alloc);
    for decl in decls {
        variables = with_variable(tags, variables, decl)?;
    }
    Ok(variables)
}

fn is_null(constant: &ConstTree) -> bool
    ensures { result ≡ is_null constant.now }
{
    !constant.negative && constant.literal.value() == 0
}

// Whether a global of this type may begin with one constant.
fn is_one(ty: Ty, constant: &ConstTree) -> bool
    ensures { result ≡ init_holds ty (InitTree.One constant.now) }
{
    match ty {
        Ty::Int => true,
        Ty::Unsigned => true,
        Ty::Pointer { .. } => is_null(constant),
        _ => false,
    }
}

// Whether a global of this type may begin with a list of constants.
fn is_list(ty: Ty, constants: &[ConstTree]) -> bool
    ensures { result ≡ init_holds ty (InitTree.Many constants.now) }
{
    match ty {
        Ty::Array {
            stars: 0,
            base: BaseTy::Int | BaseTy::Unsigned,
            length,
        } => constants.len() <= length as usize,
        _ => false,
    }
}

/// Whether a global of this type may begin with this (C11 6.7.9).
pub fn init_holds(ty: Ty, init: &InitTree) -> bool
    ensures { result ≡ init_holds ty init.now }
{
    match init {
        InitTree::Absent => true,
        InitTree::One(constant) => is_one(ty, constant),
        InitTree::Many(constants) => is_list(ty, constants.as_slice()),
    }
}
