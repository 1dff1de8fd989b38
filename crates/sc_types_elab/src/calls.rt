//! Whom a section calls by name.

ghost use Rattle.sc_types_elab.specs.Prelude.{CallsIn, calling_heads, function_name, function_signature};
ghost use Rattle.sc_types_elab.specs.Prelude.{function_decls};
ghost use Rattle.sc_types_elab.specs.Prelude.{head_name, head_of, heads_in, import_line_name, import_target, param_of};
ghost use Rattle.sc_types_elab.specs.Prelude.{param_ty, signature_by};
ghost use Rattle.std.specs.Prelude.{◌≡◌, ◌++◌, ◌∷◌, [], map, IfOk, OnOk};

use crate::tree_ty::type_of_result;
use sc_ast::{Decl, FunctionHead, FunctionParam, HeadTree, ImportLine, ParamTree, SectionTree};
use sc_base::{Name, NameList, OutOfMemory};
use sc_core::{CallTarget, Ty};
use sc_event::Import;
use sc_types_elab_expr::{Callees, Signature, type_of_name};
use sqlite_items::Items;
use std::alloc::Global;

fn head_params(
    alloc: Global,
    tags: &NameList,
    params: &[ParamTree],
) -> Result<Items<Ty>, OutOfMemory>
    ensures { IfOk result (λ types. types ≡ map (param_ty tags.now) params.now) }
{
    let mut types = Items::new(alloc);
    for param in params {
        types.push(type_of_name(tags, &param.ty))?;
    }
    Ok(types)
}

fn function_params(
    alloc: Global,
    tags: &NameList,
    params: &[FunctionParam],
) -> Result<Items<Ty>, OutOfMemory>
    ensures { IfOk result (λ types. types ≡ map (param_ty tags.now) (map param_of params.now)) }
{
    let mut types = Items::new(alloc);
    for param in params {
        types.push(type_of_name(tags, &param.ty))?;
    }
    Ok(types)
}

fn signature_of_head(
    alloc: Global,
    tags: &NameList,
    head: &HeadTree,
) -> Result<Signature, OutOfMemory>
    ensures { IfOk result (λ signature. signature ≡ signature_by tags.now head.now) }
{
    let params = head_params(alloc, tags, head.params.as_slice())?;
    let result = type_of_result(tags, &head.result);
    Ok(Signature { params, result })
}

fn signature_of_function(
    alloc: Global,
    tags: &NameList,
    head: &FunctionHead,
) -> Result<Signature, OutOfMemory>
    ensures { IfOk result (λ signature. signature ≡ signature_by tags.now (head_of head.now)) }
{
    let params = function_params(alloc, tags, head.params.as_slice())?;
    let result = type_of_result(tags, &head.result);
    Ok(Signature { params, result })
}

// Heads by their names, with their types.
#[derive(Drop)]
struct Heads {
    names: NameList,
    signatures: Items<Signature>,
}

// The heads and one more after them.
fn with_head(heads: Heads, name: Name, signature: Signature) -> Result<Heads, OutOfMemory>
    ensures names { IfOk result (λ more. more.names ≡ heads.names ++ name ∷ []) }
    ensures signatures { IfOk result (λ more. more.signatures ≡ heads.signatures ++ signature ∷ []) }
{
    let Heads {
        mut names,
        mut signatures,
    } = heads;
    signatures.push(signature)?;
    names.push(name)?;
    Ok(Heads { names, signatures })
}

// The heads and that of the function of this declaration, if it is one, after them.
fn with_function(
    alloc: Global,
    tags: &NameList,
    heads: Heads,
    decl: &Decl,
) -> Result<Heads, OutOfMemory>
    ensures names { IfOk result (λ more. more.names ≡ heads.names ++
        map function_name (function_decls (decl.now ∷ []))) }
    ensures signatures { IfOk result (λ more. more.signatures ≡ heads.signatures ++
        map (function_signature tags.now) (function_decls (decl.now ∷ []))) }
{
    match decl {
        Decl::Function(tree) => {
            let signature = signature_of_function(alloc, tags, &tree.head)?;
            with_head(heads, tree.head.name.name(), signature)
        }
        _ => Ok(heads),
    }
}

// The heads and that of this declaration, if it is a function or a prototype, after them.
fn with_declared(
    alloc: Global,
    tags: &NameList,
    heads: Heads,
    decl: &Decl,
) -> Result<Heads, OutOfMemory>
    ensures names { IfOk result (λ more. more.names ≡ heads.names ++ map head_name (heads_in (decl.now ∷ []))) }
    ensures signatures { IfOk result (λ more. more.signatures ≡ heads.signatures ++
        map (signature_by tags.now) (heads_in (decl.now ∷ []))) }
{
    match decl {
        Decl::Function(tree) => {
            let signature = signature_of_function(alloc, tags, &tree.head)?;
            with_head(heads, tree.head.name.name(), signature)
        }
        Decl::Proto(head) => {
            let signature = signature_of_head(alloc, tags, head)?;
            with_head(heads, head.name.name(), signature)
        }
        _ => Ok(heads),
    }
}

// The heads of the functions.
fn function_heads(alloc: Global, tags: &NameList, decls: &[Decl]) -> Result<Heads, OutOfMemory>
    ensures names { IfOk result (λ heads. heads.names ≡ map function_name (function_decls decls.now)) }
    ensures signatures { IfOk result (λ heads. heads.signatures ≡
        map (function_signature tags.now) (function_decls decls.now)) }
{
    let mut heads = Heads {
        names: NameList::new(alloc),
        signatures: Items::new(alloc),
    };
    for decl in decls {
        heads = with_function(alloc, tags, heads, decl)?;
    }
    Ok(heads)
}

// The heads by which calls are typed: those of the functions, and after them all that are declared.
fn calling_heads(alloc: Global, tags: &NameList, decls: &[Decl]) -> Result<Heads, OutOfMemory>
    ensures names { IfOk result (λ heads. heads.names ≡ map head_name (calling_heads decls.now)) }
    ensures signatures { IfOk result (λ heads. heads.signatures ≡
        map (signature_by tags.now) (calling_heads decls.now)) }
{
    let mut heads = function_heads(alloc, tags, decls)?;
    for decl in decls {
        heads = with_declared(alloc, tags, heads, decl)?;
    }
    Ok(heads)
}

fn function_places(alloc: Global, decls: &[Decl]) -> Result<NameList, OutOfMemory>
    ensures { IfOk result (λ places. places ≡ map function_name (function_decls decls.now)) }
{
    let mut places = NameList::new(alloc);
    for decl in decls {
        push_function_name(&mut places, decl)?;
    }
    Ok(places)
}

// The names and that of the function of this declaration, if it is one, after them.
fn push_function_name(places: &mut NameList, decl: &Decl) -> Result<(), OutOfMemory>
    ensures { OnOk result (places.new ≡ places.old ++
        map function_name (function_decls (decl.now ∷ []))) }
{
    match decl {
        Decl::Function(tree) => places.push(tree.head.name.name()),
        _ => Ok(()),
    }
}

fn import_places(alloc: Global, imports: &[ImportLine]) -> Result<NameList, OutOfMemory>
    ensures { IfOk result (λ places. places ≡ map import_line_name imports.now) }
{
    let mut places = NameList::new(alloc);
    for line in imports {
        places.push(line.name)?;
    }
    Ok(places)
}

fn import_target(import: Import) -> CallTarget
    ensures { result ≡ import_target import }
{
    match import {
        Import::Input => CallTarget::Input,
        Import::Output => CallTarget::Output,
        Import::Function { comp, index } => CallTarget::Cross(comp, index),
    }
}

fn import_targets(alloc: Global, imports: &[Import]) -> Result<Items<CallTarget>, OutOfMemory>
    ensures { IfOk result (λ targets. targets ≡ map import_target imports.now) }
{
    let mut targets = Items::new(alloc);
    for import in imports {
        targets.push(import_target(*import))?;
    }
    Ok(targets)
}

/// Whom a section calls by name, where its structs have these tags and it imports these functions.
pub fn build_callees(
    alloc: Global,
    tags: &NameList,
    section: &SectionTree,
    imports: &[Import],
) -> Result<Callees, OutOfMemory>
    ensures { IfOk result (λ callees. CallsIn tags.now section.now imports.now callees) }
{
    let Heads {
        names: heads,
        signatures,
    } = calling_heads(alloc, tags, section.decls.as_slice())?;
    let functions = function_places(alloc, section.decls.as_slice())?;
    let imported = import_places(alloc, section.imports.as_slice())?;
    let targets = import_targets(alloc, imports)?;
    Ok(Callees {
        heads,
        signatures,
        functions,
        imports: imported,
        targets,
    })
}
