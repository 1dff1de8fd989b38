//! Sections.

ghost use Rattle.sc_types_elab.specs.Prelude.{CallsIn, SectionTree, Stands, called, callees_of, function_decls};
ghost use Rattle.sc_types_elab.specs.Prelude.{import_of, struct_name, struct_names, structs_in, typed_function};
ghost use Rattle.sc_types_elab.specs.Prelude.{typed_section};
ghost use Rattle.std.specs.Prelude.{◌≡◌, ℕ, ◌++◌, ◌∷◌, [], List, map, IfOk, OnOk};

use crate::calls::build_callees;
use crate::function::build_function;
use crate::globals::{build_globals, global_variables};
use crate::members::build_structs;
use sc_ast::{Decl, SectionTree};
use sc_base::{NameList, OutOfMemory};
use sc_core::{TypedFunctions, TypedSection};
use sc_event::Import;
use sc_types_elab_expr::SectionScope;
use sqlite_items::Items;
use std::alloc::Global;

// The tags and that of the struct of this declaration, if it is one, after them.
fn push_tag(tags: &mut NameList, decl: &Decl) -> Result<(), OutOfMemory>
    ensures { OnOk result (tags.new ≡ tags.old ++ map struct_name (structs_in (decl.now ∷ []))) }
{
    match decl {
        Decl::Struct(tree) => tags.push(tree.name.name()),
        _ => Ok(()),
    }
}

/// The tags of the structs of a section, in order.
pub fn build_tags(alloc: Global, decls: &[Decl]) -> Result<NameList, OutOfMemory>
    ensures { IfOk result (λ tags. tags ≡ struct_names decls.now) }
{
    let mut tags = NameList::new(alloc);
    for decl in decls {
        push_tag(&mut tags, decl)?;
    }
    Ok(tags)
}

/// What the section gives to the bodies of its functions, where it imports these functions.
pub fn build_scope(
    alloc: Global,
    section: &SectionTree,
    imports: &[Import],
) -> Result<SectionScope, OutOfMemory>
    ensures stands { IfOk result (λ scope. Stands scope section.now) }
    ensures calls { IfOk result (λ scope. CallsIn (struct_names section.now.decls) section.now imports.now
        scope.callees) }
{
    let tags = build_tags(alloc, section.decls.as_slice())?;
    let callees = build_callees(alloc, &tags, section, imports)?;
    let structs = build_structs(alloc, &tags, section.decls.as_slice())?;
    let globals = global_variables(alloc, &tags, section.decls.as_slice())?;
    Ok(SectionScope {
        tags,
        structs,
        globals,
        callees,
    })
}

// The functions and that of this declaration, if it is one, after them.
fn with_function(
    alloc: Global,
    scope: &SectionScope,
    section: &SectionTree,
    mut functions: TypedFunctions,
    decl: &Decl,
) -> Result<TypedFunctions, OutOfMemory>
    requires { Stands scope.now section.now }
    ensures { IfOk result (λ more. more ≡ functions ++
        map (typed_function section.now (called scope.now.callees)) (function_decls (decl.now ∷ []))) }
{
    match decl {
        Decl::Function(tree) => {
            functions.push(build_function(alloc, scope, section, tree)?)?;
            Ok(functions)
        }
        _ => Ok(functions),
    }
}

fn build_functions(
    alloc: Global,
    scope: &SectionScope,
    section: &SectionTree,
    decls: &[Decl],
) -> Result<TypedFunctions, OutOfMemory>
    requires { Stands scope.now section.now }
    ensures { IfOk result (λ functions. functions ≡ map (typed_function section.now (called scope.now.callees))
        (function_decls decls.now)) }
{
    let mut functions = Items::new(alloc);
    for decl in decls {
        functions = with_function(alloc, scope, section, functions, decl)?;
    }
    Ok(functions)
}

// A section over what stands for its declarations.
fn section_over(
    alloc: Global,
    scope: SectionScope,
    section: &SectionTree,
) -> Result<TypedSection, OutOfMemory>
    requires { Stands scope section.now }
    ensures { IfOk result (λ built. built ≡ typed_section section.now (called scope.callees)) }
{
    let functions = build_functions(alloc, &scope, section, section.decls.as_slice())?;
    let globals = build_globals(alloc, &scope.tags, section.decls.as_slice())?;
    let SectionScope {
        tags,
        structs,
        globals: variables,
        callees,
    } = scope;
    drop(tags);
    drop(variables);
    drop(callees);
    Ok(TypedSection {
        structs: structs.into_list(),
        globals,
        functions,
    })
}

/// A section with its types, where it imports these functions.
pub fn build_section(
    alloc: Global,
    section: &SectionTree,
    imports: &[Import],
) -> Result<TypedSection, OutOfMemory>
    ensures { (sections : List SectionTree) (number : ℕ) →
        imports.now ≡ map (import_of sections number) section.now.imports →
        IfOk result (λ built. built ≡ typed_section section.now (callees_of sections number section.now)) }
{
    let scope = build_scope(alloc, section, imports)?;
    section_over(alloc, scope, section)
}
