//! Declarations.

ghost use Rattle.sc_types_scope.specs.Prelude.{decl_name_lines, function_name_lines, global_known, head_of_known};
ghost use Rattle.sc_types_scope.specs.Prelude.{local_known, locals_from, param_names, proto_known, struct_known};
ghost use Rattle.sc_types_scope.specs.Prelude.{with_lines};
ghost use Rattle.std.specs.Prelude.{◌≡◌, ◌++◌, [], ◌∷◌, map, OnOk, IfOk};
ghost use Rattle.sc_ast.specs.declared.section.LocalTree.{LocalTree};

use crate::BrokenLines;
use crate::body::{all_lines, option_knows};
use crate::distinct::{members_distinct, push_new, push_params};
use crate::section_names::SectionNames;
use crate::types::{base_known, head_types_known, members_known, proto_types_known};
use sc_ast::{Decl, FunctionTree, GlobalTree, HeadTree, LocalTree, LocalTrees, StructTree};
use sc_base::{NameList, OutOfMemory};
use std::alloc::Global;

/// Notes the lines of a declaration at which rules of names are broken, where these names stand before.
pub fn decl_lines(
    alloc: Global,
    names: &SectionNames,
    decl: &Decl,
    lines: &mut BrokenLines,
) -> Result<(), OutOfMemory>
    ensures { OnOk result (lines.new ≡ with_lines lines.old (decl_name_lines names.now decl.now)) }
{
    match decl {
        Decl::Struct(tree) => {
            lines.unless(struct_known(alloc, names, tree)?, tree.line);
            Ok(())
        }
        Decl::Global(tree) => {
            lines.unless(global_known(names, tree), tree.line);
            Ok(())
        }
        Decl::Proto(head) => {
            lines.unless(proto_known(names, head), head.line);
            Ok(())
        }
        Decl::Function(tree) => function_lines(alloc, names, tree, lines),
    }
}

fn struct_known(alloc: Global, names: &SectionNames, tree: &StructTree) -> Result<bool, OutOfMemory>
    ensures { IfOk result (λ known. known ≡ struct_known names.now tree.now) }
{
    let members = tree.members.as_slice();
    let distinct = members_distinct(alloc, members)?;
    Ok(
        !names.structs.contains(&tree.name.name())
            && distinct
            && members_known(&names.structs, &tree.name, members),
    )
}

fn global_known(names: &SectionNames, tree: &GlobalTree) -> bool
    ensures { result ≡ global_known names.now tree.now }
{
    let name = tree.name.name();
    !names.globals.contains(&name)
        && !names.functions.contains(&name)
        && !names.protos.contains(&name)
        && !names.imports.contains(&name)
        && base_known(&names.structs, &tree.ty.base)
}

fn proto_known(names: &SectionNames, head: &HeadTree) -> bool
    ensures { result ≡ proto_known names.now head.now }
{
    !names.globals.contains(&head.name.name()) && proto_types_known(&names.structs, head)
}

// The parameters' names become the function's own.
fn head_of_known(
    names: &SectionNames,
    own: &mut NameList,
    tree: &FunctionTree,
) -> Result<bool, OutOfMemory>
    requires { own.old ≡ [] }
    ensures known { IfOk result (λ known. known ≡ head_of_known names.now tree.now) }
    ensures own { OnOk result (own.new ≡ param_names tree.now) }
{
    let distinct = push_params(own, tree.head.params.as_slice())?;
    let name = tree.head.name.name();
    Ok(
        !names.globals.contains(&name)
            && !names.functions.contains(&name)
            && head_types_known(&names.structs, &tree.head)
            && distinct,
    )
}

// The local's name becomes one of the function's own, which its initialiser sees.
fn local_known(
    names: &SectionNames,
    own: &mut NameList,
    local: &LocalTree,
) -> Result<bool, OutOfMemory>
    ensures known { IfOk result (λ known. known ≡ local_known names.now.structs names.now.globals own.old local.now) }
    ensures own { OnOk result (own.new ≡ own.old ++ local.now.name ∷ []) }
{
    let is_new = push_new(own, local.name.name())?;
    Ok(
        is_new
            && base_known(&names.structs, &local.ty.base)
            && option_knows(names, own, &local.init),
    )
}

fn locals_lines(
    names: &SectionNames,
    own: &mut NameList,
    locals: &LocalTrees,
    lines: &mut BrokenLines,
) -> Result<(), OutOfMemory>
    ensures lines { OnOk result (lines.new ≡ with_lines lines.old
        (locals_from names.now.structs names.now.globals own.old locals.now)) }
    ensures own { OnOk result (own.new ≡ own.old ++ map {A = LocalTree} (λ local. local.name) locals.now) }
{
    for local in locals.as_slice() {
        let holds = local_known(names, own, local)?;
        lines.unless(holds, local.line);
    }
    Ok(())
}

fn function_lines(
    alloc: Global,
    names: &SectionNames,
    tree: &FunctionTree,
    lines: &mut BrokenLines,
) -> Result<(), OutOfMemory>
    ensures { OnOk result (lines.new ≡ with_lines lines.old (function_name_lines names.now tree.now)) }
{
    let mut own = NameList::new(alloc);
    let holds = head_of_known(names, &mut own, tree)?;
    lines.unless(holds, tree.head.line);
    locals_lines(names, &mut own, &tree.locals, lines)?;
    all_lines(names, &own, &tree.body, false, lines);
    Ok(())
}
