//! The lines of what is beyond a count.

ghost use Rattle.sc_types.specs.Prelude.{function_count_lines, function_decls, global_count_lines, globals_in};
ghost use Rattle.sc_types.specs.Prelude.{head_lines, heads_in};
ghost use Rattle.sc_types.specs.Prelude.{line_beyond, local_lines, most_exports, param_small, structs_from, structs_in};
ghost use Rattle.sc_types.specs.Prelude.{with_lines};
ghost use Rattle.std.specs.Prelude.{◌≡◌, ◌<◌, ◌+◌, ◌^◌, [], ◌∷◌, length, map};
ghost use Rattle.std.specs.List.{concat, list_all};
ghost use Rattle.sc_ast.specs.declared.section.ExportLine.{ExportLine};
ghost use Rattle.sc_ast.specs.declared.section.ImportLine.{ImportLine};

use crate::sizes::Sizes;
use sc_ast::{Decl, Decls, ExportLines, FunctionParam, FunctionTree, ImportLines, LocalTrees};
use sc_types_scope::BrokenLines;

/// The most parameters that a function may have.
const MOST_PARAMS: usize = 8;

/// The most exports that a section may have, and the most imports.
const MOST_EXPORTS: usize = 4096;

/// Notes the first export beyond their count.
#[tactic(auto, using(crate::proofs::Noted::noting))]
pub fn export_lines(exports: &ExportLines, lines: &mut BrokenLines)
    ensures { lines.new ≡ with_lines lines.old (line_beyond {A = ExportLine}
        (λ line. line.line) most_exports exports.now) }
{
    match exports.get(MOST_EXPORTS) {
        None => {}
        Some(export) => lines.note(export.line),
    }
}

/// Notes the first import beyond their count.
#[tactic(auto, using(crate::proofs::Noted::noting))]
pub fn import_lines(imports: &ImportLines, lines: &mut BrokenLines)
    ensures { lines.new ≡ with_lines lines.old (line_beyond {A = ImportLine}
        (λ line. line.line) most_exports imports.now) }
{
    match imports.get(MOST_EXPORTS) {
        None => {}
        Some(import) => lines.note(import.line),
    }
}

/// Notes the structs that are too large.
pub fn structs_lines(sizes: &Sizes, decls: &Decls, lines: &mut BrokenLines)
    ensures { lines.new ≡ with_lines lines.old (structs_from sizes.now 0 (structs_in decls.now)) }
{
    let mut number = 0;
    for decl in decls.as_slice() {
        number = struct_lines(sizes, number, decl, lines);
    }
}

// A struct of this number, where it is one. The number of the next struct is handed back.
#[tactic(auto, using(crate::proofs::Noted::noting))]
fn struct_lines(sizes: &Sizes, number: usize, decl: &Decl, lines: &mut BrokenLines) -> usize
    requires { number + 1 < 2 ^ 64 }
    ensures lines { lines.new ≡ with_lines lines.old (structs_from sizes.now number (structs_in (decl.now ∷ []))) }
    ensures number { result ≡ number + length (structs_in (decl.now ∷ [])) }
{
    match decl {
        Decl::Struct(tree) => {
            lines.unless(sizes.is_small_struct(number), tree.line);
            number + 1
        }
        _ => number,
    }
}

/// Notes the globals that are too large.
pub fn globals_lines(sizes: &Sizes, decls: &Decls, lines: &mut BrokenLines)
    ensures { lines.new ≡ with_lines lines.old (concat (map (global_count_lines sizes.now) (globals_in decls.now))) }
{
    for decl in decls.as_slice() {
        if_global(sizes, decl, lines);
    }
}

#[tactic(auto, using(crate::proofs::Noted::noting))]
fn if_global(sizes: &Sizes, decl: &Decl, lines: &mut BrokenLines)
    ensures { lines.new ≡ with_lines lines.old
        (concat (map (global_count_lines sizes.now) (globals_in (decl.now ∷ [])))) }
{
    match decl {
        Decl::Global(tree) => lines.unless(sizes.is_small(&tree.ty), tree.line),
        _ => {}
    }
}

/// Notes the prototypes and functions with too many parameters.
pub fn heads_lines(sizes: &Sizes, decls: &Decls, lines: &mut BrokenLines)
    ensures { lines.new ≡ with_lines lines.old (concat (map (head_lines sizes.now) (heads_in decls.now))) }
{
    for decl in decls.as_slice() {
        if_head(sizes, decl, lines);
    }
}

#[tactic(auto, using(crate::proofs::Noted::noting))]
fn if_head(sizes: &Sizes, decl: &Decl, lines: &mut BrokenLines)
    ensures { lines.new ≡ with_lines lines.old (concat (map (head_lines sizes.now) (heads_in (decl.now ∷ [])))) }
{
    match decl {
        Decl::Proto(head) => lines.unless(head.params.len() <= MOST_PARAMS, head.line),
        Decl::Function(tree) => {
            lines.unless(tree.head.params.len() <= MOST_PARAMS, tree.head.line)
        }
        _ => {}
    }
}

/// Notes the functions with parameters and the locals that are too large.
pub fn functions_lines(sizes: &Sizes, decls: &Decls, lines: &mut BrokenLines)
    ensures { lines.new ≡ with_lines lines.old
        (concat (map (function_count_lines sizes.now) (function_decls decls.now))) }
{
    for decl in decls.as_slice() {
        if_function(sizes, decl, lines);
    }
}

#[tactic(auto, using(crate::proofs::Noted::noting))]
fn if_function(sizes: &Sizes, decl: &Decl, lines: &mut BrokenLines)
    ensures { lines.new ≡ with_lines lines.old (concat
        (map (function_count_lines sizes.now) (function_decls (decl.now ∷ [])))) }
{
    match decl {
        Decl::Function(tree) => function_lines(sizes, tree, lines),
        _ => {}
    }
}

#[tactic(auto, using(crate::proofs::Noted::noting))]
fn function_lines(sizes: &Sizes, tree: &FunctionTree, lines: &mut BrokenLines)
    ensures { lines.new ≡ with_lines lines.old (function_count_lines sizes.now tree.now) }
{
    let holds = params_small(sizes, tree.head.params.as_slice());
    lines.unless(holds, tree.head.line);
    locals_lines(sizes, &tree.locals, lines);
}

fn params_small(sizes: &Sizes, params: &[FunctionParam]) -> bool
    ensures { result ≡ list_all (param_small sizes.now) params.now }
{
    params.iter().all(|param| sizes.is_small_param(&param.ty))
}

fn locals_lines(sizes: &Sizes, locals: &LocalTrees, lines: &mut BrokenLines)
    ensures { lines.new ≡ with_lines lines.old (concat (map (local_lines sizes.now) locals.now)) }
{
    for local in locals.as_slice() {
        lines.unless(sizes.is_small(&local.ty), local.line);
    }
}
