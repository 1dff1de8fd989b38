//! Sections as text: two blanks a level, one statement or declaration a line, and the parentheses that the grammar
//! needs.

ghost use Rattle.sc_ast.specs.Prelude.{blank, decl_words, export_words, function_words, head_of, head_words};
ghost use Rattle.sc_ast.specs.Prelude.{heading_words, import_words, layouts, lines_at, local_line, newline, printed};
ghost use Rattle.sc_ast.specs.Prelude.{text_of, value_words, word};
ghost use Rattle.std.specs.Prelude.{◌≡◌, ◌++◌, [], ◌∷◌, OnOk, IfOk, codes};
ghost use Rattle.std.specs.List.{flat_map};

mod decl;
mod expr;
mod stmt;
mod types;
mod words;

use crate::expr::ExprTree;
use crate::print::decl::{
    append_declared, append_global, append_head, append_proto, append_struct,
};
use crate::print::expr::append_expr;
use crate::print::stmt::append_lines;
use crate::print::words::append_indent;
use crate::section::{
    Decl, Decls, ExportLine, ExportLines, FunctionHead, FunctionTree, ImportLine, ImportLines,
    LocalTree, LocalTrees, SectionTree,
};
use crate::stmt::Stmts;
use sc_base::{Name, OutOfMemory, Text};
use sqlite_items::Boxed;
use std::alloc::Global;

/// The text of a section, whose lines need not be those of the tree.
pub fn print_section(alloc: Global, tree: &SectionTree) -> Result<Text, OutOfMemory>
    ensures { IfOk result (λ text. text ≡ printed tree.now) }
{
    let mut out = Text::new(alloc);
    append_heading(&mut out, &tree.name)?;
    append_directives(&mut out, &tree.exports, &tree.imports)?;
    append_decls(&mut out, &tree.decls)?;
    Ok(out)
}

fn append_heading(out: &mut Text, name: &Name) -> Result<(), OutOfMemory>
    ensures { OnOk result (out.new ≡ out.old ++ text_of (heading_words name.now)) }
{
    out.append(b"#pragma compartment ")?;
    out.append(name.as_bytes())?;
    out.push(b'\n')
}

fn append_directives(
    out: &mut Text,
    exports: &ExportLines,
    imports: &ImportLines,
) -> Result<(), OutOfMemory>
    ensures { OnOk result (out.new ≡ out.old ++ text_of
        (flat_map export_words exports.now ++ flat_map import_words imports.now)) }
{
    append_exports(out, exports)?;
    append_imports(out, imports)
}

fn append_exports(out: &mut Text, exports: &ExportLines) -> Result<(), OutOfMemory>
    ensures { OnOk result (out.new ≡ out.old ++ text_of (flat_map export_words exports.now)) }
{
    for export in exports.as_slice() {
        append_export(out, export)?;
    }
    Ok(())
}

#[tactic(auto, unfolding(crate::specs::SectionWords::export_words))]
fn append_export(out: &mut Text, export: &ExportLine) -> Result<(), OutOfMemory>
    ensures { OnOk result (out.new ≡ out.old ++ text_of (export_words export.now)) }
{
    out.append(b"#pragma export ")?;
    out.append(export.name.as_bytes())?;
    out.push(b'\n')
}

fn append_imports(out: &mut Text, imports: &ImportLines) -> Result<(), OutOfMemory>
    ensures { OnOk result (out.new ≡ out.old ++ text_of (flat_map import_words imports.now)) }
{
    for import in imports.as_slice() {
        append_import(out, import)?;
    }
    Ok(())
}

#[tactic(auto, unfolding(crate::specs::SectionWords::import_words))]
fn append_import(out: &mut Text, import: &ImportLine) -> Result<(), OutOfMemory>
    ensures { OnOk result (out.new ≡ out.old ++ text_of (import_words import.now)) }
{
    out.append(b"#pragma import ")?;
    out.append(import.comp.as_bytes())?;
    out.push(b' ')?;
    out.append(import.name.as_bytes())?;
    out.push(b'\n')
}

fn append_decls(out: &mut Text, decls: &Decls) -> Result<(), OutOfMemory>
    ensures { OnOk result (out.new ≡ out.old ++ text_of (flat_map decl_words decls.now)) }
{
    for decl in decls.as_slice() {
        append_decl(out, decl)?;
    }
    Ok(())
}

fn append_decl(out: &mut Text, decl: &Decl) -> Result<(), OutOfMemory>
    ensures { OnOk result (out.new ≡ out.old ++ text_of (decl_words decl.now)) }
{
    match decl {
        Decl::Struct(tree) => append_struct(out, tree),
        Decl::Global(tree) => append_global(out, tree),
        Decl::Proto(tree) => append_proto(out, tree),
        Decl::Function(tree) => append_function(out, tree),
    }
}

fn append_function(out: &mut Text, tree: &FunctionTree) -> Result<(), OutOfMemory>
    ensures { OnOk result (out.new ≡ out.old ++ text_of (function_words tree.now)) }
{
    append_function_head(out, &tree.head)?;
    append_locals(out, &tree.locals)?;
    append_body(out, &tree.body)
}

// An empty line, a head and `{`.
fn append_function_head(out: &mut Text, head: &FunctionHead) -> Result<(), OutOfMemory>
    ensures { OnOk result (out.new ≡ out.old ++ text_of
        (newline ∷ (head_words (head_of head.now) ++ blank ∷ word (codes "{") ∷ newline ∷ []))) }
{
    out.push(b'\n')?;
    append_head(out, head)?;
    out.append(b" {\n")
}

fn append_locals(out: &mut Text, locals: &LocalTrees) -> Result<(), OutOfMemory>
    ensures { OnOk result (out.new ≡ out.old ++ text_of (flat_map local_line locals.now)) }
{
    for local in locals.as_slice() {
        append_local(out, local)?;
    }
    Ok(())
}

fn append_local(out: &mut Text, local: &LocalTree) -> Result<(), OutOfMemory>
    ensures { OnOk result (out.new ≡ out.old ++ text_of (local_line local.now)) }
{
    append_indent(out, 1)?;
    append_declared(out, &local.ty, &local.name)?;
    append_value(out, &local.init)?;
    out.append(b";\n")
}

fn append_value(out: &mut Text, value: &Option<Boxed<ExprTree>>) -> Result<(), OutOfMemory>
    ensures { OnOk result (out.new ≡ out.old ++ text_of (value_words value.now)) }
{
    match value {
        None => Ok(()),
        Some(value) => {
            out.append(b" = ")?;
            append_expr(out, value.get())
        }
    }
}

// Statements and `}`.
fn append_body(out: &mut Text, body: &Stmts) -> Result<(), OutOfMemory>
    ensures { OnOk result (out.new ≡ out.old ++ text_of (lines_at 1 (layouts body.now) ++ word (codes "}") ∷ newline ∷
        [])) }
{
    append_lines(out, body, 1)?;
    out.append(b"}\n")
}
