ghost use Rattle.sc_types_interfaces.specs.Prelude.{allowed, decl_broken, decls_broken, head_added, head_fits_by};
ghost use Rattle.sc_types_interfaces.specs.Prelude.{head_in, no_heads, unless, with_lines};
ghost use Rattle.std.specs.Prelude.{◌≡◌, ◌&&◌, OnOk};
ghost use Rattle.sc_ast.specs.declared.section.Decl.TheVariants.{Proto, Function};

use crate::agreements::Agreements;
use crate::heads::{head_crosses, main_holds, prototype};
use crate::imports::Imported;
use crate::tables::SectionTable;
use sc_ast::{Decl, FunctionTree, HeadTree};
use sc_base::OutOfMemory;
use sc_types_scope::BrokenLines;
use std::alloc::Global;

/// Heads agree with those before them and with what they are imported as; those of functions that cross have types that
/// cross; and `main` is defined once, where `mains` says that a section before defines it.
#[tactic(auto, using(crate::proofs::Steps::turns))]
pub(crate) fn decls_broken(
    alloc: Global,
    table: &SectionTable,
    imported: &Imported,
    mains: bool,
    decls: &[Decl],
    lines: &mut BrokenLines,
) -> Result<(), OutOfMemory>
    ensures { OnOk result (lines.new ≡ with_lines lines.old
        (decls_broken table.now imported.now mains no_heads decls.now)) }
{
    let mut known = Agreements::new(alloc);
    for decl in decls {
        decl_broken(alloc, table, imported, mains, &mut known, decl, lines)?;
    }
    Ok(())
}

#[tactic(auto, using(crate::proofs::Steps::turns))]
fn decl_broken(
    alloc: Global,
    table: &SectionTable,
    imported: &Imported,
    mains: bool,
    known: &mut Agreements,
    decl: &Decl,
    lines: &mut BrokenLines,
) -> Result<(), OutOfMemory>
    ensures reported { OnOk result (lines.new ≡ with_lines lines.old
        (decl_broken table.now imported.now mains known.old decl.now)) }
    ensures added { OnOk result (known.new ≡ head_added known.old (head_in decl.now)) }
{
    match decl {
        Decl::Proto(head) => proto_broken(alloc, table, imported, known, head, lines),
        Decl::Function(tree) => function_broken(alloc, table, imported, mains, known, tree, lines),
        _ => Ok(()),
    }
}

fn proto_broken(
    alloc: Global,
    table: &SectionTable,
    imported: &Imported,
    known: &mut Agreements,
    head: &HeadTree,
    lines: &mut BrokenLines,
) -> Result<(), OutOfMemory>
    ensures reported { OnOk result (lines.new ≡ with_lines lines.old
        (unless (head_fits_by table.now imported.now known.old head.now &&
        allowed imported.now.heads head.now) head.now.line)) }
    ensures added { OnOk result (known.new ≡ head_added known.old (head_in (Proto head.now))) }
{
    let holds = head_fits(table, imported, known, head) && imported.heads.allows(head);
    lines.unless(holds, head.line);
    known.add(alloc, head.name.name(), head)
}

fn function_broken(
    alloc: Global,
    table: &SectionTable,
    imported: &Imported,
    mains: bool,
    known: &mut Agreements,
    tree: &FunctionTree,
    lines: &mut BrokenLines,
) -> Result<(), OutOfMemory>
    ensures reported { OnOk result (lines.new ≡ with_lines lines.old
        (decl_broken table.now imported.now mains known.old (Function tree.now))) }
    ensures added { OnOk result (known.new ≡ head_added known.old (head_in (Function tree.now))) }
{
    let head = prototype(alloc, &tree.head)?;
    let holds = head_fits(table, imported, known, &head) && main_holds(mains, &head);
    lines.unless(holds, head.line);
    known.add(alloc, head.name.name(), &head)
}

fn head_fits(table: &SectionTable, imported: &Imported, known: &Agreements, head: &HeadTree) -> bool
    ensures { result ≡ head_fits_by table.now imported.now known.now head.now }
{
    let name = head.name.name();
    known.allows(head)
        && (head_crosses(head)
            || !(table.exports.contains(&name) || imported.names.contains(&name)))
}
