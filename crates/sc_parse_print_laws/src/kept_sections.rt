//! What the names of sections keep holds of all of them.

ghost use Rattle.sc_parse_print_laws.specs.Prelude.{kept_export, kept_import, kept_section};
ghost use Rattle.std.specs.Prelude.{◌≡◌, true, IsTrue};
ghost use Rattle.std.specs.List.{list_all};

use crate::kept_decls::keeps_decls;
use sc_ast::{ExportLine, ExportLines, ImportLine, ImportLines, SectionTree};

fn keeps_export(line: &ExportLine)
    ensures { IsTrue (kept_export line.now) }
{
    let _name = line.name.as_bytes();
}

fn keeps_exports(lines: &ExportLines)
    ensures { list_all kept_export lines.now ≡ true }
{
    for line in lines.as_slice() {
        keeps_export(line);
    }
}

fn keeps_import(line: &ImportLine)
    ensures { IsTrue (kept_import line.now) }
{
    let _comp = line.comp.as_bytes();
    let _name = line.name.as_bytes();
}

fn keeps_imports(lines: &ImportLines)
    ensures { list_all kept_import lines.now ≡ true }
{
    for line in lines.as_slice() {
        keeps_import(line);
    }
}

/// The same of a section.
pub fn keeps_section(tree: &SectionTree)
    ensures { IsTrue (kept_section tree.now) }
{
    let _name = tree.name.as_bytes();
    keeps_exports(&tree.exports);
    keeps_imports(&tree.imports);
    keeps_decls(&tree.decls);
}
