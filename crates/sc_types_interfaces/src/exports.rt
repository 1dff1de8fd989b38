ghost use Rattle.sc_types_interfaces.specs.Prelude.{export_fits, exports_broken, with_lines};
ghost use Rattle.std.specs.Prelude.{◌≡◌, [], OnOk};

use crate::names::{is_main_name, is_plain};
use sc_ast::ExportLine;
use sc_base::{NameTable, OutOfMemory};
use sc_types_scope::BrokenLines;
use std::alloc::Global;

/// An export is a function that the section defines, exported once, and not `main`.
#[tactic(auto, using(crate::proofs::Steps::turns))]
pub(crate) fn exports_broken(
    alloc: Global,
    functions: &NameTable,
    exports: &[ExportLine],
    lines: &mut BrokenLines,
) -> Result<(), OutOfMemory>
    ensures { OnOk result (lines.new ≡ with_lines lines.old (exports_broken functions.now [] exports.now)) }
{
    let mut before = NameTable::new(alloc);
    for line in exports {
        lines.unless(export_fits(functions, &before, line), line.line);
        before.add(line.name)?;
    }
    Ok(())
}

fn export_fits(functions: &NameTable, before: &NameTable, line: &ExportLine) -> bool
    ensures { result ≡ export_fits functions.now before.now line.now }
{
    functions.contains(&line.name)
        && !before.contains(&line.name)
        && !is_main_name(&line.name)
        && is_plain(&line.name)
}
