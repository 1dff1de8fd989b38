//! Sections, and the whole phase.

ghost use Rattle.sc_types_scope.specs.Prelude.{names_broken, refused_at, section_name_lines, with_lines};
ghost use Rattle.std.specs.Prelude.{◌≡◌, OnOk, IfOk};

use crate::BrokenLines;
use crate::decl::decl_lines;
use crate::section_names::SectionNames;
use sc_ast::SectionTree;
use sc_base::OutOfMemory;
use std::alloc::Global;

/// The line of the text at which the rules of names are broken first, `None` where all are kept.
pub fn broken_name(alloc: Global, sections: &[SectionTree]) -> Result<Option<u32>, OutOfMemory>
    ensures { IfOk result (λ line. line ≡ refused_at (names_broken sections.now)) }
{
    let mut least = None;
    for section in sections {
        let mut lines = BrokenLines {
            start: section.line,
            least,
        };
        section_lines(alloc, section, &mut lines)?;
        least = lines.least;
    }
    Ok(least)
}

fn section_lines(
    alloc: Global,
    section: &SectionTree,
    lines: &mut BrokenLines,
) -> Result<(), OutOfMemory>
    ensures { OnOk result (lines.new ≡ with_lines lines.old (section_name_lines section.now)) }
{
    let mut names = SectionNames::new(alloc, section)?;
    for decl in section.decls.as_slice() {
        decl_lines(alloc, &names, decl, lines)?;
        names.push(decl)?;
    }
    Ok(())
}
