//! Sections, and the whole phase.

ghost use Rattle.sc_types.specs.Prelude.{counts_broken, decls_nodes, line_beyond, line_of_text, most_compartments};
ghost use Rattle.sc_types.specs.Prelude.{most_nodes, refused_at, section_count_lines, with_lines};
ghost use Rattle.sc_types_elab_expr.specs.Prelude.{Callees};
ghost use Rattle.std.specs.Prelude.{◌≡◌, ◌&&◌, nat_le, length, IfOk, OnOk};
ghost use Rattle.sc_ast.specs.declared.section.SectionTree.{SectionTree};

use crate::lines::{
    export_lines, functions_lines, globals_lines, heads_lines, import_lines, structs_lines,
};
use crate::nodes::decls_nodes;
use crate::sizes::Sizes;
use sc_ast::{Decls, SectionTree};
use sc_base::OutOfMemory;
use sc_types_scope::{BrokenLines, line_of_text};
use sqlite_items::at;
use std::alloc::Global;

/// The most sections that a text may have.
const MOST_COMPARTMENTS: usize = 32;

/// The most nodes that a section may have, and the most declarations.
const MOST_NODES: u32 = 16_777_216;

/// The line of the text at which a count is beyond its limit first, `None` where all are within.
pub fn broken_count(alloc: Global, sections: &[SectionTree]) -> Result<Option<u32>, OutOfMemory>
    ensures { IfOk result (λ line. line ≡ refused_at (counts_broken sections.now)) }
{
    let mut least = section_beyond(sections);
    for section in sections {
        let mut lines = BrokenLines {
            start: section.line,
            least,
        };
        section_lines(alloc, section, &mut lines)?;
        least = lines.least;
    }
    Ok(least)
}

fn section_beyond(sections: &[SectionTree]) -> Option<u32>
    ensures { result ≡ refused_at (line_beyond {A = SectionTree}
        (λ section. line_of_text section.line 1) most_compartments sections.now) }
{
    match at(sections, MOST_COMPARTMENTS) {
        None => None,
        Some(section) => Some(line_of_text(section.line, 1)),
    }
}

// Whoever is called, a function has the same nodes.
#[tactic(auto, using(crate::proofs::Noted::noting, crate::proofs::Noted::sized))]
fn section_lines(
    alloc: Global,
    section: &SectionTree,
    lines: &mut BrokenLines,
) -> Result<(), OutOfMemory>
    ensures { (callees : Callees) → OnOk result (lines.new ≡
        with_lines lines.old (section_count_lines section.now callees)) }
{
    let sizes = Sizes::new(alloc, section)?;
    lines.unless(is_short(&section.decls), 1);
    export_lines(&section.exports, lines);
    import_lines(&section.imports, lines);
    structs_lines(&sizes, &section.decls, lines);
    globals_lines(&sizes, &section.decls, lines);
    heads_lines(&sizes, &section.decls, lines);
    functions_lines(&sizes, &section.decls, lines);
    Ok(())
}

fn is_short(decls: &Decls) -> bool
    ensures { result ≡ (nat_le (decls_nodes decls.now) most_nodes && nat_le (length decls.now) most_nodes) }
{
    decls_nodes(decls) <= MOST_NODES && decls.len() <= MOST_NODES as usize
}
