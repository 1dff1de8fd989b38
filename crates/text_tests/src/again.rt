// Programs that are read, printed, and read again.
mod texts;

use crate::again::texts::PROGRAMS;
use sc_ast::{SectionTree, print_section};
use sc_base::Text;
use sc_parse_read::read_trees;
use std::alloc::Global;
use std::test::Fail;

// The text of the only section of a text.
fn printed_again(alloc: Global, text: &[u8]) -> Result<Text, Fail> {
    let trees = read_trees(alloc, text)?;
    match trees.as_slice() {
        [tree] => Ok(print_section(alloc, tree)?),
        _ => Err("more than one section")?,
    }
}

fn prints_the_same_again(alloc: Global, tree: &SectionTree) -> Result<bool, Fail> {
    let text = print_section(alloc, tree)?;
    let again = printed_again(alloc, text.as_bytes())?;
    Ok(again.as_bytes() == text.as_bytes())
}

#[test]
fn printed_sections_are_read_and_printed_as_before(rt: HostRuntime) -> Result<(), Fail> {
    let alloc = rt.alloc();
    for text in PROGRAMS {
        let trees = read_trees(alloc, text)?;
        for tree in trees.as_slice() {
            assert!(rt; prints_the_same_again(alloc, tree)?);
        }
    }
    Ok(())
}
