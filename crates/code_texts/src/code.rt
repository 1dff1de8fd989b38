use sc_lower::lower;
use sc_tac::Tac;
use sc_types::{SourceText, TextFault};
use std::alloc::Global;

/// The code of the program that a text is.
pub fn lowered(alloc: Global, text: &[u8]) -> Result<Tac, TextFault> {
    let source = SourceText::read(alloc, text)?;
    Ok(lower(alloc, source.program())?)
}
