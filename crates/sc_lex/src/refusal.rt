use thiserror::Error;

/// The phases that a text passes, in their order.
#[derive(Clone, Copy, Debug, PartialEq, Eq)]
pub enum Phase {
    /// The text is cut into sections, tokens and directives.
    Lex,
    /// The tokens of each section spell a tree.
    Syntax,
    /// The names of each section are declared.
    Names,
    /// Expressions, places and statements have their types.
    Types,
    /// Exports and imports fit together.
    Interface,
    /// The counts of sections, parameters and the like are within their bounds.
    Count,
}

/// Why a text isn't accepted: a phase that it doesn't pass, and a line of the whole text.
///
/// Lines are counted from 1 and stop at 4,294,967,295. Line 0 stands for what no line breaks.
#[derive(Clone, Copy, Debug, PartialEq, Eq, Error)]
#[error("a text that isn't accepted, at line {line}")]
pub struct Refusal {
    pub phase: Phase,
    pub line: u32,
}
