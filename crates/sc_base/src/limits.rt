/// How high a tree of the language may be: an expression, a statement, or a function's body.
pub const MAX_HEIGHT: u32 = 256;

/// How many round, square and curly brackets may be open at one place of a section.
pub const MAX_BRACKETS: u32 = 1024;
