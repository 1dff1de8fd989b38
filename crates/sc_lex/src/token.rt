/// What a token is.
#[derive(Clone, Copy, Debug, PartialEq, Eq)]
pub enum TokenKind {
    /// An identifier of at most 63 bytes that is no reserved word (C11 6.4.2).
    Ident,
    /// A keyword of C11 (6.4.1), `malloc` or `free`.
    Reserved,
    /// An integer constant of at most 32 bits (C11 6.4.4.1).
    Integer,
    /// An operator or a punctuator (C11 6.4.6).
    Mark,
    /// A line `#pragma compartment C`, which begins a section.
    Compartment,
    /// A line `#pragma export F`.
    Export,
    /// A line `#pragma import C F`.
    Import,
}

/// A token of some bytes. Its text is the slice from `start` to `end`; that of a directive is the line without its
/// newline.
#[derive(Clone, Copy, Debug, PartialEq, Eq)]
pub struct Token {
    /// The place of the first byte.
    pub start: usize,
    /// The place after the last byte.
    pub end: usize,
    /// The line of the first byte, where the bytes begin in line 1.
    pub line: u32,
    pub kind: TokenKind,
}
