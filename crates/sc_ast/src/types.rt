use crate::ident::Ident;
use crate::number::ArrayLength;

/// What a declaration begins with: `int`, `unsigned int` or a struct of this tag.
#[derive(Clone, Copy, PartialEq, Eq)]
pub enum BaseTree {
    /// `int` or `signed int`.
    Int,
    /// `unsigned int`.
    Unsigned,
    /// `struct` and its tag.
    Struct(Ident),
}

/// The type of a declarator: a base, then `*` `stars` times, then the length where it is an array.
#[derive(Clone, Copy, PartialEq, Eq)]
pub struct TypeTree {
    pub base: BaseTree,
    pub stars: u64,
    pub length: Option<ArrayLength>,
}

/// A type that is no array (a type name of C11 6.7.7): a base, then `*` `stars` times. Parameters and results have one.
#[derive(Clone, Copy, PartialEq, Eq)]
pub struct TypeName {
    pub base: BaseTree,
    pub stars: u64,
}
