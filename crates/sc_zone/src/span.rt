/// A block that was taken from a zone.
#[derive(Clone, Copy, Debug, PartialEq, Eq)]
pub struct Span {
    /// The number of its first word, from 0 on.
    pub place: u32,
    /// How many words it has.
    pub words: u32,
}
