/// What undefined behaviour a run commits.
#[derive(Clone, Copy, Debug, PartialEq, Eq)]
pub enum Cause {
    /// A signed result doesn't fit `int` (C11 6.5p5), or a negative value is shifted left (6.5.7p4).
    Overflow,
    /// A division or a remainder by zero (C11 6.5.5p5).
    ZeroDivisor,
    /// A shift by 32 or more (C11 6.5.7p3).
    BadShift,
    /// A place leaves its variable, or the one past the last is used (C11 6.5.6p8).
    OutOfBounds,
    /// A pointer to a variable that has ended is read (C11 6.2.4p2).
    Dangling,
    /// Null is used as a place or in arithmetic (C11 6.5.3.2p4, 6.5.6p8).
    NullUse,
    /// A variable is read before it has a value (C11 6.3.2.1p2).
    Indeterminate,
    /// An integer is read where a pointer stands, or the other way round (C11 6.5p7).
    BadType,
    /// Two pointers that may not be compared or subtracted (C11 6.5.6p9, 6.5.8p5).
    BadPointer,
    /// The closing brace of a function with a result is reached (C11 6.9.1p12).
    NoReturn,
    /// What is freed is neither null nor the start of an allocated block that lives (C11 7.22.3.3).
    BadFree,
}
