//! The laws, each the contract of a function with nothing to do.

ghost use Rattle.sc_compile.specs.Prelude.{FindsOrigin, ImagesAreApart, PartsAreSeparate};

/// Compilation is separate: programs with the same interfaces and the same section of a number, but for its lines, have
/// images with the same compartment of that number.
pub fn parts_are_separate()
    ensures { PartsAreSeparate }
{}

/// Programs with the same interfaces and the same sections outside a set, but for their lines, have images that are the
/// same outside the set.
pub fn images_are_apart()
    ensures { ImagesAreApart }
{}

/// Where a trap stops the machine, one more run of the meaning, which may emit one event more than the machine has,
/// tells why: the active compartment performs, or it is blamed there, or its stack is full.
pub fn finds_origin()
    ensures { FindsOrigin }
{}
