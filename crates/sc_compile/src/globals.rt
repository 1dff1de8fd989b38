//! What follows from the types of a program's globals: the numbers that they begin with are words.

ghost use Rattle.sc_compile.specs.Prelude.{BeginsAsWords};
ghost use Rattle.sc_linker.specs.Prelude.{GlobalsAreWords};
ghost use Rattle.std.specs.Prelude.{◌<◌, ◌^◌, All};

use sc_core::{TypedGlobal, TypedSection};

fn are_words(words: &[u32])
    ensures { All (λ word. word < 2 ^ 32) words.now }
{}

fn begin_as_words(globals: &[TypedGlobal])
    ensures { All BeginsAsWords globals.now }
{
    for global in globals {
        are_words(global.init.as_slice());
    }
}

/// States for proofs that globals are declared with words; it does nothing.
pub fn globals_are_words(sections: &[TypedSection])
    ensures { GlobalsAreWords sections.now }
{
    for section in sections {
        begin_as_words(section.globals.as_slice());
    }
}
