//! What a policy is made of.

use crate::{Names, Rules};
use sc_base::Name;

/// The compartments, or the functions, that a pattern speaks of.
#[derive(Drop)]
pub enum Who {
    /// All of them.
    Any,
    /// Those of this name.
    Named(Name),
}

/// How two words of 32 bits are compared, by their signed values.
#[derive(Clone, Copy, Debug, PartialEq, Eq)]
pub enum Compare {
    Equal,
    NotEqual,
    Less,
    LessEqual,
    Greater,
    GreaterEqual,
}

/// What a word is compared with, and how. The word stands on the left.
#[derive(Clone, Copy, Debug, PartialEq, Eq)]
pub struct Test {
    pub op: Compare,
    pub value: i32,
}

/// A test of one argument of a call, by its number, counted from 1.
#[derive(Clone, Copy, Debug, PartialEq, Eq)]
pub struct ArgTest {
    pub place: u8,
    pub test: Test,
}

/// Which events a rule is for.
#[derive(Drop)]
pub enum Pattern {
    /// The calls of such a function of `to` by `from`.
    Call {
        from: Who,
        to: Who,
        function: Who,
        arg: Option<ArgTest>,
    },
    /// The returns of `from` to `to`.
    Ret {
        from: Who,
        to: Who,
        test: Option<Test>,
    },
    /// The outputs of `comp`.
    Out {
        comp: Who,
        test: Option<Test>,
    },
    /// The inputs of `comp`.
    In {
        comp: Who,
        test: Option<Test>,
    },
    /// The end of a run in `comp`.
    End {
        comp: Who,
        test: Option<Test>,
    },
}

/// What an event of the pattern does in this state: it leads to another state, or it is a violation where the rule has
/// no goal. States are places in the list of a policy's states.
#[derive(Drop)]
pub struct Rule {
    pub state: u16,
    pub pattern: Pattern,
    pub goal: Option<u16>,
}

/// An automaton over the events of a run, which begins in the first of its states.
#[derive(Drop)]
pub struct Policy {
    pub name: Name,
    pub states: Names,
    pub rules: Rules,
}
