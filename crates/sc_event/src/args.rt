ghost use Rattle.sc_base.specs.Prelude.{most_params};
ghost use Rattle.std.specs.Prelude.{◌≡◌, ◌≤◌, ◌<◌, ◌↔◌, [], ◌∷◌, ◌++◌, length, IsSome, IfSome, OnSome, IfNone, ◌==◌};
ghost use Rattle.std.specs.Cmp.Lexicographic.{pointwise};
ghost use Rattle.std.specs.Cmp.Rules.{comparing};
ghost use Rattle.std.proofs.Common.{rules};

use smallvec::SmallVec;
use std::alloc::Global;
use std::marker::Model;

/// The arguments of a call, at most 8 words, kept without memory of their own. Contracts see the list.
#[derive(Debug, Drop)]
pub struct Args {
    words: SmallVec<u32, 8>,
}

impl Model for Args {
    ghost use Rattle.sc_base.specs.Prelude.{most_params};
    ghost use Rattle.std.specs.Prelude.{List, ℕ, ◌≤◌, length};
    ghost use Rattle.std.specs.Coded.{coded_list, coded_ℕ};

    ghost Value = { List ℕ };

    ghost coded = { coded_list coded_ℕ };

    ghost view = { λ args. args.words.items };

    ghost invariant = { λ args. (length args.words.items ≤ most_params) × (most_params ≤ args.words.capacity) };
}

impl Args {
    /// How many arguments a call has at most.
    pub const LIMIT: usize = 8;

    /// No arguments yet.
    pub fn new(alloc: Global) -> Args
        ensures { result ≡ [] }
    {
        Args {
            words: SmallVec::new(alloc),
        }
    }

    /// These words, `None` where they are more than 8.
    pub fn from_slice(alloc: Global, words: &[u32]) -> Option<Args>
        ensures within { IsSome result ↔ (length words.now ≤ most_params) }
        ensures words { IfSome result (λ args. args ≡ words.now) }
    {
        if words.len() > Args::LIMIT {
            return None;
        }
        let words = SmallVec::from_slice(alloc, words).ok()?;
        Some(Args { words })
    }

    /// Adds one argument, `None` where there are 8 already.
    pub fn push(&mut self, word: u32) -> Option<()>
        ensures within { IsSome result ↔ (length self.old < most_params) }
        ensures pushed { OnSome result (self.new ≡ self.old ++ word ∷ []) }
        ensures full { IfNone result (self.new ≡ self.old) }
    {
        if self.words.len() >= Args::LIMIT {
            return None;
        }
        self.words.push_reserved(word);
        Some(())
    }

    /// The words in order.
    pub fn as_slice(&self) -> &[u32]
        ensures words { result.now ≡ self.now }
        ensures within { length result.now ≤ most_params }
    {
        self.words.as_slice()
    }

    /// The same arguments again.
    pub fn copied(&self) -> Args
        ensures { result ≡ self.now }
    {
        Args::from_slice(*self.words.allocator(), self.as_slice()).unwrap()
    }
}

impl PartialEq for Args {
    ghost eq = { pointwise ◌==◌ };

    ghost laws = { Prim.search (comparing, rules) };

    fn eq(&self, other: &Args) -> bool {
        self.as_slice() == other.as_slice()
    }
}

impl Eq for Args {
    ghost laws = { Prim.search (comparing, rules) };
}
