ghost use Rattle.sc_base.specs.Prelude.{most_params};
ghost use Rattle.std.specs.Prelude.{◌≡◌, ◌≤◌, ◌<◌, ◌↔◌, [], ◌∷◌, ◌++◌, length, IsSome, IfSome, OnSome, IfNone};

use crate::Scalar;
use smallvec::SmallVec;
use std::alloc::Global;
use std::marker::Model;

/// The types of a function's parameters, at most 8, kept without memory of their own. Contracts see the list.
#[derive(Debug, Drop)]
pub struct Params {
    scalars: SmallVec<Scalar, 8>,
}

impl Model for Params {
    ghost use Rattle.sc_base.specs.Prelude.{most_params};
    ghost use Rattle.std.specs.Prelude.{List, ◌≤◌, length};
    ghost use Rattle.sc_event.specs.declared.interface.Scalar.{Scalar};

    ghost Value = { List Scalar };

    ghost view = { λ params. params.scalars.items };

    ghost invariant = { λ params. (length params.scalars.items ≤ most_params) ×
        (most_params ≤ params.scalars.capacity) };
}

impl Params {
    /// How many parameters a function has at most.
    pub const LIMIT: usize = 8;

    /// No parameters yet.
    pub fn new(alloc: Global) -> Params
        ensures { result ≡ [] }
    {
        Params {
            scalars: SmallVec::new(alloc),
        }
    }

    /// These types, `None` where they are more than 8.
    pub fn from_slice(alloc: Global, scalars: &[Scalar]) -> Option<Params>
        ensures within { IsSome result ↔ (length scalars.now ≤ most_params) }
        ensures scalars { IfSome result (λ params. params ≡ scalars.now) }
    {
        if scalars.len() > Params::LIMIT {
            return None;
        }
        let scalars = SmallVec::from_slice(alloc, scalars).ok()?;
        Some(Params { scalars })
    }

    /// Adds one parameter, `None` where there are 8 already.
    pub fn push(&mut self, scalar: Scalar) -> Option<()>
        ensures within { IsSome result ↔ (length self.old < most_params) }
        ensures pushed { OnSome result (self.new ≡ self.old ++ scalar ∷ []) }
        ensures full { IfNone result (self.new ≡ self.old) }
    {
        if self.scalars.len() >= Params::LIMIT {
            return None;
        }
        self.scalars.push_reserved(scalar);
        Some(())
    }

    /// The types in order.
    pub fn as_slice(&self) -> &[Scalar]
        ensures scalars { result.now ≡ self.now }
        ensures within { length result.now ≤ most_params }
    {
        self.scalars.as_slice()
    }
}
