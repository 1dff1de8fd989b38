ghost use Rattle.std.specs.Prelude.{◌≡◌, [], slice_get};
ghost use Rattle.std.specs.Option.{option_copied};
ghost use Rattle.sc_types_elab_expr.specs.Called.{called, imported};

use sc_base::{Name, NameList};
use sc_core::{CallTarget, Ty};
use sqlite_items::Items;
use std::marker::Model;

/// The types of a function's parameters and of its result.
#[derive(Drop)]
pub struct Signature {
    pub params: Items<Ty>,
    pub result: Option<Ty>,
}

impl Model for Signature {
    ghost use Rattle.sc_core.specs.Typing as typing;

    ghost Value = { typing.Signature };

    ghost view = { λ signature. record { params = signature.params; result = signature.result } };
}

impl Signature {
    /// The types of the parameters.
    pub fn params(&self) -> &[Ty]
        ensures { result.now ≡ self.now.params }
    {
        self.params.as_slice()
    }

    /// The type of the result, which is absent for `void`.
    pub fn result(&self) -> Option<Ty>
        ensures { result ≡ self.now.result }
    {
        self.result
    }
}

/// What a section calls by name: the heads by which calls are typed, with their types, the section's functions, and
/// what it imports, with whom that calls.
#[derive(Drop)]
pub struct Callees {
    pub heads: NameList,
    pub signatures: Items<Signature>,
    pub functions: NameList,
    pub imports: NameList,
    pub targets: Items<CallTarget>,
}

impl Callees {
    /// The types by which a call of this name is typed.
    pub fn signature(&self, name: &Name) -> Option<&Signature>
        ensures { option_copied result ≡ (called self.now).signature name.now }
    {
        let place = self.heads.number_of(name)?;
        self.signatures.get(place as usize)
    }

    /// Who is called by this name.
    pub fn target(&self, name: &Name) -> CallTarget
        ensures { result ≡ (called self.now).target name.now }
    {
        match self.functions.number_of(name) {
            Some(place) => CallTarget::Own(place),
            None => self.imported(name).unwrap_or(CallTarget::Own(0)),
        }
    }

    // Who is called by the first import of this name.
    fn imported(&self, name: &Name) -> Option<CallTarget>
        ensures { result ≡ imported self.now name.now }
    {
        let place = self.imports.number_of(name)?;
        self.targets.get(place as usize).copied()
    }
}
