ghost use Rattle.std.specs.Prelude.{◌≡◌, ◌++◌, ◌∷◌, [], IfOk};
ghost use Rattle.sc_core.specs.declared.expr.VarRef.TheVariants as var;
ghost use Rattle.sc_types_elab_expr.specs.Scopes.{variable_in};
ghost use Rattle.sc_types_elab_expr.specs.Placed.{placed};

use sc_base::{Name, NameList, OutOfMemory};
use sc_core::{Ty, TypedParam, TypedParams, VarRef};
use sqlite_items::Items;
use std::alloc::Global;
use std::marker::Model;

/// Variables in order, each found by its name. Contracts see the list.
#[derive(Drop)]
pub struct Variables {
    list: TypedParams,
    places: NameList,
}

impl Model for Variables {
    ghost use Rattle.std.specs.Prelude.{◌≡◌, List, map};
    ghost use Rattle.sc_core.specs.declared.section.TypedParam.{TypedParam};

    ghost Value = { List TypedParam };

    ghost view = { λ variables. variables.list };

    ghost invariant = { λ variables. variables.places ≡ map (λ variable. variable.name) variables.list };
}

/// A variable and its type.
#[derive(Clone, Copy)]
pub struct Found {
    variable: VarRef,
    ty: Ty,
}

impl Model for Found {
    ghost use Rattle.sc_types_elab_expr.specs.Scopes as scopes;

    ghost Value = { scopes.Found };

    ghost view = { λ found. record { variable = found.variable; ty = found.ty } };

    ghost inverse = { λ found. record { variable = found.variable; ty = found.ty } };
}

impl Found {
    /// The variable.
    pub fn variable(self) -> VarRef
        ensures { result ≡ self.variable }
    {
        self.variable
    }

    /// Its type.
    pub fn ty(self) -> Ty
        ensures { result ≡ self.ty }
    {
        self.ty
    }
}

impl Variables {
    /// No variables yet.
    pub fn new(alloc: Global) -> Variables
        ensures { result ≡ [] }
    {
        Variables {
            list: Items::new(alloc),
            places: NameList::new(alloc),
        }
    }

    /// The variables and this one after them.
    pub fn with(self, variable: TypedParam) -> Result<Variables, OutOfMemory>
        ensures { IfOk result (λ variables. variables ≡ self ++ variable ∷ []) }
    {
        let Variables {
            mut list,
            mut places,
        } = self;
        places.push(variable.name)?;
        list.push(variable)?;
        Ok(Variables { list, places })
    }

    /// Only the variables.
    pub fn into_list(self) -> TypedParams
        ensures { result ≡ self }
    {
        let Variables { list, places } = self;
        drop(places);
        list
    }

    // The first variable of a name, by its place and its type.
    fn find(&self, name: &Name) -> Option<(u32, Ty)>
        ensures { result ≡ placed self.now name.now }
    {
        let place = self.places.number_of(name)?;
        let variable = self.list.get(place as usize)?;
        Some((place, variable.ty))
    }

    /// The first variable of a name, among globals.
    #[tactic(auto, using(crate::proofs::Scopes::found_in_placed))]
    pub fn global(&self, name: &Name) -> Option<Found>
        ensures { result ≡ variable_in var.Global self.now name.now }
    {
        let (place, ty) = self.find(name)?;
        let variable = VarRef::Global(place);
        Some(Found { variable, ty })
    }

    /// The first variable of a name, among parameters.
    #[tactic(auto, using(crate::proofs::Scopes::found_in_placed))]
    pub fn param(&self, name: &Name) -> Option<Found>
        ensures { result ≡ variable_in var.Param self.now name.now }
    {
        let (place, ty) = self.find(name)?;
        let variable = VarRef::Param(place);
        Some(Found { variable, ty })
    }

    /// The first variable of a name, among locals.
    #[tactic(auto, using(crate::proofs::Scopes::found_in_placed))]
    pub fn local(&self, name: &Name) -> Option<Found>
        ensures { result ≡ variable_in var.Local self.now name.now }
    {
        let (place, ty) = self.find(name)?;
        let variable = VarRef::Local(place);
        Some(Found { variable, ty })
    }
}
