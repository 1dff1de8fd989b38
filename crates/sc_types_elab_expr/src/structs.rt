ghost use Rattle.std.specs.Prelude.{◌≡◌, ◌++◌, ◌∷◌, [], map, slice_get, Some, IfOk};
ghost use Rattle.sc_ast.specs.Height.{limited};
ghost use Rattle.sc_core.specs.Types.{struct_cells, starred_cells, cells_of};
ghost use Rattle.sc_types_elab_expr.specs.Scopes.{member_named, struct_of};
ghost use Rattle.sc_types_elab_expr.specs.Placed.{member_names};

use sc_base::{Name, NameList, OutOfMemory};
use sc_core::{BaseTy, Ty, TypedMember, TypedStruct, TypedStructs};
use sqlite_items::Items;
use std::alloc::Global;
use std::marker::Model;

/// The cells of a variable, and of a struct, are at most this many.
pub const MOST_CELLS: u32 = 1_048_576;

/// Structs in order, with their members found by name. Contracts see the list.
#[derive(Drop)]
pub struct Structs {
    list: TypedStructs,
    members: Items<NameList>,
}

impl Model for Structs {
    ghost use Rattle.std.specs.Prelude.{◌≡◌, List, map};
    ghost use Rattle.sc_core.specs.declared.section.TypedStruct.{TypedStruct};
    ghost use Rattle.sc_types_elab_expr.specs.Placed.{member_names};

    ghost Value = { List TypedStruct };

    ghost view = { λ structs. structs.list };

    ghost invariant = { λ structs. structs.members ≡ map member_names structs.list };
}

impl Structs {
    /// No structs yet.
    pub fn new(alloc: Global) -> Structs
        ensures { result ≡ [] }
    {
        Structs {
            list: Items::new(alloc),
            members: Items::new(alloc),
        }
    }

    /// The structs and this one, whose members have these names, after them.
    pub fn with(self, tree: TypedStruct, names: NameList) -> Result<Structs, OutOfMemory>
        requires { names ≡ member_names tree }
        ensures { IfOk result (λ structs. structs ≡ self ++ tree ∷ []) }
    {
        let Structs {
            mut list,
            mut members,
        } = self;
        list.push(tree)?;
        members.push(names)?;
        Ok(Structs { list, members })
    }

    /// Only the structs.
    pub fn into_list(self) -> TypedStructs
        ensures { result ≡ self }
    {
        let Structs { list, members } = self;
        drop(members);
        list
    }

    /// The cells of the struct of this number, 0 where there is none.
    pub fn cells(&self, number: usize) -> u32
        ensures { result ≡ struct_cells (slice_get self.now number) }
    {
        match self.list.get(number) {
            None => 0,
            Some(tree) => tree.cells,
        }
    }

    // The cells of a type with this number of `*`.
    fn starred_cells(&self, stars: u64, base: BaseTy) -> u32
        ensures { result ≡ starred_cells self.now stars base }
    {
        if stars > 0 {
            return 1;
        }
        match base {
            BaseTy::Int => 1,
            BaseTy::Unsigned => 1,
            BaseTy::Struct(number) => self.cells(number as usize),
        }
    }

    /// The cells of a variable of this type, as a number that stops at 4294967295.
    pub fn cells_of(&self, ty: Ty) -> u32
        ensures { result ≡ limited (cells_of self.now ty) }
    {
        match ty {
            Ty::Struct(number) => self.cells(number as usize),
            Ty::Array {
                stars,
                base,
                length,
            } => length.saturating_mul(self.starred_cells(stars, base)),
            _ => 1,
        }
    }

    // The first member of a name, in the struct of this number.
    #[tactic(auto, using(crate::proofs::Scopes::members))]
    fn member_at(&self, number: u32, name: &Name) -> Option<TypedMember>
        ensures { result ≡ member_named name.now (slice_get self.now number) }
    {
        let tree = self.list.get(number as usize)?;
        let names = self.members.get(number as usize)?;
        member_named(tree, names, name)
    }

    /// The first member of a name, in a struct of this type.
    pub fn member(&self, ty: Option<Ty>, name: &Name) -> Option<TypedMember>
        ensures { result ≡ member_named name.now (struct_of self.now ty) }
    {
        match ty {
            Some(Ty::Struct(number)) => self.member_at(number, name),
            _ => None,
        }
    }
}

// The first member of a name, where the members have these.
#[tactic(auto, using(crate::proofs::Scopes::members))]
fn member_named(tree: &TypedStruct, names: &NameList, name: &Name) -> Option<TypedMember>
    requires { names.now ≡ member_names tree.now }
    ensures { result ≡ member_named name.now (Some tree.now) }
{
    let place = names.number_of(name)?;
    tree.members.get(place as usize).copied()
}
