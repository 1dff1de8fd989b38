ghost use Rattle.std.specs.Prelude.{◌≡◌};
ghost use Rattle.sc_tac.specs.Programs.{IsProgram};

use crate::function::TacFns;
use sc_core::{TypedGlobals, TypedStructs};
use sc_event::Interfaces;
use sqlite_items::Items;
use std::marker::Model;

/// A compartment's section as three-address code, with the structs and globals of its source.
#[derive(Drop)]
pub struct TacSection {
    pub structs: TypedStructs,
    pub globals: TypedGlobals,
    pub functions: TacFns,
}

/// Sections in order, one for each compartment.
pub type TacSections = Items<TacSection>;

/// What a program of three-address code is made of.
#[derive(Drop)]
pub struct TacTree {
    pub interfaces: Interfaces,
    pub sections: TacSections,
}

/// A program of three-address code that keeps the rules of programs. Contracts see what it is made of.
#[derive(Drop)]
pub struct Tac {
    tree: TacTree,
}

impl Model for Tac {
    ghost use Rattle.std.specs.Coded.{codes};
    ghost use Rattle.sc_tac.specs.contracts.stmt.TacStmt as tac_stmt;
    ghost use Rattle.sc_tac.specs.declared.program.TacTree.{TacTree};
    ghost use Rattle.sc_tac.specs.Programs.{IsProgram};

    ghost Value = { TacTree };

    ghost coded = { Prim.hlevel (codes, tac_stmt.the_row.coded) };

    ghost view = { λ program. program.tree };

    ghost invariant = { λ program. IsProgram program.tree };
}

impl Tac {
    /// The program that is made of this.
    pub fn new(tree: TacTree) -> Tac
        requires { IsProgram tree }
        ensures { result ≡ tree }
    {
        Tac { tree }
    }

    /// What the program is made of.
    pub fn tree(&self) -> &TacTree
        ensures tree { result.now ≡ self.now }
        ensures rules { IsProgram self.now }
    {
        &self.tree
    }
}
