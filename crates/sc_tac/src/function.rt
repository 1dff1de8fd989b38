ghost use Rattle.std.specs.Prelude.{◌≡◌};
ghost use Rattle.sc_tac.specs.Functions.{IsFunction};

use crate::stmt::TacStmts;
use sc_base::Name;
use sc_event::{CompId, Entry};
use sqlite_items::Items;
use std::marker::Model;

/// How many cells each variable of a function has, parameters first.
pub type ObjectCells = Items<u32>;

/// What a function of three-address code is made of.
#[derive(Drop)]
pub struct TacFnTree {
    /// The compartment, by its number.
    pub comp: CompId,
    pub name: Name,
    /// How other compartments, or the start of the run, enter it.
    pub entry: Option<Entry>,
    /// How many parameters it has.
    pub params: u8,
    /// Whether it has a result.
    pub result: bool,
    /// How many temporaries it has: they are the numbers below.
    pub temps: u32,
    pub objects: ObjectCells,
    /// How many nodes its source has.
    pub nodes: u32,
    pub body: TacStmts,
}

/// A function of three-address code that keeps the rules of functions. Contracts see what it is made of.
#[derive(Drop)]
pub struct TacFn {
    tree: TacFnTree,
}

impl Model for TacFn {
    ghost use Rattle.std.specs.Coded.{codes};
    ghost use Rattle.sc_tac.specs.contracts.stmt.TacStmt as tac_stmt;
    ghost use Rattle.sc_tac.specs.declared.function.TacFnTree.{TacFnTree};
    ghost use Rattle.sc_tac.specs.Functions.{IsFunction};

    ghost Value = { TacFnTree };

    ghost coded = { Prim.hlevel (codes, tac_stmt.the_row.coded) };

    ghost view = { λ function. function.tree };

    ghost invariant = { λ function. IsFunction function.tree };

    ghost inverse = { λ tree. record { tree = tree } };
}

impl TacFn {
    /// The function that is made of this.
    pub fn new(tree: TacFnTree) -> TacFn
        requires { IsFunction tree }
        ensures { result ≡ tree }
    {
        TacFn { tree }
    }

    /// What the function is made of.
    pub fn tree(&self) -> &TacFnTree
        ensures tree { result.now ≡ self.now }
        ensures rules { IsFunction self.now }
    {
        &self.tree
    }
}

/// Functions in order.
pub type TacFns = Items<TacFn>;
