ghost use Rattle.std.specs.Prelude.{◌≡◌};
ghost use Rattle.sc_core.specs.WellTyped.{IsWellTyped};

use crate::section::TypedSections;
use sc_event::Interfaces;
use std::marker::Model;

/// What a program is made of: what its compartments export and import, and their sections.
#[derive(Drop)]
pub struct ProgramTree {
    pub interfaces: Interfaces,
    pub sections: TypedSections,
}

/// A whole program, which is well typed. Contracts see its tree.
#[derive(Drop)]
pub struct Program {
    tree: ProgramTree,
}

impl Model for Program {
    ghost use Rattle.std.specs.Coded.{codes};
    ghost use Rattle.sc_core.specs.contracts.expr.TypedExpr as typed_expr;
    ghost use Rattle.sc_core.specs.contracts.stmt.TypedStmt as typed_stmt;
    ghost use Rattle.sc_core.specs.declared.program.ProgramTree.{ProgramTree};
    ghost use Rattle.sc_core.specs.WellTyped.{IsWellTyped};

    ghost Value = { ProgramTree };

    ghost coded = { Prim.hlevel (codes, typed_expr.the_row.coded, typed_stmt.the_row.coded) };

    ghost view = { λ program. program.tree };

    ghost invariant = { λ program. IsWellTyped program.tree };
}

impl Program {
    /// The program of this tree.
    pub fn new(tree: ProgramTree) -> Program
        requires { IsWellTyped tree }
        ensures { result ≡ tree }
    {
        Program { tree }
    }

    /// What the program is made of.
    pub fn tree(&self) -> &ProgramTree
        ensures tree { result.now ≡ self.now }
        ensures typed { IsWellTyped self.now }
    {
        &self.tree
    }

    /// What the compartments export and import.
    pub fn interfaces(&self) -> &Interfaces
        ensures { result.now ≡ self.now.interfaces }
    {
        &self.tree.interfaces
    }
}
