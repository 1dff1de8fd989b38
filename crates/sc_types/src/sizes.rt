//! How many cells types take. Numbers stop at 4294967295.

ghost use Rattle.std.specs.Prelude.{◌≡◌, IfOk};
ghost use Rattle.sc_core.specs.declared.ty.Ty.TheVariants as ty;
ghost use Rattle.sc_types_scope.specs.Declarations.{struct_names};
ghost use Rattle.sc_types_elab.specs.Prelude.{type_of_name};
ghost use Rattle.sc_types.specs.Counts.{is_small, type_in};

use sc_ast::{SectionTree, TypeName, TypeTree};
use sc_base::{NameList, OutOfMemory};
use sc_core::Ty;
use sc_types_elab::{MOST_CELLS, Structs, build_structs, build_tags, type_of, type_of_name};
use std::alloc::Global;
use std::marker::Model;

/// The structs of a section, by their tags. Contracts see the section.
#[derive(Drop)]
pub struct Sizes<'a> {
    section: &'a SectionTree,
    tags: NameList,
    structs: Structs,
}

impl<'a> Model for Sizes<'a> {
    ghost use Rattle.std.specs.Coded.{codes};
    ghost use Rattle.sc_ast.specs.contracts.expr.ExprTree as expr_tree;
    ghost use Rattle.sc_ast.specs.contracts.stmt.StmtTree as stmt_tree;
    ghost use Rattle.sc_ast.specs.declared.section.SectionTree.{SectionTree};
    ghost use Rattle.sc_types.specs.Measured.{IsMeasured};

    ghost Value = { SectionTree };

    ghost coded = { Prim.hlevel (codes, expr_tree.the_row.coded, stmt_tree.the_row.coded) };

    ghost view = { λ sizes. sizes.section.now };

    ghost invariant = { λ sizes. IsMeasured sizes.section.now sizes.tags sizes.structs };
}

impl<'a> Sizes<'a> {
    /// Measures the structs of a section.
    pub fn new(alloc: Global, section: &'a SectionTree) -> Result<Sizes<'a>, OutOfMemory>
        ensures { IfOk result (λ sizes. sizes ≡ section.now) }
    {
        let tags = build_tags(alloc, section.decls.as_slice())?;
        let structs = build_structs(alloc, &tags, section.decls.as_slice())?;
        Ok(Sizes {
            section,
            tags,
            structs,
        })
    }

    // Whether a variable of this type has no more cells than are allowed.
    #[tactic(auto, using(crate::proofs::Noted::measures))]
    fn is_within(&self, ty: Ty) -> bool
        ensures { result ≡ is_small self.now ty }
    {
        self.structs.cells_of(ty) <= MOST_CELLS
    }

    /// Whether a variable of this type has no more cells than are allowed.
    #[tactic(auto, using(crate::proofs::Noted::measures))]
    pub fn is_small(&self, ty: &TypeTree) -> bool
        ensures { result ≡ is_small self.now (type_in self.now ty.now) }
    {
        self.is_within(type_of(&self.tags, ty))
    }

    /// Whether a parameter of this type has no more cells than are allowed.
    #[tactic(auto, using(crate::proofs::Noted::measures))]
    pub fn is_small_param(&self, ty: &TypeName) -> bool
        ensures { result ≡ is_small self.now (type_of_name (struct_names self.now.decls) ty.now) }
    {
        self.is_within(type_of_name(&self.tags, ty))
    }

    /// Whether the struct of this number has no more cells than are allowed.
    #[tactic(auto, using(crate::proofs::Noted::measures))]
    pub fn is_small_struct(&self, number: usize) -> bool
        ensures { result ≡ is_small self.now (ty.Struct number) }
    {
        self.structs.cells(number) <= MOST_CELLS
    }
}
