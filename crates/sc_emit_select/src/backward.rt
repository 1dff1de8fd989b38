ghost use Rattle.std.specs.Prelude.{◌≡◌, ◌<◌, ◌++◌, [], ◌∷◌, List, length, MatchOption, OnOk};
ghost use Rattle.sc_emit_select.specs.Lines.{Line, plain, referring};

use rv_code::Instr;
use sc_base::OutOfMemory;
use sc_tac::{Instrs, Target};
use sqlite_items::Items;
use std::alloc::Global;
use std::marker::Model;

/// Lines of code that are written from the last one to the first, so that a jump forward knows how far it leads.
#[derive(Drop)]
pub struct Backward {
    // The last ones first.
    instrs: Instrs,
    targets: Items<Option<Target>>,
}

impl Model for Backward {
    ghost use Rattle.std.specs.Prelude.{◌≡◌, List, length, reverse};
    ghost use Rattle.sc_emit_select.specs.Lines.{Line, lines_of};

    ghost Value = { List Line };

    ghost view = { λ code. reverse (lines_of code.instrs code.targets) };

    ghost invariant = { λ code. length code.instrs ≡ length code.targets };
}

impl Backward {
    pub fn new(alloc: Global) -> Backward
        ensures { result ≡ [] }
    {
        Backward {
            instrs: Instrs::new(alloc),
            targets: Items::new(alloc),
        }
    }

    /// How many lines there are.
    #[tactic(auto, using(crate::proofs::Lines::reversed_length))]
    pub fn len(&self) -> usize
        ensures { result ≡ length self.now }
    {
        self.instrs.len()
    }

    #[tactic(auto, using(crate::proofs::Lines::pushed))]
    fn prepend(&mut self, instr: Instr, target: Option<Target>) -> Result<(), OutOfMemory>
        ensures { OnOk result (self.new ≡ record { instr = instr; target = target } ∷ self.old) }
    {
        self.instrs.push(instr)?;
        if self.targets.push(target).is_err() {
            self.instrs.pop();
            return Err(OutOfMemory);
        }
        Ok(())
    }

    /// Prepends an instruction that refers to nothing.
    pub fn plain(&mut self, instr: Instr) -> Result<(), OutOfMemory>
        ensures { OnOk result (self.new ≡ plain instr ∷ self.old) }
    {
        self.prepend(instr, None)
    }

    /// Prepends an instruction that refers to a target.
    pub fn referring(&mut self, target: Target, instr: Instr) -> Result<(), OutOfMemory>
        ensures { OnOk result (self.new ≡ referring target instr ∷ self.old) }
    {
        self.prepend(instr, Some(target))
    }

    /// Takes the first line away.
    #[tactic(auto, using(crate::proofs::Lines::first_taken, crate::proofs::Lines::none_left))]
    pub fn first(&mut self) -> Option<(Instr, Option<Target>)>
        ensures { MatchOption result ((self.old ≡ []) × (self.new ≡ [])) (λ line. self.old ≡
            record { instr = line.0; target = line.1 } ∷ self.new) }
    {
        let instr = self.instrs.pop()?;
        let target = self.targets.pop()?;
        Some((instr, target))
    }

    /// Puts another instruction in the place of the one that has `following` lines after it.
    #[tactic(auto, using(crate::proofs::Lines::replaced, crate::proofs::Lines::reversed_length))]
    pub fn replace(&mut self, following: usize, instr: Instr)
        requires { following < length self.now }
        ensures { (prefix rest : List Line) (line : Line) → self.old ≡ prefix ++ line ∷ rest → length rest ≡ following →
            self.new ≡ prefix ++ record line { instr = instr } ∷ rest }
    {
        self.instrs.set(following, instr);
    }
}
