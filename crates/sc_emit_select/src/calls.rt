//! Calls of functions.

ghost use Rattle.sc_emit_select.specs.Prelude.{Jal, a0, call_cross, call_own, pass, plainly, receive};
ghost use Rattle.std.specs.Prelude.{◌≡◌, ◌≤◌, ◌++◌, OnOk, length};

use crate::backward::Backward;
use crate::homes::Homes;
use crate::pieces::{A0, FIRST_SCRATCH, RA, immediate, register, upper};
use rv_code::{Instr, JumpOffset};
use sc_base::OutOfMemory;
use sc_event::CompId;
use sc_tac::{Target, Temps};

impl Backward {
    /// Arguments into their registers. There are at most 8.
    fn pass(&mut self, homes: &Homes, args: &Temps) -> Result<(), OutOfMemory>
        requires { length args.now ≤ 8 }
        ensures { OnOk result (self.new ≡
            plainly (pass homes.now.frame.now homes.now.places.now a0 args.now) ++ self.old) }
    {
        let args = args.as_slice();
        for at in (0..args.len()).rev() {
            self.bring(homes, register(A0 + at as u8), args[at])?;
        }
        Ok(())
    }

    /// A call of a function of the compartment.
    pub fn call_own(
        &mut self,
        homes: &Homes,
        dest: Option<u32>,
        function: u32,
        args: &Temps,
    ) -> Result<(), OutOfMemory>
        requires { length args.now ≤ 8 }
        ensures { OnOk result (self.new ≡
            call_own homes.now.frame.now homes.now.places.now dest function args.now ++ self.old) }
    {
        self.receive(homes, dest)?;
        self.referring(
            Target::Function(function),
            Instr::Jal {
                rd: register(RA),
                imm: JumpOffset::new(0).unwrap(),
            },
        )?;
        self.pass(homes, args)
    }

    /// A call of an export of another compartment.
    pub fn call_cross(
        &mut self,
        homes: &Homes,
        dest: Option<u32>,
        comp: CompId,
        index: u16,
        args: &Temps,
    ) -> Result<(), OutOfMemory>
        requires { length args.now ≤ 8 }
        ensures { OnOk result (self.new ≡
            call_cross homes.now.frame.now homes.now.places.now dest comp index args.now ++ self.old) }
    {
        let scratch = register(FIRST_SCRATCH);
        self.receive(homes, dest)?;
        self.plain(Instr::Jalr {
            rd: register(RA),
            rs1: scratch,
            imm: immediate(0),
        })?;
        self.referring(Target::Entry(comp, index), upper(scratch))?;
        self.pass(homes, args)
    }
}
