//! Statements without others inside. Code is written from its end: what is done first is written last.

ghost use Rattle.sc_emit_select.specs.Prelude.{a0, a1, as_one, brought, choice, copied, environment_call, keep};
ghost use Rattle.sc_emit_select.specs.Prelude.{load_from, loading, moved_by, object_offset, object_read, object_store};
ghost use Rattle.sc_emit_select.specs.Prelude.{operation, place_of_global, plainly, put, receive, result_register};
ghost use Rattle.sc_emit_select.specs.Prelude.{return, second_operand, short_operation, short_return, store_to, take};
ghost use Rattle.sc_emit_select.specs.Prelude.{take_second, word_of_constant};
ghost use Rattle.std.specs.Prelude.{◌≡◌, ◌++◌, ◌∷◌, [], ◌+◌, ◌<◌, ℕ, OnOk, Some, None, length, slice_get};

use crate::backward::Backward;
use crate::homes::{Homes, register_of};
use crate::operators::{Operands, ShortForm, short_form};
use crate::pieces::{
    A0, A1, A7, FIRST_SCRATCH, SECOND_SCRATCH, SP, ZERO, addi, immediate, load, move_to, register,
    store, upper,
};
use crate::roles::Role;
use rv_code::{BranchOffset, BranchOp, Instr, Reg};
use sc_base::OutOfMemory;
use sc_tac::{Constant, Place, TacOp, Target};

/// The word of a constant: 0 for null.
pub(crate) fn word_of_constant(value: Constant) -> u32
    ensures { result ≡ word_of_constant value }
{
    match value {
        Constant::Word(word) => word,
        Constant::Null => 0,
    }
}

impl Backward {
    /// The value of a temporary is at hand.
    pub fn take(&mut self, homes: &Homes, scratch: Reg, temp: u32) -> Result<(), OutOfMemory>
        ensures { OnOk result (self.new ≡
            plainly (take homes.now.frame.now homes.now.places.now scratch temp) ++ self.old) }
    {
        match homes.place_of(temp) {
            Some(Place::Slot(slot)) => self.load_word(scratch, homes.slot_offset(slot)),
            _ => Ok(()),
        }
    }

    // What was computed at hand goes to its temporary.
    fn keep(&mut self, homes: &Homes, temp: u32) -> Result<(), OutOfMemory>
        ensures { OnOk result (self.new ≡ plainly (keep homes.now.frame.now homes.now.places.now temp) ++ self.old) }
    {
        match homes.place_of(temp) {
            Some(Place::Slot(slot)) => {
                self.store_word(register(FIRST_SCRATCH), homes.slot_offset(slot))
            }
            _ => Ok(()),
        }
    }

    /// The value of a temporary into a register.
    pub fn bring(&mut self, homes: &Homes, rd: Reg, temp: u32) -> Result<(), OutOfMemory>
        ensures { OnOk result (self.new ≡
            plainly (brought homes.now.frame.now rd (slice_get homes.now.places.now temp)) ++ self.old) }
    {
        match homes.place_of(temp) {
            Some(Place::Register(register)) => self.plain(move_to(rd, register_of(register))),
            Some(Place::Slot(slot)) => self.load_word(rd, homes.slot_offset(slot)),
            None => Ok(()),
        }
    }

    // A register into a temporary.
    fn put(&mut self, homes: &Homes, rs: Reg, temp: u32) -> Result<(), OutOfMemory>
        ensures { OnOk result (self.new ≡
            plainly (put homes.now.frame.now rs (slice_get homes.now.places.now temp)) ++ self.old) }
    {
        match homes.place_of(temp) {
            Some(Place::Register(register)) => self.plain(move_to(register_of(register), rs)),
            Some(Place::Slot(slot)) => self.store_word(rs, homes.slot_offset(slot)),
            None => Ok(()),
        }
    }

    /// A temporary gets a constant.
    pub fn constant(&mut self, homes: &Homes, dest: u32, value: Constant) -> Result<(), OutOfMemory>
        ensures { OnOk result (self.new ≡
            plainly (loading (result_register homes.now.frame.now homes.now.places.now dest) (word_of_constant value) ++
            keep homes.now.frame.now homes.now.places.now dest) ++ self.old) }
    {
        self.keep(homes, dest)?;
        self.loading(
            homes.operand(register(FIRST_SCRATCH), dest),
            word_of_constant(value),
        )
    }

    /// A temporary gets what another holds.
    pub fn copy(&mut self, homes: &Homes, dest: u32, from: u32) -> Result<(), OutOfMemory>
        ensures { OnOk result (self.new ≡
            plainly (copied homes.now.frame.now (slice_get homes.now.places.now dest)
            (slice_get homes.now.places.now from)) ++ self.old) }
    {
        match homes.place_of(dest) {
            Some(Place::Register(register)) => self.bring(homes, register_of(register), from),
            Some(Place::Slot(slot)) => {
                let scratch = register(FIRST_SCRATCH);
                self.store_word(homes.operand(scratch, from), homes.slot_offset(slot))?;
                self.take(homes, scratch, from)
            }
            None => Ok(()),
        }
    }

    fn take_second(&mut self, homes: &Homes, temp: Option<u32>) -> Result<(), OutOfMemory>
        ensures { OnOk result (self.new ≡
            plainly (take_second homes.now.frame.now homes.now.places.now temp) ++ self.old) }
    {
        match temp {
            Some(temp) => self.take(homes, register(SECOND_SCRATCH), temp),
            None => Ok(()),
        }
    }

    /// A temporary gets the result of an operator.
    pub fn operation(
        &mut self,
        homes: &Homes,
        dest: u32,
        op: TacOp,
        left: u32,
        right: Option<u32>,
    ) -> Result<(), OutOfMemory>
        ensures { OnOk result (self.new ≡
            plainly (operation homes.now.frame.now homes.now.places.now dest op left right) ++ self.old) }
    {
        let first = register(FIRST_SCRATCH);
        self.keep(homes, dest)?;
        self.op_code(
            op,
            Operands {
                rd: homes.operand(first, dest),
                left: homes.operand(first, left),
                right: second_operand(homes, right),
            },
        )?;
        self.take_second(homes, right)?;
        self.take(homes, first, left)
    }

    /// A temporary gets the address of a variable's object.
    pub fn object_place(&mut self, homes: &Homes, dest: u32, object: u32) -> Result<(), OutOfMemory>
        ensures { OnOk result (self.new ≡
            plainly (moved_by (result_register homes.now.frame.now homes.now.places.now dest) 2
            (object_offset homes.now.frame.now object) ++ keep homes.now.frame.now homes.now.places.now dest) ++
            self.old) }
    {
        self.keep(homes, dest)?;
        let rd = homes.operand(register(FIRST_SCRATCH), dest);
        self.moved_by(rd, register(SP), homes.object_offset(object))
    }

    // A temporary gets the word of a variable.
    fn object_read(&mut self, homes: &Homes, dest: u32, object: u32) -> Result<(), OutOfMemory>
        ensures { OnOk result (self.new ≡
            plainly (object_read homes.now.frame.now homes.now.places.now dest object) ++ self.old) }
    {
        self.keep(homes, dest)?;
        let rd = homes.operand(register(FIRST_SCRATCH), dest);
        self.load_word(rd, homes.object_offset(object))
    }

    // A temporary into a variable's word.
    fn object_store(&mut self, homes: &Homes, value: u32, object: u32) -> Result<(), OutOfMemory>
        ensures { OnOk result (self.new ≡
            plainly (object_store homes.now.frame.now homes.now.places.now value object) ++ self.old) }
    {
        let second = register(SECOND_SCRATCH);
        self.store_word(homes.operand(second, value), homes.object_offset(object))?;
        self.take(homes, second, value)
    }

    // A temporary gets what an operator gives of another and a constant.
    fn short_operation(
        &mut self,
        homes: &Homes,
        dest: u32,
        left: u32,
        form: Option<ShortForm>,
    ) -> Result<(), OutOfMemory>
        ensures { OnOk result (self.new ≡
            plainly (short_operation homes.now.frame.now homes.now.places.now dest left form) ++ self.old) }
    {
        let first = register(FIRST_SCRATCH);
        self.keep(homes, dest)?;
        self.short_code(homes.operand(first, dest), homes.operand(first, left), form)?;
        self.take(homes, first, left)
    }

    // The end of a call that returns what an operator gives of a temporary and a constant.
    fn short_return(
        &mut self,
        homes: &Homes,
        left: u32,
        form: Option<ShortForm>,
    ) -> Result<(), OutOfMemory>
        ensures { OnOk result (self.new ≡
            plainly (short_return homes.now.frame.now homes.now.places.now left form) ++ self.old) }
    {
        let first = register(FIRST_SCRATCH);
        self.epilogue(homes.frame.tree().bytes)?;
        self.short_code(register(A0), homes.operand(first, left), form)?;
        self.take(homes, first, left)
    }

    /// The code of two statements of these roles that are one piece.
    pub fn as_one(&mut self, homes: &Homes, first: Role, second: Role) -> Result<(), OutOfMemory>
        ensures { (to_break to_continue : ℕ) → OnOk result (self.new ≡
            (as_one homes.now.frame.now homes.now.places.now first second).lines to_break to_continue ++ self.old) }
    {
        match (first, second) {
            (Role::Places { temp, object }, Role::Loads { .. }) => self.object_read(
                homes, temp, object,
            ),
            (Role::Places { object, .. }, Role::Stores { value, .. }) => {
                self.object_store(homes, value, object)
            }
            (Role::Sets { word, .. }, Role::Operates { dest, left, op, .. }) => {
                self.short_operation(homes, dest, left, short_form(op, word))
            }
            (Role::Applies { left, op, word, .. }, Role::Returns { .. }) => self.short_return(
                homes,
                left,
                short_form(op, word),
            ),
            _ => Ok(()),
        }
    }

    /// A temporary gets the address of a global.
    pub fn global_place(&mut self, homes: &Homes, dest: u32, global: u32) -> Result<(), OutOfMemory>
        ensures { OnOk result (self.new ≡
            place_of_global homes.now.frame.now homes.now.places.now dest global ++ self.old) }
    {
        let rd = homes.operand(register(FIRST_SCRATCH), dest);
        self.keep(homes, dest)?;
        self.plain(addi(rd, rd, immediate(0)))?;
        self.referring(Target::Global(global), upper(rd))
    }

    /// A temporary gets the word at an address.
    pub fn load_from(&mut self, homes: &Homes, dest: u32, place: u32) -> Result<(), OutOfMemory>
        ensures { OnOk result (self.new ≡
            plainly (load_from homes.now.frame.now homes.now.places.now dest place) ++ self.old) }
    {
        let first = register(FIRST_SCRATCH);
        self.keep(homes, dest)?;
        self.plain(load(
            homes.operand(first, dest),
            homes.operand(first, place),
            immediate(0),
        ))?;
        self.take(homes, first, place)
    }

    /// A value goes to an address.
    pub fn store_to(&mut self, homes: &Homes, place: u32, value: u32) -> Result<(), OutOfMemory>
        ensures { OnOk result (self.new ≡
            plainly (store_to homes.now.frame.now homes.now.places.now place value) ++ self.old) }
    {
        let first = register(FIRST_SCRATCH);
        let second = register(SECOND_SCRATCH);
        self.plain(store(
            homes.operand(first, place),
            homes.operand(second, value),
            immediate(0),
        ))?;
        self.take(homes, second, value)?;
        self.take(homes, first, place)
    }

    /// The branch of an `If`.
    pub fn choice(&mut self, homes: &Homes, cond: u32) -> Result<(), OutOfMemory>
        ensures { OnOk result (self.new ≡
            plainly (choice homes.now.frame.now homes.now.places.now cond) ++ self.old) }
    {
        let first = register(FIRST_SCRATCH);
        self.plain(Instr::Branch {
            op: BranchOp::Bne,
            rs1: homes.operand(first, cond),
            rs2: register(ZERO),
            imm: BranchOffset::new(8).unwrap(),
        })?;
        self.take(homes, first, cond)
    }

    /// The end of a call.
    pub fn return_value(&mut self, homes: &Homes, value: Option<u32>) -> Result<(), OutOfMemory>
        ensures { OnOk result (self.new ≡
            plainly (return homes.now.frame.now homes.now.places.now value) ++ self.old) }
    {
        self.epilogue(homes.frame.tree().bytes)?;
        match value {
            Some(value) => self.bring(homes, register(A0), value),
            None => Ok(()),
        }
    }

    /// What a call gave to where it is wanted.
    pub fn receive(&mut self, homes: &Homes, dest: Option<u32>) -> Result<(), OutOfMemory>
        ensures { OnOk result (self.new ≡
            plainly (receive homes.now.frame.now homes.now.places.now dest) ++ self.old) }
    {
        match dest {
            Some(dest) => self.put(homes, register(A0), dest),
            None => Ok(()),
        }
    }

    fn environment_call(&mut self, number: u8) -> Result<(), OutOfMemory>
        ensures { OnOk result (self.new ≡ plainly (environment_call number) ++ self.old) }
    {
        self.plain(Instr::Ecall)?;
        self.plain(addi(register(A7), register(ZERO), immediate(i32::from(number))))
    }

    /// A call of `input`.
    pub fn input(&mut self, homes: &Homes, dest: Option<u32>) -> Result<(), OutOfMemory>
        ensures { OnOk result (self.new ≡
            plainly (environment_call 1 ++ receive homes.now.frame.now homes.now.places.now dest) ++ self.old) }
    {
        self.receive(homes, dest)?;
        self.environment_call(1)
    }

    /// A call of `output`.
    pub fn output(&mut self, homes: &Homes, value: u32) -> Result<(), OutOfMemory>
        ensures { OnOk result (self.new ≡
            plainly (brought homes.now.frame.now a0 (slice_get homes.now.places.now value) ++ environment_call 2) ++
            self.old) }
    {
        self.environment_call(2)?;
        self.bring(homes, register(A0), value)
    }

    /// A temporary gets the place of a new block, of as many elements as another says, of `words` cells each.
    pub fn allocate(
        &mut self,
        homes: &Homes,
        dest: u32,
        count: u32,
        words: u32,
    ) -> Result<(), OutOfMemory>
        ensures { OnOk result (self.new ≡
            plainly (brought homes.now.frame.now a0 (slice_get homes.now.places.now count) ++ loading a1 words ++
            environment_call 3 ++ put homes.now.frame.now a0 (slice_get homes.now.places.now dest)) ++ self.old) }
    {
        self.put(homes, register(A0), dest)?;
        self.environment_call(3)?;
        self.loading(register(A1), words)?;
        self.bring(homes, register(A0), count)
    }

    /// What a temporary points to is given back.
    pub fn free(&mut self, homes: &Homes, pointer: u32) -> Result<(), OutOfMemory>
        ensures { OnOk result (self.new ≡
            plainly (brought homes.now.frame.now a0 (slice_get homes.now.places.now pointer) ++ environment_call 4) ++
            self.old) }
    {
        self.environment_call(4)?;
        self.bring(homes, register(A0), pointer)
    }
}

fn second_operand(homes: &Homes, temp: Option<u32>) -> Reg
    ensures { result ≡ second_operand homes.now.frame.now homes.now.places.now temp }
{
    match temp {
        Some(temp) => homes.operand(register(SECOND_SCRATCH), temp),
        None => register(ZERO),
    }
}
