ghost use Rattle.rv_code.specs.Prelude.{IsReg};
ghost use Rattle.sc_image.specs.Prelude.{written};
ghost use Rattle.sc_registers.specs.Registers.{advanced, linked, written_at_next};
ghost use Rattle.sc_word.specs.Prelude.{add_word, word_of};
ghost use Rattle.std.specs.Prelude.{◌≡◌, ◌+◌, ◌^◌, ◌<◌, slice_index};

use rv_code::{Immediate, Reg};
use sc_word::add;

/// The immediate's word.
pub fn word_of(imm: Immediate) -> u32
    ensures { result ≡ word_of imm }
{
    imm.value().cast_unsigned()
}

/// The registers and the pc.
#[derive(Drop)]
pub struct Core {
    /// x0 to x31.
    pub registers: [u32; 32],
    pub pc: u32,
}

impl Core {
    /// The register's word.
    pub fn register(&self, number: Reg) -> u32
        ensures { result ≡ slice_index self.now.registers number }
    {
        self.registers[number.number() as usize]
    }

    /// A register plus an immediate, which wraps.
    pub fn displaced(&self, number: Reg, imm: Immediate) -> u32
        ensures { result ≡ add_word (slice_index self.now.registers number) (word_of imm) }
    {
        add(self.register(number), word_of(imm))
    }

    /// Writes a register. x0 stays 0.
    pub fn set(&mut self, number: u8, word: u32)
        requires { IsReg number }
        ensures registers { self.new.registers ≡ written self.old.registers number word }
        ensures pc { self.new.pc ≡ self.old.pc }
    {
        if number != 0 {
            self.registers[number as usize] = word;
        }
    }

    /// Goes to another instruction, with the address of the next one in a register.
    pub fn link(&mut self, number: u8, target: u32)
        requires pc { self.old.pc + 4 < 2 ^ 32 }
        requires register { IsReg number }
        ensures { self.new ≡ linked self.old number target }
    {
        self.set(number, self.pc + 4);
        self.pc = target;
    }

    /// Goes on to the next instruction.
    pub fn advance(&mut self)
        requires { self.old.pc + 4 < 2 ^ 32 }
        ensures { self.new ≡ advanced self.old }
    {
        self.pc += 4;
    }

    /// Writes a register, and goes on to the next instruction.
    pub fn give(&mut self, number: Reg, word: u32)
        requires { self.old.pc + 4 < 2 ^ 32 }
        ensures { self.new ≡ written_at_next self.old number word }
    {
        self.set(number.number(), word);
        self.pc += 4;
    }
}
