//! The fields of an instruction: registers, shift amounts and immediates, each in its range.

ghost use Rattle.std.specs.Prelude.{◌≡◌, ◌↔◌, IsSome, IfSome};
ghost use Rattle.rv_code.specs.Ranges.{IsReg, IsAmount, IsUpper, IsImmediate, IsBranchOffset, IsJumpOffset};

use std::marker::Model;

/// One of the registers x0 to x31, by its number.
#[derive(Clone, Copy, Debug, PartialEq, Eq)]
pub struct Reg(u8);

impl Model for Reg {
    ghost use Rattle.std.specs.Prelude.{ℕ};
    ghost use Rattle.rv_code.specs.Ranges.{IsReg};

    ghost Value = { ℕ };

    ghost view = { λ reg. reg.0 };

    ghost invariant = { λ reg. IsReg reg.0 };

    ghost inverse = { λ n. record { 0 = n } };
}

impl Reg {
    /// The register of that number, if there is one.
    pub fn new(number: u8) -> Option<Reg>
        ensures found { IsSome result ↔ IsReg number }
        ensures same { IfSome result (λ reg. reg ≡ number) }
    {
        if number < 32 { Some(Reg(number)) } else { None }
    }

    /// The register's number.
    pub fn number(self) -> u8
        ensures same { result ≡ self }
        ensures range { IsReg result }
    {
        self.0
    }
}

/// How far a shift by a constant goes, in bits: 0 to 31.
#[derive(Clone, Copy, Debug, PartialEq, Eq)]
pub struct ShiftAmount(u8);

impl Model for ShiftAmount {
    ghost use Rattle.std.specs.Prelude.{ℕ};
    ghost use Rattle.rv_code.specs.Ranges.{IsAmount};

    ghost Value = { ℕ };

    ghost view = { λ amount. amount.0 };

    ghost invariant = { λ amount. IsAmount amount.0 };

    ghost inverse = { λ n. record { 0 = n } };
}

impl ShiftAmount {
    /// The amount of that many bits, if a word has more.
    pub fn new(bits: u8) -> Option<ShiftAmount>
        ensures found { IsSome result ↔ IsAmount bits }
        ensures same { IfSome result (λ amount. amount ≡ bits) }
    {
        if bits < 32 {
            Some(ShiftAmount(bits))
        } else {
            None
        }
    }

    /// The number of bits.
    pub fn bits(self) -> u8
        ensures same { result ≡ self }
        ensures range { IsAmount result }
    {
        self.0
    }
}

/// The immediate of LUI and AUIPC: a word whose low 12 bits are 0.
#[derive(Clone, Copy, Debug, PartialEq, Eq)]
pub struct UpperImmediate(u32);

impl Model for UpperImmediate {
    ghost use Rattle.std.specs.Prelude.{ℕ};
    ghost use Rattle.rv_code.specs.Ranges.{IsUpper};

    ghost Value = { ℕ };

    ghost view = { λ imm. imm.0 };

    ghost invariant = { λ imm. IsUpper imm.0 };

    ghost inverse = { λ n. record { 0 = n } };
}

impl UpperImmediate {
    /// That word, if its low 12 bits are 0.
    pub fn new(value: u32) -> Option<UpperImmediate>
        ensures found { IsSome result ↔ IsUpper value }
        ensures same { IfSome result (λ imm. imm ≡ value) }
    {
        if value % 4096 == 0 {
            Some(UpperImmediate(value))
        } else {
            None
        }
    }

    /// The whole word.
    pub fn value(self) -> u32
        ensures same { result ≡ self }
        ensures range { IsUpper result }
    {
        self.0
    }
}

/// An immediate of 12 bits: -2048 to 2047.
#[derive(Clone, Copy, Debug, PartialEq, Eq)]
pub struct Immediate(i32);

impl Model for Immediate {
    ghost use Rattle.std.specs.Prelude.{ℤ};
    ghost use Rattle.rv_code.specs.Ranges.{IsImmediate};

    ghost Value = { ℤ };

    ghost view = { λ imm. imm.0 };

    ghost invariant = { λ imm. IsImmediate imm.0 };

    ghost inverse = { λ z. record { 0 = z } };
}

impl Immediate {
    /// That number, if it has 12 bits.
    pub fn new(value: i32) -> Option<Immediate>
        ensures found { IsSome result ↔ IsImmediate value }
        ensures same { IfSome result (λ imm. imm ≡ value) }
    {
        if value < -2048 || value > 2047 {
            return None;
        }
        Some(Immediate(value))
    }

    /// The number.
    pub fn value(self) -> i32
        ensures same { result ≡ self }
        ensures range { IsImmediate result }
    {
        self.0
    }
}

/// How far a branch goes from its own address, in bytes: an even number from -4096 to 4094.
#[derive(Clone, Copy, Debug, PartialEq, Eq)]
pub struct BranchOffset(i32);

impl Model for BranchOffset {
    ghost use Rattle.std.specs.Prelude.{ℤ};
    ghost use Rattle.rv_code.specs.Ranges.{IsBranchOffset};

    ghost Value = { ℤ };

    ghost view = { λ imm. imm.0 };

    ghost invariant = { λ imm. IsBranchOffset imm.0 };

    ghost inverse = { λ z. record { 0 = z } };
}

impl BranchOffset {
    /// That number of bytes, if a branch reaches so far.
    pub fn new(value: i32) -> Option<BranchOffset>
        ensures found { IsSome result ↔ IsBranchOffset value }
        ensures same { IfSome result (λ imm. imm ≡ value) }
    {
        if value < -4096 || value > 4094 || value.cast_unsigned() % 2 != 0 {
            return None;
        }
        Some(BranchOffset(value))
    }

    /// The number of bytes.
    pub fn value(self) -> i32
        ensures same { result ≡ self }
        ensures range { IsBranchOffset result }
    {
        self.0
    }
}

/// How far JAL goes from its own address, in bytes: an even number from -1048576 to 1048574.
#[derive(Clone, Copy, Debug, PartialEq, Eq)]
pub struct JumpOffset(i32);

impl Model for JumpOffset {
    ghost use Rattle.std.specs.Prelude.{ℤ};
    ghost use Rattle.rv_code.specs.Ranges.{IsJumpOffset};

    ghost Value = { ℤ };

    ghost view = { λ imm. imm.0 };

    ghost invariant = { λ imm. IsJumpOffset imm.0 };

    ghost inverse = { λ z. record { 0 = z } };
}

impl JumpOffset {
    /// That number of bytes, if JAL reaches so far.
    pub fn new(value: i32) -> Option<JumpOffset>
        ensures found { IsSome result ↔ IsJumpOffset value }
        ensures same { IfSome result (λ imm. imm ≡ value) }
    {
        if value < -1048576 || value > 1048574 || value.cast_unsigned() % 2 != 0 {
            return None;
        }
        Some(JumpOffset(value))
    }

    /// The number of bytes.
    pub fn value(self) -> i32
        ensures same { result ≡ self }
        ensures range { IsJumpOffset result }
    {
        self.0
    }
}
