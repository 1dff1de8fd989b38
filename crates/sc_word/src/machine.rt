//! The register instructions of RV32IM, from the words of the two source registers to the word of
//! the destination (RISC-V Unprivileged ISA, chapters RV32I and M).

ghost use Rattle.sc_word.specs.Prelude.{add_word, div_word, divu_word, mul_word, mulh_word, mulhsu_word, mulhu_word};
ghost use Rattle.sc_word.specs.Prelude.{rem_word, remu_word, sll_word, slt_word, sltu_word, sra_word, srl_word};
ghost use Rattle.sc_word.specs.Prelude.{sub_word, word_of};
ghost use Rattle.std.specs.Prelude.{◌≡◌};
ghost use Rattle.std.specs.Int.{int_shr};

/// ADD: the sum, which wraps.
pub fn add(a: u32, b: u32) -> u32
    ensures { result ≡ add_word a b }
{
    a.wrapping_add(b)
}

/// SUB: the difference, which wraps.
pub fn sub(a: u32, b: u32) -> u32
    ensures { result ≡ sub_word a b }
{
    a.wrapping_sub(b)
}

/// SLL: the left shift by the low five bits of `b`.
pub fn sll(a: u32, b: u32) -> u32
    ensures { result ≡ sll_word a b }
{
    a.wrapping_shl(b)
}

/// SRL: the right shift by the low five bits of `b`, with zeros.
pub fn srl(a: u32, b: u32) -> u32
    ensures { result ≡ srl_word a b }
{
    a.wrapping_shr(b)
}

/// SRA: the right shift by the low five bits of `b`, with copies of the sign.
pub fn sra(a: u32, b: u32) -> u32
    ensures { result ≡ sra_word a b }
{
    a.cast_signed().wrapping_shr(b).cast_unsigned()
}

/// SLT: 1 where `a` is below `b` as signed numbers, and else 0.
pub fn slt(a: u32, b: u32) -> u32
    ensures { result ≡ slt_word a b }
{
    u32::from(a.cast_signed() < b.cast_signed())
}

/// SLTU: 1 where `a` is below `b` as unsigned numbers, and else 0.
pub fn sltu(a: u32, b: u32) -> u32
    ensures { result ≡ sltu_word a b }
{
    u32::from(a < b)
}

/// MUL: the low 32 bits of the product, which are the same for signed and unsigned operands.
pub fn mul(a: u32, b: u32) -> u32
    ensures { result ≡ mul_word a b }
{
    a.wrapping_mul(b)
}

// The high 32 bits of a signed product.
fn high_word(product: i64) -> u32
    ensures { result ≡ word_of (int_shr product 32) }
{
    ((product >> 32) as i32).cast_unsigned()
}

/// MULH: the high 32 bits of the product of signed `a` and signed `b`.
pub fn mulh(a: u32, b: u32) -> u32
    ensures { result ≡ mulh_word a b }
{
    high_word(a.cast_signed() as i64 * b.cast_signed() as i64)
}

/// MULHSU: the high 32 bits of the product of signed `a` and unsigned `b`.
pub fn mulhsu(a: u32, b: u32) -> u32
    ensures { result ≡ mulhsu_word a b }
{
    high_word(a.cast_signed() as i64 * b as i64)
}

/// MULHU: the high 32 bits of the product of unsigned `a` and unsigned `b`.
pub fn mulhu(a: u32, b: u32) -> u32
    ensures { result ≡ mulhu_word a b }
{
    ((a as u64 * b as u64) >> 32) as u32
}

/// DIV: the signed quotient, rounded toward zero. By 0 it is 0xFFFFFFFF, and -2^31 by -1 is -2^31.
pub fn div(a: u32, b: u32) -> u32
    ensures { result ≡ div_word a b }
{
    if b == 0 {
        return u32::MAX;
    }
    a.cast_signed()
        .wrapping_div(b.cast_signed())
        .cast_unsigned()
}

/// DIVU: the unsigned quotient. By 0 it is 0xFFFFFFFF.
pub fn divu(a: u32, b: u32) -> u32
    ensures { result ≡ divu_word a b }
{
    a.checked_div(b).unwrap_or(u32::MAX)
}

/// REM: the signed remainder, with the sign of `a`. By 0 it is `a`, and for -2^31 by -1 it is 0.
pub fn rem(a: u32, b: u32) -> u32
    ensures { result ≡ rem_word a b }
{
    if b == 0 {
        return a;
    }
    a.cast_signed()
        .wrapping_rem(b.cast_signed())
        .cast_unsigned()
}

/// REMU: the unsigned remainder. By 0 it is `a`.
pub fn remu(a: u32, b: u32) -> u32
    ensures { result ≡ remu_word a b }
{
    a.checked_rem(b).unwrap_or(a)
}
