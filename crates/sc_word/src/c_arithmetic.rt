//! The operators of C on `int` and `unsigned int` of 32 bits, both held as `u32`.

ghost use Rattle.sc_word.specs.Prelude.{add_signed, div_signed, div_unsigned, mul_signed, neg_signed, rem_signed};
ghost use Rattle.sc_word.specs.Prelude.{rem_unsigned, shl_signed, shl_unsigned, shr_signed, shr_unsigned, sub_signed};
ghost use Rattle.std.specs.Prelude.{◌≡◌};

use crate::fault::WordFault;

/// The signed sum (C11 6.5.6). `Overflow` where it doesn't fit.
pub fn add_signed(a: u32, b: u32) -> Result<u32, WordFault>
    ensures { result ≡ add_signed a b }
{
    let sum = a.cast_signed().checked_add(b.cast_signed());
    Ok(sum.ok_or(WordFault::Overflow)?.cast_unsigned())
}

/// The signed difference (C11 6.5.6). `Overflow` where it doesn't fit.
pub fn sub_signed(a: u32, b: u32) -> Result<u32, WordFault>
    ensures { result ≡ sub_signed a b }
{
    let difference = a.cast_signed().checked_sub(b.cast_signed());
    Ok(difference.ok_or(WordFault::Overflow)?.cast_unsigned())
}

/// The signed product (C11 6.5.5). `Overflow` where it doesn't fit.
pub fn mul_signed(a: u32, b: u32) -> Result<u32, WordFault>
    ensures { result ≡ mul_signed a b }
{
    let product = a.cast_signed().checked_mul(b.cast_signed());
    Ok(product.ok_or(WordFault::Overflow)?.cast_unsigned())
}

/// The signed negation (C11 6.5.3.3). `Overflow` only at -2^31.
pub fn neg_signed(a: u32) -> Result<u32, WordFault>
    ensures { result ≡ neg_signed a }
{
    let negation = a.cast_signed().checked_neg();
    Ok(negation.ok_or(WordFault::Overflow)?.cast_unsigned())
}

/// The signed quotient, rounded toward zero (C11 6.5.5). `ZeroDivisor` by 0, and `Overflow` for
/// -2^31 by -1.
pub fn div_signed(a: u32, b: u32) -> Result<u32, WordFault>
    ensures { result ≡ div_signed a b }
{
    if b == 0 {
        return Err(WordFault::ZeroDivisor);
    }
    let quotient = a.cast_signed().checked_div(b.cast_signed());
    Ok(quotient.ok_or(WordFault::Overflow)?.cast_unsigned())
}

/// The signed remainder, with the sign of `a` (C11 6.5.5). `ZeroDivisor` by 0, and `Overflow` for
/// -2^31 by -1, whose quotient doesn't fit.
pub fn rem_signed(a: u32, b: u32) -> Result<u32, WordFault>
    ensures { result ≡ rem_signed a b }
{
    if b == 0 {
        return Err(WordFault::ZeroDivisor);
    }
    let remainder = a.cast_signed().checked_rem(b.cast_signed());
    Ok(remainder.ok_or(WordFault::Overflow)?.cast_unsigned())
}

/// The signed left shift (C11 6.5.7). `BadShift` for a count of 32 or more, also of a negative
/// count; then `Overflow` for a negative `a`, or where the result doesn't fit.
pub fn shl_signed(a: u32, b: u32) -> Result<u32, WordFault>
    ensures { result ≡ shl_signed a b }
{
    if b >= 32 {
        return Err(WordFault::BadShift);
    }
    if a.cast_signed() < 0 {
        return Err(WordFault::Overflow);
    }
    let shifted = (a as u64) << b;
    if shifted > i32::MAX as u64 {
        return Err(WordFault::Overflow);
    }
    Ok(shifted as u32)
}

/// The signed right shift, which copies the sign, so that it rounds down (C11 6.5.7 leaves this
/// choice for a negative `a`). `BadShift` for a count of 32 or more.
pub fn shr_signed(a: u32, b: u32) -> Result<u32, WordFault>
    ensures { result ≡ shr_signed a b }
{
    let shifted = a.cast_signed().checked_shr(b);
    Ok(shifted.ok_or(WordFault::BadShift)?.cast_unsigned())
}

/// The unsigned quotient (C11 6.5.5). `ZeroDivisor` by 0.
pub fn div_unsigned(a: u32, b: u32) -> Result<u32, WordFault>
    ensures { result ≡ div_unsigned a b }
{
    a.checked_div(b).ok_or(WordFault::ZeroDivisor)
}

/// The unsigned remainder (C11 6.5.5). `ZeroDivisor` by 0.
pub fn rem_unsigned(a: u32, b: u32) -> Result<u32, WordFault>
    ensures { result ≡ rem_unsigned a b }
{
    a.checked_rem(b).ok_or(WordFault::ZeroDivisor)
}

/// The unsigned left shift, modulo 2^32 (C11 6.5.7). `BadShift` for a count of 32 or more.
pub fn shl_unsigned(a: u32, b: u32) -> Result<u32, WordFault>
    ensures { result ≡ shl_unsigned a b }
{
    a.checked_shl(b).ok_or(WordFault::BadShift)
}

/// The unsigned right shift (C11 6.5.7). `BadShift` for a count of 32 or more.
pub fn shr_unsigned(a: u32, b: u32) -> Result<u32, WordFault>
    ensures { result ≡ shr_unsigned a b }
{
    a.checked_shr(b).ok_or(WordFault::BadShift)
}
