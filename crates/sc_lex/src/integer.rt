//! Integer constants.

ghost use Rattle.sc_lex.specs.Prelude.{digit_value, digits_of, greatest_of, has_suffix, integer_of, is_hexadecimal};
ghost use Rattle.sc_lex.specs.Prelude.{is_integer_constant, is_number_within, digits_number, radix_of, without_suffix};
ghost use Rattle.std.specs.Prelude.{◌≡◌, ◌≤◌, IsTrue, IfSome, Some, None, length, if◌then◌else◌};

// The greatest value of type `int`.
const GREATEST_INT: u64 = 0x7fff_ffff;

/// What an integer constant says: its value, and whether its type is `unsigned int`.
#[derive(Clone, Copy, Debug, PartialEq, Eq)]
pub struct IntegerConstant {
    pub value: u32,
    pub unsigned: bool,
}

/// Whether the text is an integer constant of at most 32 bits, of type `int` or `unsigned int`.
#[tactic(auto, unfolding(crate::specs::Integers::is_integer_constant))]
pub fn is_integer(text: &[u8]) -> bool
    ensures { result ≡ is_integer_constant text.now }
{
    let body = without_suffix(text);
    let base = radix_of(body);
    number_within(base, greatest_of(has_suffix(text), base), digits_of(body)).is_some()
}

/// What the text says as an integer constant, `None` where it is none of at most 32 bits.
#[tactic(auto, unfolding(crate::specs::Integers::is_integer_constant, crate::specs::Integers::integer_of))]
pub fn integer_of(text: &[u8]) -> Option<IntegerConstant>
    ensures { result ≡ integer_of text.now }
{
    let suffix = has_suffix(text);
    let body = without_suffix(text);
    let base = radix_of(body);
    let value = number_within(base, greatest_of(suffix, base), digits_of(body))?;
    Some(IntegerConstant {
        value: value as u32,
        unsigned: suffix || value > GREATEST_INT,
    })
}

fn has_suffix(text: &[u8]) -> bool
    ensures { result ≡ has_suffix text.now }
{
    !text.is_empty() && matches!(text[text.len() - 1], b'u' | b'U')
}

fn without_suffix(text: &[u8]) -> &[u8]
    ensures { result.now ≡ without_suffix text.now }
{
    if has_suffix(text) {
        &text[..text.len() - 1]
    } else {
        text
    }
}

fn is_hexadecimal(body: &[u8]) -> bool
    ensures value { result ≡ is_hexadecimal body.now }
    ensures long { IsTrue result → 2 ≤ length body.now }
{
    body.len() >= 2 && body[0] == b'0' && matches!(body[1], b'x' | b'X')
}

fn digits_of(body: &[u8]) -> &[u8]
    ensures { result.now ≡ digits_of body.now }
{
    if is_hexadecimal(body) {
        &body[2..]
    } else {
        body
    }
}

fn radix_of(body: &[u8]) -> u64
    ensures value { result ≡ radix_of body.now }
    ensures within { (1 ≤ result) × (result ≤ 16) }
{
    if is_hexadecimal(body) {
        16
    } else if !body.is_empty() && body[0] == b'0' {
        8
    } else {
        10
    }
}

fn greatest_of(suffix: bool, base: u64) -> u64
    ensures value { result ≡ greatest_of suffix base }
    ensures within { result ≤ 4294967295 }
{
    if suffix || base != 10 {
        4_294_967_295
    } else {
        2_147_483_647
    }
}

fn digit_value(byte: u8) -> u64
    ensures value { result ≡ digit_value byte }
    ensures within { result ≤ 16 }
{
    match byte {
        b'0'..=b'9' => u64::from(byte - b'0'),
        b'a'..=b'f' => u64::from(byte - b'a') + 10,
        b'A'..=b'F' => u64::from(byte - b'A') + 10,
        _ => 16,
    }
}

// The number that digits stand for, `None` where they stand for none or for one that is too great.
#[tactic(auto, using(crate::proofs::Numbers::numbers))]
fn number_within(base: u64, greatest: u64, digits: &[u8]) -> Option<u64>
    requires base { (1 ≤ base) × (base ≤ 16) }
    requires greatest { greatest ≤ 4294967295 }
    ensures value { result ≡
        (if is_number_within base greatest digits.now then Some (digits_number base digits.now) else None) }
    ensures within { IfSome result (λ value. value ≤ 4294967295) }
{
    let mut value = 0;
    for digit in digits {
        let digit = digit_value(*digit);
        if digit >= base {
            return None;
        }
        value = value * base + digit;
        if value > greatest {
            return None;
        }
    }
    if digits.is_empty() { None } else { Some(value) }
}
