ghost use Rattle.sc_number.specs.Numbers.{integer, number_within};
ghost use Rattle.std.specs.Prelude.{◌≡◌};

// The greatest number of 32 bits.
const GREATEST: u64 = 0xffff_ffff;

/// The number of a text of decimal digits, from `low` to `high`.
pub fn number_within(text: &[u8], low: u32, high: u32) -> Option<u32>
    ensures { result ≡ number_within low high text.now }
{
    let number = number_of(text)?;
    if low <= number && number <= high {
        Some(number)
    } else {
        None
    }
}

/// The number of a text of decimal digits, with or without a `-` before them, from -2147483648 to 2147483647.
pub fn integer(text: &[u8]) -> Option<i32>
    ensures { result ≡ integer text.now }
{
    let (first, rest) = text.split_first()?;
    if *first == b'-' {
        let number = number_within(rest, 0, 2_147_483_648)?;
        Some(-i64::from(number) as i32)
    } else {
        let number = number_within(text, 0, 2_147_483_647)?;
        Some(number as i32)
    }
}

// The number of at most 32 bits that the digits write.
fn number_of(text: &[u8]) -> Option<u32>
    ensures { result ≡ number_within 0 4294967295 text.now }
{
    if text.is_empty() {
        return None;
    }
    let mut value = 0;
    for byte in text {
        if !byte.is_ascii_digit() {
            return None;
        }
        value = value * 10 + u64::from(*byte - b'0');
        if value > GREATEST {
            return None;
        }
    }
    Some(value as u32)
}
