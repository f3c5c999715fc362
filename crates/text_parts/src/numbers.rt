//! Numbers, decimal and hexadecimal.
ghost use Rattle.std.specs.Prelude.{◌≡◌, ◌<◌, ◌≤◌, ◌^◌};
ghost use Rattle.std.specs.Char.{digit_value};
ghost use Rattle.text_parts.specs.Numbers.{amount_of, capped, decimal_of, digits_of, hexadecimal_of, within};
ghost use Rattle.text_parts.specs.ReadingNumbers.{kept_from};

use crate::cuts::after_byte;

/// No number above 2^64 is kept: it is given as 2^64, which is in no range of numbers either.
const LIMIT: u128 = 1 << 64;

/// The value of a digit or a letter, and 36 for any other byte.
pub(crate) fn digit_value(byte: u8) -> u8
    ensures value { result ≡ digit_value byte }
    ensures small { result ≤ 36 }
{
    match byte {
        b'0'..=b'9' => byte - b'0',
        b'A'..=b'Z' => byte - b'A' + 10,
        b'a'..=b'z' => byte - b'a' + 10,
        _ => 36,
    }
}

/// The number of digits, as far as it is kept.
#[tactic(auto, unfolding(crate::specs::ReadingNumbers::kept_from))]
fn kept_digits(radix: u8, text: &[u8]) -> Option<u128>
    requires { radix ≤ 16 }
    ensures { result ≡ kept_from radix 0 text.now }
{
    let mut amount: u128 = 0;
    for byte in text {
        let digit = digit_value(*byte);
        if digit >= radix {
            return None;
        }
        amount = (amount * u128::from(radix) + u128::from(digit)).min(LIMIT);
    }
    Some(amount)
}

/// The number of one digit of this radix or more, or 2^64 for each greater one.
pub fn capped_digits(radix: u8, text: &[u8]) -> Option<u128>
    requires some { 0 < radix }
    requires few { radix ≤ 16 }
    ensures { result ≡ capped (digits_of radix text.now) }
{
    if text.is_empty() {
        return None;
    }
    kept_digits(radix, text)
}

/// A decimal number, or 2^64 for each greater one: its first digit is 0 only where it is the only one.
#[tactic(auto, unfolding(crate::specs::Numbers::decimal_of))]
pub fn capped_decimal(text: &[u8]) -> Option<u128>
    ensures { result ≡ capped (decimal_of text.now) }
{
    if text.len() > 1 && text[0] == b'0' {
        return None;
    }
    capped_digits(10, text)
}

/// The number of `0x` and digits of base 16, or 2^64 for each greater one.
#[tactic(auto, unfolding(crate::specs::Numbers::hexadecimal_of))]
fn capped_hexadecimal(text: &[u8]) -> Option<u128>
    ensures { result ≡ capped (hexadecimal_of text.now) }
{
    let behind = after_byte(text, b'0')?;
    let digits = after_byte(behind, b'x')?;
    capped_digits(16, digits)
}

/// A number without a sign, or 2^64 for each greater one.
pub fn capped_amount(text: &[u8]) -> Option<u128>
    ensures { result ≡ capped (amount_of text.now) }
{
    capped_hexadecimal(text).or(capped_decimal(text))
}

/// A number that is no greater than this.
fn bounded(number: Option<u128>, greatest: u64) -> Option<u64>
    ensures { result ≡ within greatest number }
{
    let amount = number?;
    if amount > u128::from(greatest) {
        return None;
    }
    Some(amount as u64)
}

/// The number of one digit of this radix or more, where it is no greater than this.
pub fn digits_within(radix: u8, text: &[u8], greatest: u64) -> Option<u64>
    requires some { 0 < radix }
    requires few { radix ≤ 16 }
    ensures { result ≡ within greatest (digits_of radix text.now) }
{
    bounded(capped_digits(radix, text), greatest)
}

/// A decimal number that is no greater than this.
pub fn decimal_within(text: &[u8], greatest: u64) -> Option<u64>
    ensures { result ≡ within greatest (decimal_of text.now) }
{
    bounded(capped_decimal(text), greatest)
}

/// A number without a sign that is no greater than this.
pub fn amount_within(text: &[u8], greatest: u64) -> Option<u64>
    ensures { result ≡ within greatest (amount_of text.now) }
{
    bounded(capped_amount(text), greatest)
}
