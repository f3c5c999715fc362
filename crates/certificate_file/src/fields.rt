//! The numbers of a certificate, each with the byte that ends it.
ghost use Rattle.std.specs.Prelude.{◌≡◌, ◌+◌, ◌<◌, ◌≤◌, ◌^◌, ◌-◌, true, false, IsTrue, MatchBool};
ghost use Rattle.text_codes.specs.Endings.{may_end};
ghost use Rattle.text_codes.specs.Numbers.{settled_at};
ghost use Rattle.text_codes.specs.Stops.{Tells};
ghost use Rattle.certificate_file.specs.ProductReading.{letter_at, u32_at, u64_at};
ghost use Rattle.certificate_file.specs.StepReading.{int_of, integer_at};

use text_codes::{Ending, number, signed};

/// A number of at most `greatest`, ended by this byte.
pub(crate) fn small(text: &[u8], greatest: u8, end: u8) -> Result<(u8, &[u8]), &[u8]>
    requires { 9 ≤ greatest }
    ensures { Tells (λ x. (x.0, x.1.now)) result (settled_at (greatest + 1) 0 (may_end (Ending.By end)) text.now) }
{
    let ((n, _), rest) = number(text, u64::from(greatest), 0, Ending::By(end))?;
    Ok((n as u8, rest))
}

/// A number of 32 bits, ended by this byte.
pub(crate) fn word(text: &[u8], end: u8) -> Result<(u32, &[u8]), &[u8]>
    ensures { Tells (λ x. (x.0, x.1.now)) result (u32_at end text.now) }
{
    let ((n, _), rest) = number(text, 0xffff_ffff, 0, Ending::By(end))?;
    Ok((n as u32, rest))
}

/// A number of 64 bits, ended by this byte.
pub(crate) fn long(text: &[u8], end: u8) -> Result<(u64, &[u8]), &[u8]>
    ensures { Tells (λ x. (x.0, x.1.now)) result (u64_at end text.now) }
{
    let ((n, _), rest) = number(text, u64::MAX, 0, Ending::By(end))?;
    Ok((n, rest))
}

/// A count of what stands behind it on its line.
pub(crate) fn row_count(text: &[u8]) -> Result<(u64, &[u8]), &[u8]>
    ensures { Tells (λ x. (x.0, x.1.now)) result (settled_at (2 ^ 64) 0 (may_end Ending.Count) text.now) }
{
    let ((n, _), rest) = number(text, u64::MAX, 0, Ending::Count)?;
    Ok((n, rest))
}

/// A count of at least one, ended by a space.
pub(crate) fn some_count(text: &[u8]) -> Result<(u64, &[u8]), &[u8]>
    ensures { Tells (λ x. (x.0, x.1.now)) result (settled_at (2 ^ 64) 1 (may_end (Ending.By 32)) text.now) }
{
    let ((n, _), rest) = number(text, u64::MAX, 1, Ending::By(b' '))?;
    Ok((n, rest))
}

/// The signed number of this sign, true for a negative one.
fn int_of(negative: bool, n: u64) -> i64
    requires low { IsTrue negative → 1 ≤ n }
    requires high { MatchBool negative (n ≤ 2 ^ 63) (n < 2 ^ 63) }
    ensures { result ≡ int_of negative n }
{
    if negative {
        -1 - (n - 1) as i64
    } else {
        n as i64
    }
}

/// A signed number down to minus `low` and up to `high`, ended by this byte.
pub(crate) fn integer(text: &[u8], low: u64, high: u64, end: u8) -> Result<(i64, &[u8]), &[u8]>
    requires some { 9 ≤ low }
    requires least { low ≤ 2 ^ 63 }
    requires more { 9 ≤ high }
    requires most { high < 2 ^ 63 }
    ensures { Tells (λ x. (x.0, x.1.now)) result (integer_at low high end text.now) }
{
    let ((negative, (n, _)), rest) = signed(text, low, high, Ending::By(end))?;
    Ok((int_of(negative, n), rest))
}

/// One of two letters: whether it is the first.
pub(crate) fn letter(text: &[u8], yes: u8, no: u8) -> Result<(bool, &[u8]), &[u8]>
    ensures { Tells (λ x. (x.0, x.1.now)) result (letter_at yes true no false text.now) }
{
    match text {
        [] => Err(text),
        [byte, rest @ ..] => {
            if *byte == yes {
                Ok((true, rest))
            } else if *byte == no {
                Ok((false, rest))
            } else {
                Err(text)
            }
        }
    }
}
