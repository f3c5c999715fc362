//! Decimal numbers with the byte that ends them.
ghost use Rattle.std.specs.Prelude.{◌≡◌, ◌+◌, ◌*◌, ◌<◌, ◌≤◌, ◌^◌, IfOk, IsTrue, MatchBool};
ghost use Rattle.std.specs.Char.{digit_value};
ghost use Rattle.text_codes.specs.Endings.{may_end};
ghost use Rattle.text_codes.specs.Numbers.{digits_at, goes_on, number_at, signed_at};
ghost use Rattle.text_codes.specs.Stops.{Tells};

/// The byte that may end a number.
#[derive(Clone, Copy, Debug, PartialEq, Eq)]
pub enum Ending {
    /// This byte.
    By(u8),
    /// A space or a newline.
    Either,
    /// Of a count of what stands behind it on its line: a newline behind 0, else a space.
    Count,
}

/// Whether the byte may end the number.
fn may_end(ending: Ending, n: u64, byte: u8) -> bool
    ensures { result ≡ may_end ending n byte }
{
    match ending {
        Ending::By(b) => byte == b,
        Ending::Either => byte == b' ' || byte == b'\n',
        Ending::Count => byte == if n == 0 { b'\n' } else { b' ' },
    }
}

/// The value of a decimal digit.
fn digit(byte: u8) -> u8
    ensures small { result < 10 → result ≡ digit_value byte }
    ensures is { digit_value byte < 10 → result < 10 }
{
    if byte < b'0' { 10 } else { byte - b'0' }
}

/// Whether a number of at most this goes on with the byte.
fn goes_on(greatest: u64, n: u64, byte: u8) -> bool
    requires { n ≤ greatest }
    ensures { result ≡ goes_on (greatest + 1) n byte }
{
    let d = digit(byte);
    d < 10 && 0 < n && u128::from(n) * 10 + u128::from(d) <= u128::from(greatest)
}

/// The rest of a number, of which the digits of `n` were read.
#[tactic(auto, unfolding(crate::specs::Numbers::digits_at))]
fn digits(text: &[u8], greatest: u64, n: u64, ending: Ending) -> Result<((u64, u8), &[u8]), &[u8]>
    requires { n ≤ greatest }
    ensures tells { Tells (λ x. (x.0, x.1.now)) result (digits_at (greatest + 1) (may_end ending) n text.now) }
    ensures below { IfOk result (λ x. x.0.0 ≤ greatest) }
    ensures least { IfOk result (λ x. n ≤ x.0.0) }
{
    let mut value = n;
    let mut rest = text;
    while let [byte, after @ ..] = rest {
        if goes_on(greatest, value, *byte) {
            value = value * 10 + u64::from(digit(*byte));
            rest = after;
        } else if may_end(ending, value, *byte) {
            return Ok(((value, *byte), after));
        } else {
            return Err(rest);
        }
    }
    Err(rest)
}

/// A number from `least` on, of at most `greatest`, and the byte that ends it.
#[tactic(auto, unfolding(crate::specs::Numbers::number_at))]
pub fn number(
    text: &[u8],
    greatest: u64,
    least: u8,
    ending: Ending,
) -> Result<((u64, u8), &[u8]), &[u8]>
    requires { 9 ≤ greatest }
    ensures tells { Tells (λ x. (x.0, x.1.now)) result (number_at (greatest + 1) least (may_end ending) text.now) }
    ensures below { IfOk result (λ x. x.0.0 ≤ greatest) }
    ensures least { IfOk result (λ x. least ≤ x.0.0) }
{
    match text {
        [] => Err(text),
        [byte, after @ ..] => {
            let d = digit(*byte);
            if d < 10 && least <= d {
                digits(after, greatest, u64::from(d), ending)
            } else {
                Err(text)
            }
        }
    }
}

/// A number with its sign, true for a negative one, and the byte that ends it: down to minus `below`, up
/// to `above`.
pub fn signed(
    text: &[u8],
    below: u64,
    above: u64,
    ending: Ending,
) -> Result<((bool, (u64, u8)), &[u8]), &[u8]>
    requires low { 9 ≤ below }
    requires high { 9 ≤ above }
    ensures tells { Tells (λ x. (x.0, x.1.now)) result (signed_at (below + 1) (above + 1) (may_end ending) text.now) }
    ensures below { IfOk result (λ x. MatchBool x.0.0 (x.0.1.0 ≤ below) (x.0.1.0 ≤ above)) }
    ensures least { IfOk result (λ x. IsTrue x.0.0 → 1 ≤ x.0.1.0) }
{
    match text {
        [b'-', after @ ..] => {
            let (found, rest) = number(after, below, 1, ending)?;
            Ok(((true, found), rest))
        }
        _ => {
            let (found, rest) = number(text, above, 0, ending)?;
            Ok(((false, found), rest))
        }
    }
}
