//! The numbers that options take.
ghost use Rattle.std.specs.Prelude.{◌<◌, ℕ, IfNone, IfSome};
ghost use Rattle.command_line.specs.Command.{IsNumberWithin};

use text_parts::decimal_within;

/// The number within these bounds that a text is: one that is written as it is printed.
pub fn number_within(text: &str, low: u64, high: u64) -> Option<u64>
    requires { high < 1000000000 }
    ensures some { IfSome result (IsNumberWithin low high text.now) }
    ensures none { IfNone result ((n : ℕ) → IsNumberWithin low high text.now n → ⊥) }
{
    let Some(number) = decimal_within(text.as_bytes(), high) else {
        return None;
    };
    if number < low {
        return None;
    }
    Some(number)
}
