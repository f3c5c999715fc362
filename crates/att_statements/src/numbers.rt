//! Numbers with their signs.
ghost use Rattle.std.specs.Prelude.{◌≡◌};
ghost use Rattle.att_statements.specs.ReadingOperands.{number_of};

use text_parts::{after_byte, capped_amount};

/// Whether a number is negative, and its amount, or 2^64 for each greater one.
#[tactic(auto, unfolding(crate::specs::ReadingOperands::number_of))]
pub(crate) fn number_of(text: &[u8]) -> Option<(bool, u128)>
    ensures { result ≡ number_of text.now }
{
    if let Some(amount) = after_byte(text, b'-') {
        let n = capped_amount(amount)?;
        return Some((true, n));
    }
    let n = capped_amount(text)?;
    Some((false, n))
}
