//! Reads registers and numbers.
ghost use Rattle.std.specs.Prelude.{◌≡◌};
ghost use Rattle.admission_text.specs.Reading as reading;

use insn_ops::Output;
use register_names::{register_named, register_number};
use text_parts::{after_byte, amount_within};

// A number below 2^64.
#[tactic(auto, unfolding(crate::specs::Reading::word_number))]
pub(crate) fn word_number(text: &[u8]) -> Option<u64>
    ensures { result ≡ reading.word_number text.now }
{
    amount_within(text, u64::MAX)
}

// The number of a general register of 64 bits.
#[tactic(auto, unfolding(crate::specs::Reading::register_of))]
pub(crate) fn register_of(text: &[u8]) -> Option<u8>
    ensures { result ≡ reading.register_of text.now }
{
    let name = after_byte(text, b'%')?;
    register_number(64, name)
}

// The output that register `n` of `w` bits is.
fn output_at(w: u32, n: u8) -> Output
    ensures { result ≡ reading.output_at w n }
{
    if w <= 64 {
        Output::Reg { n, w }
    } else {
        Output::Vec { n, w }
    }
}

// A register, which is compared at the end.
#[tactic(auto, unfolding(crate::specs::Reading::output_of))]
pub(crate) fn output_of(text: &[u8]) -> Option<Output>
    ensures { result ≡ reading.output_of text.now }
{
    let name = after_byte(text, b'%')?;
    let (w, n) = register_named(name)?;
    Some(output_at(w, n))
}
