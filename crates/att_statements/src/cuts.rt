//! Texts cut at commas outside parentheses, and at parentheses.
ghost use Rattle.std.specs.Prelude.{◌≡◌, ◌≤◌, ◌<◌, ◌^◌, ◌∷◌};
ghost use Rattle.std.specs.Option.{option_map};
ghost use Rattle.att_statements.specs.Operands.{open_behind};
ghost use Rattle.att_statements.specs.ReadingOperands.{are_none, parts_from, parts_left, before_byte, parenthesised};

use text_parts::cut_at;

/// How many parentheses are open behind this byte, where `open` are before it.
fn open_behind(open_before: usize, byte: u8) -> usize
    requires { open_before < 2 ^ 63 }
    ensures { result ≡ open_behind open_before byte }
{
    match byte {
        b'(' => open_before + 1,
        b')' => open_before.saturating_sub(1),
        _ => open_before,
    }
}

/// The text up to its first comma outside parentheses, and what follows that comma.
#[tactic(auto, unfolding(crate::specs::ReadingOperands::parts_from))]
pub(crate) fn cut_part(text: &[u8]) -> (&[u8], Option<&[u8]>)
    ensures { parts_from 0 text.now ≡ result.0.now ∷ parts_left (option_map (λ rest. rest.now) result.1) }
{
    let mut opened = 0;
    for (place, byte) in text.iter().enumerate() {
        if *byte == b',' && opened == 0 {
            return (&text[..place], Some(&text[place + 1..]));
        }
        opened = open_behind(opened, *byte);
    }
    (text, None)
}

/// Whether there is no text left to be cut into parts.
#[tactic(auto, using(crate::proofs::PartTexts::some_parts))]
pub(crate) fn are_none(rest: Option<&[u8]>) -> bool
    ensures { result ≡ are_none (parts_left (option_map (λ text. text.now) rest.entry)) }
{
    match rest {
        None => true,
        Some(_) => false,
    }
}

/// What stands before this last byte.
#[tactic(auto, unfolding(crate::specs::ReadingOperands::before_byte))]
fn before_byte(text: &[u8], byte: u8) -> Option<&[u8]>
    ensures { option_map (λ before. before.now) result ≡ before_byte byte text.now }
{
    let length = text.len();
    if length > 0 && text[length - 1] == byte {
        Some(&text[..length - 1])
    } else {
        None
    }
}

/// What stands before the first parenthesis, and between it and one at the end.
#[tactic(auto, unfolding(crate::specs::ReadingOperands::parenthesised))]
pub(crate) fn parenthesised(text: &[u8]) -> Option<(&[u8], &[u8])>
    ensures { option_map (λ parts. (parts.0.now, parts.1.now)) result ≡ parenthesised text.now }
{
    let (before, behind) = cut_at(text, b'(')?;
    let inside = before_byte(behind, b')')?;
    Some((before, inside))
}
