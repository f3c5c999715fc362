//! Texts cut at a byte.
ghost use Rattle.std.specs.Prelude.{◌≡◌};
ghost use Rattle.std.specs.Option.{option_map};
ghost use Rattle.memchr.specs.Find.{IsFirstByte, is_byte};
ghost use Rattle.text_parts.specs.Cuts.{after_byte, cut_at, first_part};

use memchr::memchr;

/// How many bytes are looked at one by one: a search by `memchr` pays only in longer texts.
const NEAR: usize = 16;

/// The place of the first such byte.
fn place_of(text: &[u8], byte: u8) -> Option<usize>
    ensures { IsFirstByte (is_byte byte) text.now result }
{
    let mut near = 0;
    while near < text.len() && near < NEAR {
        if text[near] == byte {
            return Some(near);
        }
        near += 1;
    }
    match memchr(byte, &text[near..]) {
        Some(place) => Some(near + place),
        None => None,
    }
}

/// The parts before and behind the first such byte.
pub fn cut_at(text: &[u8], byte: u8) -> Option<(&[u8], &[u8])>
    ensures { option_map (λ parts. (parts.0.now, parts.1.now)) result ≡ cut_at byte text.now }
{
    match place_of(text, byte) {
        Some(place) => Some((&text[..place], &text[place + 1..])),
        None => None,
    }
}

/// What stands behind this first byte, if the text has it.
#[tactic(auto, unfolding(crate::specs::Cuts::after_byte))]
pub fn after_byte(text: &[u8], byte: u8) -> Option<&[u8]>
    ensures { option_map (λ rest. rest.now) result ≡ after_byte byte text.now }
{
    match text {
        [first, rest @ ..] if *first == byte => Some(rest),
        _ => None,
    }
}

/// The part before the first such byte, and what stands behind it, where there is one.
#[tactic(auto, unfolding(crate::specs::Cuts::first_part))]
pub fn first_part(text: &[u8], byte: u8) -> (&[u8], Option<&[u8]>)
    ensures { (result.0.now, option_map (λ rest. rest.now) result.1) ≡ first_part byte text.now }
{
    match cut_at(text, byte) {
        None => (text, None),
        Some((part, rest)) => (part, Some(rest)),
    }
}
