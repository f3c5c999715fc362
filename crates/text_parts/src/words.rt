//! The words of a line, which single spaces part.
ghost use Rattle.std.specs.Prelude.{◌≡◌};
ghost use Rattle.std.specs.Option.{option_map};
ghost use Rattle.text_parts.specs.Cuts as cuts;

use crate::cuts::cut_at;

/// One word.
#[tactic(auto, unfolding(crate::specs::Cuts::one_word))]
pub fn one_word(text: &[u8]) -> Option<&[u8]>
    ensures { option_map (λ word. word.now) result ≡ cuts.one_word text.now }
{
    match cut_at(text, b' ') {
        None => Some(text),
        Some(_) => None,
    }
}

/// Two words.
#[tactic(auto, unfolding(crate::specs::Cuts::two_words))]
pub fn two_words(text: &[u8]) -> Option<(&[u8], &[u8])>
    ensures { option_map (λ w. (w.0.now, w.1.now)) result ≡ cuts.two_words text.now }
{
    let (first, rest) = cut_at(text, b' ')?;
    let last = one_word(rest)?;
    Some((first, last))
}

/// Three of them.
#[tactic(auto, unfolding(crate::specs::Cuts::three_words))]
pub fn three_words(text: &[u8]) -> Option<(&[u8], &[u8], &[u8])>
    ensures { option_map (λ w. (w.0.now, w.1.now, w.2.now)) result ≡ cuts.three_words text.now }
{
    let (first, rest) = cut_at(text, b' ')?;
    let (second, third) = two_words(rest)?;
    Some((first, second, third))
}

/// Four of them.
#[tactic(auto, unfolding(crate::specs::Cuts::four_words))]
pub fn four_words(text: &[u8]) -> Option<(&[u8], &[u8], &[u8], &[u8])>
    ensures { option_map (λ w. (w.0.now, w.1.now, w.2.now, w.3.now)) result ≡ cuts.four_words text.now }
{
    let (first, rest) = cut_at(text, b' ')?;
    let (second, third, fourth) = three_words(rest)?;
    Some((first, second, third, fourth))
}

/// Five of them.
#[tactic(auto, unfolding(crate::specs::Cuts::five_words))]
pub fn five_words(text: &[u8]) -> Option<(&[u8], &[u8], &[u8], &[u8], &[u8])>
    ensures { option_map (λ w. (w.0.now, w.1.now, w.2.now, w.3.now, w.4.now)) result ≡ cuts.five_words text.now }
{
    let (first, rest) = cut_at(text, b' ')?;
    let (second, third, fourth, fifth) = four_words(rest)?;
    Some((first, second, third, fourth, fifth))
}
