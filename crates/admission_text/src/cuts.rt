//! Cuts texts at signs.
ghost use Rattle.std.specs.Prelude.{◌≡◌};
ghost use Rattle.std.specs.Option.{option_map};
ghost use Rattle.admission_text.specs.Reading as reading;

// What stands before and behind the first `+` or `-`, and whether it is `-`.
#[tactic(auto, unfolding(crate::specs::Reading::cut_sign))]
pub(crate) fn cut_sign(text: &[u8]) -> Option<(&[u8], bool, &[u8])>
    ensures { option_map (λ found. (found.0.now, found.1, found.2.now)) result ≡ reading.cut_sign text.now }
{
    for (place, found) in text.iter().enumerate() {
        if *found == b'+' || *found == b'-' {
            return Some((&text[..place], *found == b'-', &text[place + 1..]));
        }
    }
    None
}
