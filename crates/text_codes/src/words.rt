//! Fixed words, and names of a table.
ghost use Rattle.std.specs.Prelude.{◌≡◌, ◌≤◌, length, map};
ghost use Rattle.text_codes.specs.Readers.{names_at, word_at};
ghost use Rattle.text_codes.specs.Stops.{Tells};

/// What stands behind a word.
#[tactic(auto, unfolding(crate::specs::Readers::word_at))]
pub fn behind<'t>(text: &'t [u8], word: &[u8]) -> Result<&'t [u8], &'t [u8]>
    ensures { Tells (λ x. (tt, x.now)) result (word_at word.now text.now) }
{
    let mut rest = text;
    let mut left = word;
    while let [byte, after @ ..] = left {
        match rest {
            [] => return Err(rest),
            [first, behind @ ..] => {
                if *first != *byte {
                    return Err(rest);
                }
                left = after;
                rest = behind;
            }
        }
    }
    Ok(rest)
}

/// The number of the one of these names that stands here, and what is behind it.
#[tactic(auto, unfolding(crate::specs::Readers::names_at))]
pub fn named<'t>(text: &'t [u8], names: &[&str]) -> Result<(u8, &'t [u8]), &'t [u8]>
    requires { length names.now ≤ 255 }
    ensures { Tells (λ x. (x.0, x.1.now)) result (names_at 0 (map (λ name. name.now) names.now) text.now) }
{
    let mut furthest = text;
    let mut number = 0;
    let mut left = names;
    while let [name, after @ ..] = left {
        match behind(text, name.as_bytes()) {
            Ok(rest) => return Ok((number, rest)),
            Err(stop) => {
                if stop.len() < furthest.len() {
                    furthest = stop;
                }
            }
        }
        number += 1;
        left = after;
    }
    Err(furthest)
}
