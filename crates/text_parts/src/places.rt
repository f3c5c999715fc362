//! The place of a text in a list of texts.
ghost use Rattle.std.specs.Prelude.{◌≡◌, ◌≤◌, length, map};
ghost use Rattle.text_parts.specs.Places.{place_from};

/// The place of a name among at most 255: of equal names the first.
pub fn place_in(names: &[&str], name: &[u8]) -> Option<u8>
    requires { length names.now ≤ 255 }
    ensures { result ≡ place_from 0 (map (λ n. n.now) names.now) name.now }
{
    let mut place = 0;
    let mut rest = names;
    while let [first, after @ ..] = rest {
        if first.as_bytes() == name {
            return Some(place);
        }
        place += 1;
        rest = after;
    }
    None
}
