//! Cuts texts into lines.
ghost use Rattle.std.specs.Prelude.{◌≡◌};
ghost use Rattle.std.specs.Option.{option_map};
ghost use Rattle.std.specs.Str.Lines.{strip_carriage_return};
ghost use Rattle.text_lines.specs.Lines.{is_visible};
ghost use Rattle.text_lines.specs.Cutting.{first_line, visible_part};

use text_parts::cut_at;

/// The line without the one carriage return at its end, if it has one.
fn without_carriage_return(line: &[u8]) -> &[u8]
    ensures { result.now ≡ strip_carriage_return line.now }
{
    let length = line.len();
    if length > 0 && line[length - 1] == b'\r' {
        &line[..length - 1]
    } else {
        line
    }
}

/// The first line, without its newline and a carriage return before that, and what follows it; an empty
/// text has none.
#[tactic(auto, unfolding(crate::specs::Cutting::first_line))]
pub fn first_line(text: &[u8]) -> Option<(&[u8], &[u8])>
    ensures { option_map (λ parts. (parts.0.now, parts.1.now)) result ≡ first_line text.now }
{
    match cut_at(text, b'\n') {
        Some((line, rest)) => Some((without_carriage_return(line), rest)),
        None if text.is_empty() => None,
        None => Some((text, &text[text.len()..])),
    }
}

/// The line without its comment, which begins with `#`.
#[tactic(auto, unfolding(crate::specs::Cutting::visible_part))]
pub fn visible_part(line: &[u8]) -> &[u8]
    ensures { result.now ≡ visible_part line.now }
{
    let mut end = 0;
    while end < line.len() {
        if line[end] == b'#' {
            return &line[..end];
        }
        end += 1;
    }
    &line[..end]
}
