//! What is wrong with a text as a text: bytes that are no UTF-8, and long lines.
ghost use Rattle.std.specs.Prelude.{◌≡◌, ◌==◌, MatchOption};
ghost use Rattle.std.specs.List.{count_by};
ghost use Rattle.std.specs.Str.{IsUtf8};
ghost use Rattle.std.specs.Str.Lines.{lines};
ghost use Rattle.text_lines.specs.Texts.{IsNotUtf8};
ghost use Rattle.text_lines.specs.Cutting.{long_line};

use crate::cuts::first_line;
use std::str;

/// The most bytes that a line may have.
const LINE_LIMIT: usize = 4096;

/// How many newlines stand in these bytes.
fn newlines(bytes: &[u8]) -> usize
    ensures { result ≡ count_by (λ b. b == 10) bytes.now }
{
    let mut count = 0;
    for byte in bytes {
        if *byte == b'\n' {
            count += 1;
        }
    }
    count
}

/// The line of the first byte that makes the text no UTF-8.
pub fn wrong_line(text: &[u8]) -> Option<usize>
    ensures { MatchOption result (IsUtf8 text.now) (λ line. IsNotUtf8 text.now line) }
{
    match str::from_utf8(text) {
        Ok(_) => None,
        Err(e) => Some(newlines(&text[..e.valid_up_to()]) + 1),
    }
}

/// The first line of more than 4,096 bytes.
pub fn long_line(text: &[u8]) -> Option<usize>
    ensures { result ≡ long_line 1 (lines text.now) }
{
    let mut rest = text;
    let mut line = 0;
    while let Some((here, after)) = first_line(rest) {
        line += 1;
        if here.len() > LINE_LIMIT {
            return Some(line);
        }
        rest = after;
    }
    None
}
