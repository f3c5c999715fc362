//! The lines of a text, and the numbers of a line.
ghost use Rattle.std.specs.Prelude.{◌≡◌, IfOk, map};
ghost use Rattle.std.specs.Option.{option_map};
ghost use Rattle.std.specs.Str.Lines.{lines};
ghost use Rattle.processor_cases.specs.Numbers.{numbers_of, word_number};
ghost use Rattle.text_parts.specs.Cuts.{parts};

use std::alloc::{AllocError, Global};
use text_parts::digits_within;

/// The lines of a text.
pub fn lines(alloc: Global, text: &str) -> Result<Vec<&str>, AllocError>
    ensures { IfOk result (λ v. map (λ x. x.now) v.items ≡ lines text.now) }
{
    text.lines().collect(alloc)
}

/// The words of a line, between single spaces.
fn words(alloc: Global, line: &str) -> Result<Vec<&str>, AllocError>
    ensures { IfOk result (λ v. map (λ x. x.now) v.items ≡ parts 32 line.now) }
{
    line.split(' ').collect(alloc)
}

/// A word as a decimal number; None where it is none, or not below 2^64.
fn number(word: &str) -> Option<u64>
    ensures { result ≡ word_number word.now }
{
    digits_within(10, word.as_bytes(), u64::MAX)
}

/// The numbers of a line; None where a word of it is no number.
pub fn numbers(alloc: Global, line: &str) -> Result<Option<Vec<u64>>, AllocError>
    ensures { IfOk result (λ r. option_map (λ v. v.items) r ≡ numbers_of line.now) }
{
    let words = words(alloc, line)?;
    let mut numbers = Vec::new(alloc);
    for word in words.as_slice() {
        match number(word) {
            Some(n) => numbers.push(n)?,
            None => return Ok(None),
        }
    }
    Ok(Some(numbers))
}
