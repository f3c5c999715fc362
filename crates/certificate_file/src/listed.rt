//! Lists of what is read, each in memory of just its length.
ghost use Rattle.std.specs.Prelude.{◌≡◌, ◌++◌, ◌∷◌, [], ℕ, List, IfOk, OnOk};
ghost use Rattle.text_codes.specs.Readers.{Reading, line_at, times_at};
ghost use Rattle.text_codes.specs.Stops.{Gives, Tells};
ghost use Rattle.certificate_file.specs.ProductReading.{end_at};

use sqlite_items::Items;
use std::alloc::{AllocError, Global};
use text_codes::Stop;

/// What has a text of its own.
pub(crate) trait Spelled: Drop {
    ghost use Rattle.std.specs.Prelude.{ℕ, List};
    ghost use Rattle.text_codes.specs.Readers.{Reading};

    /// What is read of a text.
    ghost read_at: { List ℕ → Reading Self };

    /// Reads it at the front of the text.
    fn read(alloc: Global, text: &[u8]) -> Result<(Self, &[u8]), Stop<'_>>
        ensures { Gives (λ x. (x.0, x.1.now)) result (read_at text.now) };
}

/// What has a text that is ended by a given byte.
pub(crate) trait Ended: Drop {
    ghost use Rattle.std.specs.Prelude.{ℕ, List};
    ghost use Rattle.text_codes.specs.Readers.{Reading};

    /// What is read of a text with this byte behind it.
    ghost read_at: { ℕ → List ℕ → Reading Self };

    /// Reads it at the front of the text.
    fn read(text: &[u8], end: u8) -> Result<(Self, &[u8]), &[u8]>
        ensures { Tells (λ x. (x.0, x.1.now)) result (read_at end text.now) };
}

/// Appends a value to what was found.
pub(crate) fn push<T: Drop>(found: &mut Vec<T>, value: T) -> Result<(), AllocError>
    ensures { OnOk result (found.new.items ≡ found.old.items ++ value ∷ []) }
{
    found.push(value)?;
    Ok(())
}

/// What was found, with the memory behind it given back. A short list is moved to a block of its own, so that the next
/// list grows in the one that it leaves; the rest of a short block that shrinks may be of no use to any other.
pub(crate) fn fitted<T: Drop>(alloc: Global, mut found: Vec<T>) -> Result<Items<T>, AllocError>
    ensures { IfOk result (λ items. items ≡ found.items) }
{
    if found.len() > 1024 {
        found.shrink_to_fit();
        return Ok(Items::from_vec(found));
    }
    let mut moved = Vec::with_capacity(alloc, found.len())?;
    moved.append(&mut found)?;
    Ok(Items::from_vec(moved))
}

/// So many values, one behind another.
pub(crate) fn times<T: Spelled>(
    alloc: Global,
    count: u64,
    text: &[u8],
) -> Result<(Items<T>, &[u8]), Stop<'_>>
    ensures { Gives (λ x. (x.0, x.1.now)) result (times_at T.read_at count text.now) }
{
    let mut found = Vec::new(alloc);
    let mut rest = text;
    let mut left = count;
    while left > 0 {
        let (value, after) = T::read(alloc, rest)?;
        push(&mut found, value)?;
        rest = after;
        left -= 1;
    }
    Ok((fitted(alloc, found)?, rest))
}

/// The byte that ends a value of a line, of which so many are to come with this one.
fn end_at(left: u64) -> u8
    ensures { result ≡ end_at left }
{
    if left == 1 { b'\n' } else { b' ' }
}

/// So many values up to the end of the line.
pub(crate) fn line<T: Ended>(
    alloc: Global,
    count: u64,
    text: &[u8],
) -> Result<(Items<T>, &[u8]), Stop<'_>>
    ensures { Gives (λ x. (x.0, x.1.now)) result (line_at T.read_at count text.now) }
{
    let mut found = Vec::new(alloc);
    let mut rest = text;
    let mut left = count;
    while left > 0 {
        let (value, after) = T::read(rest, end_at(left))?;
        push(&mut found, value)?;
        rest = after;
        left -= 1;
    }
    Ok((fitted(alloc, found)?, rest))
}
