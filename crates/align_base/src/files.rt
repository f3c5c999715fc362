//! Files under names, in memory.
ghost use Rattle.std.specs.Prelude.{◌≡◌, option_map};
ghost use Rattle.align_base.specs.Files.{CopiedWithin, first_held, PutFirst};

use crate::shelf::{PutFault, TakeFault};
use crate::word::Word;
use std::alloc::Global;

/// What the first file of this name holds.
pub fn first_held<'a>(files: &'a [(Word, Vec<u8>)], name: &[u8]) -> Option<&'a [u8]>
    ensures { option_map (λ bytes. bytes.now) result ≡ first_held files.now name.now }
{
    let mut rest = files;
    while let [file, after @ ..] = rest {
        if file.0.bytes() == name {
            return Some(file.1.as_slice());
        }
        rest = after;
    }
    None
}

/// A copy of the bytes, where they are within the limit.
pub fn copied_within(alloc: Global, bytes: &[u8], limit: u64) -> Result<Vec<u8>, TakeFault>
    ensures { CopiedWithin bytes.now limit result }
{
    if bytes.len() as u64 > limit {
        return Err(TakeFault::Large(limit + 1));
    }
    Ok(Vec::from_slice(alloc, bytes)?)
}

/// Puts a file before all others, so that its name holds it.
pub fn put_first(
    files: &mut Vec<(Word, Vec<u8>)>,
    alloc: Global,
    name: Word,
    bytes: &[u8],
) -> Result<(), PutFault>
    ensures { PutFirst files.old.items files.new.items name bytes.now result }
{
    let copy = Vec::from_slice(alloc, bytes)?;
    files.insert(0, (name, copy))?;
    Ok(())
}
