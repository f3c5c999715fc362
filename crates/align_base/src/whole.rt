//! Reading and writing whole files and streams.
ghost use Rattle.std.specs.Bool.{OnTrue};
ghost use Rattle.std.specs.Io.KnownBytes.{Appends};
ghost use Rattle.align_base.specs.Reading.{ReadsAll, ReadWithin, TakesCount};

use std::alloc::Global;
use std::io::{Read, Write};

/// How many bytes one read asks for.
const CHUNK: usize = 4096;

/// What reading a file gave.
#[derive(Drop)]
pub enum Reading {
    Whole(Vec<u8>),
    Broken,
    Large,
    OutOfMemory,
}

/// The bytes of a file up to its end, at most `limit`, and how many bytes were read. Each turn reads a
/// byte or more, so there are at most `limit + 1`.
pub fn read_whole<F: Read>(alloc: Global, file: &mut F, limit: u64) -> (Reading, u64)
    ensures within { ReadWithin limit result.0 result.1 }
    ensures seen { TakesCount (F.remaining file.old) (F.remaining file.new) result.1 }
    ensures bytes { ReadsAll (F.remaining file.old) limit result.0 }
{
    let mut bytes = Vec::new(alloc);
    let mut chunk = [0u8; CHUNK];
    while bytes.len() as u64 <= limit {
        match file.read(&mut chunk) {
            Err(_) => return (Reading::Broken, bytes.len() as u64),
            Ok(0) => {
                let seen = bytes.len() as u64;
                return (Reading::Whole(bytes), seen);
            }
            Ok(count) => {
                if bytes.extend_from_slice(&chunk[..count]).is_err() {
                    return (Reading::OutOfMemory, (bytes.len() + count) as u64);
                }
            }
        }
    }
    (Reading::Large, bytes.len() as u64)
}

/// Writes all of the bytes, and answers whether that was done. A write that takes no byte is a fault.
pub fn write_whole<F: Write>(file: &mut F, bytes: &[u8]) -> bool
    ensures { OnTrue result (Appends (F.contents file.old) (F.contents file.new) bytes.now) }
{
    let mut rest = bytes;
    while !rest.is_empty() {
        match file.write(rest) {
            Err(_) | Ok(0) => return false,
            Ok(count) => rest = &rest[count..],
        }
    }
    true
}
