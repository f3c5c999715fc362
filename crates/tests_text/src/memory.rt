//! Reads the memory of a test.
ghost use Rattle.std.specs.Prelude.{◌≡◌, ◌+◌, ◌-◌, ◌/◌, ◌^◌, ◌≤◌, ◌++◌, IfOk, OnOk, length, nat_le, option_map, true};
ghost use Rattle.serde_json.specs.View.{items_view, view};
ghost use Rattle.text_parts.specs.Bytes.{decoded, is_hex_text};
ghost use Rattle.tests_text.specs.Reading as reading;
ghost use Rattle.tests_text.specs.Shapes.{addressed};

use crate::shape::{Kind, is_object};
use outcomes::Memory;
use serde_json::Value;
use sqlite_items::Items;
use std::alloc::Global;
use text_parts::{byte_at, is_hex_text};

// The address and the digits of a piece that ends at 2^64 at most.
#[tactic(auto, unfolding(crate::specs::Reading::piece_of))]
fn piece_of(value: &Value) -> Option<(u64, &[u8])>
    ensures { option_map (λ p. (p.0, p.1.now)) result ≡ reading.piece_of (view value.now) }
{
    if !is_object(Kind::Piece, value) {
        return None;
    }
    let at = value.get("at")?.as_u64()?;
    let text = value.get("hex")?.as_str()?.as_bytes();
    if is_hex_text(text) && fits(at, text.len() / 2) {
        Some((at, text))
    } else {
        None
    }
}

// Whether so many bytes from an address on end at 2^64 at most.
fn fits(at: u64, count: usize) -> bool
    ensures { result ≡ nat_le (at + count) (2 ^ 64) }
{
    count == 0 || (count - 1) as u64 <= u64::MAX - at
}

/// How many bytes pieces have together; counts above 2^64 - 1 are given as that.
pub(crate) fn size_of(pieces: &[Value]) -> Option<u64>
    ensures { result ≡ reading.size_of 0 (items_view pieces.now) }
{
    let mut size = 0u64;
    for piece in pieces {
        let Some((_at, text)) = piece_of(piece) else {
            return None;
        };
        size = size.saturating_add((text.len() / 2) as u64);
    }
    Some(size)
}

// Appends the bytes that digits spell, from an address on.
fn push_bytes(bytes: &mut Items<(u64, u8)>, at: u64, text: &[u8]) -> Result<(), Memory>
    requires hex { is_hex_text text.now ≡ true }
    requires ends { at + length text.now / 2 ≤ 2 ^ 64 }
    ensures { OnOk result (bytes.new ≡ bytes.old ++ addressed at (decoded text.now)) }
{
    for i in 0..text.len() / 2 {
        bytes.push((at + i as u64, byte_at(text, i)))?;
    }
    Ok(())
}

/// The bytes of pieces.
pub(crate) fn bytes_of(alloc: Global, pieces: &[Value]) -> Result<Option<Items<(u64, u8)>>, Memory>
    ensures { IfOk result (λ found. found ≡ reading.bytes_of (items_view pieces.now)) }
{
    let mut bytes = Items::new(alloc);
    for piece in pieces {
        let Some((at, text)) = piece_of(piece) else {
            return Ok(None);
        };
        push_bytes(&mut bytes, at, text)?;
    }
    Ok(Some(bytes))
}

/// The pieces of a test, by the member `mem`: none where there is no such member.
pub(crate) fn pieces_of<'v>(found: Option<&'v Value>) -> Option<&'v [Value]>
    ensures { option_map (λ v. items_view v.now) result ≡ reading.pieces_of (option_map (λ v. view v.now) found.entry) }
{
    match found {
        None => Some(&[]),
        Some(value) => Some(value.as_array()?.as_slice()),
    }
}
