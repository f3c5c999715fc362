//! Blocks of bytes in memory that is kept as spans: up to 32 bytes are read as a vector, or written.
ghost use Rattle.std.specs.Prelude.{◌≡◌, ℕ, ◌+◌, ◌%◌, ◌^◌, ◌<◌, ◌≤◌, ◌-◌, ◌&&◌, nat_le, nat_lt, true, length, slice_index, replicate, if◌then◌else◌};
ghost use Rattle.memory_spans.specs.Memory.{vector_from, with_bytes};
ghost use Rattle.memory_spans.specs.Spans.{AreOrdered, HasBytes, byte_of, is_spanned, memory_of, places};

use crate::span::Span;
use crate::words::{byte_at, byte_in, put_byte, span_with};
use lane_views::Bytes32;

/// All bytes are 0.
pub fn zeros() -> Bytes32
    ensures { result.bytes ≡ replicate 32 0 }
{
    Bytes32 { bytes: [0; 32] }
}

/// The `n` bytes from an address on, and zeros behind them.
pub fn load(spans: &[Span], at: u64, n: u32) -> Bytes32
    requires few { n ≤ 32 }
    requires ordered { AreOrdered 0 spans.now }
    ensures { result.bytes ≡ vector_from (memory_of spans.now) at n }
{
    if let Some(i) = span_with(spans, at, n as u64) {
        let span = &spans[i];
        return load_in(&span.bytes, (at - span.at) as usize, n);
    }
    load_by_bytes(spans, at, n)
}

/// The `n` bytes of a list from `from` on, and zeros behind them; a byte past its end is 0.
#[tactic(auto, using(crate::proofs::VectorBlocks::next_byte))]
pub fn load_in(bytes: &[u8], from: usize, n: u32) -> Bytes32
    requires few { n ≤ 32 }
    requires from { from + n ≤ 2 ^ 64 }
    ensures { result.bytes ≡ vector_from (slice_index bytes.now) from n }
{
    let mut vector = zeros();
    for k in 0..n {
        vector.bytes[k as usize] = byte_in(bytes, from + k as usize);
    }
    vector
}

/// The same over spans, where the bytes may lie in several or in none.
#[tactic(auto, using(crate::proofs::VectorBlocks::next_byte))]
fn load_by_bytes(spans: &[Span], at: u64, n: u32) -> Bytes32
    requires few { n ≤ 32 }
    ensures { result.bytes ≡ vector_from (memory_of spans.now) at n }
{
    let mut vector = zeros();
    for k in 0..n {
        vector.bytes[k as usize] = byte_at(spans, at.wrapping_add(k as u64));
    }
    vector
}

/// Writes bytes from an address on.
pub fn store(spans: &mut Vec<Span>, at: u64, bytes: &[u8])
    requires few { length bytes.now ≤ 32 }
    requires ordered { AreOrdered 0 spans.old.items }
    requires spanned { (k : ℕ) → k < length bytes.now → is_spanned spans.old.items ((at + k) % 2 ^ 64) ≡ true }
    ensures memory { memory_of spans.new.items ≡ with_bytes (memory_of spans.old.items) at bytes.now }
    ensures places { places spans.new.items ≡ places spans.old.items }
{
    store_bytes(spans, at, bytes)
}

/// The same, byte by byte of the memory below 2^64.
#[tactic(auto, using(crate::proofs::VectorBlocks::next_stored))]
fn store_bytes(spans: &mut Vec<Span>, at: u64, bytes: &[u8])
    requires few { length bytes.now ≤ 32 }
    requires ordered { AreOrdered 0 spans.old.items }
    requires spanned { (k : ℕ) → k < length bytes.now → is_spanned spans.old.items ((at + k) % 2 ^ 64) ≡ true }
    ensures bytes { (x : ℕ) → x < 2 ^ 64 → byte_of spans.new.items x ≡ with_bytes (byte_of spans.old.items) at bytes.now x }
    ensures places { places spans.new.items ≡ places spans.old.items }
{
    if let Some(i) = span_with(spans, at, bytes.len() as u64) {
        return store_in_span(spans, i, at, bytes);
    }
    for k in 0..bytes.len() {
        put_byte(spans, at.wrapping_add(k as u64), bytes[k]);
    }
}

/// Writes bytes into a span that has their addresses.
fn store_in_span(spans: &mut Vec<Span>, i: usize, at: u64, bytes: &[u8])
    requires few { length bytes.now ≤ 32 }
    requires ordered { AreOrdered 0 spans.old.items }
    requires within { HasBytes spans.old.items i at (length bytes.now) }
    ensures bytes { (x : ℕ) → x < 2 ^ 64 → byte_of spans.new.items x ≡ with_bytes (byte_of spans.old.items) at bytes.now x }
    ensures places { places spans.new.items ≡ places spans.old.items }
{
    let span = &mut spans[i];
    let from = (at - span.at) as usize;
    store_in(&mut span.bytes, from, bytes);
}

/// Writes bytes into a list from `from` on.
fn store_in(list: &mut Vec<u8>, from: usize, bytes: &[u8])
    requires within { from + length bytes.now ≤ length list.old.items }
    ensures bytes { (x : ℕ) → slice_index list.new.items x ≡ (if nat_le from x && nat_lt (x - from) (length bytes.now)
        then slice_index bytes.now (x - from) else slice_index list.old.items x) }
    ensures length { length list.new.items ≡ length list.old.items }
{
    for k in 0..bytes.len() {
        list[from + k] = bytes[k];
    }
}
