//! Bytes and words at addresses of a memory that is kept as spans.
ghost use Rattle.std.specs.Prelude.{◌≡◌, ℕ, ◌+◌, ◌-◌, ◌*◌, ◌/◌, ◌%◌, ◌^◌, ◌<◌, ◌≤◌, ◌==◌, ◌&&◌, ◌↔◌, IsTrue, IfSome, IfNone, true, false, nat_le, nat_lt, length, slice_index, if◌then◌else◌};
ghost use Rattle.memory_spans.specs.Spans.{AreOrdered, byte_of, is_spanned, memory_of, HasBytes, places};
ghost use Rattle.memory_spans.specs.Memory.{word_at, with_word};

use crate::span::Span;

/// The byte at an address: that of the first span that has it, and 0 where none has it.
pub fn byte_at(spans: &[Span], at: u64) -> u8
    ensures { result ≡ byte_of spans.now at }
{
    for span in spans {
        if span.at <= at && at - span.at < span.bytes.len() as u64 {
            return span.bytes[(at - span.at) as usize];
        }
    }
    0
}

/// The word of the `n` bytes from an address on.
pub fn word_of(spans: &[Span], at: u64, n: u32) -> u64
    requires few { n ≤ 8 }
    requires ordered { AreOrdered 0 spans.now }
    ensures value { result ≡ word_at (memory_of spans.now) at n }
    ensures below { result < 256 ^ n }
{
    if let Some(i) = span_with(spans, at, n as u64) {
        let span = &spans[i];
        return word_in(&span.bytes, (at - span.at) as usize, n);
    }
    word_by_bytes(spans, at, n)
}

/// The word of the `n` bytes of a list from `from` on; a byte past its end is 0.
#[tactic(auto, using(crate::proofs::MemoryWords::memory_words))]
pub fn word_in(bytes: &[u8], from: usize, n: u32) -> u64
    requires few { n ≤ 8 }
    requires from { from + n ≤ 2 ^ 64 }
    ensures value { result ≡ word_at (slice_index bytes.now) from n }
    ensures below { result < 256 ^ n }
{
    let mut word = 0;
    for k in 0..n {
        word = with_byte(word, k, byte_in(bytes, from + k as usize));
    }
    word
}

/// The same over spans, where the bytes may lie in several or in none.
#[tactic(auto, using(crate::proofs::MemoryWords::memory_words))]
fn word_by_bytes(spans: &[Span], at: u64, n: u32) -> u64
    requires { n ≤ 8 }
    ensures value { result ≡ word_at (memory_of spans.now) at n }
    ensures below { result < 256 ^ n }
{
    let mut word = 0;
    for k in 0..n {
        word = with_byte(word, k, byte_at(spans, at.wrapping_add(k as u64)));
    }
    word
}

/// The byte at a place of a list, and 0 past its end.
pub fn byte_in(bytes: &[u8], at: usize) -> u8
    ensures { result ≡ slice_index bytes.now at }
{
    if at < bytes.len() { bytes[at] } else { 0 }
}

/// A word of `k` bytes with one more as its highest.
#[tactic(auto, using(crate::proofs::Bytewise::bytewise))]
fn with_byte(word: u64, k: u32, byte: u8) -> u64
    requires place { k < 8 }
    requires word { word < 256 ^ k }
    ensures value { result ≡ word + byte * 256 ^ k }
    ensures below { result < 256 ^ (k + 1) }
{
    word + ((byte as u64) << (8 * k))
}

/// Byte `k` of a word.
#[tactic(auto, using(crate::proofs::Bytewise::bytewise))]
fn byte_of_word(word: u64, k: u32) -> u8
    requires { k < 8 }
    ensures { result ≡ word / 256 ^ k % 256 }
{
    ((word >> (8 * k)) % 256) as u8
}

/// Whether a span has the `n` bytes from an address on.
fn has_bytes(span: &Span, at: u64, n: u64) -> bool
    ensures { IsTrue result ↔ ((span.now.at ≤ at) × (at + n ≤ span.now.at + length span.now.bytes.items)) }
{
    let len = span.bytes.len() as u64;
    span.at <= at && n <= len && at - span.at <= len - n
}

/// The number of the span that has the `n` bytes from an address on, where one has them all.
pub fn span_with(spans: &[Span], at: u64, n: u64) -> Option<usize>
    ensures some { IfSome result (λ i. HasBytes spans.now i at n) }
    ensures none { IfNone result (n ≡ 1 → is_spanned spans.now at ≡ false) }
{
    for (i, span) in spans.iter().enumerate() {
        if has_bytes(span, at, n) {
            return Some(i);
        }
    }
    None
}

/// Writes the `n` low bytes of a word from an address on.
#[tactic(auto, using(crate::proofs::MemoryWords::memory_words))]
pub fn put_word(spans: &mut Vec<Span>, at: u64, n: u32, word: u64)
    requires few { n ≤ 8 }
    requires ordered { AreOrdered 0 spans.old.items }
    requires spanned { (k : ℕ) → k < n → is_spanned spans.old.items ((at + k) % 2 ^ 64) ≡ true }
    ensures memory { memory_of spans.new.items ≡ with_word (memory_of spans.old.items) at n word }
    ensures places { places spans.new.items ≡ places spans.old.items }
{
    put_bytes(spans, at, n, word)
}

/// The same, byte by byte of the memory below 2^64.
#[tactic(auto, using(crate::proofs::MemoryWords::memory_words))]
fn put_bytes(spans: &mut Vec<Span>, at: u64, n: u32, word: u64)
    requires few { n ≤ 8 }
    requires ordered { AreOrdered 0 spans.old.items }
    requires spanned { (k : ℕ) → k < n → is_spanned spans.old.items ((at + k) % 2 ^ 64) ≡ true }
    ensures bytes { (x : ℕ) → x < 2 ^ 64 → byte_of spans.new.items x ≡ with_word (byte_of spans.old.items) at n word x }
    ensures places { places spans.new.items ≡ places spans.old.items }
{
    if let Some(i) = span_with(spans, at, n as u64) {
        return put_in_span(spans, i, at, n, word);
    }
    for k in 0..n {
        put_byte(spans, at.wrapping_add(k as u64), byte_of_word(word, k));
    }
}

/// Writes one byte.
#[tactic(auto, using(crate::proofs::MemoryWords::memory_words))]
pub fn put_byte(spans: &mut Vec<Span>, at: u64, byte: u8)
    requires ordered { AreOrdered 0 spans.old.items }
    requires spanned { is_spanned spans.old.items at ≡ true }
    ensures bytes { (x : ℕ) → x < 2 ^ 64
        → byte_of spans.new.items x ≡ (if x == at then byte else byte_of spans.old.items x) }
    ensures places { places spans.new.items ≡ places spans.old.items }
{
    if let Some(i) = span_with(spans, at, 1) {
        put_in_span(spans, i, at, 1, byte as u64);
    }
}

/// Writes the `n` low bytes of a word into a span that has their addresses.
fn put_in_span(spans: &mut Vec<Span>, i: usize, at: u64, n: u32, word: u64)
    requires few { n ≤ 8 }
    requires ordered { AreOrdered 0 spans.old.items }
    requires within { HasBytes spans.old.items i at n }
    ensures bytes { (x : ℕ) → x < 2 ^ 64 → byte_of spans.new.items x ≡ with_word (byte_of spans.old.items) at n word x }
    ensures places { places spans.new.items ≡ places spans.old.items }
{
    let span = &mut spans[i];
    let from = (at - span.at) as usize;
    put_in(&mut span.bytes, from, n, word);
}

/// Writes the `n` low bytes of a word into a list from `from` on.
fn put_in(bytes: &mut Vec<u8>, from: usize, n: u32, word: u64)
    requires few { n ≤ 8 }
    requires within { from + n ≤ length bytes.old.items }
    ensures bytes { (x : ℕ) → slice_index bytes.new.items x ≡ (if nat_le from x && nat_lt (x - from) n
        then word / 256 ^ (x - from) % 256 else slice_index bytes.old.items x) }
    ensures length { length bytes.new.items ≡ length bytes.old.items }
{
    for k in 0..n {
        bytes[from + k as usize] = byte_of_word(word, k);
    }
}
