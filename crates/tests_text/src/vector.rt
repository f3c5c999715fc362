//! Reads the vectors of a test.
ghost use Rattle.std.specs.Prelude.{◌≡◌, ◌<◌, ◌≤◌, length, option_map, true};
ghost use Rattle.serde_json.specs.View.{view};
ghost use Rattle.text_parts.specs.Bytes.{decoded, is_hex_text};
ghost use Rattle.tests_text.specs.Reading as reading;
ghost use Rattle.tests_text.specs.Shapes.{default_byte, member_of, numerals};

use crate::register::is_object_or_none;
use crate::shape::{Kind, member_of, numerals};
use lane_views::Bytes32;
use serde_json::Value;
use text_parts::{byte_at, is_hex_text};

// `n` in decimal.
fn numeral(n: usize) -> &'static str
    requires { n < 16 }
    ensures { result.now ≡ reading.name_at numerals n }
{
    numerals()[n]
}

// What byte `i` of vector register `n` holds in test `k` where it is not named.
fn default_byte(k: u64, n: u64, i: u64) -> u8
    requires test { k ≤ 64 }
    requires number { n < 16 }
    requires place { i < 32 }
    ensures { result ≡ default_byte k n i }
{
    ((13 * n + 7 * i + 29 * k) % 256) as u8
}

// What vector register `n` holds in test `k` where it is not named.
fn default_vector(k: u64, n: u64) -> Bytes32
    requires test { k ≤ 64 }
    requires number { n < 16 }
    ensures { result ≡ reading.default_vector k n }
{
    let mut bytes = [0u8; 32];
    for i in 0..32usize {
        bytes[i] = default_byte(k, n, i as u64);
    }
    Bytes32 { bytes }
}

// The vector that these digits spell.
fn decoded_vector(text: &[u8]) -> Bytes32
    requires hex { is_hex_text text.now ≡ true }
    requires long { length text.now ≡ 64 }
    ensures { result ≡ reading.vector (decoded text.now) }
{
    let mut bytes = [0u8; 32];
    for i in 0..32usize {
        bytes[i] = byte_at(text, i);
    }
    Bytes32 { bytes }
}

// The vector that 64 digits of base 16 spell.
#[tactic(auto, unfolding(crate::specs::Reading::vector_in))]
fn vector_in(text: &[u8]) -> Option<Bytes32>
    ensures { result ≡ reading.vector_in text.now }
{
    if is_hex_text(text) && text.len() == 64 {
        Some(decoded_vector(text))
    } else {
        None
    }
}

// The value of vector register `n` in test `k`, by its member.
fn vector_of(k: u64, n: u64, found: Option<&Value>) -> Option<Bytes32>
    requires test { k ≤ 64 }
    requires number { n < 16 }
    ensures { result ≡ reading.vector_of k n (option_map (λ v. view v.now) found.entry) }
{
    match found {
        None => Some(default_vector(k, n)),
        Some(value) => vector_in(value.as_str()?.as_bytes()),
    }
}

// The vectors of test `k`, by the member `ymm`.
#[tactic(auto, unfolding(crate::specs::Reading::vectors_of))]
pub(crate) fn vectors_of(k: u64, found: Option<&Value>) -> Option<[Bytes32; 16]>
    requires { k ≤ 64 }
    ensures { result ≡ reading.vectors_of k (option_map (λ v. view v.now) found.entry) }
{
    if !is_object_or_none(Kind::Vectors, found) {
        return None;
    }
    named_vectors(k, found)
}

// The same of an object whose members are vectors, or of nothing.
fn named_vectors(k: u64, found: Option<&Value>) -> Option<[Bytes32; 16]>
    requires { k ≤ 64 }
    ensures { result ≡ reading.collected (λ n. reading.vector_of k n
        (member_of (option_map (λ v. view v.now) found.entry) (reading.name_at numerals n))) 0 16 }
{
    let mut vecs = [Bytes32 { bytes: [0; 32] }; 16];
    for n in 0..16usize {
        let Some(value) = vector_of(k, n as u64, member_of(found, numeral(n))) else {
            return None;
        };
        vecs[n] = value;
    }
    Some(vecs)
}
