//! Laws that bytes are in their range. They only go over them.
ghost use Rattle.std.specs.Prelude.{ℕ, ◌<◌, slice_index};
ghost use Rattle.memory_spans.specs.Spans.{byte_of};

use crate::span::Span;

/// The law that each byte of spans is below 256.
pub fn spans_hold_bytes(spans: &[Span])
    ensures { (at : ℕ) → byte_of spans.now at < 256 }
{
    for span in spans {
        are_bytes(&span.bytes);
    }
}

/// The law that each byte of a list is below 256.
pub fn are_bytes(bytes: &[u8])
    ensures { (at : ℕ) → slice_index bytes.now at < 256 }
{}
