//! The spans of a start state.
ghost use Rattle.std.specs.Prelude.{◌≡◌, ℕ, ◌+◌, ◌^◌, true, IfOk};
ghost use Rattle.memory_spans.specs.Spans.{AreOrdered, byte_of, is_spanned};
ghost use Rattle.test_states.specs.Naming.{named_or};
ghost use Rattle.test_states.specs.Ranges.{AreApart, IsRange, IsSpanOf, is_covered, range_has};

use crate::range::Range;
use machine::Span;
use outcomes::Memory;
use std::alloc::Global;

// Whether the address lies in the range.
fn has(range: Range, at: u64) -> bool
    ensures { result ≡ range_has at range }
{
    range.first <= at && at <= range.last
}

// The span of a range, whose bytes are as they are named, and 0 where they are not.
fn span_of(alloc: Global, range: Range, named: &[(u64, u8)]) -> Result<Span, Memory>
    requires { IsRange range }
    ensures { IfOk result (IsSpanOf named.now range) }
{
    // A range of 2^64 bytes finds no memory.
    let Some(len) = (range.last - range.first).checked_add(1) else {
        return Err(Memory);
    };
    let mut bytes = vec![in alloc; 0u8; len as usize]?;
    for (at, byte) in named {
        if has(range, *at) {
            bytes[(*at - range.first) as usize] = *byte;
        }
    }
    Ok(Span {
        at: range.first,
        bytes,
    })
}

/// The spans of ranges that are in order and apart. Their bytes are as they are named.
pub fn spans_of(alloc: Global, ranges: &[Range], named: &[(u64, u8)]) -> Result<Vec<Span>, Memory>
    requires { AreApart 0 ranges.now (2 ^ 64 + 1) }
    ensures ordered { IfOk result (λ spans. AreOrdered 0 spans.items) }
    ensures spanned { IfOk result (λ spans. (x : ℕ) → is_spanned spans.items x ≡ is_covered ranges.now x) }
    ensures bytes { IfOk result (λ spans. (x : ℕ) → is_covered ranges.now x ≡ true
        → byte_of spans.items x ≡ named_or 0 named.now x) }
{
    let mut spans = Vec::new(alloc);
    for range in ranges {
        spans.push(span_of(alloc, *range, named)?)?;
    }
    Ok(spans)
}
