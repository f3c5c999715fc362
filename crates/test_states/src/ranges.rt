//! Ranges of addresses, which become the spans of a start state.
ghost use Rattle.std.specs.Prelude.{◌≡◌, ℕ, ◌+◌, ◌-◌, ◌%◌, ◌^◌, ◌<◌, ◌≤◌, ◌||◌, ◌∷◌, IfOk, OnOk, nat_lt};
ghost use Rattle.std.specs.List.{All, list_any};
ghost use Rattle.std.specs.List.Sorted.{IsNonDecreasingBy};
ghost use Rattle.memory_spans.specs.Memory.{offset_from};
ghost use Rattle.memory_spans.specs.declared.region.Region.{Region};
ghost use Rattle.test_states.specs.declared.range.Range.{Range};
ghost use Rattle.test_states.specs.Ranges.{AreApart, IsRange, is_covered};

use crate::range::Range;
use memory_spans::Region;
use outcomes::Memory;
use std::alloc::Global;

// Adds the first `len` addresses from `base` on, which wrap at 2^64.
fn push_range(ranges: &mut Vec<Range>, base: u64, len: u64) -> Result<(), Memory>
    requires { All IsRange ranges.old.items }
    ensures ranges { OnOk result (All IsRange ranges.new.items) }
    ensures covered { OnOk result ((x : ℕ) → x < 2 ^ 64
        → is_covered ranges.new.items x ≡ (is_covered ranges.old.items x || nat_lt (offset_from base x) len)) }
{
    if len == 0 {
        return Ok(());
    }
    let last = base.wrapping_add(len - 1);
    if base <= last {
        ranges.push(Range { first: base, last })?;
    } else {
        ranges.push(Range {
            first: base,
            last: u64::MAX,
        })?;
        ranges.push(Range { first: 0, last })?;
    }
    Ok(())
}

// The law that an address has 64 bits. It does nothing.
fn is_address(_at: u64)
    ensures { _at < 2 ^ 64 }
{}

// Joins ranges, which stand by their first addresses, where they touch or overlap.
fn joined(alloc: Global, ranges: &[Range]) -> Result<Vec<Range>, Memory>
    requires ranges { All IsRange ranges.now }
    requires sorted { IsNonDecreasingBy (λ (r : Range). r.first) ranges.now }
    ensures apart { IfOk result (λ joined. AreApart 0 joined.items (2 ^ 64 + 1)) }
    ensures covered { IfOk result (λ joined. (x : ℕ) → is_covered joined.items x ≡ is_covered ranges.now x) }
{
    let mut joined = Vec::new(alloc);
    let Some(first) = ranges.first() else {
        return Ok(joined);
    };
    let mut current = *first;
    for range in ranges {
        let gap = range.first.saturating_sub(current.last);
        if gap <= 1 {
            current.last = current.last.max(range.last);
        } else {
            joined.push(current)?;
            current = *range;
        }
    }
    is_address(current.last);
    joined.push(current)?;
    Ok(joined)
}

/// The ranges, in order and apart, of the addresses of regions and of the first `len` addresses from
/// `base` on, which wrap at 2^64.
pub fn ranges_of(
    alloc: Global,
    regions: &[Region],
    base: u64,
    len: u64,
) -> Result<Vec<Range>, Memory>
    ensures apart { IfOk result (λ ranges. AreApart 0 ranges.items (2 ^ 64 + 1)) }
    ensures covered { IfOk result (λ ranges. (x : ℕ) → x < 2 ^ 64 → is_covered ranges.items x
        ≡ (nat_lt (offset_from base x) len || list_any (λ (r : Region). nat_lt (offset_from r.base x) r.len) regions.now)) }
{
    let mut ranges = Vec::new(alloc);
    push_range(&mut ranges, base, len)?;
    for region in regions {
        push_range(&mut ranges, region.base, region.len)?;
    }
    ranges.sort_by_key(|range| range.first)?;
    joined(alloc, &ranges)
}
