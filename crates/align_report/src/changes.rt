//! The lines of the bytes that have changed.
ghost use Rattle.std.specs.Prelude.{◌≡◌, ◌+◌, ◌++◌, ◌==◌, ◌^◌, ◌<◌, ◌≤◌, ℕ, OnOk, false, not, string_bytes};
ghost use Rattle.machine.specs.Kept.{pure_of};
ghost use Rattle.memory_spans.specs.Memory.{bytes_at};
ghost use Rattle.test_states.specs.Ranges.{AreApart, IsRange, is_covered};
ghost use Rattle.align_report.specs.Changes.{ChangedFrom, EndsRun, piece_line};
ghost use Rattle.text_parts.specs.Bytes.{bytes_text};
ghost use Rattle.align_report.specs.Writing.{AppendsChanges, AppendsPieces, AreSameOutside};

use machine::State;
use std::alloc::AllocError;
use test_states::Range;
use text_parts::{push_byte, push_value};

// How many bytes a piece has at most.
const MOST_BYTES: u128 = 32;

// Whether the byte at an address is the same in two states.
fn is_same(start: &State, end: &State, at: u64) -> bool
    ensures { result ≡ ((pure_of start.now).memory at == (pure_of end.now).memory at) }
{
    start.byte(at) == end.byte(at)
}

// How many of the bytes from an address on have changed, up to the first that has not, and at most `most`.
fn changed_bytes(start: &State, end: &State, at: u64, most: u64) -> u64
    requires { at + most ≤ 2 ^ 64 }
    ensures few { result ≤ most }
    ensures changed { ChangedFrom (pure_of start.now).memory (pure_of end.now).memory at (at + result) }
    ensures whole { result < most → (pure_of start.now).memory (at + result) ≡ (pure_of end.now).memory (at + result) }
{
    for k in 0..most {
        if is_same(start, end, at + k) {
            return k;
        }
    }
    most
}

// Appends the bytes of a memory from an address on.
fn push_memory(out: &mut String, state: &State, at: u64, n: u64) -> Result<(), AllocError>
    requires { at + n ≤ 2 ^ 64 }
    ensures { OnOk result (string_bytes out.new
        ≡ string_bytes out.old ++ bytes_text (bytes_at (pure_of state.now).memory at n)) }
{
    for k in 0..n {
        push_byte(out, state.byte(at + k))?;
    }
    Ok(())
}

// Appends the line of a piece.
#[tactic(auto, unfolding(crate::specs::Changes::piece_line))]
fn push_piece(out: &mut String, state: &State, at: u64, n: u64) -> Result<(), AllocError>
    requires { at + n ≤ 2 ^ 64 }
    ensures { OnOk result (string_bytes out.new ≡ string_bytes out.old ++ piece_line (pure_of state.now).memory at n) }
{
    out.push_str("mem ")?;
    push_value(out, at)?;
    out.push_str(" ")?;
    push_memory(out, state, at, n)?;
    out.push_str("\n")?;
    Ok(())
}

// Appends the lines of the pieces of a range, behind which no run goes on.
fn push_range(out: &mut String, start: &State, end: &State, range: Range) -> Result<(), AllocError>
    requires range { IsRange range }
    requires ends { EndsRun (pure_of start.now).memory (pure_of end.now).memory (range.last + 1) }
    ensures { OnOk result (AppendsPieces (pure_of start.now).memory (pure_of end.now).memory range.first (range.last + 1)
        (string_bytes out.old) (string_bytes out.new)) }
{
    let behind = u128::from(range.last) + 1;
    let mut at = u128::from(range.first);
    while at < behind {
        let most = (behind - at).min(MOST_BYTES);
        let n = changed_bytes(start, end, at as u64, most as u64);
        if n == 0 {
            at += 1;
        } else {
            push_piece(out, end, at as u64, n)?;
            at += u128::from(n);
        }
    }
    Ok(())
}

/// Appends the lines of the bytes that have changed. No byte outside of the ranges has.
pub fn push_changes(
    out: &mut String,
    start: &State,
    end: &State,
    ranges: &[Range],
) -> Result<(), AllocError>
    requires apart { AreApart 0 ranges.now (2 ^ 64 + 1) }
    requires same { AreSameOutside ranges.now (pure_of start.now).memory (pure_of end.now).memory }
    ensures { OnOk result (AppendsChanges (pure_of start.now).memory (pure_of end.now).memory
        (string_bytes out.old) (string_bytes out.new)) }
{
    for range in ranges {
        push_range(out, start, end, *range)?;
    }
    Ok(())
}
