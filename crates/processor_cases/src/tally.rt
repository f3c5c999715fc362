//! Counts the cases of a table, and those that are wrong.
ghost use Rattle.std.specs.Prelude.{◌≡◌, ◌↔◌, All, IfOk, IsSomeAnd, IsTrue};
ghost use Rattle.std.specs.Str.Lines.{lines};
ghost use Rattle.processor_cases.specs.Agreement.{Agrees, LineAgrees};

use crate::case::Case;
use crate::numbers::lines;
use insn_ops::{Op, VectorOp};
use std::alloc::{AllocError, Global};

/// How many cases were read of each operation, of `cmovCC`, `setCC`, conditions and vector rows, and how many lines were
/// wrong. Each count stays at 2^64 - 1 once it is there.
#[derive(Drop)]
pub struct Counts {
    pub of_operations: [u64; 24],
    pub moves: u64,
    pub settings: u64,
    pub conditions: u64,
    pub of_lane_rows: [u64; 56],
    pub of_other_rows: [u64; 42],
    pub wrong: u64,
}

/// One more at a place, if there is one.
fn raise(counts: &mut [u64], place: u64) {
    if let Some(n) = counts.get_mut(place as usize) {
        *n = n.saturating_add(1);
    }
}

/// Counts the case by its operation.
fn count_operation(counts: &mut Counts, case: &Case)
    ensures { counts.new.wrong ≡ counts.old.wrong }
{
    match case {
        Case::Row { op, number, .. } => match op {
            Op::Cmov(_) => counts.moves = counts.moves.saturating_add(1),
            Op::Set(_) => counts.settings = counts.settings.saturating_add(1),
            _ => raise(&mut counts.of_operations, *number),
        },
        Case::Condition { .. } => counts.conditions = counts.conditions.saturating_add(1),
        Case::Vector { op, number, .. } => match op {
            VectorOp::Lanewise(_) => raise(&mut counts.of_lane_rows, *number),
            _ => raise(&mut counts.of_other_rows, *number),
        },
    }
}

/// Whether a line has a case, and it is right.
fn is_right(case: &Option<Case>) -> bool
    ensures { IsTrue result ↔ IsSomeAnd case.now Agrees }
{
    match case {
        Some(case) => case.is_right(),
        None => false,
    }
}

/// Counts a line. Exactly where none is wrong behind it, none was before, and this one agrees.
fn count(counts: &mut Counts, case: &Option<Case>)
    ensures { (counts.new.wrong ≡ 0) ↔ ((counts.old.wrong ≡ 0) × IsSomeAnd case.now Agrees) }
{
    if let Some(case) = case {
        count_operation(counts, case);
    }
    if !is_right(case) {
        counts.wrong = counts.wrong.saturating_add(1);
    }
}

/// Counts the lines of a table. None is wrong exactly where each line spells a case that agrees.
pub fn tally(alloc: Global, text: &str) -> Result<Counts, AllocError>
    ensures { IfOk result (λ counts. (counts.wrong ≡ 0) ↔ All LineAgrees (lines text.now)) }
{
    let mut counts = Counts {
        of_operations: [0; 24],
        moves: 0,
        settings: 0,
        conditions: 0,
        of_lane_rows: [0; 56],
        of_other_rows: [0; 42],
        wrong: 0,
    };
    let lines = lines(alloc, text)?;
    for line in lines.as_slice() {
        let case = Case::read(alloc, line)?;
        count(&mut counts, &case);
    }
    Ok(counts)
}
