//! One case of the table, and whether `scalar_ops` and `lane_ops` agree with it.
ghost use Rattle.std.specs.Prelude.{◌≡◌, ◌<◌, ◌^◌, ◌↔◌, IsTrue};
ghost use Rattle.insn_semantics.specs.FlagRules.{flags_after};
ghost use Rattle.lane_semantics.specs.VectorRows.{IsVectorRow};
ghost use Rattle.lane_semantics.specs.Vectors.{vector_of};
ghost use Rattle.processor_cases.specs.Agreement.{Agrees, IsInRange, flag_code, flag_codes, row_value};

use insn_ops::{Cond, Flags, Op, VectorOp};
use lane_ops::{is_vector_row, vector};
use lane_views::Bytes32;
use scalar_ops::{flags, holds, scalar};

/// A line of the table.
#[derive(Drop)]
pub enum Case {
    /// An operation and its number, its width, destination, source, the flags before, and what the
    /// processor answered: the result and each flag, 2 where it is unset.
    Row {
        number: u64,
        op: Op,
        w: u32,
        a: u64,
        b: u64,
        before: Flags,
        value: u64,
        after: [u64; 5],
    },
    /// A condition, the flags, and whether it holds.
    Condition {
        cond: Cond,
        flags: Flags,
        holds: u64,
    },
    /// A vector operation and its number, the width of the vectors, the immediate, both arguments, and
    /// the result.
    Vector {
        number: u64,
        op: VectorOp,
        w: u32,
        imm: u8,
        first: Bytes32,
        second: Bytes32,
        result: Bytes32,
    },
}

/// 0 or 1, or 2 for a flag that is unset.
fn flag_code(flag: Option<bool>) -> u64
    ensures { result ≡ flag_code flag }
{
    match flag {
        Some(false) => 0,
        Some(true) => 1,
        None => 2,
    }
}

/// The flags as the table writes them.
fn flag_codes(flags: Flags) -> [u64; 5]
    ensures { result ≡ flag_codes flags }
{
    [
        flag_code(flags.cf),
        flag_code(flags.pf),
        flag_code(flags.zf),
        flag_code(flags.sf),
        flag_code(flags.of),
    ]
}

/// Whether it is a word of `w` bits.
fn is_word(w: u32, a: u64) -> bool
    requires { w < 65 }
    ensures { IsTrue result ↔ (a < 2 ^ w) }
{
    w == 64 || a < 1u64 << w
}

/// Whether the operands are in the ranges of the row.
fn is_in_range(op: Op, w: u32, a: u64, b: u64) -> bool
    ensures { IsTrue result ↔ IsInRange op w a b }
{
    if w == 0 || w > 64 {
        return false;
    }
    match op {
        Op::Shl | Op::Shr | Op::Sar => is_word(w, a) && 0 < b && b < u64::from(w),
        Op::Lea => true,
        Op::Movzx(m) | Op::Movsx(m) => 0 < m && m < w && is_word(m, b),
        Op::Cltq => w == 64 && is_word(32, b),
        Op::Set(_) => w == 8,
        Op::Jump(_)
        | Op::Jmp
        | Op::Push
        | Op::Pop
        | Op::Ret
        | Op::Nop
        | Op::Endbr64
        | Op::Vector(_) => false,
        _ => is_word(w, a) && is_word(w, b),
    }
}

/// The value of a row; None where the condition that it reads has none.
fn row_value(op: Op, w: u32, a: u64, b: u64, before: &Flags) -> Option<u64>
    requires { IsInRange op w a b }
    ensures { result ≡ row_value op w a b before.now }
{
    match op {
        Op::Cmov(cond) => Some(if holds(cond, before)? { b } else { a }),
        Op::Set(cond) => Some(u64::from(holds(cond, before)?)),
        _ => Some(scalar(op, w, a, b)),
    }
}

/// The flags after a row.
#[tactic(auto, using(crate::proofs::RowFlags::row_flags))]
fn row_flags(op: Op, w: u32, a: u64, b: u64, before: Flags) -> Flags
    requires { IsInRange op w a b }
    ensures { result ≡ flags_after op w a b before }
{
    match op {
        Op::Cmov(_) | Op::Set(_) => before,
        _ => flags(op, w, a, b, before),
    }
}

/// Whether a vector operation has this result.
fn has_result(
    op: VectorOp,
    w: u32,
    imm: u8,
    first: &Bytes32,
    second: &Bytes32,
    wanted: &Bytes32,
) -> bool
    requires { IsVectorRow op w }
    ensures { IsTrue result ↔ (vector_of op w imm first.now.bytes second.now.bytes ≡ wanted.now.bytes) }
{
    vector(op, w, imm, first, second).bytes == wanted.bytes
}

impl Case {
    /// Whether `scalar_ops` and `lane_ops` agree with it, and so the definitions do.
    pub fn is_right(&self) -> bool
        ensures { IsTrue result ↔ Agrees self.now }
    {
        match self {
            Case::Condition {
                cond,
                flags,
                holds: wanted,
            } => flag_code(holds(*cond, flags)) == *wanted,
            Case::Row {
                op,
                w,
                a,
                b,
                before,
                value,
                after,
                ..
            } => {
                is_in_range(*op, *w, *a, *b)
                    && row_value(*op, *w, *a, *b, before) == Some(*value)
                    && flag_codes(row_flags(*op, *w, *a, *b, *before)) == *after
            }
            Case::Vector {
                op,
                w,
                imm,
                first,
                second,
                result,
                ..
            } => is_vector_row(*op, *w) && has_result(*op, *w, *imm, first, second, result),
        }
    }
}
