//! The flags after each operation.

ghost use Rattle.std.specs.Prelude.{◌≡◌, ◌<◌, ◌-◌, ◌==◌, if◌then◌else◌};
ghost use Rattle.insn_semantics.specs.Exprs.{value, Two, Xor, Leaf};
ghost use Rattle.insn_semantics.specs.FlagRules.{flags_after, flag_leaves, is_even, sum_overflow, difference_overflow, left_shift_carry, right_shift_carry, top_of};
ghost use Rattle.insn_semantics.specs.Words.{cut};
ghost use Rattle.insn_semantics.specs.Rows.{Computes};
ghost use Rattle.scalar_ops.specs.ResultFlags.{result_flags};

use crate::rows::scalar;
use insn_ops::{Flags, Op};

/// No flag has a value.
const ALL_UNSET: Flags = Flags {
    cf: None,
    pf: None,
    zf: None,
    sf: None,
    of: None,
};

/// The flags after an instruction on the destination `a` and the source `b`.
#[tactic(auto, using(crate::proofs::FlagRecords::flag_records))]
pub fn flags(op: Op, width: u32, a: u64, b: u64, before: Flags) -> Flags
    requires { Computes op width a b }
    ensures { result ≡ flags_after op width a b before }
{
    let r = scalar(op, width, a, b);
    match op {
        Op::Add => of_sum(width, r, Some(r < a), a, b),
        Op::Inc => of_sum(width, r, before.cf, a, 1),
        Op::Sub => of_difference(width, r, Some(a < b), a, b),
        Op::Cmp => of_difference(width, r, Some(a < b), a, b),
        Op::Neg => of_difference(width, r, Some(0 < a), 0, a),
        Op::Dec => of_difference(width, r, before.cf, a, 1),
        Op::Test => of_result(width, r, Some(false), Some(false)),
        Op::And => of_result(width, r, Some(false), Some(false)),
        Op::Or => of_result(width, r, Some(false), Some(false)),
        Op::Xor => of_result(width, r, Some(false), Some(false)),
        Op::Shl => of_left_shift(width, r, a, b),
        Op::Shr => of_right_shift(width, r, a, b, is_top_set(width, a)),
        Op::Sar => of_right_shift(width, r, a, b, false),
        Op::Imul => ALL_UNSET,
        _ => before,
    }
}

/// The flags of the sum r of a and b, with this carry.
fn of_sum(width: u32, r: u64, carry: Option<bool>, a: u64, b: u64) -> Flags
    requires { (0 < width) × (width < 65) }
    ensures { result ≡ result_flags width r carry (Some (value (flag_leaves r a b) (sum_overflow width) == 1)) }
{
    let overflow = is_top_set(width, (a ^ r) & (b ^ r));
    of_result(width, r, carry, Some(overflow))
}

/// The flags of the difference r of a and b, with this carry.
fn of_difference(width: u32, r: u64, carry: Option<bool>, a: u64, b: u64) -> Flags
    requires { (0 < width) × (width < 65) }
    ensures { result ≡ result_flags width r carry (Some (value (flag_leaves r a b) (difference_overflow width) == 1)) }
{
    let overflow = is_top_set(width, (a ^ b) & (a ^ r));
    of_result(width, r, carry, Some(overflow))
}

/// The flags of the shift of a to the left, whose result is r.
fn of_left_shift(width: u32, r: u64, a: u64, count: u64) -> Flags
    requires { (0 < count) × (count < width) × (width < 65) }
    ensures { result ≡ result_flags width r (Some (value (flag_leaves r a count) (left_shift_carry width count) == 1))
        (if count == 1
        then Some (value (flag_leaves r a count) (Two Xor 1 (top_of width (Leaf 0)) (left_shift_carry width count)) == 1) else None) }
{
    let out = width as u64 - count;
    let sign_changed = is_bit_set((r >> (width - 1)) ^ (a >> out), 0);
    of_result(
        width,
        r,
        Some(is_bit_set(a, out)),
        at_count_one(count, sign_changed),
    )
}

/// The flags of a shift of a to the right, whose result is r, with the overflow flag of a count of 1.
fn of_right_shift(width: u32, r: u64, a: u64, count: u64, overflow: bool) -> Flags
    requires { (0 < count) × (count < width) × (width < 65) }
    ensures { result ≡ result_flags width r (Some (value (flag_leaves r a count) (right_shift_carry count) == 1))
        (if count == 1 then Some overflow else None) }
{
    of_result(
        width,
        r,
        Some(is_bit_set(a, count - 1)),
        at_count_one(count, overflow),
    )
}

/// The flags that are read off the result, beside these two.
fn of_result(width: u32, r: u64, carry: Option<bool>, overflow: Option<bool>) -> Flags
    requires { (0 < width) × (width < 65) }
    ensures { result ≡ result_flags width r carry overflow }
{
    Flags {
        cf: carry,
        pf: Some(is_parity_even(r)),
        zf: Some(r == 0),
        sf: Some(is_top_set(width, r)),
        of: overflow,
    }
}

/// A shift's overflow flag is set at a count of 1 alone.
fn at_count_one(count: u64, overflow: bool) -> Option<bool>
    ensures { result ≡ (if count == 1 then Some overflow else None) }
{
    if count == 1 { Some(overflow) } else { None }
}

/// Whether the highest bit of `width` is set.
fn is_top_set(width: u32, a: u64) -> bool
    requires { (0 < width) × (width < 65) }
    ensures { result ≡ (cut a (width - 1) 1 == 1) }
{
    is_bit_set(a, width as u64 - 1)
}

/// Whether the bit at a place is set.
fn is_bit_set(a: u64, place: u64) -> bool
    requires { place < 64 }
    ensures { result ≡ (cut a place 1 == 1) }
{
    (a >> place) & 1 == 1
}

/// Whether the low eight bits have an even number of ones.
fn is_parity_even(r: u64) -> bool
    ensures { result ≡ (value (flag_leaves r 0 0) is_even == 1) }
{
    let joined = r ^ (r >> 1) ^ (r >> 2) ^ (r >> 3) ^ (r >> 4) ^ (r >> 5) ^ (r >> 6) ^ (r >> 7);
    !is_bit_set(joined, 0)
}
