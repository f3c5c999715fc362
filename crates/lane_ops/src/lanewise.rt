//! The rows by lane, on the two lanes at a place.
ghost use Rattle.std.specs.Prelude.{◌≡◌, ◌+◌, ◌^◌, ◌<◌, ◌≤◌};
ghost use Rattle.insn_semantics.specs.Exprs.{Minus, Plus, value};
ghost use Rattle.insn_semantics.specs.Rows.{scalar_leaves};
ghost use Rattle.insn_semantics.specs.Words.{cut, times};
ghost use Rattle.lane_semantics.specs.LaneRows as rows;

use crate::saturation::{chosen, is_signed_below, signed_saturated, spread, unsigned_saturated};
use crate::widths::bits;
use insn_ops::LaneOp;
use scalar_ops::{
    low_bits, word_add, word_mul, word_not, word_sar, word_shl, word_shr, word_sub, word_sx,
};

/// The sum with signed saturation.
fn signed_sum(width: u32, x: u64, y: u64) -> u64
    requires { (8 ≤ width) × (width ≤ 16) × (x < 2 ^ width) × (y < 2 ^ width) }
    ensures value { result ≡ value (scalar_leaves x y) (rows.signed_saturated Plus width) }
    ensures below { result < 2 ^ width }
{
    let sum = word_add(
        width + 1,
        word_sx(width, width + 1, x),
        word_sx(width, width + 1, y),
    );
    signed_saturated(width + 1, width, sum)
}

/// The difference with signed saturation.
fn signed_difference(width: u32, x: u64, y: u64) -> u64
    requires { (8 ≤ width) × (width ≤ 16) × (x < 2 ^ width) × (y < 2 ^ width) }
    ensures value { result ≡ value (scalar_leaves x y) (rows.signed_saturated Minus width) }
    ensures below { result < 2 ^ width }
{
    let difference = word_sub(
        width + 1,
        word_sx(width, width + 1, x),
        word_sx(width, width + 1, y),
    );
    signed_saturated(width + 1, width, difference)
}

/// The sum with unsigned saturation.
fn unsigned_sum(width: u32, x: u64, y: u64) -> u64
    requires { (8 ≤ width) × (width ≤ 16) × (x < 2 ^ width) × (y < 2 ^ width) }
    ensures value { result ≡ value (scalar_leaves x y) (rows.unsigned_saturated Plus width) }
    ensures below { result < 2 ^ width }
{
    unsigned_saturated(width + 2, width, word_add(width + 2, x, y))
}

/// The difference with unsigned saturation.
fn unsigned_difference(width: u32, x: u64, y: u64) -> u64
    requires { (8 ≤ width) × (width ≤ 16) × (x < 2 ^ width) × (y < 2 ^ width) }
    ensures value { result ≡ value (scalar_leaves x y) (rows.unsigned_saturated Minus width) }
    ensures below { result < 2 ^ width }
{
    unsigned_saturated(width + 2, width, word_sub(width + 2, x, y))
}

/// The high half of a product of 32 bits.
fn high_product(x: u64, y: u64) -> u64
    ensures value { result ≡ cut (times 32 x y) 16 16 }
    ensures below { result < 2 ^ 16 }
{
    low_bits(16, word_mul(32, x, y) >> 16)
}

/// The shift to the left, by any count.
fn left_shift(width: u32, y: u64, count: u8) -> u64
    requires { (8 ≤ width) × (width ≤ 64) × (y < 2 ^ width) }
    ensures value { result ≡ value (scalar_leaves 0 y) (rows.shifted_left width count) }
    ensures below { result < 2 ^ width }
{
    if count == 0 {
        y
    } else if u32::from(count) < width {
        word_shl(width, y, u64::from(count))
    } else {
        0
    }
}

/// The shift to the right with zeros, by any count.
fn right_shift(width: u32, y: u64, count: u8) -> u64
    requires { (8 ≤ width) × (width ≤ 64) × (y < 2 ^ width) }
    ensures value { result ≡ value (scalar_leaves 0 y) (rows.shifted_right width count) }
    ensures below { result < 2 ^ width }
{
    if count == 0 {
        y
    } else if u32::from(count) < width {
        y >> count
    } else {
        0
    }
}

/// The shift to the right with the sign, by any count.
fn signed_shift(width: u32, y: u64, count: u8) -> u64
    requires { (8 ≤ width) × (width ≤ 64) × (y < 2 ^ width) }
    ensures value { result ≡ value (scalar_leaves 0 y) (rows.shifted_by_sign width count) }
    ensures below { result < 2 ^ width }
{
    if count == 0 {
        y
    } else {
        word_sar(width, y, u64::from(count).min(u64::from(width) - 1))
    }
}

/// The mean, rounded up.
fn average(width: u32, x: u64, y: u64) -> u64
    requires { (8 ≤ width) × (width ≤ 16) }
    ensures value { result ≡ value (scalar_leaves x y) (rows.average width) }
    ensures below { result < 2 ^ width }
{
    let sum = word_add(width + 1, word_add(width + 1, x, y), 1);
    low_bits(width, sum >> 1)
}

/// What a row computes of the lanes `x` and `y`, with its immediate.
pub fn lanewise(op: LaneOp, imm: u8, x: u64, y: u64) -> u64
    requires row { rows.IsLaneRow op }
    requires words { (x < 2 ^ rows.lane_op_bits op) × (y < 2 ^ rows.lane_op_bits op) }
    ensures value { result ≡ value (scalar_leaves x y) (rows.lane_expr op imm) }
    ensures below { result < 2 ^ rows.lane_op_bits op }
{
    match op {
        LaneOp::Padd(l) => word_add(bits(l), x, y),
        LaneOp::Psub(l) => word_sub(bits(l), x, y),
        LaneOp::Padds(l) => signed_sum(bits(l), x, y),
        LaneOp::Psubs(l) => signed_difference(bits(l), x, y),
        LaneOp::Paddus(l) => unsigned_sum(bits(l), x, y),
        LaneOp::Psubus(l) => unsigned_difference(bits(l), x, y),
        LaneOp::Pand => x & y,
        LaneOp::Pandn => word_not(64, x) & y,
        LaneOp::Por => x | y,
        LaneOp::Pxor => x ^ y,
        LaneOp::Pcmpeq(l) => spread(bits(l), x == y),
        LaneOp::Pcmpgt(l) => spread(bits(l), is_signed_below(bits(l), y, x)),
        LaneOp::Pmull(l) => word_mul(bits(l), x, y),
        LaneOp::Pmulhw => high_product(word_sx(16, 32, x), word_sx(16, 32, y)),
        LaneOp::Pmulhuw => high_product(x, y),
        LaneOp::Pmuludq => word_mul(64, low_bits(32, x), low_bits(32, y)),
        LaneOp::Psll(l) => left_shift(bits(l), y, imm),
        LaneOp::Psrl(l) => right_shift(bits(l), y, imm),
        LaneOp::Psra(l) => signed_shift(bits(l), y, imm),
        LaneOp::Pmins(l) => chosen(bits(l), is_signed_below(bits(l), x, y), x, y),
        LaneOp::Pmaxs(l) => chosen(bits(l), is_signed_below(bits(l), x, y), y, x),
        LaneOp::Pminu(l) => chosen(bits(l), x < y, x, y),
        LaneOp::Pmaxu(l) => chosen(bits(l), x < y, y, x),
        LaneOp::Pavg(l) => average(bits(l), x, y),
        LaneOp::Pabs(l) => magnitude(bits(l), y),
    }
}

/// The magnitude of a signed word.
fn magnitude(width: u32, y: u64) -> u64
    requires { (8 ≤ width) × (width ≤ 64) × (y < 2 ^ width) }
    ensures value { result ≡ value (scalar_leaves 0 y) (rows.magnitude width) }
    ensures below { result < 2 ^ width }
{
    let is_negative = is_signed_below(width, y, 0);
    chosen(width, is_negative, word_sub(width, 0, y), y)
}
