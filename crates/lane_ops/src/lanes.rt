//! The vector operations, lane by lane.
ghost use Rattle.std.specs.Prelude.{◌≡◌, ◌/◌, ◌^◌, ◌<◌};
ghost use Rattle.lane_semantics.specs.VectorRows as rows;
ghost use Rattle.lane_semantics.specs.Vectors as vectors;

use crate::lanewise::lanewise;
use crate::moves::moving;
use crate::sums::{byte_mask, distance_sum, product_sum, shuffled_byte};
use crate::widths::{lane_op_bits, result_bits};
use insn_ops::VectorOp;
use lane_views::Bytes32;

/// Lane `i` of the result.
fn lane_value(op: VectorOp, w: u32, imm: u8, first: &Bytes32, second: &Bytes32, i: u32) -> u64
    requires row { rows.IsVectorRow op w }
    requires place { i < w / rows.result_bits op }
    ensures value { result ≡ vectors.lane_value op w imm first.now.bytes second.now.bytes i }
    ensures below { result < 2 ^ rows.result_bits op }
{
    match op {
        VectorOp::Lanewise(op) => {
            let width = lane_op_bits(op);
            lanewise(op, imm, first.lane(width, i), second.lane(width, i))
        }
        VectorOp::Moving(op) => moving(op, w, imm, first, second, i),
        VectorOp::Pmaddwd => product_sum(first, second, i),
        VectorOp::Psadbw => distance_sum(first, second, i),
        VectorOp::Pshufb => shuffled_byte(first, second, i),
        VectorOp::Pmovmskb => { if i == 0 { byte_mask(second, w / 8) } else { 0 } }
        VectorOp::Vzeroupper => 0,
    }
}

/// What an operation computes of vectors of `w` bits, 128 or 256, with its immediate. A row with one
/// argument has it as the second. The bytes above `w` bits are zeros: what a register keeps of its own
/// is the matter of the write.
pub fn vector(op: VectorOp, w: u32, imm: u8, first: &Bytes32, second: &Bytes32) -> Bytes32
    requires { rows.IsVectorRow op w }
    ensures { result.bytes ≡ vectors.vector_of op w imm first.now.bytes second.now.bytes }
{
    let width = result_bits(op, w);
    let mut result = Bytes32 { bytes: [0; 32] };
    for i in 0..w / width {
        result.set_lane(width, i, lane_value(op, w, imm, first, second, i));
    }
    result
}
