//! Which rows the table has.
ghost use Rattle.std.specs.Prelude.{◌↔◌, IsTrue};
ghost use Rattle.lane_semantics.specs.LaneRows.{IsLaneRow};
ghost use Rattle.lane_semantics.specs.MoveRows.{HasMoveWidths, IsMoveRow, Widens};
ghost use Rattle.lane_semantics.specs.VectorRows.{IsVectorRow};

use crate::widths::bits;
use insn_ops::{LaneOp, LaneWidth, MoveOp, VectorOp};

/// Whether the table has a row by lane at this lane width.
fn is_lane_row(op: LaneOp) -> bool
    ensures { IsTrue result ↔ IsLaneRow op }
{
    match op {
        LaneOp::Padds(l) | LaneOp::Psubs(l) | LaneOp::Paddus(l) | LaneOp::Psubus(l) => {
            bits(l) <= 16
        }
        LaneOp::Pavg(l) => bits(l) <= 16,
        LaneOp::Pcmpeq(l) | LaneOp::Pcmpgt(l) | LaneOp::Pabs(l) => bits(l) <= 32,
        LaneOp::Pmins(l) | LaneOp::Pmaxs(l) | LaneOp::Pminu(l) | LaneOp::Pmaxu(l) => bits(l) <= 32,
        LaneOp::Pmull(l) | LaneOp::Psra(l) => bits(l) <= 32 && 16 <= bits(l),
        LaneOp::Psll(l) | LaneOp::Psrl(l) => 16 <= bits(l),
        LaneOp::Padd(_) | LaneOp::Psub(_) => true,
        LaneOp::Pand | LaneOp::Pandn | LaneOp::Por | LaneOp::Pxor => true,
        LaneOp::Pmulhw | LaneOp::Pmulhuw | LaneOp::Pmuludq => true,
    }
}

/// Whether lanes are widened from one width to another.
fn widens(from: LaneWidth, to: LaneWidth) -> bool
    ensures { IsTrue result ↔ Widens from to }
{
    match from {
        LaneWidth::Byte => matches!(to, LaneWidth::Word | LaneWidth::Doubleword),
        LaneWidth::Word => matches!(to, LaneWidth::Doubleword),
        LaneWidth::Doubleword => matches!(to, LaneWidth::Quadword),
        LaneWidth::Quadword => false,
    }
}

/// Whether the table has a row that moves at these lane widths.
fn has_move_widths(op: MoveOp) -> bool
    ensures { IsTrue result ↔ HasMoveWidths op }
{
    match op {
        MoveOp::Packss(l) => 16 <= bits(l) && bits(l) <= 32,
        MoveOp::Pmovzx(l, m) | MoveOp::Pmovsx(l, m) => widens(l, m),
        _ => true,
    }
}

/// Whether a row that moves has vectors of `w` bits, where `w` is 128 or 256.
fn is_move_row(op: MoveOp, w: u32) -> bool
    ensures { IsTrue result ↔ IsMoveRow op w }
{
    match op {
        MoveOp::Movd | MoveOp::Movq => w == 128,
        MoveOp::Extracti128 | MoveOp::Inserti128 => w == 256,
        MoveOp::Perm2i128 | MoveOp::Permq => w == 256,
        _ => true,
    }
}

/// Whether the table has this row on vectors of `w` bits.
pub fn is_vector_row(op: VectorOp, w: u32) -> bool
    ensures { IsTrue result ↔ IsVectorRow op w }
{
    if w != 128 && w != 256 {
        return false;
    }
    match op {
        VectorOp::Lanewise(op) => is_lane_row(op),
        VectorOp::Moving(op) => has_move_widths(op) && is_move_row(op, w),
        VectorOp::Pmaddwd | VectorOp::Psadbw | VectorOp::Pshufb | VectorOp::Pmovmskb => true,
        VectorOp::Vzeroupper => false,
    }
}
