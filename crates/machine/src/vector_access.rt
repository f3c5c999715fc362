//! Of how many bits the operands of an operation on vectors are in memory, and which addresses it takes.
ghost use Rattle.std.specs.Prelude.{◌≡◌, ◌≢◌, if◌then◌else◌};
ghost use Rattle.machine.specs.VectorAccess as vectors;
ghost use Rattle.lane_semantics.specs.Widths as widths;

use insn_ops::{LaneWidth, MoveOp, VectorOp};
use insn_table::Op;

/// The width of the source of an operation on vectors of `w` bits.
pub fn vector_source_width(op: VectorOp, w: u32) -> u32
    ensures { result ≡ vectors.vector_source_width op w }
{
    match op {
        VectorOp::Moving(op) => move_source_width(op, w),
        _ => w,
    }
}

fn move_source_width(op: MoveOp, w: u32) -> u32
    ensures { result ≡ vectors.move_source_width op w }
{
    match op {
        MoveOp::Movd => 32,
        MoveOp::Movq => 64,
        MoveOp::Pbroadcast(lanes) => bits(lanes),
        MoveOp::Inserti128 => 128,
        MoveOp::Pmovzx(from, to) | MoveOp::Pmovsx(from, to) => w / widening(from, to),
        _ => w,
    }
}

/// The width of a lane in bits.
fn bits(lanes: LaneWidth) -> u32
    ensures { result ≡ widths.bits lanes }
{
    match lanes {
        LaneWidth::Byte => 8,
        LaneWidth::Word => 16,
        LaneWidth::Doubleword => 32,
        LaneWidth::Quadword => 64,
    }
}

/// How many times as wide the lanes become that are widened.
fn widening(from: LaneWidth, to: LaneWidth) -> u32
    ensures value { result ≡ vectors.widening from to }
    ensures some { result ≢ 0 }
{
    match (from, to) {
        (LaneWidth::Byte, LaneWidth::Word) => 2,
        (LaneWidth::Byte, LaneWidth::Doubleword) => 4,
        (LaneWidth::Word, LaneWidth::Doubleword) => 2,
        (LaneWidth::Doubleword, LaneWidth::Quadword) => 2,
        _ => 1,
    }
}

/// The width of what an operation on vectors of `w` bits writes to memory.
pub fn vector_target_width(op: VectorOp, w: u32) -> u32
    ensures { result ≡ vectors.vector_target_width op w }
{
    match op {
        VectorOp::Moving(op) => move_target_width(op, w),
        _ => w,
    }
}

fn move_target_width(op: MoveOp, w: u32) -> u32
    ensures { result ≡ vectors.move_target_width op w }
{
    match op {
        MoveOp::Movd => 32,
        MoveOp::Movq => 64,
        MoveOp::Extracti128 => 128,
        _ => w,
    }
}

/// The number of bytes that the address of a memory operand has to be a multiple of.
pub fn alignment(op: Op, vex: bool, w: u32) -> u64
    ensures value { result ≡ vectors.alignment op vex w }
    ensures some { result ≢ 0 }
{
    match op {
        Op::Vector(VectorOp::Moving(op)) => move_alignment(op, vex, w),
        Op::Vector(_) => alignment_of_form(vex),
        _ => 1,
    }
}

fn move_alignment(op: MoveOp, vex: bool, w: u32) -> u64
    ensures value { result ≡ vectors.move_alignment op vex w }
    ensures some { result ≢ 0 }
{
    match op {
        MoveOp::Movdqa | MoveOp::Movaps => { if w == 256 { 32 } else { 16 } }
        MoveOp::Movdqu | MoveOp::Movups | MoveOp::Movd | MoveOp::Movq => 1,
        _ => alignment_of_form(vex),
    }
}

fn alignment_of_form(vex: bool) -> u64
    ensures value { result ≡ (if vex then 1 else 16) }
    ensures some { result ≢ 0 }
{
    if vex { 1 } else { 16 }
}
