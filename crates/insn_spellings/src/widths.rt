//! The shapes that mnemonics name: which widths each operation has, and which lanes.
ghost use Rattle.std.specs.Prelude.{◌≡◌};
ghost use Rattle.insn_spellings.specs.Widths.{is_wide, is_long, has_suffix, widens_to, is_narrow, is_middle, widens, has_lanes, has_move, has_vectors, vector_width, has_width, is_shape};

use crate::shape::Shape;
use insn_ops::{LaneOp, LaneWidth, MoveOp, Op, VectorOp};

/// Whether a mnemonic names this shape.
pub fn is_shape(shape: Shape) -> bool
    ensures { result ≡ is_shape shape }
{
    match shape.op {
        Op::Vector(op) => has_vectors(shape.vex, op) && shape.w == vector_width(shape.vex, op),
        op => !shape.vex && has_width(op, shape.w),
    }
}

/// 16, 32 or 64 bits.
pub fn is_wide(w: u32) -> bool
    ensures { result ≡ is_wide w }
{
    w == 16 || w == 32 || w == 64
}

fn is_long(w: u32) -> bool
    ensures { result ≡ is_long w }
{
    w == 32 || w == 64
}

fn has_suffix(w: u32) -> bool
    ensures { result ≡ has_suffix w }
{
    w == 8 || is_wide(w)
}

fn widens_to(from: u32, w: u32) -> bool
    ensures { result ≡ widens_to from w }
{
    (from == 8 && is_wide(w)) || (from == 16 && is_long(w))
}

/// Whether a general operation has this width.
fn has_width(op: Op, w: u32) -> bool
    ensures { result ≡ has_width op w }
{
    match op {
        Op::Mov | Op::Add | Op::Sub | Op::Cmp | Op::Test | Op::And | Op::Or | Op::Xor => {
            has_suffix(w)
        }
        Op::Inc | Op::Dec | Op::Neg | Op::Not | Op::Shl | Op::Shr | Op::Sar => has_suffix(w),
        Op::Imul => is_wide(w),
        Op::Lea => is_long(w),
        Op::Movzx(from) => widens_to(from, w),
        Op::Movsx(from) => widens_to(from, w) || (from == 32 && w == 64),
        Op::Cmov(_) => w == 0 || is_wide(w),
        Op::Set(_) => w == 8,
        Op::Vector(_) => false,
        _ => w == 64,
    }
}

/// The width of a shape of vectors.
fn vector_width(vex: bool, op: VectorOp) -> u32
    ensures { result ≡ vector_width vex op }
{
    match (vex, op) {
        (true, VectorOp::Vzeroupper) => 256,
        (true, _) => 0,
        (false, _) => 128,
    }
}

fn has_vectors(vex: bool, op: VectorOp) -> bool
    ensures { result ≡ has_vectors vex op }
{
    match op {
        VectorOp::Lanewise(op) => has_lanes(vex, op),
        VectorOp::Moving(op) => has_move(vex, op),
        VectorOp::Pshufb | VectorOp::Vzeroupper => vex,
        _ => true,
    }
}

fn has_lanes(vex: bool, op: LaneOp) -> bool
    ensures { result ≡ has_lanes vex op }
{
    match op {
        LaneOp::Padds(l) | LaneOp::Psubs(l) | LaneOp::Paddus(l) | LaneOp::Psubus(l) => is_narrow(l),
        LaneOp::Pavg(l) => is_narrow(l),
        LaneOp::Pcmpeq(l) | LaneOp::Pcmpgt(l) => l != LaneWidth::Quadword,
        LaneOp::Pmull(LaneWidth::Doubleword) => vex,
        LaneOp::Pmull(l) => l == LaneWidth::Word,
        LaneOp::Psll(l) | LaneOp::Psrl(l) => l != LaneWidth::Byte,
        LaneOp::Psra(l) => is_middle(l),
        LaneOp::Pmins(l) | LaneOp::Pmaxs(l) if !vex => l == LaneWidth::Word,
        LaneOp::Pminu(l) | LaneOp::Pmaxu(l) if !vex => l == LaneWidth::Byte,
        LaneOp::Pmins(l) | LaneOp::Pmaxs(l) => l != LaneWidth::Quadword,
        LaneOp::Pminu(l) | LaneOp::Pmaxu(l) => l != LaneWidth::Quadword,
        LaneOp::Pabs(l) => vex && l != LaneWidth::Quadword,
        _ => true,
    }
}

fn has_move(vex: bool, op: MoveOp) -> bool
    ensures { result ≡ has_move vex op }
{
    match op {
        MoveOp::Packss(l) => is_middle(l),
        MoveOp::Pmovzx(from, to) | MoveOp::Pmovsx(from, to) => vex && widens(from, to),
        MoveOp::Movq | MoveOp::Pbroadcast(_) | MoveOp::Permq => vex,
        MoveOp::Extracti128 | MoveOp::Inserti128 | MoveOp::Perm2i128 => vex,
        _ => true,
    }
}

/// Bytes or words.
fn is_narrow(lanes: LaneWidth) -> bool
    ensures { result ≡ is_narrow lanes }
{
    matches!(lanes, LaneWidth::Byte | LaneWidth::Word)
}

/// Words or doublewords.
fn is_middle(lanes: LaneWidth) -> bool
    ensures { result ≡ is_middle lanes }
{
    matches!(lanes, LaneWidth::Word | LaneWidth::Doubleword)
}

/// Whether lanes of the first width are widened to lanes of the second.
fn widens(from: LaneWidth, to: LaneWidth) -> bool
    ensures { result ≡ widens from to }
{
    matches!(
        (from, to),
        (LaneWidth::Byte, LaneWidth::Word | LaneWidth::Doubleword)
            | (LaneWidth::Word, LaneWidth::Doubleword)
            | (LaneWidth::Doubleword, LaneWidth::Quadword)
    )
}
