//! The vector rows of the table, and vectors as four words.
ghost use Rattle.std.specs.Prelude.{◌≡◌, ◌+◌, ◌≤◌, length, slice_get};
ghost use Rattle.processor_cases.specs.Table.{vector_case, vector_from, vector_operation};
ghost use Rattle.processor_cases.specs.VectorNumbers.{lane_rows, other_rows};

use crate::case::Case;
use insn_ops::{LaneOp, LaneWidth, MoveOp, VectorOp};
use lane_views::Bytes32;

/// The rows by lane, each at its number.
pub fn lane_rows() -> [VectorOp; 56]
    ensures { result ≡ lane_rows }
{
    [
        VectorOp::Lanewise(LaneOp::Padd(LaneWidth::Byte)),
        VectorOp::Lanewise(LaneOp::Padd(LaneWidth::Word)),
        VectorOp::Lanewise(LaneOp::Padd(LaneWidth::Doubleword)),
        VectorOp::Lanewise(LaneOp::Padd(LaneWidth::Quadword)),
        VectorOp::Lanewise(LaneOp::Psub(LaneWidth::Byte)),
        VectorOp::Lanewise(LaneOp::Psub(LaneWidth::Word)),
        VectorOp::Lanewise(LaneOp::Psub(LaneWidth::Doubleword)),
        VectorOp::Lanewise(LaneOp::Psub(LaneWidth::Quadword)),
        VectorOp::Lanewise(LaneOp::Padds(LaneWidth::Byte)),
        VectorOp::Lanewise(LaneOp::Padds(LaneWidth::Word)),
        VectorOp::Lanewise(LaneOp::Psubs(LaneWidth::Byte)),
        VectorOp::Lanewise(LaneOp::Psubs(LaneWidth::Word)),
        VectorOp::Lanewise(LaneOp::Paddus(LaneWidth::Byte)),
        VectorOp::Lanewise(LaneOp::Paddus(LaneWidth::Word)),
        VectorOp::Lanewise(LaneOp::Psubus(LaneWidth::Byte)),
        VectorOp::Lanewise(LaneOp::Psubus(LaneWidth::Word)),
        VectorOp::Lanewise(LaneOp::Pand),
        VectorOp::Lanewise(LaneOp::Pandn),
        VectorOp::Lanewise(LaneOp::Por),
        VectorOp::Lanewise(LaneOp::Pxor),
        VectorOp::Lanewise(LaneOp::Pcmpeq(LaneWidth::Byte)),
        VectorOp::Lanewise(LaneOp::Pcmpeq(LaneWidth::Word)),
        VectorOp::Lanewise(LaneOp::Pcmpeq(LaneWidth::Doubleword)),
        VectorOp::Lanewise(LaneOp::Pcmpgt(LaneWidth::Byte)),
        VectorOp::Lanewise(LaneOp::Pcmpgt(LaneWidth::Word)),
        VectorOp::Lanewise(LaneOp::Pcmpgt(LaneWidth::Doubleword)),
        VectorOp::Lanewise(LaneOp::Pmull(LaneWidth::Word)),
        VectorOp::Lanewise(LaneOp::Pmull(LaneWidth::Doubleword)),
        VectorOp::Lanewise(LaneOp::Pmulhw),
        VectorOp::Lanewise(LaneOp::Pmulhuw),
        VectorOp::Lanewise(LaneOp::Pmuludq),
        VectorOp::Lanewise(LaneOp::Psll(LaneWidth::Word)),
        VectorOp::Lanewise(LaneOp::Psll(LaneWidth::Doubleword)),
        VectorOp::Lanewise(LaneOp::Psll(LaneWidth::Quadword)),
        VectorOp::Lanewise(LaneOp::Psrl(LaneWidth::Word)),
        VectorOp::Lanewise(LaneOp::Psrl(LaneWidth::Doubleword)),
        VectorOp::Lanewise(LaneOp::Psrl(LaneWidth::Quadword)),
        VectorOp::Lanewise(LaneOp::Psra(LaneWidth::Word)),
        VectorOp::Lanewise(LaneOp::Psra(LaneWidth::Doubleword)),
        VectorOp::Lanewise(LaneOp::Pmins(LaneWidth::Byte)),
        VectorOp::Lanewise(LaneOp::Pmins(LaneWidth::Word)),
        VectorOp::Lanewise(LaneOp::Pmins(LaneWidth::Doubleword)),
        VectorOp::Lanewise(LaneOp::Pmaxs(LaneWidth::Byte)),
        VectorOp::Lanewise(LaneOp::Pmaxs(LaneWidth::Word)),
        VectorOp::Lanewise(LaneOp::Pmaxs(LaneWidth::Doubleword)),
        VectorOp::Lanewise(LaneOp::Pminu(LaneWidth::Byte)),
        VectorOp::Lanewise(LaneOp::Pminu(LaneWidth::Word)),
        VectorOp::Lanewise(LaneOp::Pminu(LaneWidth::Doubleword)),
        VectorOp::Lanewise(LaneOp::Pmaxu(LaneWidth::Byte)),
        VectorOp::Lanewise(LaneOp::Pmaxu(LaneWidth::Word)),
        VectorOp::Lanewise(LaneOp::Pmaxu(LaneWidth::Doubleword)),
        VectorOp::Lanewise(LaneOp::Pavg(LaneWidth::Byte)),
        VectorOp::Lanewise(LaneOp::Pavg(LaneWidth::Word)),
        VectorOp::Lanewise(LaneOp::Pabs(LaneWidth::Byte)),
        VectorOp::Lanewise(LaneOp::Pabs(LaneWidth::Word)),
        VectorOp::Lanewise(LaneOp::Pabs(LaneWidth::Doubleword)),
    ]
}

/// The other rows, each at its number.
pub fn other_rows() -> [VectorOp; 42]
    ensures { result ≡ other_rows }
{
    [
        VectorOp::Moving(MoveOp::Pslldq),
        VectorOp::Moving(MoveOp::Psrldq),
        VectorOp::Moving(MoveOp::Punpckl(LaneWidth::Byte)),
        VectorOp::Moving(MoveOp::Punpckl(LaneWidth::Word)),
        VectorOp::Moving(MoveOp::Punpckl(LaneWidth::Doubleword)),
        VectorOp::Moving(MoveOp::Punpckl(LaneWidth::Quadword)),
        VectorOp::Moving(MoveOp::Punpckh(LaneWidth::Byte)),
        VectorOp::Moving(MoveOp::Punpckh(LaneWidth::Word)),
        VectorOp::Moving(MoveOp::Punpckh(LaneWidth::Doubleword)),
        VectorOp::Moving(MoveOp::Punpckh(LaneWidth::Quadword)),
        VectorOp::Moving(MoveOp::Pshufd),
        VectorOp::Moving(MoveOp::Pshuflw),
        VectorOp::Moving(MoveOp::Pshufhw),
        VectorOp::Moving(MoveOp::Packss(LaneWidth::Word)),
        VectorOp::Moving(MoveOp::Packss(LaneWidth::Doubleword)),
        VectorOp::Moving(MoveOp::Packuswb),
        VectorOp::Moving(MoveOp::Movd),
        VectorOp::Moving(MoveOp::Movq),
        VectorOp::Moving(MoveOp::Movdqa),
        VectorOp::Moving(MoveOp::Movdqu),
        VectorOp::Moving(MoveOp::Movaps),
        VectorOp::Moving(MoveOp::Movups),
        VectorOp::Moving(MoveOp::Pbroadcast(LaneWidth::Byte)),
        VectorOp::Moving(MoveOp::Pbroadcast(LaneWidth::Word)),
        VectorOp::Moving(MoveOp::Pbroadcast(LaneWidth::Doubleword)),
        VectorOp::Moving(MoveOp::Pbroadcast(LaneWidth::Quadword)),
        VectorOp::Moving(MoveOp::Extracti128),
        VectorOp::Moving(MoveOp::Inserti128),
        VectorOp::Moving(MoveOp::Perm2i128),
        VectorOp::Moving(MoveOp::Permq),
        VectorOp::Moving(MoveOp::Pmovzx(LaneWidth::Byte, LaneWidth::Word)),
        VectorOp::Moving(MoveOp::Pmovzx(LaneWidth::Byte, LaneWidth::Doubleword)),
        VectorOp::Moving(MoveOp::Pmovzx(LaneWidth::Word, LaneWidth::Doubleword)),
        VectorOp::Moving(MoveOp::Pmovzx(LaneWidth::Doubleword, LaneWidth::Quadword)),
        VectorOp::Moving(MoveOp::Pmovsx(LaneWidth::Byte, LaneWidth::Word)),
        VectorOp::Moving(MoveOp::Pmovsx(LaneWidth::Byte, LaneWidth::Doubleword)),
        VectorOp::Moving(MoveOp::Pmovsx(LaneWidth::Word, LaneWidth::Doubleword)),
        VectorOp::Moving(MoveOp::Pmovsx(LaneWidth::Doubleword, LaneWidth::Quadword)),
        VectorOp::Pmaddwd,
        VectorOp::Psadbw,
        VectorOp::Pshufb,
        VectorOp::Pmovmskb,
    ]
}

/// The row at a place of a list.
fn row_at(rows: &[VectorOp], place: usize) -> Option<VectorOp>
    ensures { result ≡ slice_get rows.now place }
{
    rows.get(place).copied()
}

/// The vector operation of a row.
fn vector_operation(kind: u64, number: u64) -> Option<VectorOp>
    ensures { result ≡ vector_operation kind number }
{
    if kind == 4 {
        row_at(&lane_rows(), number as usize)
    } else if kind == 5 {
        row_at(&other_rows(), number as usize)
    } else {
        None
    }
}

/// The vector that is written from a place on.
fn vector_from(n: &[u64], at: usize) -> Bytes32
    requires { at + 4 ≤ length n.now }
    ensures { result ≡ vector_from n.now at }
{
    let mut vector = Bytes32 { bytes: [0; 32] };
    for k in 0..4 {
        vector.set_lane(64, k, n[at + k as usize]);
    }
    vector
}

/// The case of a vector operation of 16 numbers.
pub fn vector_case(n: &[u64]) -> Option<Case>
    requires { length n.now ≡ 16 }
    ensures { result ≡ vector_case n.now }
{
    if n[2] < 257 && n[3] < 256 {
        let op = vector_operation(n[0], n[1])?;
        Some(Case::Vector {
            number: n[1],
            op,
            w: n[2] as u32,
            imm: n[3] as u8,
            first: vector_from(n, 4),
            second: vector_from(n, 8),
            result: vector_from(n, 12),
        })
    } else {
        None
    }
}
