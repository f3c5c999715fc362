//! The rows that move lanes.
ghost use Rattle.std.specs.Prelude.{◌≡◌, ◌⊎◌, ℕ, ◌/◌, ◌^◌, ◌<◌, ◌≤◌};
ghost use Rattle.insn_semantics.specs.Exprs.{value};
ghost use Rattle.lane_semantics.specs.MoveRows as rows;
ghost use Rattle.lane_semantics.specs.Sources as sources;
ghost use Rattle.lane_semantics.specs.Widths as widths;

use crate::saturation::{signed_saturated, unsigned_saturated};
use crate::widths::{bits, half_bits};
use insn_ops::{LaneWidth, MoveOp};
use lane_semantics::Source;
use lane_views::Bytes32;
use scalar_ops::word_sx;

/// The number that pair `j` of a control gives.
fn pair(imm: u8, j: u32) -> u32
    requires { j < 32 }
    ensures value { result ≡ rows.pair imm j }
    ensures below { result < 4 }
{
    (u64::from(imm) >> (2 * j) & 3) as u32
}

/// The four bits of a control from this place on.
fn four_bits(imm: u8, place: u32) -> u32
    requires { place < 8 }
    ensures { result ≡ rows.four_bits imm place }
{
    u32::from(imm) >> place & 15
}

/// The lanes of a width in a half.
fn lanes_in_half(width: LaneWidth) -> u32
    ensures value { result ≡ rows.lanes_in_half (widths.bits width) }
    ensures range { (2 ≤ result) × (result ≤ 16) }
{
    match width {
        LaneWidth::Byte => 16,
        LaneWidth::Word => 8,
        LaneWidth::Doubleword => 4,
        LaneWidth::Quadword => 2,
    }
}

/// The low or high lanes of both arguments in turn.
fn unpacked(width: u32, n: u32, from: u32, i: u32) -> Source
    requires { (0 < n) × (n ≤ 16) × (from ≤ 16) × (i < 32) }
    ensures { result ≡ rows.unpacked width n from i }
{
    let place = n * (i / n) + (from + i % n / 2);
    if i % 2 == 0 {
        Source::First(width, place)
    } else {
        Source::Second(width, place)
    }
}

/// The lanes of both arguments one behind the other, half by half.
fn packed(width: u32, n: u32, i: u32) -> Source
    requires { (0 < n) × (n ≤ 16) × (i < 32) }
    ensures { result ≡ rows.packed width n i }
{
    let place = i % (2 * n);
    let half = n * (i / (2 * n));
    if place < n {
        Source::First(width, half + place)
    } else {
        Source::Second(width, half + (place - n))
    }
}

/// A byte of the half that a control selects.
fn selected_half(control: u32, j: u32) -> Source
    requires { j < 16 }
    ensures { result ≡ rows.selected_half control j }
{
    let place = 16 * (control % 2) + j;
    if control >= 8 {
        Source::Zero
    } else if control % 4 < 2 {
        Source::First(8, place)
    } else {
        Source::Second(8, place)
    }
}

/// The lowest lane, and zeros above.
fn lowest(width: u32, i: u32) -> Source
    ensures { result ≡ rows.lowest width i }
{
    if i == 0 {
        Source::Second(width, 0)
    } else {
        Source::Zero
    }
}

/// A byte of the half, shifted to the left by bytes.
fn left_byte(imm: u8, i: u32) -> Source
    requires { i < 32 }
    ensures { result ≡ rows.left_byte imm i }
{
    let count = u32::from(imm);
    if i % 16 < count {
        Source::Zero
    } else {
        Source::Second(8, i - count)
    }
}

/// A byte of the half, shifted to the right by bytes.
fn right_byte(imm: u8, i: u32) -> Source
    requires { i < 32 }
    ensures { result ≡ rows.right_byte imm i }
{
    let count = u32::from(imm);
    if i % 16 + count < 16 {
        Source::Second(8, i + count)
    } else {
        Source::Zero
    }
}

/// A word of the half, the low four shuffled.
fn low_word(imm: u8, i: u32) -> Source
    requires { i < 32 }
    ensures { result ≡ rows.low_word imm i }
{
    if i % 8 < 4 {
        Source::Second(16, 8 * (i / 8) + pair(imm, i % 8))
    } else {
        Source::Second(16, i)
    }
}

/// A word of the half, the high four shuffled.
fn high_word(imm: u8, i: u32) -> Source
    requires { i < 32 }
    ensures { result ≡ rows.high_word imm i }
{
    if i % 8 < 4 {
        Source::Second(16, i)
    } else {
        Source::Second(16, 8 * (i / 8) + (4 + pair(imm, i % 8 - 4)))
    }
}

/// A byte of the half that a control numbers, in a vector of 16 bytes.
fn extracted(imm: u8, i: u32) -> Source
    requires { i < 32 }
    ensures { result ≡ rows.extracted imm i }
{
    if i < 16 {
        Source::Second(8, 16 * (u32::from(imm) % 2) + i)
    } else {
        Source::Zero
    }
}

/// A byte of the first argument with the half that a control numbers replaced.
fn inserted(imm: u8, i: u32) -> Source
    requires { i < 32 }
    ensures { result ≡ rows.inserted imm i }
{
    if i / 16 == u32::from(imm) % 2 {
        Source::Second(8, i % 16)
    } else {
        Source::First(8, i)
    }
}

/// The lane that lane `i` of the result is made of.
fn move_source(op: MoveOp, imm: u8, i: u32) -> Source
    requires { i < 32 }
    ensures { result ≡ rows.move_source op imm i }
{
    match op {
        MoveOp::Pslldq => left_byte(imm, i),
        MoveOp::Psrldq => right_byte(imm, i),
        MoveOp::Punpckl(l) => unpacked(bits(l), lanes_in_half(l), 0, i),
        MoveOp::Punpckh(l) => unpacked(bits(l), lanes_in_half(l), lanes_in_half(l) / 2, i),
        MoveOp::Pshufd => Source::Second(32, 4 * (i / 4) + pair(imm, i % 4)),
        MoveOp::Pshuflw => low_word(imm, i),
        MoveOp::Pshufhw => high_word(imm, i),
        MoveOp::Packss(l) => packed(bits(l), lanes_in_half(l), i),
        MoveOp::Packuswb => packed(16, 8, i),
        MoveOp::Movd => lowest(32, i),
        MoveOp::Movq => lowest(64, i),
        MoveOp::Movdqa | MoveOp::Movdqu | MoveOp::Movaps | MoveOp::Movups => Source::Second(8, i),
        MoveOp::Pbroadcast(l) => Source::Second(bits(l), 0),
        MoveOp::Extracti128 => extracted(imm, i),
        MoveOp::Inserti128 => inserted(imm, i),
        MoveOp::Perm2i128 => selected_half(four_bits(imm, 4 * (i / 16)), i % 16),
        MoveOp::Permq => Source::Second(64, pair(imm, i)),
        MoveOp::Pmovzx(l, _) | MoveOp::Pmovsx(l, _) => Source::Second(bits(l), i),
    }
}

/// The word of a source.
fn source_value(first: &Bytes32, second: &Bytes32, source: Source) -> u64
    requires { sources.IsInside source }
    ensures value { result ≡ sources.source_value first.now.bytes second.now.bytes source }
    ensures below { (n : ℕ) → sources.HasBits n source → result < 2 ^ n }
{
    match source {
        Source::First(w, i) => first.lane(w, i),
        Source::Second(w, i) => second.lane(w, i),
        Source::Zero => 0,
    }
}

/// What a row makes of a lane.
fn converted(op: MoveOp, x: u64) -> u64
    requires row { rows.HasMoveWidths op }
    requires word { x < 2 ^ rows.move_source_bits op }
    ensures value { result ≡ value (λ j. x) (rows.move_expr op) }
    ensures below { result < 2 ^ rows.move_op_bits op }
{
    match op {
        MoveOp::Packss(l) => signed_saturated(bits(l), half_bits(l), x),
        MoveOp::Packuswb => unsigned_saturated(16, 8, x),
        MoveOp::Pmovsx(l, m) => word_sx(bits(l), bits(m), x),
        MoveOp::Pmovzx(_, _) => x,
        MoveOp::Pslldq | MoveOp::Psrldq | MoveOp::Punpckl(_) | MoveOp::Punpckh(_) => x,
        MoveOp::Pshufd | MoveOp::Pshuflw | MoveOp::Pshufhw | MoveOp::Pbroadcast(_) => x,
        MoveOp::Movd | MoveOp::Movq | MoveOp::Movdqa | MoveOp::Movdqu | MoveOp::Movaps => x,
        MoveOp::Movups | MoveOp::Extracti128 | MoveOp::Inserti128 => x,
        MoveOp::Perm2i128 | MoveOp::Permq => x,
    }
}

/// Lane `i` of the result of a row that moves lanes.
pub fn moving(op: MoveOp, w: u32, imm: u8, first: &Bytes32, second: &Bytes32, i: u32) -> u64
    requires row { rows.HasMoveWidths op × rows.IsMoveRow op w }
    requires vectors { (w ≡ 128) ⊎ (w ≡ 256) }
    requires place { i < w / rows.move_op_bits op }
    ensures value { let source = rows.move_source op imm i in
        result ≡ value (λ j. sources.source_value first.now.bytes second.now.bytes source) (rows.move_expr op) }
    ensures below { result < 2 ^ rows.move_op_bits op }
{
    let x = source_value(first, second, move_source(op, imm, i));
    converted(op, x)
}
