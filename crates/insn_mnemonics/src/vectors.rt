//! The parts of the mnemonics of operations on vectors, without the letter of VEX.
ghost use Rattle.std.specs.Prelude.{◌≡◌};
ghost use Rattle.insn_mnemonics.specs.VectorMnemonics.{lane_letter, lane_middle, lane_stem, move_middle, move_stem, packed_letters, pair_letters, vector_middle, vector_stem, widened_letters};

use insn_ops::{LaneOp, LaneWidth, MoveOp, VectorOp};

/// What a mnemonic begins with.
pub fn vector_stem(op: VectorOp) -> &'static str
    ensures { result.now ≡ vector_stem op }
{
    match op {
        VectorOp::Lanewise(op) => lane_stem(op),
        VectorOp::Moving(op) => move_stem(op),
        VectorOp::Pmaddwd => "pmaddwd",
        VectorOp::Psadbw => "psadbw",
        VectorOp::Pshufb => "pshufb",
        VectorOp::Pmovmskb => "pmovmskb",
        VectorOp::Vzeroupper => "zeroupper",
    }
}

fn lane_stem(op: LaneOp) -> &'static str
    ensures { result.now ≡ lane_stem op }
{
    match op {
        LaneOp::Padd(_) => "padd",
        LaneOp::Psub(_) => "psub",
        LaneOp::Padds(_) => "padds",
        LaneOp::Psubs(_) => "psubs",
        LaneOp::Paddus(_) => "paddus",
        LaneOp::Psubus(_) => "psubus",
        LaneOp::Pand => "pand",
        LaneOp::Pandn => "pandn",
        LaneOp::Por => "por",
        LaneOp::Pxor => "pxor",
        LaneOp::Pcmpeq(_) => "pcmpeq",
        LaneOp::Pcmpgt(_) => "pcmpgt",
        LaneOp::Pmull(_) => "pmull",
        LaneOp::Pmulhw => "pmulhw",
        LaneOp::Pmulhuw => "pmulhuw",
        LaneOp::Pmuludq => "pmuludq",
        LaneOp::Psll(_) => "psll",
        LaneOp::Psrl(_) => "psrl",
        LaneOp::Psra(_) => "psra",
        LaneOp::Pmins(_) => "pmins",
        LaneOp::Pmaxs(_) => "pmaxs",
        LaneOp::Pminu(_) => "pminu",
        LaneOp::Pmaxu(_) => "pmaxu",
        LaneOp::Pavg(_) => "pavg",
        LaneOp::Pabs(_) => "pabs",
    }
}

fn move_stem(op: MoveOp) -> &'static str
    ensures { result.now ≡ move_stem op }
{
    match op {
        MoveOp::Pslldq => "pslldq",
        MoveOp::Psrldq => "psrldq",
        MoveOp::Punpckl(_) => "punpckl",
        MoveOp::Punpckh(_) => "punpckh",
        MoveOp::Pshufd => "pshufd",
        MoveOp::Pshuflw => "pshuflw",
        MoveOp::Pshufhw => "pshufhw",
        MoveOp::Packss(_) => "packss",
        MoveOp::Packuswb => "packuswb",
        MoveOp::Movd => "movd",
        MoveOp::Movq => "movq",
        MoveOp::Movdqa => "movdqa",
        MoveOp::Movdqu => "movdqu",
        MoveOp::Movaps => "movaps",
        MoveOp::Movups => "movups",
        MoveOp::Pbroadcast(_) => "pbroadcast",
        MoveOp::Extracti128 => "extracti128",
        MoveOp::Inserti128 => "inserti128",
        MoveOp::Perm2i128 => "perm2i128",
        MoveOp::Permq => "permq",
        MoveOp::Pmovzx(_, _) => "pmovzx",
        MoveOp::Pmovsx(_, _) => "pmovsx",
    }
}

/// The letters of lanes behind it.
pub fn vector_middle(op: VectorOp) -> &'static str
    ensures { result.now ≡ vector_middle op }
{
    match op {
        VectorOp::Lanewise(op) => lane_middle(op),
        VectorOp::Moving(op) => move_middle(op),
        _ => "",
    }
}

fn lane_middle(op: LaneOp) -> &'static str
    ensures { result.now ≡ lane_middle op }
{
    match op {
        LaneOp::Padd(l) | LaneOp::Psub(l) | LaneOp::Padds(l) | LaneOp::Psubs(l) => lane_letter(l),
        LaneOp::Paddus(l) | LaneOp::Psubus(l) => lane_letter(l),
        LaneOp::Pcmpeq(l) | LaneOp::Pcmpgt(l) | LaneOp::Pmull(l) => lane_letter(l),
        LaneOp::Psll(l) | LaneOp::Psrl(l) | LaneOp::Psra(l) => lane_letter(l),
        LaneOp::Pmins(l) | LaneOp::Pmaxs(l) => lane_letter(l),
        LaneOp::Pminu(l) | LaneOp::Pmaxu(l) => lane_letter(l),
        LaneOp::Pavg(l) | LaneOp::Pabs(l) => lane_letter(l),
        _ => "",
    }
}

fn move_middle(op: MoveOp) -> &'static str
    ensures { result.now ≡ move_middle op }
{
    match op {
        MoveOp::Punpckl(l) | MoveOp::Punpckh(l) => pair_letters(l),
        MoveOp::Packss(l) => packed_letters(l),
        MoveOp::Pbroadcast(l) => lane_letter(l),
        MoveOp::Pmovzx(l, m) | MoveOp::Pmovsx(l, m) => widened_letters(l, m),
        _ => "",
    }
}

/// The letter of a lane's width.
fn lane_letter(lanes: LaneWidth) -> &'static str
    ensures { result.now ≡ lane_letter lanes }
{
    match lanes {
        LaneWidth::Byte => "b",
        LaneWidth::Word => "w",
        LaneWidth::Doubleword => "d",
        LaneWidth::Quadword => "q",
    }
}

/// The letters of lanes in turn, and of what two of them make.
fn pair_letters(lanes: LaneWidth) -> &'static str
    ensures { result.now ≡ pair_letters lanes }
{
    match lanes {
        LaneWidth::Byte => "bw",
        LaneWidth::Word => "wd",
        LaneWidth::Doubleword => "dq",
        LaneWidth::Quadword => "qdq",
    }
}

/// The letters of lanes that are packed, and of what they are packed to.
fn packed_letters(lanes: LaneWidth) -> &'static str
    ensures { result.now ≡ packed_letters lanes }
{
    match lanes {
        LaneWidth::Word => "wb",
        LaneWidth::Doubleword => "dw",
        _ => "",
    }
}

/// The letters of lanes that are widened, and of what they become.
fn widened_letters(from: LaneWidth, to: LaneWidth) -> &'static str
    ensures { result.now ≡ widened_letters from to }
{
    match (from, to) {
        (LaneWidth::Byte, LaneWidth::Word) => "bw",
        (LaneWidth::Byte, LaneWidth::Doubleword) => "bd",
        (LaneWidth::Word, LaneWidth::Doubleword) => "wd",
        (LaneWidth::Doubleword, LaneWidth::Quadword) => "dq",
        _ => "",
    }
}
