//! The rows of the mnemonics with VEX, as in `specs/VexRows`: the mnemonic, its operation, and the width of its form in
//! bits, 0 where the operands tell it.
ghost use Rattle.std.specs.Prelude.{◌≡◌};
ghost use Rattle.insn_spellings.specs.Rows.{named};
ghost use Rattle.insn_spellings.specs.VexRows.{vand_to_vpbroadcast, vpcmp_to_vpmul, vpor_to_vzeroupper};

use crate::finding::find;
use crate::shape::Shape;
use insn_ops::LaneOp::{
    Pabs, Padd, Padds, Paddus, Pand, Pandn, Pavg, Pcmpeq, Pcmpgt, Pmaxs, Pmaxu, Pmins, Pminu,
    Pmulhuw, Pmulhw, Pmull, Pmuludq, Por, Psll, Psra, Psrl, Psub, Psubs, Psubus, Pxor,
};
use insn_ops::LaneWidth::{Byte, Doubleword, Quadword, Word};
use insn_ops::MoveOp::{
    Extracti128, Inserti128, Movaps, Movd, Movdqa, Movdqu, Movq, Movups, Packss, Packuswb,
    Pbroadcast, Perm2i128, Permq, Pmovsx, Pmovzx, Pshufd, Pshufhw, Pshuflw, Pslldq, Psrldq,
    Punpckh, Punpckl,
};
use insn_ops::VectorOp::{Lanewise, Moving};
use insn_ops::{Op, VectorOp};

/// The rows from vand to vpbroadcast.
#[tactic(auto, unfolding(crate::specs::VexRows::vand_to_vpbroadcast))]
pub fn vand_to_vpbroadcast(mnemonic: &[u8]) -> Option<Shape>
    ensures { result ≡ named vand_to_vpbroadcast mnemonic.now }
{
    find(
        &[
            ("vandnps", Op::Vector(Lanewise(Pandn)), 0),
            ("vandps", Op::Vector(Lanewise(Pand)), 0),
            ("vextracti128", Op::Vector(Moving(Extracti128)), 0),
            ("vinserti128", Op::Vector(Moving(Inserti128)), 0),
            ("vmovaps", Op::Vector(Moving(Movaps)), 0),
            ("vmovd", Op::Vector(Moving(Movd)), 0),
            ("vmovdqa", Op::Vector(Moving(Movdqa)), 0),
            ("vmovdqu", Op::Vector(Moving(Movdqu)), 0),
            ("vmovq", Op::Vector(Moving(Movq)), 0),
            ("vmovups", Op::Vector(Moving(Movups)), 0),
            ("vorps", Op::Vector(Lanewise(Por)), 0),
            ("vpabsb", Op::Vector(Lanewise(Pabs(Byte))), 0),
            ("vpabsd", Op::Vector(Lanewise(Pabs(Doubleword))), 0),
            ("vpabsw", Op::Vector(Lanewise(Pabs(Word))), 0),
            ("vpackssdw", Op::Vector(Moving(Packss(Doubleword))), 0),
            ("vpacksswb", Op::Vector(Moving(Packss(Word))), 0),
            ("vpackuswb", Op::Vector(Moving(Packuswb)), 0),
            ("vpaddb", Op::Vector(Lanewise(Padd(Byte))), 0),
            ("vpaddd", Op::Vector(Lanewise(Padd(Doubleword))), 0),
            ("vpaddq", Op::Vector(Lanewise(Padd(Quadword))), 0),
            ("vpaddsb", Op::Vector(Lanewise(Padds(Byte))), 0),
            ("vpaddsw", Op::Vector(Lanewise(Padds(Word))), 0),
            ("vpaddusb", Op::Vector(Lanewise(Paddus(Byte))), 0),
            ("vpaddusw", Op::Vector(Lanewise(Paddus(Word))), 0),
            ("vpaddw", Op::Vector(Lanewise(Padd(Word))), 0),
            ("vpand", Op::Vector(Lanewise(Pand)), 0),
            ("vpandn", Op::Vector(Lanewise(Pandn)), 0),
            ("vpavgb", Op::Vector(Lanewise(Pavg(Byte))), 0),
            ("vpavgw", Op::Vector(Lanewise(Pavg(Word))), 0),
            ("vpbroadcastb", Op::Vector(Moving(Pbroadcast(Byte))), 0),
            (
                "vpbroadcastd",
                Op::Vector(Moving(Pbroadcast(Doubleword))),
                0,
            ),
            ("vpbroadcastq", Op::Vector(Moving(Pbroadcast(Quadword))), 0),
            ("vpbroadcastw", Op::Vector(Moving(Pbroadcast(Word))), 0),
        ],
        true,
        mnemonic,
    )
}

/// The rows from vpcmp to vpmul.
#[tactic(auto, unfolding(crate::specs::VexRows::vpcmp_to_vpmul))]
pub fn vpcmp_to_vpmul(mnemonic: &[u8]) -> Option<Shape>
    ensures { result ≡ named vpcmp_to_vpmul mnemonic.now }
{
    find(
        &[
            ("vpcmpeqb", Op::Vector(Lanewise(Pcmpeq(Byte))), 0),
            ("vpcmpeqd", Op::Vector(Lanewise(Pcmpeq(Doubleword))), 0),
            ("vpcmpeqw", Op::Vector(Lanewise(Pcmpeq(Word))), 0),
            ("vpcmpgtb", Op::Vector(Lanewise(Pcmpgt(Byte))), 0),
            ("vpcmpgtd", Op::Vector(Lanewise(Pcmpgt(Doubleword))), 0),
            ("vpcmpgtw", Op::Vector(Lanewise(Pcmpgt(Word))), 0),
            ("vperm2i128", Op::Vector(Moving(Perm2i128)), 0),
            ("vpermq", Op::Vector(Moving(Permq)), 0),
            ("vpmaddwd", Op::Vector(VectorOp::Pmaddwd), 0),
            ("vpmaxsb", Op::Vector(Lanewise(Pmaxs(Byte))), 0),
            ("vpmaxsd", Op::Vector(Lanewise(Pmaxs(Doubleword))), 0),
            ("vpmaxsw", Op::Vector(Lanewise(Pmaxs(Word))), 0),
            ("vpmaxub", Op::Vector(Lanewise(Pmaxu(Byte))), 0),
            ("vpmaxud", Op::Vector(Lanewise(Pmaxu(Doubleword))), 0),
            ("vpmaxuw", Op::Vector(Lanewise(Pmaxu(Word))), 0),
            ("vpminsb", Op::Vector(Lanewise(Pmins(Byte))), 0),
            ("vpminsd", Op::Vector(Lanewise(Pmins(Doubleword))), 0),
            ("vpminsw", Op::Vector(Lanewise(Pmins(Word))), 0),
            ("vpminub", Op::Vector(Lanewise(Pminu(Byte))), 0),
            ("vpminud", Op::Vector(Lanewise(Pminu(Doubleword))), 0),
            ("vpminuw", Op::Vector(Lanewise(Pminu(Word))), 0),
            ("vpmovmskb", Op::Vector(VectorOp::Pmovmskb), 0),
            ("vpmovsxbd", Op::Vector(Moving(Pmovsx(Byte, Doubleword))), 0),
            ("vpmovsxbw", Op::Vector(Moving(Pmovsx(Byte, Word))), 0),
            (
                "vpmovsxdq",
                Op::Vector(Moving(Pmovsx(Doubleword, Quadword))),
                0,
            ),
            ("vpmovsxwd", Op::Vector(Moving(Pmovsx(Word, Doubleword))), 0),
            ("vpmovzxbd", Op::Vector(Moving(Pmovzx(Byte, Doubleword))), 0),
            ("vpmovzxbw", Op::Vector(Moving(Pmovzx(Byte, Word))), 0),
            (
                "vpmovzxdq",
                Op::Vector(Moving(Pmovzx(Doubleword, Quadword))),
                0,
            ),
            ("vpmovzxwd", Op::Vector(Moving(Pmovzx(Word, Doubleword))), 0),
            ("vpmulhuw", Op::Vector(Lanewise(Pmulhuw)), 0),
            ("vpmulhw", Op::Vector(Lanewise(Pmulhw)), 0),
            ("vpmulld", Op::Vector(Lanewise(Pmull(Doubleword))), 0),
            ("vpmullw", Op::Vector(Lanewise(Pmull(Word))), 0),
            ("vpmuludq", Op::Vector(Lanewise(Pmuludq)), 0),
        ],
        true,
        mnemonic,
    )
}

/// The rows from vpor to vzeroupper.
#[tactic(auto, unfolding(crate::specs::VexRows::vpor_to_vzeroupper))]
pub fn vpor_to_vzeroupper(mnemonic: &[u8]) -> Option<Shape>
    ensures { result ≡ named vpor_to_vzeroupper mnemonic.now }
{
    find(
        &[
            ("vpor", Op::Vector(Lanewise(Por)), 0),
            ("vpsadbw", Op::Vector(VectorOp::Psadbw), 0),
            ("vpshufb", Op::Vector(VectorOp::Pshufb), 0),
            ("vpshufd", Op::Vector(Moving(Pshufd)), 0),
            ("vpshufhw", Op::Vector(Moving(Pshufhw)), 0),
            ("vpshuflw", Op::Vector(Moving(Pshuflw)), 0),
            ("vpslld", Op::Vector(Lanewise(Psll(Doubleword))), 0),
            ("vpslldq", Op::Vector(Moving(Pslldq)), 0),
            ("vpsllq", Op::Vector(Lanewise(Psll(Quadword))), 0),
            ("vpsllw", Op::Vector(Lanewise(Psll(Word))), 0),
            ("vpsrad", Op::Vector(Lanewise(Psra(Doubleword))), 0),
            ("vpsraw", Op::Vector(Lanewise(Psra(Word))), 0),
            ("vpsrld", Op::Vector(Lanewise(Psrl(Doubleword))), 0),
            ("vpsrldq", Op::Vector(Moving(Psrldq)), 0),
            ("vpsrlq", Op::Vector(Lanewise(Psrl(Quadword))), 0),
            ("vpsrlw", Op::Vector(Lanewise(Psrl(Word))), 0),
            ("vpsubb", Op::Vector(Lanewise(Psub(Byte))), 0),
            ("vpsubd", Op::Vector(Lanewise(Psub(Doubleword))), 0),
            ("vpsubq", Op::Vector(Lanewise(Psub(Quadword))), 0),
            ("vpsubsb", Op::Vector(Lanewise(Psubs(Byte))), 0),
            ("vpsubsw", Op::Vector(Lanewise(Psubs(Word))), 0),
            ("vpsubusb", Op::Vector(Lanewise(Psubus(Byte))), 0),
            ("vpsubusw", Op::Vector(Lanewise(Psubus(Word))), 0),
            ("vpsubw", Op::Vector(Lanewise(Psub(Word))), 0),
            ("vpunpckhbw", Op::Vector(Moving(Punpckh(Byte))), 0),
            ("vpunpckhdq", Op::Vector(Moving(Punpckh(Doubleword))), 0),
            ("vpunpckhqdq", Op::Vector(Moving(Punpckh(Quadword))), 0),
            ("vpunpckhwd", Op::Vector(Moving(Punpckh(Word))), 0),
            ("vpunpcklbw", Op::Vector(Moving(Punpckl(Byte))), 0),
            ("vpunpckldq", Op::Vector(Moving(Punpckl(Doubleword))), 0),
            ("vpunpcklqdq", Op::Vector(Moving(Punpckl(Quadword))), 0),
            ("vpunpcklwd", Op::Vector(Moving(Punpckl(Word))), 0),
            ("vpxor", Op::Vector(Lanewise(Pxor)), 0),
            ("vxorps", Op::Vector(Lanewise(Pxor)), 0),
            ("vzeroupper", Op::Vector(VectorOp::Vzeroupper), 256),
        ],
        true,
        mnemonic,
    )
}
