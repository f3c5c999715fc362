//! The rows of the mnemonics without VEX, as in `specs/LegacyRows`: the mnemonic, its operation, and the width of its
//! form in bits.
ghost use Rattle.std.specs.Prelude.{◌≡◌};
ghost use Rattle.insn_spellings.specs.Rows.{named};
ghost use Rattle.insn_spellings.specs.LegacyRows.{add_to_cltq, cmova_to_cmovnc, cmovne_to_cmovz, cmp_to_lea, mov_to_or, packss_to_pop, por_to_sar, set_rows, shl_to_test, xor_rows};

use crate::finding::find;
use crate::shape::Shape;
use insn_ops::LaneOp::{
    Padd, Padds, Paddus, Pand, Pandn, Pavg, Pcmpeq, Pcmpgt, Pmaxs, Pmaxu, Pmins, Pminu, Pmulhuw,
    Pmulhw, Pmull, Pmuludq, Por, Psll, Psra, Psrl, Psub, Psubs, Psubus, Pxor,
};
use insn_ops::LaneWidth::{Byte, Doubleword, Quadword, Word};
use insn_ops::MoveOp::{
    Movaps, Movd, Movdqa, Movdqu, Movups, Packss, Packuswb, Pshufd, Pshufhw, Pshuflw, Pslldq,
    Psrldq, Punpckh, Punpckl,
};
use insn_ops::VectorOp::{Lanewise, Moving};
use insn_ops::{Cond, Op, VectorOp};

/// The rows from add to cltq, with andps.
#[tactic(auto, unfolding(crate::specs::LegacyRows::add_to_cltq))]
pub fn add_to_cltq(mnemonic: &[u8]) -> Option<Shape>
    ensures { result ≡ named add_to_cltq mnemonic.now }
{
    find(
        &[
            ("addb", Op::Add, 8),
            ("addl", Op::Add, 32),
            ("addq", Op::Add, 64),
            ("addw", Op::Add, 16),
            ("andb", Op::And, 8),
            ("andl", Op::And, 32),
            ("andnps", Op::Vector(Lanewise(Pandn)), 128),
            ("andps", Op::Vector(Lanewise(Pand)), 128),
            ("andq", Op::And, 64),
            ("andw", Op::And, 16),
            ("cltq", Op::Cltq, 64),
        ],
        false,
        mnemonic,
    )
}

/// The rows of cmovCC, from a to nc.
#[tactic(auto, unfolding(crate::specs::LegacyRows::cmova_to_cmovnc))]
pub fn cmova_to_cmovnc(mnemonic: &[u8]) -> Option<Shape>
    ensures { result ≡ named cmova_to_cmovnc mnemonic.now }
{
    find(
        &[
            ("cmova", Op::Cmov(Cond::A), 0),
            ("cmovae", Op::Cmov(Cond::Ae), 0),
            ("cmovael", Op::Cmov(Cond::Ae), 32),
            ("cmovaeq", Op::Cmov(Cond::Ae), 64),
            ("cmovaew", Op::Cmov(Cond::Ae), 16),
            ("cmoval", Op::Cmov(Cond::A), 32),
            ("cmovaq", Op::Cmov(Cond::A), 64),
            ("cmovaw", Op::Cmov(Cond::A), 16),
            ("cmovb", Op::Cmov(Cond::B), 0),
            ("cmovbe", Op::Cmov(Cond::Be), 0),
            ("cmovbel", Op::Cmov(Cond::Be), 32),
            ("cmovbeq", Op::Cmov(Cond::Be), 64),
            ("cmovbew", Op::Cmov(Cond::Be), 16),
            ("cmovbl", Op::Cmov(Cond::B), 32),
            ("cmovbq", Op::Cmov(Cond::B), 64),
            ("cmovbw", Op::Cmov(Cond::B), 16),
            ("cmovc", Op::Cmov(Cond::B), 0),
            ("cmovcl", Op::Cmov(Cond::B), 32),
            ("cmovcq", Op::Cmov(Cond::B), 64),
            ("cmovcw", Op::Cmov(Cond::B), 16),
            ("cmove", Op::Cmov(Cond::E), 0),
            ("cmovel", Op::Cmov(Cond::E), 32),
            ("cmoveq", Op::Cmov(Cond::E), 64),
            ("cmovew", Op::Cmov(Cond::E), 16),
            ("cmovg", Op::Cmov(Cond::G), 0),
            ("cmovge", Op::Cmov(Cond::Ge), 0),
            ("cmovgel", Op::Cmov(Cond::Ge), 32),
            ("cmovgeq", Op::Cmov(Cond::Ge), 64),
            ("cmovgew", Op::Cmov(Cond::Ge), 16),
            ("cmovgl", Op::Cmov(Cond::G), 32),
            ("cmovgq", Op::Cmov(Cond::G), 64),
            ("cmovgw", Op::Cmov(Cond::G), 16),
            ("cmovl", Op::Cmov(Cond::L), 0),
            ("cmovle", Op::Cmov(Cond::Le), 0),
            ("cmovlel", Op::Cmov(Cond::Le), 32),
            ("cmovleq", Op::Cmov(Cond::Le), 64),
            ("cmovlew", Op::Cmov(Cond::Le), 16),
            ("cmovll", Op::Cmov(Cond::L), 32),
            ("cmovlq", Op::Cmov(Cond::L), 64),
            ("cmovlw", Op::Cmov(Cond::L), 16),
            ("cmovna", Op::Cmov(Cond::Be), 0),
            ("cmovnae", Op::Cmov(Cond::B), 0),
            ("cmovnael", Op::Cmov(Cond::B), 32),
            ("cmovnaeq", Op::Cmov(Cond::B), 64),
            ("cmovnaew", Op::Cmov(Cond::B), 16),
            ("cmovnal", Op::Cmov(Cond::Be), 32),
            ("cmovnaq", Op::Cmov(Cond::Be), 64),
            ("cmovnaw", Op::Cmov(Cond::Be), 16),
            ("cmovnb", Op::Cmov(Cond::Ae), 0),
            ("cmovnbe", Op::Cmov(Cond::A), 0),
            ("cmovnbel", Op::Cmov(Cond::A), 32),
            ("cmovnbeq", Op::Cmov(Cond::A), 64),
            ("cmovnbew", Op::Cmov(Cond::A), 16),
            ("cmovnbl", Op::Cmov(Cond::Ae), 32),
            ("cmovnbq", Op::Cmov(Cond::Ae), 64),
            ("cmovnbw", Op::Cmov(Cond::Ae), 16),
            ("cmovnc", Op::Cmov(Cond::Ae), 0),
            ("cmovncl", Op::Cmov(Cond::Ae), 32),
            ("cmovncq", Op::Cmov(Cond::Ae), 64),
            ("cmovncw", Op::Cmov(Cond::Ae), 16),
        ],
        false,
        mnemonic,
    )
}

/// The rows of cmovCC, from ne to z.
#[tactic(auto, unfolding(crate::specs::LegacyRows::cmovne_to_cmovz))]
pub fn cmovne_to_cmovz(mnemonic: &[u8]) -> Option<Shape>
    ensures { result ≡ named cmovne_to_cmovz mnemonic.now }
{
    find(
        &[
            ("cmovne", Op::Cmov(Cond::Ne), 0),
            ("cmovnel", Op::Cmov(Cond::Ne), 32),
            ("cmovneq", Op::Cmov(Cond::Ne), 64),
            ("cmovnew", Op::Cmov(Cond::Ne), 16),
            ("cmovng", Op::Cmov(Cond::Le), 0),
            ("cmovnge", Op::Cmov(Cond::L), 0),
            ("cmovngel", Op::Cmov(Cond::L), 32),
            ("cmovngeq", Op::Cmov(Cond::L), 64),
            ("cmovngew", Op::Cmov(Cond::L), 16),
            ("cmovngl", Op::Cmov(Cond::Le), 32),
            ("cmovngq", Op::Cmov(Cond::Le), 64),
            ("cmovngw", Op::Cmov(Cond::Le), 16),
            ("cmovnl", Op::Cmov(Cond::Ge), 0),
            ("cmovnle", Op::Cmov(Cond::G), 0),
            ("cmovnlel", Op::Cmov(Cond::G), 32),
            ("cmovnleq", Op::Cmov(Cond::G), 64),
            ("cmovnlew", Op::Cmov(Cond::G), 16),
            ("cmovnll", Op::Cmov(Cond::Ge), 32),
            ("cmovnlq", Op::Cmov(Cond::Ge), 64),
            ("cmovnlw", Op::Cmov(Cond::Ge), 16),
            ("cmovno", Op::Cmov(Cond::No), 0),
            ("cmovnol", Op::Cmov(Cond::No), 32),
            ("cmovnoq", Op::Cmov(Cond::No), 64),
            ("cmovnow", Op::Cmov(Cond::No), 16),
            ("cmovnp", Op::Cmov(Cond::Np), 0),
            ("cmovnpl", Op::Cmov(Cond::Np), 32),
            ("cmovnpq", Op::Cmov(Cond::Np), 64),
            ("cmovnpw", Op::Cmov(Cond::Np), 16),
            ("cmovns", Op::Cmov(Cond::Ns), 0),
            ("cmovnsl", Op::Cmov(Cond::Ns), 32),
            ("cmovnsq", Op::Cmov(Cond::Ns), 64),
            ("cmovnsw", Op::Cmov(Cond::Ns), 16),
            ("cmovnz", Op::Cmov(Cond::Ne), 0),
            ("cmovnzl", Op::Cmov(Cond::Ne), 32),
            ("cmovnzq", Op::Cmov(Cond::Ne), 64),
            ("cmovnzw", Op::Cmov(Cond::Ne), 16),
            ("cmovo", Op::Cmov(Cond::O), 0),
            ("cmovol", Op::Cmov(Cond::O), 32),
            ("cmovoq", Op::Cmov(Cond::O), 64),
            ("cmovow", Op::Cmov(Cond::O), 16),
            ("cmovp", Op::Cmov(Cond::P), 0),
            ("cmovpe", Op::Cmov(Cond::P), 0),
            ("cmovpel", Op::Cmov(Cond::P), 32),
            ("cmovpeq", Op::Cmov(Cond::P), 64),
            ("cmovpew", Op::Cmov(Cond::P), 16),
            ("cmovpl", Op::Cmov(Cond::P), 32),
            ("cmovpo", Op::Cmov(Cond::Np), 0),
            ("cmovpol", Op::Cmov(Cond::Np), 32),
            ("cmovpoq", Op::Cmov(Cond::Np), 64),
            ("cmovpow", Op::Cmov(Cond::Np), 16),
            ("cmovpq", Op::Cmov(Cond::P), 64),
            ("cmovpw", Op::Cmov(Cond::P), 16),
            ("cmovs", Op::Cmov(Cond::S), 0),
            ("cmovsl", Op::Cmov(Cond::S), 32),
            ("cmovsq", Op::Cmov(Cond::S), 64),
            ("cmovsw", Op::Cmov(Cond::S), 16),
            ("cmovz", Op::Cmov(Cond::E), 0),
            ("cmovzl", Op::Cmov(Cond::E), 32),
            ("cmovzq", Op::Cmov(Cond::E), 64),
            ("cmovzw", Op::Cmov(Cond::E), 16),
        ],
        false,
        mnemonic,
    )
}

/// The rows from cmp to lea, with jCC and jmp.
#[tactic(auto, unfolding(crate::specs::LegacyRows::cmp_to_lea))]
pub fn cmp_to_lea(mnemonic: &[u8]) -> Option<Shape>
    ensures { result ≡ named cmp_to_lea mnemonic.now }
{
    find(
        &[
            ("cmpb", Op::Cmp, 8),
            ("cmpl", Op::Cmp, 32),
            ("cmpq", Op::Cmp, 64),
            ("cmpw", Op::Cmp, 16),
            ("decb", Op::Dec, 8),
            ("decl", Op::Dec, 32),
            ("decq", Op::Dec, 64),
            ("decw", Op::Dec, 16),
            ("endbr64", Op::Endbr64, 64),
            ("imull", Op::Imul, 32),
            ("imulq", Op::Imul, 64),
            ("imulw", Op::Imul, 16),
            ("incb", Op::Inc, 8),
            ("incl", Op::Inc, 32),
            ("incq", Op::Inc, 64),
            ("incw", Op::Inc, 16),
            ("ja", Op::Jump(Cond::A), 64),
            ("jae", Op::Jump(Cond::Ae), 64),
            ("jb", Op::Jump(Cond::B), 64),
            ("jbe", Op::Jump(Cond::Be), 64),
            ("jc", Op::Jump(Cond::B), 64),
            ("je", Op::Jump(Cond::E), 64),
            ("jg", Op::Jump(Cond::G), 64),
            ("jge", Op::Jump(Cond::Ge), 64),
            ("jl", Op::Jump(Cond::L), 64),
            ("jle", Op::Jump(Cond::Le), 64),
            ("jmp", Op::Jmp, 64),
            ("jna", Op::Jump(Cond::Be), 64),
            ("jnae", Op::Jump(Cond::B), 64),
            ("jnb", Op::Jump(Cond::Ae), 64),
            ("jnbe", Op::Jump(Cond::A), 64),
            ("jnc", Op::Jump(Cond::Ae), 64),
            ("jne", Op::Jump(Cond::Ne), 64),
            ("jng", Op::Jump(Cond::Le), 64),
            ("jnge", Op::Jump(Cond::L), 64),
            ("jnl", Op::Jump(Cond::Ge), 64),
            ("jnle", Op::Jump(Cond::G), 64),
            ("jno", Op::Jump(Cond::No), 64),
            ("jnp", Op::Jump(Cond::Np), 64),
            ("jns", Op::Jump(Cond::Ns), 64),
            ("jnz", Op::Jump(Cond::Ne), 64),
            ("jo", Op::Jump(Cond::O), 64),
            ("jp", Op::Jump(Cond::P), 64),
            ("jpe", Op::Jump(Cond::P), 64),
            ("jpo", Op::Jump(Cond::Np), 64),
            ("js", Op::Jump(Cond::S), 64),
            ("jz", Op::Jump(Cond::E), 64),
            ("leal", Op::Lea, 32),
            ("leaq", Op::Lea, 64),
        ],
        false,
        mnemonic,
    )
}

/// The rows from mov to or, with those of copied vectors.
#[tactic(auto, unfolding(crate::specs::LegacyRows::mov_to_or))]
pub fn mov_to_or(mnemonic: &[u8]) -> Option<Shape>
    ensures { result ≡ named mov_to_or mnemonic.now }
{
    find(
        &[
            ("movabsq", Op::Movabs, 64),
            ("movaps", Op::Vector(Moving(Movaps)), 128),
            ("movb", Op::Mov, 8),
            ("movd", Op::Vector(Moving(Movd)), 128),
            ("movdqa", Op::Vector(Moving(Movdqa)), 128),
            ("movdqu", Op::Vector(Moving(Movdqu)), 128),
            ("movl", Op::Mov, 32),
            ("movq", Op::Mov, 64),
            ("movsbl", Op::Movsx(8), 32),
            ("movsbq", Op::Movsx(8), 64),
            ("movsbw", Op::Movsx(8), 16),
            ("movslq", Op::Movsx(32), 64),
            ("movswl", Op::Movsx(16), 32),
            ("movswq", Op::Movsx(16), 64),
            ("movups", Op::Vector(Moving(Movups)), 128),
            ("movw", Op::Mov, 16),
            ("movzbl", Op::Movzx(8), 32),
            ("movzbq", Op::Movzx(8), 64),
            ("movzbw", Op::Movzx(8), 16),
            ("movzwl", Op::Movzx(16), 32),
            ("movzwq", Op::Movzx(16), 64),
            ("negb", Op::Neg, 8),
            ("negl", Op::Neg, 32),
            ("negq", Op::Neg, 64),
            ("negw", Op::Neg, 16),
            ("nop", Op::Nop, 64),
            ("notb", Op::Not, 8),
            ("notl", Op::Not, 32),
            ("notq", Op::Not, 64),
            ("notw", Op::Not, 16),
            ("orb", Op::Or, 8),
            ("orl", Op::Or, 32),
            ("orps", Op::Vector(Lanewise(Por)), 128),
            ("orq", Op::Or, 64),
            ("orw", Op::Or, 16),
        ],
        false,
        mnemonic,
    )
}

/// The rows from packss to pop.
#[tactic(auto, unfolding(crate::specs::LegacyRows::packss_to_pop))]
pub fn packss_to_pop(mnemonic: &[u8]) -> Option<Shape>
    ensures { result ≡ named packss_to_pop mnemonic.now }
{
    find(
        &[
            ("packssdw", Op::Vector(Moving(Packss(Doubleword))), 128),
            ("packsswb", Op::Vector(Moving(Packss(Word))), 128),
            ("packuswb", Op::Vector(Moving(Packuswb)), 128),
            ("paddb", Op::Vector(Lanewise(Padd(Byte))), 128),
            ("paddd", Op::Vector(Lanewise(Padd(Doubleword))), 128),
            ("paddq", Op::Vector(Lanewise(Padd(Quadword))), 128),
            ("paddsb", Op::Vector(Lanewise(Padds(Byte))), 128),
            ("paddsw", Op::Vector(Lanewise(Padds(Word))), 128),
            ("paddusb", Op::Vector(Lanewise(Paddus(Byte))), 128),
            ("paddusw", Op::Vector(Lanewise(Paddus(Word))), 128),
            ("paddw", Op::Vector(Lanewise(Padd(Word))), 128),
            ("pand", Op::Vector(Lanewise(Pand)), 128),
            ("pandn", Op::Vector(Lanewise(Pandn)), 128),
            ("pavgb", Op::Vector(Lanewise(Pavg(Byte))), 128),
            ("pavgw", Op::Vector(Lanewise(Pavg(Word))), 128),
            ("pcmpeqb", Op::Vector(Lanewise(Pcmpeq(Byte))), 128),
            ("pcmpeqd", Op::Vector(Lanewise(Pcmpeq(Doubleword))), 128),
            ("pcmpeqw", Op::Vector(Lanewise(Pcmpeq(Word))), 128),
            ("pcmpgtb", Op::Vector(Lanewise(Pcmpgt(Byte))), 128),
            ("pcmpgtd", Op::Vector(Lanewise(Pcmpgt(Doubleword))), 128),
            ("pcmpgtw", Op::Vector(Lanewise(Pcmpgt(Word))), 128),
            ("pmaddwd", Op::Vector(VectorOp::Pmaddwd), 128),
            ("pmaxsw", Op::Vector(Lanewise(Pmaxs(Word))), 128),
            ("pmaxub", Op::Vector(Lanewise(Pmaxu(Byte))), 128),
            ("pminsw", Op::Vector(Lanewise(Pmins(Word))), 128),
            ("pminub", Op::Vector(Lanewise(Pminu(Byte))), 128),
            ("pmovmskb", Op::Vector(VectorOp::Pmovmskb), 128),
            ("pmulhuw", Op::Vector(Lanewise(Pmulhuw)), 128),
            ("pmulhw", Op::Vector(Lanewise(Pmulhw)), 128),
            ("pmullw", Op::Vector(Lanewise(Pmull(Word))), 128),
            ("pmuludq", Op::Vector(Lanewise(Pmuludq)), 128),
            ("popq", Op::Pop, 64),
        ],
        false,
        mnemonic,
    )
}

/// The rows from por to sar.
#[tactic(auto, unfolding(crate::specs::LegacyRows::por_to_sar))]
pub fn por_to_sar(mnemonic: &[u8]) -> Option<Shape>
    ensures { result ≡ named por_to_sar mnemonic.now }
{
    find(
        &[
            ("por", Op::Vector(Lanewise(Por)), 128),
            ("psadbw", Op::Vector(VectorOp::Psadbw), 128),
            ("pshufd", Op::Vector(Moving(Pshufd)), 128),
            ("pshufhw", Op::Vector(Moving(Pshufhw)), 128),
            ("pshuflw", Op::Vector(Moving(Pshuflw)), 128),
            ("pslld", Op::Vector(Lanewise(Psll(Doubleword))), 128),
            ("pslldq", Op::Vector(Moving(Pslldq)), 128),
            ("psllq", Op::Vector(Lanewise(Psll(Quadword))), 128),
            ("psllw", Op::Vector(Lanewise(Psll(Word))), 128),
            ("psrad", Op::Vector(Lanewise(Psra(Doubleword))), 128),
            ("psraw", Op::Vector(Lanewise(Psra(Word))), 128),
            ("psrld", Op::Vector(Lanewise(Psrl(Doubleword))), 128),
            ("psrldq", Op::Vector(Moving(Psrldq)), 128),
            ("psrlq", Op::Vector(Lanewise(Psrl(Quadword))), 128),
            ("psrlw", Op::Vector(Lanewise(Psrl(Word))), 128),
            ("psubb", Op::Vector(Lanewise(Psub(Byte))), 128),
            ("psubd", Op::Vector(Lanewise(Psub(Doubleword))), 128),
            ("psubq", Op::Vector(Lanewise(Psub(Quadword))), 128),
            ("psubsb", Op::Vector(Lanewise(Psubs(Byte))), 128),
            ("psubsw", Op::Vector(Lanewise(Psubs(Word))), 128),
            ("psubusb", Op::Vector(Lanewise(Psubus(Byte))), 128),
            ("psubusw", Op::Vector(Lanewise(Psubus(Word))), 128),
            ("psubw", Op::Vector(Lanewise(Psub(Word))), 128),
            ("punpckhbw", Op::Vector(Moving(Punpckh(Byte))), 128),
            ("punpckhdq", Op::Vector(Moving(Punpckh(Doubleword))), 128),
            ("punpckhqdq", Op::Vector(Moving(Punpckh(Quadword))), 128),
            ("punpckhwd", Op::Vector(Moving(Punpckh(Word))), 128),
            ("punpcklbw", Op::Vector(Moving(Punpckl(Byte))), 128),
            ("punpckldq", Op::Vector(Moving(Punpckl(Doubleword))), 128),
            ("punpcklqdq", Op::Vector(Moving(Punpckl(Quadword))), 128),
            ("punpcklwd", Op::Vector(Moving(Punpckl(Word))), 128),
            ("pushq", Op::Push, 64),
            ("pxor", Op::Vector(Lanewise(Pxor)), 128),
            ("ret", Op::Ret, 64),
            ("retq", Op::Ret, 64),
            ("salb", Op::Shl, 8),
            ("sall", Op::Shl, 32),
            ("salq", Op::Shl, 64),
            ("salw", Op::Shl, 16),
            ("sarb", Op::Sar, 8),
            ("sarl", Op::Sar, 32),
            ("sarq", Op::Sar, 64),
            ("sarw", Op::Sar, 16),
        ],
        false,
        mnemonic,
    )
}

/// The rows of setCC.
#[tactic(auto, unfolding(crate::specs::LegacyRows::set_rows))]
pub fn set_rows(mnemonic: &[u8]) -> Option<Shape>
    ensures { result ≡ named set_rows mnemonic.now }
{
    find(
        &[
            ("seta", Op::Set(Cond::A), 8),
            ("setae", Op::Set(Cond::Ae), 8),
            ("setb", Op::Set(Cond::B), 8),
            ("setbe", Op::Set(Cond::Be), 8),
            ("setc", Op::Set(Cond::B), 8),
            ("sete", Op::Set(Cond::E), 8),
            ("setg", Op::Set(Cond::G), 8),
            ("setge", Op::Set(Cond::Ge), 8),
            ("setl", Op::Set(Cond::L), 8),
            ("setle", Op::Set(Cond::Le), 8),
            ("setna", Op::Set(Cond::Be), 8),
            ("setnae", Op::Set(Cond::B), 8),
            ("setnb", Op::Set(Cond::Ae), 8),
            ("setnbe", Op::Set(Cond::A), 8),
            ("setnc", Op::Set(Cond::Ae), 8),
            ("setne", Op::Set(Cond::Ne), 8),
            ("setng", Op::Set(Cond::Le), 8),
            ("setnge", Op::Set(Cond::L), 8),
            ("setnl", Op::Set(Cond::Ge), 8),
            ("setnle", Op::Set(Cond::G), 8),
            ("setno", Op::Set(Cond::No), 8),
            ("setnp", Op::Set(Cond::Np), 8),
            ("setns", Op::Set(Cond::Ns), 8),
            ("setnz", Op::Set(Cond::Ne), 8),
            ("seto", Op::Set(Cond::O), 8),
            ("setp", Op::Set(Cond::P), 8),
            ("setpe", Op::Set(Cond::P), 8),
            ("setpo", Op::Set(Cond::Np), 8),
            ("sets", Op::Set(Cond::S), 8),
            ("setz", Op::Set(Cond::E), 8),
        ],
        false,
        mnemonic,
    )
}

/// The rows from shl to test.
#[tactic(auto, unfolding(crate::specs::LegacyRows::shl_to_test))]
pub fn shl_to_test(mnemonic: &[u8]) -> Option<Shape>
    ensures { result ≡ named shl_to_test mnemonic.now }
{
    find(
        &[
            ("shlb", Op::Shl, 8),
            ("shll", Op::Shl, 32),
            ("shlq", Op::Shl, 64),
            ("shlw", Op::Shl, 16),
            ("shrb", Op::Shr, 8),
            ("shrl", Op::Shr, 32),
            ("shrq", Op::Shr, 64),
            ("shrw", Op::Shr, 16),
            ("subb", Op::Sub, 8),
            ("subl", Op::Sub, 32),
            ("subq", Op::Sub, 64),
            ("subw", Op::Sub, 16),
            ("testb", Op::Test, 8),
            ("testl", Op::Test, 32),
            ("testq", Op::Test, 64),
            ("testw", Op::Test, 16),
        ],
        false,
        mnemonic,
    )
}

/// The rows of xor.
#[tactic(auto, unfolding(crate::specs::LegacyRows::xor_rows))]
pub fn xor_rows(mnemonic: &[u8]) -> Option<Shape>
    ensures { result ≡ named xor_rows mnemonic.now }
{
    find(
        &[
            ("xorb", Op::Xor, 8),
            ("xorl", Op::Xor, 32),
            ("xorps", Op::Vector(Lanewise(Pxor)), 128),
            ("xorq", Op::Xor, 64),
            ("xorw", Op::Xor, 16),
        ],
        false,
        mnemonic,
    )
}
