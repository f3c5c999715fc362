//! The parts of mnemonics: what each begins with, what stands behind that, and the suffix.
ghost use Rattle.std.specs.Prelude.{◌≡◌};
ghost use Rattle.insn_mnemonics.specs.Mnemonics.{condition_name, ending, middle, stem, suffix};

use crate::vectors::{vector_middle, vector_stem};
use insn_ops::{Cond, Op};

/// What the mnemonic begins with.
pub fn stem(op: Op) -> &'static str
    ensures { result.now ≡ stem op }
{
    match op {
        Op::Mov => "mov",
        Op::Movabs => "movabs",
        Op::Add => "add",
        Op::Sub => "sub",
        Op::Cmp => "cmp",
        Op::Test => "test",
        Op::And => "and",
        Op::Or => "or",
        Op::Xor => "xor",
        Op::Inc => "inc",
        Op::Dec => "dec",
        Op::Neg => "neg",
        Op::Not => "not",
        Op::Shl => "shl",
        Op::Shr => "shr",
        Op::Sar => "sar",
        Op::Imul => "imul",
        Op::Lea => "lea",
        Op::Movzx(_) => "movz",
        Op::Movsx(_) => "movs",
        Op::Cltq => "cltq",
        Op::Cmov(_) => "cmov",
        Op::Set(_) => "set",
        Op::Jump(_) => "j",
        Op::Jmp => "jmp",
        Op::Push => "push",
        Op::Pop => "pop",
        Op::Ret => "ret",
        Op::Nop => "nop",
        Op::Endbr64 => "endbr64",
        Op::Vector(op) => vector_stem(op),
    }
}

/// What stands between stem and suffix: a condition, the letter of the source's width, or the letters
/// of lanes.
pub fn middle(op: Op) -> &'static str
    ensures { result.now ≡ middle op }
{
    match op {
        Op::Cmov(condition) | Op::Set(condition) | Op::Jump(condition) => condition_name(condition),
        Op::Movzx(from) | Op::Movsx(from) => suffix(from),
        Op::Vector(op) => vector_middle(op),
        _ => "",
    }
}

/// The suffix, where the operation's mnemonics have one.
pub fn ending(op: Op, w: u32) -> &'static str
    ensures { result.now ≡ ending op w }
{
    match op {
        Op::Cltq | Op::Set(_) | Op::Jump(_) | Op::Jmp | Op::Ret | Op::Nop | Op::Endbr64 => "",
        Op::Vector(_) => "",
        _ => suffix(w),
    }
}

/// The letter of a width.
fn suffix(w: u32) -> &'static str
    ensures { result.now ≡ suffix w }
{
    match w {
        8 => "b",
        16 => "w",
        32 => "l",
        64 => "q",
        _ => "",
    }
}

/// The first name of a condition.
fn condition_name(condition: Cond) -> &'static str
    ensures { result.now ≡ condition_name condition }
{
    match condition {
        Cond::E => "e",
        Cond::Ne => "ne",
        Cond::B => "b",
        Cond::Ae => "ae",
        Cond::Be => "be",
        Cond::A => "a",
        Cond::L => "l",
        Cond::Ge => "ge",
        Cond::Le => "le",
        Cond::G => "g",
        Cond::S => "s",
        Cond::Ns => "ns",
        Cond::O => "o",
        Cond::No => "no",
        Cond::P => "p",
        Cond::Np => "np",
    }
}
