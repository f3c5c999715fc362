//! What each operation computes of its operands.

ghost use Rattle.std.specs.Prelude.{◌≡◌, ◌^◌, ◌<◌};
ghost use Rattle.insn_semantics.specs.Rows.{Computes, computed};

use crate::words::{
    low_bits, word_add, word_mul, word_not, word_sar, word_shl, word_shr, word_sub, word_sx,
};
use insn_ops::Op;

/// What an instruction computes of its destination `a` and its source `b`, at a width; the count of
/// a shift is its source.
pub fn scalar(op: Op, width: u32, a: u64, b: u64) -> u64
    requires { Computes op width a b }
    ensures value { result ≡ computed op width a b }
    ensures below { result < 2 ^ width }
{
    match op {
        Op::Mov => b,
        Op::Movabs => b,
        Op::Add => word_add(width, a, b),
        Op::Sub => word_sub(width, a, b),
        Op::Cmp => word_sub(width, a, b),
        Op::Test => a & b,
        Op::And => a & b,
        Op::Or => a | b,
        Op::Xor => a ^ b,
        Op::Inc => word_add(width, a, 1),
        Op::Dec => word_sub(width, a, 1),
        Op::Neg => word_sub(width, 0, a),
        Op::Not => word_not(width, a),
        Op::Shl => word_shl(width, a, b),
        Op::Shr => word_shr(width, a, b),
        Op::Sar => word_sar(width, a, b),
        Op::Imul => word_mul(width, a, b),
        Op::Lea => low_bits(width, b),
        Op::Movzx(_) => b,
        Op::Movsx(from) => word_sx(from, width, b),
        Op::Cltq => word_sx(32, 64, b),
        // These compute nothing, and are not asked for.
        Op::Cmov(_) => a,
        Op::Set(_) => a,
        Op::Jump(_) => a,
        Op::Jmp => a,
        Op::Push => a,
        Op::Pop => a,
        Op::Ret => a,
        Op::Nop => a,
        Op::Endbr64 => a,
        Op::Vector(_) => a,
    }
}
