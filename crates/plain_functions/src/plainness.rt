//! Whether a function is plain, and where it is not.
ghost use Rattle.std.specs.Prelude.{◌≡◌, ◌↔◌, ◌⊎◌, ◌<◌, ℕ, length, IfNone, IfSome, IsTrue};
ghost use Rattle.insn_table.specs.Closed.{IsClosed};
ghost use Rattle.plain_functions.specs.Plain.{IsFree, IsMoveOp, IsPlain, IsPlainMove, IsRegister, IsReturn, IsSource};
ghost use Rattle.plain_functions.specs.Plainness.{IsFirstUnplain, IsPlainAt};

use insn_table::{Insn, Op, Operand};

/// The number of the stack pointer.
const STACK_POINTER: u8 = 4;

/// Whether it is a move, a sum or a difference.
fn is_move_op(op: Op) -> bool
    ensures { IsTrue result ↔ IsMoveOp op }
{
    matches!(op, Op::Mov | Op::Add | Op::Sub)
}

/// Whether it is a register of 64 bits other than the stack pointer.
fn is_free_register(operand: Operand) -> bool
    ensures { IsTrue result ↔ (IsRegister operand × IsFree operand) }
{
    match operand {
        Operand::Reg { n, w } => n < 16 && w == 64 && n != STACK_POINTER,
        _ => false,
    }
}

/// Whether it is such a register, or an immediate of 32 bits that is extended by its sign.
fn is_free_source(operand: Operand) -> bool
    ensures { IsTrue result ↔ (IsSource operand × IsFree operand) }
{
    match operand {
        Operand::Imm(value) => value < 1 << 31 || value >= u64::MAX - (1 << 31) + 1,
        Operand::Reg { n, w } => n < 16 && w == 64 && n != STACK_POINTER,
        _ => false,
    }
}

/// Whether it is a plain move.
fn is_plain_move(insn: &Insn) -> bool
    ensures { IsTrue result ↔ IsPlainMove insn.now }
{
    if !is_move_op(insn.op) || insn.w != 64 || insn.vex {
        return false;
    }
    match insn.args {
        [source, target, Operand::Nothing, Operand::Nothing] => {
            is_free_source(source) && is_free_register(target)
        }
        _ => false,
    }
}

/// Whether it is a return.
fn is_return(insn: &Insn) -> bool
    ensures { IsTrue result ↔ IsReturn insn.now }
{
    if !matches!(insn.op, Op::Ret) || insn.w != 64 || insn.vex {
        return false;
    }
    match insn.args {
        [
            Operand::Nothing,
            Operand::Nothing,
            Operand::Nothing,
            Operand::Nothing,
        ] => true,
        _ => false,
    }
}

/// Whether it is a plain move or a return.
fn is_plain_insn(insn: &Insn) -> bool
    ensures { IsTrue result ↔ (IsPlainMove insn.now ⊎ IsReturn insn.now) }
{
    is_plain_move(insn) || is_return(insn)
}

/// The line of the first instruction that is neither a plain move nor a return, or that stands behind
/// a return.
pub fn first_unplain(insns: &[Insn]) -> Option<u32>
    ensures some { IfSome result (IsFirstUnplain insns.now) }
    ensures none { IfNone result ((k : ℕ) → k < length insns.now → IsPlainAt insns.now k) }
    ensures plain { IfNone result (IsClosed insns.now → IsPlain insns.now) }
{
    let mut returned = false;
    for insn in insns {
        if returned || !is_plain_insn(insn) {
            return Some(insn.line);
        }
        returned = is_return(insn);
    }
    None
}
