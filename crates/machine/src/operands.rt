//! What the code reads of an instruction: its operands, their widths, its family and its condition.
ghost use Rattle.std.specs.Prelude.{◌≡◌, ◌+◌, ◌%◌, ◌*◌, ◌^◌, ◌<◌, ◌≤◌};
ghost use Rattle.insn_table.specs.Classes.{is_nothing};
ghost use Rattle.machine.specs.Access as access;
ghost use Rattle.machine.specs.Family.{condition_of, family_of};
ghost use Rattle.machine.specs.Operands.{displacement};
ghost use Rattle.machine.specs.Operands as operands;
ghost use Rattle.machine.specs.Runnable.{IsWidth};
ghost use Rattle.machine.specs.Step as steps;
ghost use Rattle.machine.specs.Vectors as vectors;

use crate::vector_access::{vector_source_width, vector_target_width};
use insn_ops::{Cond, VectorOp};
use insn_table::{Insn, Op, Operand};

/// The operations that a step runs alike.
#[derive(Clone, Copy, Debug, PartialEq, Eq)]
pub enum Family {
    /// A row over destination and source.
    Computing,
    /// `lea`, which reads no memory.
    Address,
    /// A move by condition.
    Choice,
    /// A byte set by condition.
    Setting,
    /// A jump by condition.
    Branch,
    Jump,
    Pushing,
    Popping,
    Return,
    /// A row over vectors.
    OnVectors,
    /// `vzeroupper`.
    Clearing,
    /// No effect but the next place.
    Idle,
}

/// The family of an operation.
pub fn op_family(op: Op) -> Family
    ensures { result ≡ family_of op }
{
    match op {
        Op::Lea => Family::Address,
        Op::Cmov(_) => Family::Choice,
        Op::Set(_) => Family::Setting,
        Op::Jump(_) => Family::Branch,
        Op::Jmp => Family::Jump,
        Op::Push => Family::Pushing,
        Op::Pop => Family::Popping,
        Op::Ret => Family::Return,
        Op::Nop => Family::Idle,
        Op::Endbr64 => Family::Idle,
        Op::Vector(VectorOp::Vzeroupper) => Family::Clearing,
        Op::Vector(_) => Family::OnVectors,
        _ => Family::Computing,
    }
}

/// The condition that an operation reads.
pub fn condition(op: Op) -> Option<Cond>
    ensures { result ≡ condition_of op }
{
    match op {
        Op::Cmov(cond) => Some(cond),
        Op::Set(cond) => Some(cond),
        Op::Jump(cond) => Some(cond),
        _ => None,
    }
}

/// Operand `k` of an instruction.
pub fn operand(insn: &Insn, k: usize) -> Operand
    ensures { result ≡ operands.operand insn.now k }
{
    match insn.args.get(k) {
        Some(operand) => *operand,
        None => Operand::Nothing,
    }
}

fn is_nothing(operand: Operand) -> bool
    ensures { result ≡ is_nothing operand }
{
    match operand {
        Operand::Nothing => true,
        _ => false,
    }
}

/// How many operands an instruction has.
pub fn arity(insn: &Insn) -> usize
    ensures { result ≡ access.arity insn.now }
{
    if is_nothing(operand(insn, 0)) {
        return 0;
    }
    if is_nothing(operand(insn, 1)) {
        return 1;
    }
    if is_nothing(operand(insn, 2)) {
        return 2;
    }
    if is_nothing(operand(insn, 3)) { 3 } else { 4 }
}

/// Whether an operation writes its last operand.
pub fn writes(op: Op) -> bool
    ensures { result ≡ access.writes op }
{
    match op {
        Op::Cmp => false,
        Op::Test => false,
        _ => true,
    }
}

/// The width of each operand but the last.
pub fn source_width(op: Op, w: u32) -> u32
    ensures { result ≡ access.source_width op w }
{
    match op {
        Op::Movzx(from) => from,
        Op::Movsx(from) => from,
        Op::Cltq => 32,
        Op::Vector(op) => vector_source_width(op, w),
        _ => w,
    }
}

/// The width of the last operand.
pub fn target_width(op: Op, w: u32) -> u32
    ensures { result ≡ access.target_width op w }
{
    match op {
        Op::Vector(op) => vector_target_width(op, w),
        _ => w,
    }
}

/// The width of operand `k`.
pub fn width_at(insn: &Insn, k: usize) -> u32
    requires { k < 4 }
    ensures { result ≡ access.width_at insn.now k }
{
    if k + 1 == arity(insn) {
        target_width(insn.op, insn.w)
    } else {
        source_width(insn.op, insn.w)
    }
}

/// The operand that a row writes.
pub fn target(insn: &Insn) -> Operand
    ensures { result ≡ steps.target_operand insn.now.op insn.now }
{
    match insn.op {
        Op::Cltq => Operand::Reg { n: 0, w: 64 },
        _ => operand(insn, arity(insn).saturating_sub(1)),
    }
}

/// The operand that a row's destination is read from.
pub fn destination(insn: &Insn) -> Operand
    ensures { result ≡ steps.destination_operand insn.now.op insn.now }
{
    match insn.op {
        Op::Cltq => Operand::Reg { n: 0, w: 64 },
        _ => if arity(insn) == 1 {
            operand(insn, 0)
        } else {
            operand(insn, 1)
        },
    }
}

/// The operand that a row's source is read from.
pub fn source(insn: &Insn) -> Operand
    ensures { result ≡ steps.source_operand insn.now.op insn.now }
{
    match insn.op {
        Op::Cltq => Operand::Reg { n: 0, w: 32 },
        _ => operand(insn, 0),
    }
}

/// The operand that is written, the last one.
pub fn last_operand(insn: &Insn) -> Operand
    ensures { result ≡ vectors.last_operand insn.now }
{
    operand(insn, arity(insn).saturating_sub(1))
}

/// The place of the first operand that is no immediate.
pub fn source_place(insn: &Insn) -> usize
    ensures value { result ≡ vectors.source_place insn.now }
    ensures small { result ≤ 1 }
{
    match operand(insn, 0) {
        Operand::Imm(_) => 1,
        _ => 0,
    }
}

/// The place that a jump goes to.
pub fn jump_place(operand: Operand) -> u32
    ensures { result ≡ steps.jump_place operand }
{
    match operand {
        Operand::Target(n) => n,
        _ => 0,
    }
}

/// The register that `push` and `pop` name.
pub fn register_number(operand: Operand) -> u8
    ensures { result ≡ steps.register_number operand }
{
    match operand {
        Operand::Reg { n, .. } => n,
        _ => 0,
    }
}

/// A displacement modulo 2^64.
pub fn displacement_of(disp: i32) -> u64
    ensures { result ≡ displacement disp }
{
    (disp as i64).cast_unsigned()
}

/// The low bits of a number.
pub fn low_bits(w: u32, x: u64) -> u64
    requires { IsWidth w }
    ensures value { result ≡ x % 2 ^ w }
    ensures below { result < 2 ^ w }
{
    match w {
        8 => x % 0x100,
        16 => x % 0x1_0000,
        32 => x % 0x1_0000_0000,
        _ => x,
    }
}

/// A register after a write of `w` bits: 8 and 16 leave the other bits, 32 and 64 leave none.
pub fn register_after(w: u32, old: u64, word: u64) -> u64
    requires width { IsWidth w }
    requires word { word < 2 ^ w }
    ensures { result ≡ operands.register_after w old word }
{
    match w {
        8 => old / 0x100 * 0x100 + word,
        16 => old / 0x1_0000 * 0x1_0000 + word,
        _ => word,
    }
}
