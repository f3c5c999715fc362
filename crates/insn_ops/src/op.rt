//! The operations of the instruction table, their conditions, and the flags.

use crate::vector_op::VectorOp;

/// A condition of `cmovCC`, `setCC` and `jCC`, by the first of its names (Intel SDM volume 1, appendix
/// B, "EFLAGS Condition Codes").
#[derive(Clone, Copy, Debug, PartialEq, Eq)]
pub enum Cond {
    E,
    Ne,
    B,
    Ae,
    Be,
    A,
    L,
    Ge,
    Le,
    G,
    S,
    Ns,
    O,
    No,
    P,
    Np,
}

/// The carry, parity, zero, sign and overflow flags; one that is `None` is unset.
#[derive(Clone, Copy, Debug, PartialEq, Eq)]
pub struct Flags {
    pub cf: Option<bool>,
    pub pf: Option<bool>,
    pub zf: Option<bool>,
    pub sf: Option<bool>,
    pub of: Option<bool>,
}

/// The operation of an instruction: one for each stem of a mnemonic in the instruction table. Each
/// names its section of Intel's SDM, volume 2.
#[derive(Clone, Copy, Debug, PartialEq, Eq)]
pub enum Op {
    /// "MOV: Move".
    Mov,
    /// "MOV: Move", with an immediate of 64 bits.
    Movabs,
    /// "ADD: Add".
    Add,
    /// "SUB: Subtract".
    Sub,
    /// "CMP: Compare Two Operands".
    Cmp,
    /// "TEST: Logical Compare".
    Test,
    /// "AND: Logical AND".
    And,
    /// "OR: Logical Inclusive OR".
    Or,
    /// "XOR: Logical Exclusive OR".
    Xor,
    /// "INC: Increment by 1".
    Inc,
    /// "DEC: Decrement by 1".
    Dec,
    /// "NEG: Two's Complement Negation".
    Neg,
    /// "NOT: One's Complement Negation".
    Not,
    /// "SAL/SAR/SHL/SHR: Shift", to the left.
    Shl,
    /// "SAL/SAR/SHL/SHR: Shift", to the right, with zeros.
    Shr,
    /// "SAL/SAR/SHL/SHR: Shift", to the right, with the sign.
    Sar,
    /// "IMUL: Signed Multiply", with two or three operands.
    Imul,
    /// "LEA: Load Effective Address".
    Lea,
    /// "MOVZX: Move With Zero-Extend", from a source of so many bits.
    Movzx(u32),
    /// "MOVSX/MOVSXD: Move With Sign-Extension", from a source of so many bits.
    Movsx(u32),
    /// "CBW/CWDE/CDQE: Convert Byte to Word/Convert Word to Doubleword/Convert Doubleword to Quadword",
    /// the last.
    Cltq,
    /// "CMOVcc: Conditional Move".
    Cmov(Cond),
    /// "SETcc: Set Byte on Condition".
    Set(Cond),
    /// "Jcc: Jump if Condition Is Met".
    Jump(Cond),
    /// "JMP: Jump".
    Jmp,
    /// "PUSH: Push Word, Doubleword, or Quadword Onto the Stack".
    Push,
    /// "POP: Pop a Value From the Stack".
    Pop,
    /// "RET: Return From Procedure".
    Ret,
    /// "NOP: No Operation".
    Nop,
    /// "ENDBR64: Terminate an Indirect Branch in 64-Bit Mode".
    Endbr64,
    /// An operation on vector registers.
    Vector(VectorOp),
}
