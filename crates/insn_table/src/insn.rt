//! Instructions, their operands, and functions of them.
use align_base::Word;
use insn_ops::Op;
use sqlite_items::Items;

/// An operand of an instruction.
#[derive(Clone, Copy, Debug, PartialEq, Eq)]
pub enum Operand {
    /// General register `n`, numbered as in rax, rcx, rdx, rbx, rsp, rbp, rsi, rdi, r8 to r15, of
    /// `w` bits (Intel SDM, volume 2, section 3.1.1.1, table 3-1, "Register Codes").
    Reg {
        n: u8,
        w: u32,
    },
    /// An immediate, modulo 2^64.
    Imm(u64),
    /// Memory at the sum of base, scaled index and displacement, modulo 2^64 (Intel SDM, volume 1,
    /// section 3.7.5, "Specifying an Offset"). The scale is 1, 2, 4 or 8.
    Mem {
        base: Option<u8>,
        index: Option<u8>,
        scale: u8,
        disp: i32,
    },
    /// Vector register `n`, of `w` bits: 128 or 256.
    Vec {
        n: u8,
        w: u32,
    },
    /// The bytes of the function's pool of constants from here on.
    Pool(u32),
    /// The place of the instruction that a jump goes to.
    Target(u32),
    /// No operand.
    Nothing,
}

/// An instruction: its operation, the width of its form in bits, whether the form is a VEX one, its
/// operands in the order of the text, and the line of the text where it stands.
#[derive(Clone, Copy, Debug, PartialEq, Eq)]
pub struct Insn {
    pub op: Op,
    pub w: u32,
    pub vex: bool,
    pub args: [Operand; 4],
    pub line: u32,
}

/// A list of instructions.
pub type Insns = Items<Insn>;

/// A list of bytes.
pub type Bytes = Items<u8>;

/// A function of a text: its name, its instructions, and the bytes of its pool of constants.
#[derive(Drop)]
pub struct Function {
    pub name: Word,
    pub insns: Insns,
    pub pool: Bytes,
}
