//! Short forms of statements and operands.

use insn_table::{Operand, Statement};

pub const RAX: u8 = 0;

pub const RCX: u8 = 1;

pub const RSP: u8 = 4;

pub const NONE: Operand = Operand::Nothing;

pub const EAX: Operand = Operand::Reg { n: RAX, w: 32 };

/// Memory at `%rcx`.
pub const AT_RCX: Operand = Operand::Mem {
    base: Some(RCX),
    index: None,
    scale: 1,
    disp: 0,
};

/// `cmpl %eax,%eax`, which sets each flag.
pub const COMPARE: Statement<'static> = Statement {
    mnemonic: b"cmpl",
    args: [EAX, EAX, NONE, NONE],
};

/// No statement, behind those of a body.
pub const NO_MORE: Statement<'static> = Statement {
    mnemonic: b"",
    args: [NONE; 4],
};

/// A statement with no operand.
pub(crate) fn none(mnemonic: &'static [u8]) -> Statement<'static> {
    Statement {
        mnemonic,
        args: [NONE; 4],
    }
}

pub(crate) fn one(mnemonic: &'static [u8], first: Operand) -> Statement<'static> {
    Statement {
        mnemonic,
        args: [first, NONE, NONE, NONE],
    }
}

pub(crate) fn two(mnemonic: &'static [u8], first: Operand, second: Operand) -> Statement<'static> {
    Statement {
        mnemonic,
        args: [first, second, NONE, NONE],
    }
}

/// Register `n` of `w` bits.
pub(crate) fn register(n: u8, w: u32) -> Operand {
    Operand::Reg { n, w }
}

/// Memory at a register and a displacement.
pub(crate) fn memory_at(base: u8, disp: i32) -> Operand {
    Operand::Mem {
        base: Some(base),
        index: None,
        scale: 1,
        disp,
    }
}
