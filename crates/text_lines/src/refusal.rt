//! Why a function's text is refused.
ghost use Rattle.std.specs.Prelude.{◌≡◌, ◌-◌, ◌^◌, min};
ghost use Rattle.text_lines.specs.declared.refusal.ReadKind.TheVariants.{Memory};

use outcomes::Memory;
use std::alloc::AllocFailed;
use thiserror::Error;

/// Why a text was refused, in the order in which faults are told.
#[derive(Clone, Copy, Debug, PartialEq, Eq, Error)]
pub enum ReadKind {
    /// Out of memory.
    #[error("out of memory")]
    Memory,
    /// The bytes are no UTF-8.
    #[error("the text is no UTF-8")]
    NotUtf8,
    /// The line has more than 4,096 bytes.
    #[error("the line has more than 4,096 bytes")]
    LineLong,
    /// No label has the function's name.
    #[error("no label has the function's name")]
    NoFunction,
    /// A label of the body stands a second time.
    #[error("the label is defined before")]
    TwiceLabel,
    /// A directive puts data into the body.
    #[error("data stands in the body")]
    DataInBody,
    /// The statement's mnemonic is not in the instruction table.
    #[error("the instruction is unknown")]
    UnknownInstruction,
    /// An operand names a constant of a pool.
    #[error("operands in a pool of constants are not read")]
    PoolRefused,
    /// An operand is none, or the instruction takes no such operands.
    #[error("the instruction takes no such operands")]
    BadOperand,
    /// An immediate is out of range.
    #[error("the immediate is out of range")]
    BadNumber,
    /// A jump's label is none of the body that an instruction follows.
    #[error("the jump's label leads to no instruction of the body")]
    UnknownLabel,
    /// The body has more than 4,096 instructions.
    #[error("the function has more than 4,096 instructions")]
    TooManyInsns,
    /// The last instruction neither returns nor jumps, or there is none.
    #[error("the function's last instruction neither returns nor jumps")]
    FallsOff,
}

/// The first fault of a text and its line, counted from 1. Lines above 2^32 - 1 are given as that, and
/// `NoFunction` and `Memory` have line 0.
#[derive(Clone, Copy, Debug, PartialEq, Eq, Error)]
#[error("line {line}: {kind}")]
pub struct ReadRefusal {
    pub line: u32,
    pub kind: ReadKind,
}

impl<T: Drop> From<AllocFailed<T>> for ReadRefusal {
    ghost from_gives = { λ _ e. e ≡ record { line = 0; kind = Memory } };

    fn from(_failed: AllocFailed<T>) -> ReadRefusal {
        ReadRefusal {
            line: 0,
            kind: ReadKind::Memory,
        }
    }
}

impl From<Memory> for ReadRefusal {
    ghost from_gives = { λ _ e. e ≡ record { line = 0; kind = Memory } };

    fn from(_failed: Memory) -> ReadRefusal {
        ReadRefusal {
            line: 0,
            kind: ReadKind::Memory,
        }
    }
}

/// The number in 32 bits; numbers above 2^32 - 1 are given as that.
pub fn saturated(number: usize) -> u32
    ensures { result ≡ min number (2 ^ 32 - 1) }
{
    u32::try_from(number).unwrap_or(u32::MAX)
}
