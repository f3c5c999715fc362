//! Why instructions or a function were not built.
ghost use Rattle.std.specs.Prelude.{◌≡◌};
ghost use Rattle.insn_table.specs.declared.build_error.BuildError.TheVariants.{Unfit, OutOfMemory};

use crate::fitting::Misfit;
use outcomes::Memory;
use std::alloc::AllocFailed;
use thiserror::Error;

/// Why mnemonics and operands make no instruction, or instructions no closed function.
#[derive(Clone, Copy, Debug, PartialEq, Eq, Error)]
pub enum BuildError {
    /// The mnemonic names no instruction.
    #[error("unknown mnemonic")]
    UnknownMnemonic,
    /// The instruction doesn't take the operands.
    #[error(transparent)]
    Unfit(Misfit),
    /// A register is none of the sixteen, or a scale is none of 1, 2, 4 and 8.
    #[error("no such register or scale")]
    BadRegister,
    /// There are 2^32 - 1 instructions already.
    #[error("too many instructions")]
    TooMany,
    /// There is no instruction.
    #[error("a function without an instruction")]
    Empty,
    /// A jump goes to none of the instructions.
    #[error("a jump out of the function")]
    TargetOutside,
    /// The last instruction is neither a return nor a jump.
    #[error("the end of the function is reached without a return")]
    FallsOff,
    #[error("out of memory")]
    OutOfMemory,
}

impl From<Misfit> for BuildError {
    ghost from_gives = { λ misfit e. e ≡ Unfit misfit };

    fn from(misfit: Misfit) -> BuildError {
        BuildError::Unfit(misfit)
    }
}

impl<T: Drop> From<AllocFailed<T>> for BuildError {
    ghost from_gives = { λ _ e. e ≡ OutOfMemory };

    fn from(_failed: AllocFailed<T>) -> BuildError {
        BuildError::OutOfMemory
    }
}

impl From<Memory> for BuildError {
    ghost from_gives = { λ _ e. e ≡ OutOfMemory };

    fn from(_failed: Memory) -> BuildError {
        BuildError::OutOfMemory
    }
}
