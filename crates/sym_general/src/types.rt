//! What an instruction is given, and what it makes.
ghost use Rattle.std.specs.Prelude.{◌≡◌};

use outcomes::Memory;
use std::alloc::{AllocError, AllocFailed};
use sym_rows::lazy_flags::SymFlag;
use terms::{NodeId, SheetFull};
use thiserror::Error;

/// The nodes of what an instruction reads: of its operands, and its five flags: carry, parity, zero, sign and overflow.
#[derive(Debug, Drop)]
pub struct SymArgs {
    pub values: Vec<NodeId>,
    pub flags: [SymFlag; 5],
}

/// The nodes of what an instruction writes, its flags, and its condition, where it reads one.
#[derive(Debug, Drop)]
pub struct SymResult {
    pub values: Vec<NodeId>,
    pub flags: [SymFlag; 5],
    pub cond: Option<NodeId>,
}

/// Why an instruction has no nodes.
#[derive(Clone, Copy, Debug, PartialEq, Eq, Error)]
pub enum SymRefusal {
    /// It reads a flag that is not set on this path.
    #[error("a flag is not set")]
    UnsetFlag,
    /// PUSH and POP.
    #[error("an instruction of the stack")]
    StackInsn,
    /// The sheet would have more than 65,536 nodes.
    #[error("the sheet is full")]
    SheetFull,
    #[error("out of memory")]
    Memory,
}

impl From<SheetFull> for SymRefusal {
    ghost use Rattle.sym_general.specs.declared.types.SymRefusal.{SymRefusal};
    ghost use Rattle.sym_general.specs.Refusals.{refusal_of};

    ghost from_gives = { λ full e. e ≡ refusal_of full };

    fn from(full: SheetFull) -> SymRefusal {
        match full {
            SheetFull::Full => SymRefusal::SheetFull,
            SheetFull::Memory => SymRefusal::Memory,
        }
    }
}

impl From<AllocError> for SymRefusal {
    ghost use Rattle.sym_general.specs.declared.types.SymRefusal.TheVariants as refusals;

    ghost from_gives = { λ _ e. e ≡ refusals.Memory };

    fn from(_error: AllocError) -> SymRefusal {
        SymRefusal::Memory
    }
}

impl<T: Drop> From<AllocFailed<T>> for SymRefusal {
    ghost use Rattle.sym_general.specs.declared.types.SymRefusal.TheVariants as refusals;

    ghost from_gives = { λ _ e. e ≡ refusals.Memory };

    fn from(_failed: AllocFailed<T>) -> SymRefusal {
        SymRefusal::Memory
    }
}

impl From<Memory> for SymRefusal {
    ghost use Rattle.sym_general.specs.declared.types.SymRefusal.TheVariants as refusals;

    ghost from_gives = { λ _ e. e ≡ refusals.Memory };

    fn from(_memory: Memory) -> SymRefusal {
        SymRefusal::Memory
    }
}
