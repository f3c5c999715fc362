//! Why a test has no start state.
ghost use Rattle.std.specs.Prelude.{◌≡◌};

use outcomes::Memory;
use thiserror::Error;

/// The first reason for which a test has no start state under an admission.
#[derive(Clone, Copy, Debug, PartialEq, Eq, Error)]
pub enum LoadRefusal {
    /// The test's registers are not admitted.
    #[error("the registers are not admitted")]
    NotAdmitted,
    /// The regions and the stack bytes are more than 65,536 together.
    #[error("regions and stack bytes are more than 65,536")]
    RegionsLarge,
    /// The test names the byte at this address, which lies in no region; it is the least such one.
    #[error("the byte at address {0} lies in no region")]
    ByteOutside(u64),
    /// Out of memory.
    #[error("out of memory")]
    Memory,
}

impl From<Memory> for LoadRefusal {
    ghost use Rattle.test_states.specs.declared.refusal.LoadRefusal.TheVariants as refusals;

    ghost from_gives = { λ _ e. e ≡ refusals.Memory };

    fn from(_failed: Memory) -> LoadRefusal {
        LoadRefusal::Memory
    }
}
