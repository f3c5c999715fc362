//! Why a text is no admission.
ghost use Rattle.std.specs.Prelude.{◌≡◌};

use outcomes::Memory;
use thiserror::Error;

/// The first fault of a text. Lines are counted from 1; those above 2^32 - 1 are given as that.
#[derive(Clone, Copy, Debug, PartialEq, Eq, Error)]
pub enum AdmitRefusal {
    /// The line spells nothing that may stand there.
    #[error("line {0} is no line of an admission, or may not stand there")]
    BadLine(u32),
    /// The line is one too many of its kind, or has too many outputs.
    #[error("line {0} goes over a limit")]
    TooMany(u32),
    /// No line names the live outputs.
    #[error("no line is `live`")]
    NoLive,
    /// Out of memory.
    #[error("out of memory")]
    Memory,
}

impl From<Memory> for AdmitRefusal {
    ghost use Rattle.admission.specs.declared.refusal.AdmitRefusal.TheVariants as refusals;

    ghost from_gives = { λ _ e. e ≡ refusals.Memory };

    fn from(_failed: Memory) -> AdmitRefusal {
        AdmitRefusal::Memory
    }
}
