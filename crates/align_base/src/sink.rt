//! The trait of a sink: what takes the report.
ghost use Rattle.std.specs.Prelude.{◌≡◌, ◌≤◌};
ghost use Rattle.align_base.specs.Causes.{count_after};
ghost use Rattle.align_base.specs.Sink.{GiveTells, SinkAccount};
ghost use Rattle.align_base.specs.declared.sink.GiveFault.TheVariants as give;

use std::alloc::AllocError;
use thiserror::Error;

/// Why bytes were not given.
#[derive(Clone, Copy, Debug, PartialEq, Eq, Error)]
pub enum GiveFault {
    /// The sink failed, after it took a prefix of the bytes.
    #[error("the bytes could not be written")]
    Failed,
    /// Out of memory.
    #[error("out of memory")]
    Memory,
}

impl From<AllocError> for GiveFault {
    ghost from_gives = { λ _ e. e ≡ give.Memory };

    fn from(_error: AllocError) -> GiveFault {
        GiveFault::Memory
    }
}

/// What takes the report.
pub trait Sink {
    /// What it was given, where it tells, how often, and how often that failed. The counts never fall,
    /// and stand still at 2^64 - 1.
    ghost account: { Self → SinkAccount };

    /// Appends the bytes.
    fn give(&mut self, bytes: &[u8]) -> Result<(), GiveFault>
        ensures counted { (account self.new).calls ≡ count_after (account self.old).calls 1 }
        ensures tells { GiveTells (account self.old) (account self.new) bytes.now result }
        ensures later { (account self.old).faults ≤ (account self.new).faults };
}
