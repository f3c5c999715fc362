//! Traces, and why a run has none.
ghost use Rattle.std.specs.Prelude.{◌≡◌};

use crate::recording::Visit;
use machine::RunEnd;
use outcomes::Memory;
use thiserror::Error;

/// What a run did: the entry's general registers, the places of its steps, its visits of heads, and
/// how it ended.
#[derive(Drop)]
pub struct Trace {
    pub entry: [u64; 16],
    pub places: Vec<u32>,
    pub visits: Vec<Visit>,
    pub end: RunEnd,
}

/// Why a run has no trace.
#[derive(Clone, Copy, Debug, PartialEq, Eq, Error)]
pub enum TraceRefusal {
    /// It has not ended within the steps.
    #[error("the run does not end within the steps")]
    TooLong,
    /// It ended because the instruction at this place reads a flag that is not set.
    #[error("the instruction at place {0} reads a flag that is not set")]
    Unset(u32),
    #[error("out of memory")]
    Memory,
}

impl From<Memory> for TraceRefusal {
    ghost use Rattle.tracer.specs.declared.traces.TraceRefusal.TheVariants as refusals;

    ghost from_gives = { λ _ e. e ≡ refusals.Memory };

    fn from(_memory: Memory) -> TraceRefusal {
        TraceRefusal::Memory
    }
}
