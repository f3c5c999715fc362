//! What a command answers before anything is given, and what keeps it from an answer.
ghost use Rattle.std.specs.Prelude.{◌≡◌, string_bytes};
ghost use Rattle.align_cli.specs.declared.answer.Stop.TheVariants as stop;

use align_base::Status;
use outcomes::Memory;
use std::alloc::AllocError;
use thiserror::Error;

/// The report and the status that it is given with.
#[derive(Drop)]
pub struct Answer {
    pub status: Status,
    pub report: Vec<u8>,
}

impl Answer {
    /// A report that is text, with its status.
    pub fn new(status: Status, text: String) -> Answer
        ensures status { result.status ≡ status }
        ensures report { result.report.items ≡ string_bytes text }
    {
        Answer {
            status,
            report: text.into_bytes(),
        }
    }
}

/// What keeps a command from being carried out.
#[derive(Drop)]
pub enum Stop {
    /// A file was refused, or what the files hold, by this report.
    Refused(String),
    /// The shelf failed.
    Shelf,
    /// Out of memory.
    Memory,
}

impl From<AllocError> for Stop {
    ghost from_gives = { λ _ e. e ≡ stop.Memory };

    fn from(_error: AllocError) -> Stop {
        Stop::Memory
    }
}

impl From<Memory> for Stop {
    ghost from_gives = { λ _ e. e ≡ stop.Memory };

    fn from(_failed: Memory) -> Stop {
        Stop::Memory
    }
}

/// What keeps the arguments from an answer.
#[derive(Clone, Copy, Debug, PartialEq, Eq, Error)]
pub enum Interruption {
    /// The shelf failed.
    #[error("a file could not be taken")]
    Shelf,
    /// Out of memory.
    #[error("out of memory")]
    Memory,
}
