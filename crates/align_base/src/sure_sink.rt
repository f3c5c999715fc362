//! A sink in memory that never fails.
ghost use Rattle.std.specs.Prelude.{◌≡◌, [], Some};
ghost use Rattle.align_base.specs.Sink.{new_sink_account};

use crate::sink::{GiveFault, Sink};
use std::alloc::Global;

/// Keeps what it is given. It never fails, and tells what it was given.
#[derive(Drop)]
pub struct SureSink {
    text: Vec<u8>,
    calls: u64,
}

impl SureSink {
    ghost use Rattle.align_base.specs.SureKinds.{sure_text};

    /// An empty sink.
    pub fn new(alloc: Global) -> SureSink
        ensures text { sure_text result ≡ [] }

        // What it is as a sink.
        ensures account { ⟦<SureSink as Sink>⟧.account result ≡ new_sink_account (Some []) }
    {
        SureSink {
            text: Vec::new(alloc),
            calls: 0,
        }
    }

    /// What it was given.
    pub fn written(&self) -> &[u8]
        ensures { result.now ≡ sure_text self.now }
    {
        self.text.as_slice()
    }
}

impl Sink for SureSink {
    ghost use Rattle.align_base.specs.SureKinds.{sure_sink_account};

    ghost account = { λ s. sure_sink_account s };

    fn give(&mut self, bytes: &[u8]) -> Result<(), GiveFault> {
        self.calls = self.calls.saturating_add(1);
        self.text.extend_from_slice(bytes)?;
        Ok(())
    }
}
