//! A sink in memory whose calls fail by their numbers.
ghost use Rattle.std.specs.Prelude.{◌≡◌, ◌≤◌, [], Some, IsErrOf};
ghost use Rattle.align_base.specs.Causes.{count_after};
ghost use Rattle.align_base.specs.Sink.{GiveTells, new_sink_account};

use crate::sink::{GiveFault, Sink};
use std::alloc::Global;

/// Keeps what it is given, and fails at chosen calls: those whose numbers are listed, counted from 1.
/// It tells what it was given.
#[derive(Drop)]
pub struct MemSink {
    text: Vec<u8>,
    failing: Vec<u64>,
    calls: u64,
    faults: u64,
}

impl MemSink {
    ghost use Rattle.align_base.specs.MemKinds.{sink_failing, sink_text};

    /// An empty sink, of which the calls with these numbers fail.
    pub fn new(alloc: Global, failing: Vec<u64>) -> MemSink
        ensures text { sink_text result ≡ [] }
        ensures failing { sink_failing result ≡ failing.items }

        // What it is as a sink.
        ensures account { ⟦<MemSink as Sink>⟧.account result ≡ new_sink_account (Some []) }
    {
        MemSink {
            text: Vec::new(alloc),
            failing,
            calls: 0,
            faults: 0,
        }
    }

    /// What it was given.
    pub fn written(&self) -> &[u8]
        ensures { result.now ≡ sink_text self.now }
    {
        self.text.as_slice()
    }
}

impl Sink for MemSink {
    ghost use Rattle.align_base.specs.MemKinds.{GiveFails, sink_account, sink_failing, sink_text};

    ghost account = { λ s. sink_account s };

    fn give(&mut self, bytes: &[u8]) -> Result<(), GiveFault>
        ensures fails { GiveFails self.old result }
        ensures failing { sink_failing self.new ≡ sink_failing self.old }
        ensures failed { IsErrOf result GiveFault.Failed → sink_text self.new ≡ sink_text self.old }

        // What every sink ensures.
        ensures counted { self.new.calls ≡ count_after self.old.calls 1 }
        ensures tells { GiveTells (sink_account self.old) (sink_account self.new) bytes.now result }
        ensures later { self.old.faults ≤ self.new.faults }
    {
        self.calls = self.calls.saturating_add(1);
        if self.failing.contains(&self.calls) {
            self.faults = self.faults.saturating_add(1);
            return Err(GiveFault::Failed);
        }
        self.text.extend_from_slice(bytes)?;
        Ok(())
    }
}
