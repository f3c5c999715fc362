//! Standard output.
ghost use Rattle.std.specs.Prelude.{◌≡◌, ◌≤◌, None, IsErrOf};
ghost use Rattle.align_base.specs.Causes.{count_after};
ghost use Rattle.align_base.specs.Sink.{GiveTells, new_sink_account};

use crate::sink::{GiveFault, Sink};
use crate::whole::write_whole;
use std::io;

/// Standard output. A write that takes no byte is a fault. It tells nothing of what was given, and
/// takes no memory.
#[derive(Drop)]
pub struct OutSink<'a, R: Print> {
    rt: &'a R,
    calls: u64,
    faults: u64,
}

impl<'a, R: Print> OutSink<'a, R> {
    /// The standard output of this runtime.
    pub fn new(rt: &'a R) -> OutSink<'a, R>
        ensures account { ⟦<OutSink<'a, R> as Sink>⟧.account result ≡ new_sink_account None }
    {
        OutSink {
            rt,
            calls: 0,
            faults: 0,
        }
    }
}

impl<'a, R: Print> Sink for OutSink<'a, R> {
    ghost account = { λ s. record { written = None; calls = s.calls; faults = s.faults } };

    fn give(&mut self, bytes: &[u8]) -> Result<(), GiveFault>
        ensures memory { IsErrOf result GiveFault.Memory → ⊥ }

        // What every sink ensures.
        ensures counted { self.new.calls ≡ count_after self.old.calls 1 }
        ensures tells { GiveTells (record { written = None; calls = self.old.calls; faults = self.old.faults })
            (record { written = None; calls = self.new.calls; faults = self.new.faults }) bytes.now result }
        ensures later { self.old.faults ≤ self.new.faults }
    {
        self.calls = self.calls.saturating_add(1);
        if write_whole(&mut io::writer(self.rt), bytes) {
            return Ok(());
        }
        self.faults = self.faults.saturating_add(1);
        Err(GiveFault::Failed)
    }
}
