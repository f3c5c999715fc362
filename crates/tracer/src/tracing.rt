//! Tracing a run to its end.
ghost use Rattle.std.specs.Prelude.{◌≡◌, ◌⊎◌, ◌<◌, IfOk, IfErr, Some, None, length};
ghost use Rattle.flow_graph.specs.Flows.{flows_of};
ghost use Rattle.insn_table.specs.Closed.{IsClosed};
ghost use Rattle.machine.specs.Kept.{pure_of};
ghost use Rattle.tracer.specs.Traces.{IsTrace, end_within, refusal_of, state_after};

use crate::recording::{Record, entry_registers};
use crate::traces::{Trace, TraceRefusal};
use flow_graph::Graph;
use insn_table::Function;
use machine::{RunEnd, State, StepEnd};
use std::alloc::Global;

/// The trace of the run of `f` from this state on, or why there is none within `n` steps. `g` is the
/// flow graph of `f`.
pub fn trace(
    alloc: Global,
    f: &Function,
    g: &Graph,
    start: &State,
    n: u64,
) -> Result<Trace, TraceRefusal>
    requires closed { IsClosed f.now.insns }
    requires graph { g.now ≡ flows_of f.now.insns }
    requires inside { start.now.place < length f.now.insns }

    // The run has no reason to be refused, and the trace is its own ..
    ensures traced { IfOk result (λ t.
        (refusal_of (end_within f.now n (pure_of start.now)) (state_after f.now (pure_of start.now) n).place ≡ None)
        × IsTrace f.now (pure_of start.now) (end_within f.now n (pure_of start.now)) t) }

    // .. or it has one, which is the answer, but for memory.
    ensures refused { IfErr result (λ e. (e ≡ TraceRefusal.Memory)
        ⊎ (refusal_of (end_within f.now n (pure_of start.now)) (state_after f.now (pure_of start.now) n).place
        ≡ Some e)) }
{
    let entry = entry_registers(start);
    let mut state = start.copy(alloc)?;
    let mut record = Record::new(alloc);
    for step in 0..n {
        record.add(g, &state, step)?;
        let end = match state.step(f) {
            StepEnd::Next => continue,
            StepEnd::Return => RunEnd::Returned(step + 1),
            StepEnd::Fault => RunEnd::Faulted(step + 1),
            StepEnd::Unset => return Err(TraceRefusal::Unset(state.place())),
        };
        let Record { places, visits } = record;
        return Ok(Trace {
            entry,
            places,
            visits,
            end,
        });
    }
    Err(TraceRefusal::TooLong)
}
