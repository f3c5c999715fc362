//! Laws of runs and of matching, as contracts of functions that do nothing.
ghost use Rattle.std.specs.Prelude.{◌≡◌, ℕ, ◌+◌, ◌<◌, List, length};
ghost use Rattle.flow_graph.specs.Flows.{IsPath, flows_of};
ghost use Rattle.insn_table.specs.declared.insn.Insn.{Insn};
ghost use Rattle.insn_table.specs.Closed.{IsClosed};
ghost use Rattle.machine.specs.Machine.{Machine};
ghost use Rattle.machine.specs.Step.{step_of};
ghost use Rattle.runs.specs.Run.{end_of, run_of};
ghost use Rattle.runs.specs.declared.ends.RunEnd.TheVariants.{Running};
ghost use Rattle.tracer.specs.declared.alignments.Alignment.{Alignment};
ghost use Rattle.tracer.specs.declared.traces.Trace.{Trace};
ghost use Rattle.tracer.specs.Matching.{IsMatching};
ghost use Rattle.tracer.specs.Traces.{ArePlaces};

/// The law that a run of a closed function follows its flow graph: the places where it stands before
/// and behind n steps that go on are a path. It does nothing.
pub fn path_of_run_law()
    ensures { (insns : List Insn) (pool : List ℕ) (s : Machine) (n : ℕ) (places : List ℕ) → IsClosed insns
        → s.place < length insns → end_of (step_of insns pool) s n ≡ Running
        → ArePlaces (λ k. (run_of (step_of insns pool) s k).0) (n + 1) places → IsPath (flows_of insns) places }
{}

/// The law that an alignment matches two traces in exactly one way, perhaps in no pair. It does nothing.
pub fn matching_law()
    ensures some { (alignment : Alignment) (left right : Trace)
        → (pairs : List (ℕ × ℕ)) × IsMatching alignment left right pairs }
    ensures once { (alignment : Alignment) (left right : Trace) (pairs others : List (ℕ × ℕ))
        → IsMatching alignment left right pairs → IsMatching alignment left right others → pairs ≡ others }
{}
