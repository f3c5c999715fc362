//! Laws of steps and runs, as contracts of functions that do nothing.
ghost use Rattle.std.specs.Prelude.{◌≡◌, ℕ, ◌+◌, ◌^◌, ◌<◌, true, false, List, Option, Some, length, slice_get, slice_index};
ghost use Rattle.std.specs.List.{list_any};
ghost use Rattle.insn_table.specs.declared.insn.Insn.{Insn};
ghost use Rattle.insn_table.specs.Closed.{IsClosed};
ghost use Rattle.machine.specs.Frame.{SameFrame, SameUnwritable, SameVector, writes_vector};
ghost use Rattle.machine.specs.Machine.{IsState, Machine};
ghost use Rattle.machine.specs.Ways.{free_way, is_allowed_along, tested_way};
ghost use Rattle.runs.specs.Path.{Arrived, Back, FallsAtFirst, FallsWithin, Fell, Through};
ghost use Rattle.runs.specs.Run.{Goes, IsOver, later, run_of};
ghost use Rattle.runs.specs.declared.ends.RunEnd.{RunEnd};
ghost use Rattle.runs.specs.declared.ends.RunEnd.TheVariants.{Returned, Running};
ghost use Rattle.machine.specs.Step.{allows_step, free_step, step_of};

/// The laws of runs, which hold of every step: a run that is over stays as it is, and a run of l + m
/// steps is one of l steps and, from where it has come to, one of m. It does nothing.
pub fn run_law()
    ensures over { (insns : List Insn) (pool : List ℕ) (s t : Machine) (e : RunEnd) (n k : ℕ) → IsOver e
        → run_of (step_of insns pool) s n ≡ (t, e) → run_of (step_of insns pool) s (n + k) ≡ (t, e) }
    ensures parts { (insns : List Insn) (pool : List ℕ) (s t : Machine) (l m : ℕ)
        → run_of (step_of insns pool) s l ≡ (t, Running)
        → run_of (step_of insns pool) s (l + m) ≡ later l (run_of (step_of insns pool) t m) }
{}

/// The law of a path along which the free run arrives: where every test along it holds, the run under
/// the tests goes the same way; otherwise it faults at the first test that fails. It does nothing.
pub fn path_law()
    ensures holds { (insns : List Insn) (pool path : List ℕ) (next : Option ℕ) (s : Machine)
        → Arrived (free_way insns pool path next s) → is_allowed_along insns pool path s ≡ true
        → tested_way insns pool path next s ≡ free_way insns pool path next s }
    ensures falls { (insns : List Insn) (pool path : List ℕ) (next : Option ℕ) (s : Machine)
        → Arrived (free_way insns pool path next s) → is_allowed_along insns pool path s ≡ false
        → (tested_way insns pool path next s ≡ Fell)
        × FallsAtFirst (allows_step insns) (free_step insns pool) path s }
{}

/// The law of what a way says of the run: one that is through still goes on after as many steps as
/// the path has places, and stands at the next place; one that is back has returned by the last of
/// them; one that fell has faulted by one of them. It does nothing.
pub fn way_law()
    ensures through { (insns : List Insn) (pool path : List ℕ) (next : Option ℕ) (s t : Machine)
        → tested_way insns pool path next s ≡ Through t
        → (run_of (step_of insns pool) s (length path) ≡ (t, Running)) × (Some t.place ≡ next) }
    ensures back { (insns : List Insn) (pool path : List ℕ) (next : Option ℕ) (s t : Machine)
        → tested_way insns pool path next s ≡ Back t
        → run_of (step_of insns pool) s (length path) ≡ (t, Returned (length path)) }
    ensures fell { (insns : List Insn) (pool path : List ℕ) (next : Option ℕ) (s : Machine)
        → tested_way insns pool path next s ≡ Fell
        → FallsWithin (step_of insns pool) s (length path) }
{}

/// The law of what a step and a run leave as it was, with any instructions and pool: the entry
/// registers, the regions and the stack range, under the tests and also freely; a step leaves each
/// vector register that its instruction does not write, and a run each that no instruction of the
/// function writes. In a closed function a step and a run under the tests, and a free step whose tests
/// hold, leave each byte of the memory that neither lies in a region that may be written nor among the
/// declared stack bytes. It does nothing.
pub fn step_frame_law()
    ensures step { (insns : List Insn) (pool : List ℕ) (s t : Machine) → step_of insns pool s ≡ Goes t → SameFrame s t }
    ensures step_memory { (insns : List Insn) (pool : List ℕ) (s t : Machine) → IsClosed insns
        → step_of insns pool s ≡ Goes t → SameUnwritable s t }
    ensures run { (insns : List Insn) (pool : List ℕ) (s : Machine) (n : ℕ)
        → SameFrame s (run_of (step_of insns pool) s n).0 }
    ensures run_memory { (insns : List Insn) (pool : List ℕ) (s : Machine) (n : ℕ) → IsClosed insns
        → SameUnwritable s (run_of (step_of insns pool) s n).0 }
    ensures free_step { (insns : List Insn) (pool : List ℕ) (s t : Machine) → free_step insns pool s ≡ Goes t
        → SameFrame s t }
    ensures free_step_memory { (insns : List Insn) (pool : List ℕ) (s t : Machine) → IsClosed insns
        → allows_step insns s ≡ true → free_step insns pool s ≡ Goes t → SameUnwritable s t }
    ensures free_run { (insns : List Insn) (pool : List ℕ) (s : Machine) (n : ℕ)
        → SameFrame s (run_of (free_step insns pool) s n).0 }
    ensures step_vectors { (insns : List Insn) (pool : List ℕ) (s t : Machine) (i : Insn) (r : ℕ)
        → slice_get insns s.place ≡ Some i → writes_vector r i ≡ false → step_of insns pool s ≡ Goes t → SameVector r s t }
    ensures run_vectors { (insns : List Insn) (pool : List ℕ) (s : Machine) (n r : ℕ)
        → list_any (writes_vector r) insns ≡ false → SameVector r s (run_of (step_of insns pool) s n).0 }
    ensures free_step_vectors { (insns : List Insn) (pool : List ℕ) (s t : Machine) (i : Insn) (r : ℕ)
        → slice_get insns s.place ≡ Some i → writes_vector r i ≡ false → free_step insns pool s ≡ Goes t → SameVector r s t }
    ensures free_run_vectors { (insns : List Insn) (pool : List ℕ) (s : Machine) (n r : ℕ)
        → list_any (writes_vector r) insns ≡ false → SameVector r s (run_of (free_step insns pool) s n).0 }
{}

/// The law that a step and a run of a closed function, whose pool holds bytes, keep the values of a
/// state in their ranges, under the tests and also freely. It does nothing.
pub fn state_law()
    ensures step { (insns : List Insn) (pool : List ℕ) (s t : Machine) → IsClosed insns
        → ((at : ℕ) → slice_index pool at < 256) → IsState s → step_of insns pool s ≡ Goes t → IsState t }
    ensures run { (insns : List Insn) (pool : List ℕ) (s : Machine) (n : ℕ) → IsClosed insns
        → ((at : ℕ) → slice_index pool at < 256) → IsState s → IsState (run_of (step_of insns pool) s n).0 }
    ensures free_step { (insns : List Insn) (pool : List ℕ) (s t : Machine) → IsClosed insns
        → ((at : ℕ) → slice_index pool at < 256) → IsState s → free_step insns pool s ≡ Goes t → IsState t }
    ensures free_run { (insns : List Insn) (pool : List ℕ) (s : Machine) (n : ℕ) → IsClosed insns
        → ((at : ℕ) → slice_index pool at < 256) → IsState s → IsState (run_of (free_step insns pool) s n).0 }
{}
