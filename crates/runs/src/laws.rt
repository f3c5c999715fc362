//! The laws of runs and of paths, over states of any type and every step on them.
ghost use Rattle.std.specs.Prelude.{◌≡◌, ℕ, ◌+◌, true, false, Bool, List, Option, Some, length};
ghost use Rattle.runs.specs.Path.{Arrived, Back, FallsAtFirst, FallsWithin, Fell, Through, allowed_along, way};
ghost use Rattle.runs.specs.Run.{IsOver, Step, guarded, later, run_of};
ghost use Rattle.runs.specs.declared.ends.RunEnd.{RunEnd};
ghost use Rattle.runs.specs.declared.ends.RunEnd.TheVariants.{Returned, Running};

/// The laws of runs: a run that is over stays as it is, and a run of l + m steps is one of l steps
/// and, from where it has come to, one of m. It does nothing.
pub fn run_law<S>()
    ensures over { (step : S → Step S) (s t : S) (e : RunEnd) (n k : ℕ) → IsOver e
        → run_of step s n ≡ (t, e) → run_of step s (n + k) ≡ (t, e) }
    ensures parts { (step : S → Step S) (s t : S) (l m : ℕ) → run_of step s l ≡ (t, Running)
        → run_of step s (l + m) ≡ later l (run_of step t m) }
{}

/// The law of a path along which the free run arrives: where every test along it holds, the run under
/// the tests goes the same way; otherwise it faults at the first test that fails. It does nothing.
pub fn path_law<S>()
    ensures holds { (place : S → ℕ) (allows : S → Bool) (free : S → Step S) (path : List ℕ) (next : Option ℕ) (s : S)
        → Arrived (way place free path next s) → allowed_along allows free path s ≡ true
        → way place (guarded allows free) path next s ≡ way place free path next s }
    ensures falls { (place : S → ℕ) (allows : S → Bool) (free : S → Step S) (path : List ℕ) (next : Option ℕ) (s : S)
        → Arrived (way place free path next s) → allowed_along allows free path s ≡ false
        → (way place (guarded allows free) path next s ≡ Fell) × FallsAtFirst allows free path s }
{}

/// The law of what a way says of the run: one that is through still goes on after as many steps as
/// the path has places, and stands at the next place; one that is back has returned by the last of
/// them; one that fell has faulted by one of them. It does nothing.
pub fn way_law<S>()
    ensures through { (place : S → ℕ) (step : S → Step S) (path : List ℕ) (next : Option ℕ) (s t : S)
        → way place step path next s ≡ Through t
        → (run_of step s (length path) ≡ (t, Running)) × (Some (place t) ≡ next) }
    ensures back { (place : S → ℕ) (step : S → Step S) (path : List ℕ) (next : Option ℕ) (s t : S)
        → way place step path next s ≡ Back t → run_of step s (length path) ≡ (t, Returned (length path)) }
    ensures fell { (place : S → ℕ) (step : S → Step S) (path : List ℕ) (next : Option ℕ) (s : S)
        → way place step path next s ≡ Fell → FallsWithin step s (length path) }
{}
