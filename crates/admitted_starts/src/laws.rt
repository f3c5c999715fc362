//! The law of admitted start states.
ghost use Rattle.std.specs.Prelude.{◌≡◌, ℕ, ◌<◌, List};
ghost use Rattle.machine.specs.Machine.{AreVecs, Machine};
ghost use Rattle.admitted_starts.specs.AdmittedStarts.{IsAdmittedStart};

use admission::Admission;

/// The law that vectors and memory alone are free: two admitted start states with the same entry
/// registers differ in nothing else, and any others in their place make an admitted start state too.
/// It does nothing.
pub fn admitted_starts_law(admission: &Admission)
    ensures same { (s t : Machine) → IsAdmittedStart admission.now s → IsAdmittedStart admission.now t
        → s.entry ≡ t.entry → record s { vecs = t.vecs; memory = t.memory } ≡ t }
    ensures free { (s : Machine) (vecs : List (List ℕ)) (memory : ℕ → ℕ) → IsAdmittedStart admission.now s
        → AreVecs vecs → ((at : ℕ) → memory at < 256)
        → IsAdmittedStart admission.now (record s { vecs = vecs; memory = memory }) }
{}
