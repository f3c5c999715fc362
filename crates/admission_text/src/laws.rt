//! The laws of admission text.
ghost use Rattle.std.specs.Prelude.{◌≡◌, ◌⊎◌, ℕ, List};
ghost use Rattle.admission.specs.declared.admission.Admission.{Admission};
ghost use Rattle.admission_text.specs.Entries.{IsAdmissionText};
ghost use Rattle.admission_text.specs.Refusals.{IsAdmissionRefusal};
ghost use Rattle.admission.specs.declared.refusal.AdmitRefusal.{AdmitRefusal};

/// A law: a text spells exactly one admission or is refused in exactly one way, and not both. No text is
/// refused because memory was not found.
pub fn admissions_have_one_meaning()
    ensures some { (text : List ℕ) → ((a : Admission) × IsAdmissionText text a)
        ⊎ ((e : AdmitRefusal) × IsAdmissionRefusal text e) }
    ensures admission { (text : List ℕ) (a b : Admission)
        → IsAdmissionText text a → IsAdmissionText text b → a ≡ b }
    ensures not_both { (text : List ℕ) (a : Admission) (e : AdmitRefusal)
        → IsAdmissionText text a → IsAdmissionRefusal text e → ⊥ }
    ensures refusal { (text : List ℕ) (a b : AdmitRefusal)
        → IsAdmissionRefusal text a → IsAdmissionRefusal text b → a ≡ b }
    ensures not_memory { (text : List ℕ) (e : AdmitRefusal)
        → IsAdmissionRefusal text e → e ≡ AdmitRefusal.Memory → ⊥ }
{}
