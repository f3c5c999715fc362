//! The laws of files of tests.
ghost use Rattle.std.specs.Prelude.{◌≡◌, ◌⊎◌, ℕ, List};
ghost use Rattle.tests_text.specs.TestFiles.{IsTestsRefusal, IsTestsText};
ghost use Rattle.tests_text.specs.declared.refusal.TestRefusal.{TestRefusal};
ghost use Rattle.tests_text.specs.declared.test.Tests.{Tests};

/// A law: a text spells exactly one list of tests or is refused in exactly one way, and not both. No text
/// is refused because memory was not found.
pub fn tests_have_one_meaning()
    ensures some { (text : List ℕ) → ((tests : Tests) × IsTestsText text tests)
        ⊎ ((e : TestRefusal) × IsTestsRefusal text e) }
    ensures tests { (text : List ℕ) (a b : Tests) → IsTestsText text a → IsTestsText text b → a ≡ b }
    ensures not_both { (text : List ℕ) (tests : Tests) (e : TestRefusal)
        → IsTestsText text tests → IsTestsRefusal text e → ⊥ }
    ensures refusal { (text : List ℕ) (a b : TestRefusal)
        → IsTestsRefusal text a → IsTestsRefusal text b → a ≡ b }
    ensures not_memory { (text : List ℕ) (e : TestRefusal)
        → IsTestsRefusal text e → e ≡ TestRefusal.Memory → ⊥ }
{}
