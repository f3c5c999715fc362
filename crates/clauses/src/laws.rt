//! Laws of clauses. The functions do nothing; their contracts are the laws.
ghost use Rattle.std.specs.Prelude.{◌≡◌, ◌↔◌, ℕ, Bool, List, Some};
ghost use Rattle.clauses.specs.Assignments.{IsClause, MeetsClause};
ghost use Rattle.clauses.specs.Resolvents.{IsResolvent, sign_in};
ghost use Rattle.clauses.specs.declared.clause.Lit.{Lit};

/// An assignment meets a clause exactly where it gives some variable the sign that the clause has it with.
pub fn signs_tell_what_is_met()
    ensures { (v : ℕ → Bool) (c : List Lit) → IsClause c
        → (MeetsClause v c ↔ ((x : ℕ) × (sign_in c x ≡ Some (v x)))) }
{}

/// An assignment that meets two clauses meets their resolvent.
pub fn resolvents_are_met()
    ensures { (v : ℕ → Bool) (x : ℕ) (c d e : List Lit) → IsClause c → IsClause d → IsResolvent x c d e
        → MeetsClause v c → MeetsClause v d → MeetsClause v e }
{}
