//! The law of chains. The function does nothing; its contract is the law.
ghost use Rattle.std.specs.Prelude.{ℕ, Bool, List};
ghost use Rattle.std.specs.List.{AllByRecursion};
ghost use Rattle.clauses.specs.Assignments.{IsClause, MeetsAll, MeetsClause};
ghost use Rattle.clauses.specs.declared.clause.Lit.{Lit};
ghost use Rattle.resolution_chains.specs.Chains.{IsChain};

/// An assignment that meets all clauses meets what a chain over them ends with.
pub fn chains_are_met()
    ensures { (v : ℕ → Bool) (clauses : List (List Lit)) (lits : List Lit) (first : ℕ) (next : List (ℕ × ℕ))
        → AllByRecursion IsClause clauses → IsChain clauses lits first next → MeetsAll v clauses → MeetsClause v lits }
{}
