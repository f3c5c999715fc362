//! Laws of refutations. The functions do nothing; their contracts are the laws.
ghost use Rattle.std.specs.Prelude.{ℕ, Bool, List, false};
ghost use Rattle.node_values.specs.Values.{Environment};
ghost use Rattle.refutation_rules.specs.Holding.{IsHeld, Reads};
ghost use Rattle.refutation_rules.specs.Judging.{AreAccepted};
ghost use Rattle.refutation_rules.specs.Known.{Known, Ground};
ghost use Rattle.refutation_rules.specs.Steps.{Obeys, after};
ghost use Rattle.refutations.specs.declared.step.Step.{Step};

/// In an environment, and for an assignment that reads it, each step that is obeyed adds what holds.
pub fn steps_hold()
    ensures { (e : Environment) (v : ℕ → Bool) (s : Ground) (k : Known) (step : Step)
        → Reads e v s → IsHeld e v s k → Obeys s k step → IsHeld e v s (after s k step) }
{}

/// Where clauses and equations hold, no steps from them are accepted.
pub fn accepted_steps_refute()
    ensures { (e : Environment) (v : ℕ → Bool) (s : Ground) (k : Known) (steps : List Step)
        → Reads e v s → IsHeld e v s k → AreAccepted s k false steps → ⊥ }
{}
