//! The law of combinations. The function does nothing; its contract is the law.
ghost use Rattle.std.specs.Prelude.{ℕ, List};
ghost use Rattle.std.specs.List.{AllByRecursion};
ghost use Rattle.node_forms.specs.Sums.{AreFalling, SameWord};
ghost use Rattle.node_forms.specs.declared.form.Form.{Form};
ghost use Rattle.linear_forms.specs.Combinations.{IsCombination, value_of, weighted};

/// Where a form is the weighted sum of parts, so is its value, modulo 2^w, whatever the atoms are worth:
/// for forms that list their atoms as those of sheets do.
pub fn combinations_keep_values()
    ensures { (w n : ℕ) (f : ℕ → ℕ) (target : Form) (parts : List (ℕ × Form)) → AreFalling n target.atoms
        → AllByRecursion (λ p. AreFalling n p.1.atoms) parts → IsCombination w target parts
        → SameWord w (weighted (value_of f) parts) (value_of f target) }
{}
