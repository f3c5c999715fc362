//! Laws of rows. The functions do nothing; their contracts are the laws.
ghost use Rattle.std.specs.Prelude.{◌↔◌, ℕ, Bool, Option};
ghost use Rattle.clauses.specs.Assignments.{MeetsAll};
ghost use Rattle.clause_rows.specs.SameRows.{AreSameBytes, same_row};

/// The row of two bytes is met exactly where they are equal if their addresses are and no scratch line has it.
pub fn same_rows_tell_equal_bytes()
    ensures { (v : ℕ → Bool) (same_at : ℕ) (scratch : Option ℕ) (m n : ℕ)
        → MeetsAll v (same_row same_at scratch m n) ↔ AreSameBytes v same_at scratch m n }
{}
