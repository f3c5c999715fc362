//! Laws of widths: the values of the rows, their flags and the conditions are formed. The functions do nothing;
//! their contracts are the laws.

ghost use Rattle.std.specs.Prelude.{◌≡◌, ℕ, ◌≤◌};
ghost use Rattle.std.specs.List.{AllByRecursion};
ghost use Rattle.insn_ops.specs.declared.op.Cond.{Cond};
ghost use Rattle.insn_ops.specs.declared.op.Op.{Op};
ghost use Rattle.insn_semantics.specs.Conditions.{cond_expr};
ghost use Rattle.insn_semantics.specs.Exprs.{Expr, leaves_of};
ghost use Rattle.insn_semantics.specs.FlagRules.{carry_rule, is_even, is_negative, is_zero, overflow_rule, result_rule};
ghost use Rattle.insn_semantics.specs.Formed.{IsFormedAt};
ghost use Rattle.insn_semantics.specs.FormedRows.{HasRowWidth, IsFormedRule, row_widths};
ghost use Rattle.insn_semantics.specs.Rows.{Computes, row_expr};

/// The value of each row is formed, of the row's width. A row that computes something has its widths.
#[tactic(auto, using(crate::proofs::FormedLaws::formed_rows))]
pub fn rows_are_formed()
    ensures rows { (op : Op) (w k : ℕ) → HasRowWidth op w k → IsFormedAt (row_widths op w) w (row_expr op w k) }
    ensures widths { (op : Op) (w a b : ℕ) → Computes op w a b → HasRowWidth op w b }
{}

/// Each flag that a row of 8 bits or more sets is formed, of one bit.
#[tactic(auto, using(crate::proofs::FormedLaws::formed_flags))]
pub fn flags_are_formed()
    ensures carry { (op : Op) (w k : ℕ) → 8 ≤ w → HasRowWidth op w k → IsFormedRule w (carry_rule op w k) }
    ensures parity { (op : Op) (w : ℕ) → 8 ≤ w → IsFormedRule w (result_rule op is_even) }
    ensures zero { (op : Op) (w : ℕ) → 8 ≤ w → w ≤ 64 → IsFormedRule w (result_rule op (is_zero w)) }
    ensures sign { (op : Op) (w : ℕ) → 8 ≤ w → IsFormedRule w (result_rule op (is_negative w)) }
    ensures overflow { (op : Op) (w k : ℕ) → 8 ≤ w → HasRowWidth op w k → IsFormedRule w (overflow_rule op w k) }
{}

/// Each condition is formed, of one bit, over flags of one bit.
pub fn conditions_are_formed()
    ensures { (c : Cond) → IsFormedAt (λ i. 1) 1 (cond_expr c) }
{}

/// Whether an expression is formed, and its width, depend only on the widths of the leaves that it names.
pub fn formed_by_the_leaves_named()
    ensures { (widths others : ℕ → ℕ) (n : ℕ) (x : Expr) → AllByRecursion (λ i. others i ≡ widths i) (leaves_of x)
        → IsFormedAt widths n x → IsFormedAt others n x }
{}
