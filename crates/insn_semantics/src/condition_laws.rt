//! Laws of the conditions: what they have to do with one another, and what they tell after a comparison
//! and after a sum. The functions do nothing; their contracts are the laws.

ghost use Rattle.std.specs.Prelude.{◌≡◌, ℕ, pos, ◌+◌, ◌-◌, ◌^◌, ◌<◌, ◌==◌, ◌+ℤ◌, Some, int_le, int_lt, nat_le, nat_lt, not};
ghost use Rattle.std.specs.Option.{option_map};
ghost use Rattle.insn_ops.specs.declared.op.Cond.{Cond};
ghost use Rattle.insn_ops.specs.declared.op.Cond.TheVariants as conds;
ghost use Rattle.insn_ops.specs.declared.op.Flags.{Flags};
ghost use Rattle.insn_ops.specs.declared.op.Op.TheVariants as ops;
ghost use Rattle.insn_semantics.specs.Conditions.{cond_expr, cond_of, cond_reads, either, opposite};
ghost use Rattle.insn_semantics.specs.Exprs.{leaves_of};
ghost use Rattle.insn_semantics.specs.FlagRules.{flags_after};
ghost use Rattle.insn_semantics.specs.SignedNumbers.{signed_number};
ghost use Rattle.insn_semantics.specs.Words.{plus, signed_below};

/// The flags that a condition reads are those that its formula names.
#[tactic(auto, using(crate::proofs::ConditionLaws::condition_laws))]
pub fn conditions_read_the_flags_of_their_formulas()
    ensures { (c : Cond) → cond_reads c ≡ leaves_of (cond_expr c) }
{}

/// Five conditions are a flag.
#[tactic(auto, using(crate::proofs::ConditionLaws::condition_laws))]
pub fn some_conditions_are_flags()
    ensures carry { (f : Flags) → cond_of conds.B f ≡ f.cf }
    ensures parity { (f : Flags) → cond_of conds.P f ≡ f.pf }
    ensures zero { (f : Flags) → cond_of conds.E f ≡ f.zf }
    ensures sign { (f : Flags) → cond_of conds.S f ≡ f.sf }
    ensures overflow { (f : Flags) → cond_of conds.O f ≡ f.of }
{}

/// A condition and its opposite have a value at the same flags, and differ there.
#[tactic(auto, using(crate::proofs::ConditionLaws::condition_laws))]
pub fn opposite_conditions_differ()
    ensures { (c : Cond) (f : Flags) → cond_of (opposite c) f ≡ option_map not (cond_of c f) }
{}

/// `be` is `b` or `e`, and `le` is `e` or `l`, at all flags where both have a value.
#[tactic(auto, using(crate::proofs::ConditionLaws::condition_laws))]
pub fn or_equal_is_either()
    ensures below { (f : Flags) → cond_of conds.Be f ≡ either (cond_of conds.B f) (cond_of conds.E f) }
    ensures less { (f : Flags) → cond_of conds.Le f ≡ either (cond_of conds.E f) (cond_of conds.L f) }
{}

/// After a comparison of two words the conditions tell how they compare: `e` whether they are equal,
/// `b` whether the first is below as a whole number, and `l` whether it is below by the sign.
#[tactic(auto, using(crate::proofs::Comparisons::comparisons))]
pub fn conditions_tell_the_order()
    ensures equal { (w a b : ℕ) (before : Flags) → a < 2 ^ w → b < 2 ^ w
        → cond_of conds.E (flags_after ops.Cmp w a b before) ≡ Some (a == b) }
    ensures below { (w a b : ℕ) (before : Flags)
        → cond_of conds.B (flags_after ops.Cmp w a b before) ≡ Some (nat_lt a b) }
    ensures less { (w a b : ℕ) (before : Flags) → 0 < w → a < 2 ^ w → b < 2 ^ w
        → cond_of conds.L (flags_after ops.Cmp w a b before) ≡ Some (signed_below w a b == 1) }
{}

/// The other conditions of the two orders, as whole numbers: not equal, not below, below or equal, above.
#[tactic(auto, using(crate::proofs::Comparisons::comparisons))]
pub fn conditions_tell_the_order_of_numbers()
    ensures not_equal { (w a b : ℕ) (before : Flags) → a < 2 ^ w → b < 2 ^ w
        → cond_of conds.Ne (flags_after ops.Cmp w a b before) ≡ Some (not (a == b)) }
    ensures not_below { (w a b : ℕ) (before : Flags)
        → cond_of conds.Ae (flags_after ops.Cmp w a b before) ≡ Some (nat_le b a) }
    ensures below_or_equal { (w a b : ℕ) (before : Flags) → a < 2 ^ w → b < 2 ^ w
        → cond_of conds.Be (flags_after ops.Cmp w a b before) ≡ Some (nat_le a b) }
    ensures above { (w a b : ℕ) (before : Flags) → a < 2 ^ w → b < 2 ^ w
        → cond_of conds.A (flags_after ops.Cmp w a b before) ≡ Some (nat_lt b a) }
{}

/// And as signed numbers: less, not less, less or equal, greater.
#[tactic(auto, using(crate::proofs::Comparisons::comparisons))]
pub fn conditions_tell_the_order_of_signed_numbers()
    ensures less { (w a b : ℕ) (before : Flags) → 0 < w → a < 2 ^ w → b < 2 ^ w
        → cond_of conds.L (flags_after ops.Cmp w a b before) ≡ Some (int_lt (signed_number w a) (signed_number w b)) }
    ensures not_less { (w a b : ℕ) (before : Flags) → 0 < w → a < 2 ^ w → b < 2 ^ w
        → cond_of conds.Ge (flags_after ops.Cmp w a b before) ≡ Some (int_le (signed_number w b) (signed_number w a)) }
    ensures less_or_equal { (w a b : ℕ) (before : Flags) → 0 < w → a < 2 ^ w → b < 2 ^ w
        → cond_of conds.Le (flags_after ops.Cmp w a b before) ≡ Some (int_le (signed_number w a) (signed_number w b)) }
    ensures greater { (w a b : ℕ) (before : Flags) → 0 < w → a < 2 ^ w → b < 2 ^ w
        → cond_of conds.G (flags_after ops.Cmp w a b before) ≡ Some (int_lt (signed_number w b) (signed_number w a)) }
{}

/// After a sum `l` tells whether the signed sum is negative, also where it has no word.
/// An operand with its highest bit turned is its signed number and 2^(w - 1).
#[tactic(auto, using(crate::proofs::Comparisons::comparisons))]
pub fn conditions_tell_the_sign_of_a_sum()
    ensures turned { (w a b : ℕ) (before : Flags) → 0 < w → a < 2 ^ w → b < 2 ^ w
        → cond_of conds.L (flags_after ops.Add w a b before)
        ≡ Some (nat_lt (plus w a (2 ^ (w - 1)) + plus w b (2 ^ (w - 1))) (2 ^ w)) }
    ensures negative { (w a b : ℕ) (before : Flags) → 0 < w → a < 2 ^ w → b < 2 ^ w
        → cond_of conds.L (flags_after ops.Add w a b before)
        ≡ Some (int_lt (signed_number w a +ℤ signed_number w b) (pos 0)) }
{}
