//! Laws of the flags: which ones each operation sets, keeps and unsets, and what a set flag tells.
//! The functions do nothing; their contracts are the laws.

ghost use Rattle.std.specs.Prelude.{◌≡◌, ℕ, pos, ◌+◌, ◌-◌, ◌*◌, ◌/◌, ◌%◌, ◌^◌, ◌<◌, ◌≤◌, ◌==◌, ◌+ℤ◌, ◌-ℤ◌, false, Some, None, IsTrue, int_lt, nat_lt, not};
ghost use Rattle.std.specs.Int.Count.{ones_in};
ghost use Rattle.insn_ops.specs.declared.op.Flags.{Flags};
ghost use Rattle.insn_ops.specs.declared.op.Op.{Op};
ghost use Rattle.insn_ops.specs.declared.op.Op.TheVariants as ops;
ghost use Rattle.insn_semantics.specs.FlagRules.{flags_after};
ghost use Rattle.insn_semantics.specs.OperationGroups.{is_bitwise, is_shift, leaves_flags, sets_flags};
ghost use Rattle.insn_semantics.specs.Rows.{Computes, computed};
ghost use Rattle.insn_semantics.specs.SignedNumbers.{has_word, signed_number};
ghost use Rattle.insn_semantics.specs.Words.{top};

/// The zero, sign and parity flags are read off the result: whether it is 0, whether its signed number is
/// negative, and whether its low eight bits have an even number of ones.
#[tactic(auto, using(crate::proofs::FlagLaws::flag_laws))]
pub fn results_set_zero_sign_and_parity()
    ensures zero { (op : Op) (w a b : ℕ) (before : Flags) → IsTrue (sets_flags op)
        → (flags_after op w a b before).zf ≡ Some (computed op w a b == 0) }
    ensures sign { (op : Op) (w a b : ℕ) (before : Flags) → IsTrue (sets_flags op) → Computes op w a b
        → (flags_after op w a b before).sf ≡ Some (int_lt (signed_number w (computed op w a b)) (pos 0)) }
    ensures parity { (op : Op) (w a b : ℕ) (before : Flags) → IsTrue (sets_flags op)
        → (flags_after op w a b before).pf ≡ Some (ones_in 8 (computed op w a b) % 2 == 0) }
{}

/// A sum carries where the numbers' sum has one bit more, and overflows where the signed sum has no word.
#[tactic(auto, using(crate::proofs::FlagLaws::flag_laws, crate::proofs::Comparisons::overflows))]
pub fn sums_carry_and_overflow()
    ensures carry { (w a b : ℕ) (before : Flags) → a < 2 ^ w → b < 2 ^ w
        → (flags_after ops.Add w a b before).cf ≡ Some ((a + b) / 2 ^ w == 1) }
    ensures overflow { (w a b : ℕ) (before : Flags) → 0 < w → a < 2 ^ w → b < 2 ^ w
        → (flags_after ops.Add w a b before).of ≡ Some (not (has_word w (signed_number w a +ℤ signed_number w b))) }
{}

/// A difference borrows where its left operand is below its right one, and overflows where the signed
/// difference has no word.
#[tactic(auto, using(crate::proofs::FlagLaws::flag_laws, crate::proofs::Comparisons::overflows))]
pub fn differences_borrow_and_overflow()
    ensures borrow { (w a b : ℕ) (before : Flags) → (flags_after ops.Sub w a b before).cf ≡ Some (nat_lt a b) }
    ensures overflow { (w a b : ℕ) (before : Flags) → 0 < w → a < 2 ^ w → b < 2 ^ w
        → (flags_after ops.Sub w a b before).of ≡ Some (not (has_word w (signed_number w a -ℤ signed_number w b))) }
{}

/// A subtraction has a comparison's flags, `neg` those of 0 minus the operand, and `inc` and `dec` those of a sum
/// and a difference with 1, but for the carry flag, which they keep.
#[tactic(auto, using(crate::proofs::FlagLaws::flag_laws))]
pub fn sums_and_differences_share_their_flags()
    ensures subtraction { (w a b : ℕ) (before : Flags)
        → flags_after ops.Sub w a b before ≡ flags_after ops.Cmp w a b before }
    ensures negation { (w a b : ℕ) (before : Flags)
        → flags_after ops.Neg w a b before ≡ flags_after ops.Sub w 0 a before }
    ensures increment { (w a b : ℕ) (before : Flags)
        → flags_after ops.Inc w a b before ≡ record (flags_after ops.Add w a 1 before) { cf = before.cf } }
    ensures decrement { (w a b : ℕ) (before : Flags)
        → flags_after ops.Dec w a b before ≡ record (flags_after ops.Sub w a 1 before) { cf = before.cf } }
{}

/// `and`, `or`, `xor` and `test` clear the carry and the overflow flag.
#[tactic(auto, using(crate::proofs::FlagLaws::flag_laws))]
pub fn bitwise_operations_neither_carry_nor_overflow()
    ensures { (op : Op) (w a b : ℕ) (before : Flags) → IsTrue (is_bitwise op)
        → ((flags_after op w a b before).cf ≡ Some false) × ((flags_after op w a b before).of ≡ Some false) }
{}

/// The carry of a shift is the last bit that it puts out: to the left the bit of weight 2^w of a * 2^k, to the
/// right the highest of the k low bits.
#[tactic(auto, using(crate::proofs::FlagLaws::flag_laws))]
pub fn shifts_carry_the_last_bit_out()
    ensures left { (w a k : ℕ) (before : Flags) → k ≤ w
        → (flags_after ops.Shl w a k before).cf ≡ Some (a * 2 ^ k / 2 ^ w % 2 == 1) }
    ensures right { (w a k : ℕ) (before : Flags) → 0 < k
        → (flags_after ops.Shr w a k before).cf ≡ Some (a % 2 ^ k / 2 ^ (k - 1) == 1) }
    ensures signed { (w a k : ℕ) (before : Flags) → 0 < k
        → (flags_after ops.Sar w a k before).cf ≡ Some (a % 2 ^ k / 2 ^ (k - 1) == 1) }
{}

/// A shift by one overflows where it changes the sign. A shift by more leaves the overflow flag unset.
#[tactic(auto, using(crate::proofs::FlagLaws::flag_laws))]
pub fn shifts_by_one_overflow_where_the_sign_changes()
    ensures one { (op : Op) (w a : ℕ) (before : Flags) → IsTrue (is_shift op) → Computes op w a 1
        → (flags_after op w a 1 before).of ≡ Some (not (top w (computed op w a 1) == top w a)) }
    ensures more { (op : Op) (w a k : ℕ) (before : Flags) → IsTrue (is_shift op) → 1 < k
        → (flags_after op w a k before).of ≡ None }
{}

/// `imul` leaves every flag unset.
#[tactic(auto, using(crate::proofs::FlagLaws::flag_laws))]
pub fn products_unset_every_flag()
    ensures { (w a b : ℕ) (before : Flags)
        → flags_after ops.Imul w a b before ≡ record { cf = None; pf = None; zf = None; sf = None; of = None } }
{}

/// Operations that move, widen, choose or jump leave the flags as they are, also those that are unset.
#[tactic(auto, using(crate::proofs::FlagLaws::flag_laws))]
pub fn moves_leave_the_flags()
    ensures { (op : Op) (w a b : ℕ) (before : Flags) → IsTrue (leaves_flags op)
        → flags_after op w a b before ≡ before }
{}
