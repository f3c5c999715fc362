//! Laws of words and of what rows compute. The functions do nothing; their contracts are the laws.

ghost use Rattle.std.specs.Prelude.{◌≡◌, ℕ, pos, ◌+◌, ◌-◌, ◌/◌, ◌%◌, ◌^◌, ◌<◌, ◌≤◌, int_lt};
ghost use Rattle.std.specs.Int.{int_shr};
ghost use Rattle.insn_ops.specs.declared.op.Cond.{Cond};
ghost use Rattle.insn_ops.specs.declared.op.Op.{Op};
ghost use Rattle.insn_ops.specs.declared.op.Op.TheVariants as ops;
ghost use Rattle.insn_semantics.specs.Exprs.{value};
ghost use Rattle.insn_semantics.specs.Rows.{Computes, computed, row_expr};
ghost use Rattle.insn_semantics.specs.SignedNumbers.{signed_number};
ghost use Rattle.insn_semantics.specs.Words.{bit, plus, minus, complement, cut, concatenation, top, sign_extension, left_shift, right_shift, signed_shift, equal, below, signed_below};

/// A sum and a difference undo each other.
#[tactic(auto, using(crate::proofs::WordLaws::laws))]
pub fn sums_and_differences_undo_each_other()
    ensures difference { (w a b : ℕ) → a < 2 ^ w → b < 2 ^ w → minus w (plus w a b) b ≡ a }
    ensures sum { (w a b : ℕ) → a < 2 ^ w → b < 2 ^ w → plus w (minus w a b) b ≡ a }
    ensures zero { (w a : ℕ) → a < 2 ^ w → minus w a a ≡ 0 }
{}

/// A sum is below its left operand exactly where the sum of the numbers has one bit more.
#[tactic(auto, using(crate::proofs::WordLaws::laws))]
pub fn sums_below_an_operand_carry()
    ensures { (w a b : ℕ) → a < 2 ^ w → b < 2 ^ w → below (plus w a b) a ≡ (a + b) / 2 ^ w }
{}

/// A word turned twice is the word.
#[tactic(auto, using(crate::proofs::WordLaws::laws))]
pub fn complements_undo_themselves()
    ensures { (w a : ℕ) → a < 2 ^ w → complement w (complement w a) ≡ a }
{}

/// The parts that were joined can be cut out again.
#[tactic(auto, using(crate::proofs::WordLaws::laws))]
pub fn cuts_undo_joins()
    ensures high { (m n high low : ℕ) → high < 2 ^ m → low < 2 ^ n → cut (concatenation n high low) n m ≡ high }
    ensures low { (n high low : ℕ) → low < 2 ^ n → cut (concatenation n high low) 0 n ≡ low }
{}

/// A word extended by its sign has the same low bits, and is a word of the wider width.
#[tactic(auto, using(crate::proofs::WordLaws::laws))]
pub fn extensions_keep_the_low_bits()
    ensures low { (m n a : ℕ) → m ≤ n → a < 2 ^ m → sign_extension m n a % 2 ^ m ≡ a }
    ensures below { (m n a : ℕ) → m ≤ n → a < 2 ^ m → sign_extension m n a < 2 ^ n }
{}

/// It is the same signed number, so it has the same sign.
#[tactic(auto, using(crate::proofs::SignedWords::signed_words))]
pub fn extensions_keep_the_signed_number()
    ensures number { (m n a : ℕ) → 0 < m → m ≤ n → a < 2 ^ m
        → signed_number n (sign_extension m n a) ≡ signed_number m a }
    ensures sign { (m n a : ℕ) → 0 < m → m ≤ n → a < 2 ^ m → top n (sign_extension m n a) ≡ top m a }
{}

/// A shift to the left and back to the right drops the high bits alone.
#[tactic(auto, using(crate::proofs::WordLaws::laws))]
pub fn shifts_drop_the_high_bits()
    ensures { (w k a : ℕ) → k ≤ w → right_shift (left_shift w a k) k ≡ a % 2 ^ (w - k) }
{}

/// A shift to the right by the sign divides the signed number by 2^k, rounded down, and keeps the sign.
#[tactic(auto, using(crate::proofs::SignedWords::signed_words))]
pub fn signed_shifts_divide_the_signed_number()
    ensures number { (w a k : ℕ) → k < w → a < 2 ^ w
        → signed_number w (signed_shift w a k) ≡ int_shr (signed_number w a) k }
    ensures sign { (w a k : ℕ) → k < w → a < 2 ^ w → top w (signed_shift w a k) ≡ top w a }
{}

/// Of two words, one is below the other or they are equal, and only one of the three holds.
#[tactic(auto, using(crate::proofs::WordLaws::laws))]
pub fn one_order_holds()
    ensures { (a b : ℕ) → below a b + equal a b + below b a ≡ 1 }
{}

/// A word is below another by the sign where its signed number is below, and its highest bit says
/// whether its signed number is negative.
#[tactic(auto, using(crate::proofs::Comparisons::comparisons, crate::proofs::SignedWords::signed_words))]
pub fn signs_order_signed_numbers()
    ensures below { (w a b : ℕ) → 0 < w → a < 2 ^ w → b < 2 ^ w
        → signed_below w a b ≡ bit (int_lt (signed_number w a) (signed_number w b)) }
    ensures negative { (w a : ℕ) → 0 < w → a < 2 ^ w → top w a ≡ bit (int_lt (signed_number w a) (pos 0)) }
{}

/// What a row computes is a word of its width.
#[tactic(auto, using(crate::proofs::WordLaws::laws))]
pub fn rows_compute_words()
    ensures { (op : Op) (w a b : ℕ) → Computes op w a b → computed op w a b < 2 ^ w }
{}

/// `movz` keeps the number of its source, and `movs` and `cltq` keep the signed number.
#[tactic(auto, using(crate::proofs::SignedWords::signed_words))]
pub fn widening_rows_keep_the_number()
    ensures zero_extension { (m w a b : ℕ) → Computes (ops.Movzx m) w a b → computed (ops.Movzx m) w a b ≡ b }
    ensures sign_extension { (m w a b : ℕ) → Computes (ops.Movsx m) w a b
        → signed_number w (computed (ops.Movsx m) w a b) ≡ signed_number m b }
    ensures conversion { (w a b : ℕ) → Computes ops.Cltq w a b
        → signed_number w (computed ops.Cltq w a b) ≡ signed_number 32 b }
{}

/// `cmovCC` gives the source where its condition holds (leaf 2 is 1) and else the destination, and
/// `setCC` gives 1 or 0, which is leaf 2.
pub fn conditional_rows_follow_the_condition()
    ensures source { (leaves : ℕ → ℕ) (c : Cond) (w k : ℕ) → leaves 2 ≡ 1
        → value leaves (row_expr (ops.Cmov c) w k) ≡ leaves 1 }
    ensures destination { (leaves : ℕ → ℕ) (c : Cond) (w k : ℕ) → leaves 2 ≡ 0
        → value leaves (row_expr (ops.Cmov c) w k) ≡ leaves 0 }
    ensures set { (leaves : ℕ → ℕ) (c : Cond) (w k : ℕ) → value leaves (row_expr (ops.Set c) w k) ≡ leaves 2 }
{}
