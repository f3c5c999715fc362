//! Laws of the vector rows. The functions do nothing; their contracts are the laws.
ghost use Rattle.std.specs.Prelude.{◌≡◌, ℕ, ◌+◌, ◌-◌, ◌*◌, ◌/◌, ◌^◌, ◌<◌, ◌≤◌, ◌==◌, ◌+ℤ◌, ◌-ℤ◌, bit_and, min, max, int_lt, if◌then◌else◌};
ghost use Rattle.insn_ops.specs.declared.vector_op.LaneWidth.{LaneWidth};
ghost use Rattle.insn_ops.specs.declared.vector_op.LaneWidth.TheVariants.{Word};
ghost use Rattle.insn_ops.specs.declared.vector_op.LaneOp.TheVariants as scalar_ops;
ghost use Rattle.insn_ops.specs.declared.vector_op.MoveOp.TheVariants as move_ops;
ghost use Rattle.insn_ops.specs.declared.vector_op.VectorOp.TheVariants as ops;
ghost use Rattle.insn_semantics.specs.Exprs.{value};
ghost use Rattle.insn_semantics.specs.SignedNumbers.{signed_number};
ghost use Rattle.insn_semantics.specs.Words.{choice, complement, cut, sign_extension, top};
ghost use Rattle.lane_semantics.specs.LaneRows.{IsLaneRow};
ghost use Rattle.lane_semantics.specs.MoveRows.{lanes_in_half, move_source};
ghost use Rattle.lane_semantics.specs.Sources.{tops};
ghost use Rattle.lane_semantics.specs.VectorRows.{vector_expr};
ghost use Rattle.lane_semantics.specs.LaneValues.{lane_of, nearest_signed};
ghost use Rattle.lane_semantics.specs.Widths.{bits};
ghost use Rattle.lane_semantics.specs.declared.source.Source.TheVariants.{First, Second, Zero};

/// Unsigned saturation: a sum is the sum of the numbers or the greatest word, a difference is the
/// difference or 0.
pub fn unsigned_rows_saturate()
    ensures sums { (l : LaneWidth) (k a b : ℕ) → bits l ≤ 16 → a < 2 ^ bits l → b < 2 ^ bits l
        → lane_of (scalar_ops.Paddus l) k a b ≡ min (a + b) (2 ^ bits l - 1) }
    ensures differences { (l : LaneWidth) (k a b : ℕ) → bits l ≤ 16 → a < 2 ^ bits l → b < 2 ^ bits l
        → lane_of (scalar_ops.Psubus l) k a b ≡ a - b }
{}

/// Signed saturation: the signed number of a sum or a difference is the nearest that the lane has, and so the sum or
/// the difference itself where the lane has it.
pub fn signed_rows_saturate()
    ensures sums { (l : LaneWidth) (k a b : ℕ) → bits l ≤ 16 → a < 2 ^ bits l → b < 2 ^ bits l
        → signed_number (bits l) (lane_of (scalar_ops.Padds l) k a b)
        ≡ nearest_signed (bits l) (signed_number (bits l) a +ℤ signed_number (bits l) b) }
    ensures differences { (l : LaneWidth) (k a b : ℕ) → bits l ≤ 16 → a < 2 ^ bits l → b < 2 ^ bits l
        → signed_number (bits l) (lane_of (scalar_ops.Psubs l) k a b)
        ≡ nearest_signed (bits l) (signed_number (bits l) a -ℤ signed_number (bits l) b) }
{}

/// `pandn` complements its first argument.
pub fn pandn_complements_the_first()
    ensures { (k a b : ℕ) → lane_of scalar_ops.Pandn k a b ≡ bit_and (complement 64 a) b }
{}

/// `pcmpeq` gives ones where the lanes are equal, and else zeros.
pub fn equal_lanes_give_ones()
    ensures { (l : LaneWidth) (k a b : ℕ) → lane_of (scalar_ops.Pcmpeq l) k a b ≡ (if a == b then 2 ^ bits l - 1 else 0) }
{}

/// The unsigned least and greatest are those of the numbers, the signed ones those of the signed numbers.
pub fn rows_take_the_least_and_the_greatest()
    ensures least { (l : LaneWidth) (k a b : ℕ) → lane_of (scalar_ops.Pminu l) k a b ≡ min a b }
    ensures greatest { (l : LaneWidth) (k a b : ℕ) → lane_of (scalar_ops.Pmaxu l) k a b ≡ max a b }
    ensures signed_least { (l : LaneWidth) (k a b : ℕ) → a < 2 ^ bits l → b < 2 ^ bits l
        → lane_of (scalar_ops.Pmins l) k a b
        ≡ (if int_lt (signed_number (bits l) a) (signed_number (bits l) b) then a else b) }
    ensures signed_greatest { (l : LaneWidth) (k a b : ℕ) → a < 2 ^ bits l → b < 2 ^ bits l
        → lane_of (scalar_ops.Pmaxs l) k a b
        ≡ (if int_lt (signed_number (bits l) a) (signed_number (bits l) b) then b else a) }
{}

/// A shift by the lane's width or more puts all bits out: zeros are left, or copies of the sign.
pub fn long_shifts_leave_zeros_or_the_sign()
    ensures left { (l : LaneWidth) (k a b : ℕ) → bits l ≤ k → lane_of (scalar_ops.Psll l) k a b ≡ 0 }
    ensures right { (l : LaneWidth) (k a b : ℕ) → bits l ≤ k → lane_of (scalar_ops.Psrl l) k a b ≡ 0 }
    ensures by_sign { (l : LaneWidth) (k a b : ℕ) → bits l ≤ k → b < 2 ^ bits l
        → lane_of (scalar_ops.Psra l) k a b ≡ sign_extension 1 (bits l) (top (bits l) b) }
{}

/// The high and the low half of an unsigned product make the product.
pub fn halves_of_products_make_the_product()
    ensures { (k a b : ℕ) → a < 2 ^ 16 → b < 2 ^ 16
        → lane_of scalar_ops.Pmulhuw k a b * 2 ^ 16 + lane_of (scalar_ops.Pmull Word) k a b ≡ a * b }
{}

/// `pavg` is the mean, rounded up.
pub fn averages_round_up()
    ensures { (l : LaneWidth) (k a b : ℕ) → bits l ≤ 16 → a < 2 ^ bits l → b < 2 ^ bits l
        → lane_of (scalar_ops.Pavg l) k a b ≡ (a + b + 1) / 2 }
{}

/// `pshufd` with the control 0xe4 moves nothing.
pub fn pairs_in_order_move_nothing()
    ensures { (i : ℕ) → move_source move_ops.Pshufd 0xe4 i ≡ Second 32 i }
{}

/// The low and the high unpacking together have each lane of both arguments once: in half h lane j of the low or the
/// high lanes stands at 2 * j, of the second argument at 2 * j + 1.
pub fn unpacked_lanes_stand_in_turn()
    ensures low_first { (l : LaneWidth) (k h j : ℕ) → j < lanes_in_half (bits l) / 2
        → move_source (move_ops.Punpckl l) k (lanes_in_half (bits l) * h + 2 * j)
        ≡ First (bits l) (lanes_in_half (bits l) * h + j) }
    ensures low_second { (l : LaneWidth) (k h j : ℕ) → j < lanes_in_half (bits l) / 2
        → move_source (move_ops.Punpckl l) k (lanes_in_half (bits l) * h + (2 * j + 1))
        ≡ Second (bits l) (lanes_in_half (bits l) * h + j) }
    ensures high_first { (l : LaneWidth) (k h j : ℕ) → j < lanes_in_half (bits l) / 2
        → move_source (move_ops.Punpckh l) k (lanes_in_half (bits l) * h + 2 * j)
        ≡ First (bits l) (lanes_in_half (bits l) * h + (lanes_in_half (bits l) / 2 + j)) }
    ensures high_second { (l : LaneWidth) (k h j : ℕ) → j < lanes_in_half (bits l) / 2
        → move_source (move_ops.Punpckh l) k (lanes_in_half (bits l) * h + (2 * j + 1))
        ≡ Second (bits l) (lanes_in_half (bits l) * h + (lanes_in_half (bits l) / 2 + j)) }
{}

/// `pshufb` gives zero where its byte's highest bit is set, and else the byte that its low four bits number; of the
/// leaves 0 is that byte and 1 to 16 are the bytes of the half. `pmovmskb` gives the highest bits of its bytes.
pub fn chains_give_a_byte_and_a_mask()
    ensures byte { (leaves : ℕ → ℕ) (w k : ℕ) → value leaves (vector_expr ops.Pshufb w k)
        ≡ choice (cut (leaves 0) 7 1) 0 (leaves (1 + cut (leaves 0) 0 4)) }
    ensures mask { (leaves : ℕ → ℕ) (k : ℕ) → value leaves (vector_expr ops.Pmovmskb 256 k) ≡ tops leaves 32 }
    ensures half_mask { (leaves : ℕ → ℕ) (k : ℕ) → value leaves (vector_expr ops.Pmovmskb 128 k) ≡ tops leaves 16 }
{}
