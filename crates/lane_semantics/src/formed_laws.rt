//! Laws of widths. The functions do nothing; their contracts are the laws.
ghost use Rattle.std.specs.Prelude.{ℕ};
ghost use Rattle.insn_ops.specs.declared.vector_op.VectorOp.{VectorOp};
ghost use Rattle.insn_semantics.specs.Formed.{IsFormedAt};
ghost use Rattle.lane_semantics.specs.FormedLanes.{leaf_bits};
ghost use Rattle.lane_semantics.specs.Sources.{HasBits};
ghost use Rattle.lane_semantics.specs.VectorRows.{IsVectorRow, result_bits, row_source, vector_expr};

/// What a row computes of each lane is formed, of the width of the result's lanes. Each of its leaves is a lane of
/// the width that it is formed over, or zero.
pub fn lanes_are_formed()
    ensures lanes { (op : VectorOp) (w k : ℕ) → IsVectorRow op w
        → IsFormedAt (λ j. leaf_bits op) (result_bits op) (vector_expr op w k) }
    ensures leaves { (op : VectorOp) (k i j : ℕ) → HasBits (leaf_bits op) (row_source op k i j) }
{}
