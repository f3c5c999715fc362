//! Names that the layers share and that have no meaning of their own: the operations of the
//! instruction table with their conditions, the flags, and of a comparison its two sides and what is
//! compared at the end. What an operation computes is said in `insn_semantics` and `lane_semantics`.
#![tactic(auto)]

mod op;
mod output;
mod side;
mod vector_op;

pub use op::{Cond, Flags, Op};
pub use output::Output;
pub use side::Side;
pub use vector_op::{LaneOp, LaneWidth, MoveOp, VectorOp};
