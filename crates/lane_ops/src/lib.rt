//! What the operations on vector registers compute, in words of machine code.
//!
//! `vector` is the definition `vector_of` of `lane_semantics`, run: for every operation, width, immediate and
//! bytes. It goes once over the lanes of the result, and takes no memory.
//!
//! For example `vector(VectorOp::Lanewise(LaneOp::Padd(LaneWidth::Byte)), 128, 0, &a, &b)` has at each of its 16
//! low bytes the sum of the bytes of `a` and `b` there, and zeros above.
//!
//! `scalar`, `flags` and `holds` are those of `scalar_ops`, so that what instructions compute of lanes and of
//! words is called from here.
#![tactic(auto)]

mod lanes;
mod lanewise;
mod moves;
mod rows;
mod saturation;
mod sums;
mod widths;

pub use lanes::vector;
pub use rows::is_vector_row;
pub use scalar_ops::{flags, holds, scalar};
