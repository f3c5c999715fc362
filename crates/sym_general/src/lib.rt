//! What a general instruction makes of nodes: the word that it writes, its condition, and the flags that it leaves.
//!
//! `apply_general` is given the nodes of the operands that the row names, in the order in which it names them: the
//! destination and then the source, of a move by condition the source and then the old destination; the count of a shift
//! is a constant. What it builds is said in `specs/Applied.antt`, and what that is worth in `specs/Results.antt`.
#![tactic(auto)]

mod apply;
mod conditions;
mod effects;
mod laws;
mod operands;
mod rows;
mod types;

pub use apply::apply_general;
pub use laws::runnable_rows_have_widths;
pub use types::{SymArgs, SymRefusal, SymResult};
