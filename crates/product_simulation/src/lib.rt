//! The law by which a product of two functions makes them equivalent within a bound.
//!
//! Where ranks fall and every two related states have a way on, the two functions of the machine are
//! equivalent within the number of nodes times the longest path. The crate has laws alone: functions
//! that do nothing, whose contracts a caller gets by calling them.
//!
//! ```text
//! if product.ranks_fall() {
//!     simulation_law(&left, &right, &live, &product);
//!     // now the proof knows: where edges lead on, left and right are equivalent within bound_of
//! }
//! ```
#![tactic(auto)]

mod examples;
mod laws;

pub use examples::{falling_ranks_law, longest_path_law, nodes_count_law};
pub use laws::{chain_law, no_way_law, simulation_law};
pub use product_automaton::cycle_law;
