//! Products of two functions: pairs of places where both runs may stand, and edges along which both
//! go on. What they are, how long their paths are, and when no cycle stands still on a side.
//!
//! ```text
//! if product.ranks_fall() {
//!     let steps = product.bound();    // the number of nodes times the longest path
//! }
//! ```
//!
//! `ranks_fall` answers true exactly where ranks fall along every edge with an empty path on that
//! side; `bound` and `compose` give exactly the numbers that their definitions in specs/ say. By
//! `cycle_law` no cycle stands still on a side where ranks fall.
#![tactic(auto)]

mod chains;
mod invariants;
mod laws;
mod paths;
mod product;
mod ranks;
mod rules;
mod well_formed;

pub use chains::compose;
pub use laws::cycle_law;
pub use product::{Atom, Bound1, Invariant, PEdge, PNode, Product};
pub use rules::{Breach, Rule};
