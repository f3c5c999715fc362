//! Refutations and the trees that they stand in, as data: what each step says, and which step a tree
//! begins with. Nothing here judges a step. No command uses it yet.
//!
//! ```text
//! let shown = Refutation { steps };            // of `Step`s, six kinds
//! let tree = Tree::Leaf(shown);                // or a split, with a child for each relation
//! ```
#![tactic(auto)]

mod step;
mod tree;

pub use step::{Refutation, Step};
pub use tree::Tree;
