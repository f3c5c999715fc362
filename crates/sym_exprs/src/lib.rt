//! Expressions over words as trees, and their nodes.
//!
//! A tree is made of its parts by `leaf`, `number`, `two` and the others. `build_expr` builds it operator by operator, so
//! that its node is the one that `built` of `terms` says, and has the expression's value in every environment.
#![tactic(auto)]

mod build;
mod parts;
mod tree;

pub use build::build_expr;
pub use parts::{choice, cut, extended, joined, leaf, named, not, number, shifted, two};
pub use tree::{ExprTree, Operator, Shift};
