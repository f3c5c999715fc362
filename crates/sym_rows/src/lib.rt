//! What general instructions make of nodes: the node of a row, of a flag and of a condition.
//!
//! Each is the node of its expression in the semantics of instructions, built operator by operator, so that it has
//! the expression's value in every environment.
#![tactic(auto)]

mod building;
pub mod conditions;
pub mod flags;
pub mod laws;
pub mod lazy_flags;
pub mod operands;
pub mod rows;
