//! An admission's expressions as nodes over the entry registers.
//!
//! A term is a number, or a number times an entry register: the register itself, a shift to the left, or
//! a product. `specs/Expressions.antt` says which nodes are built.
#![tactic(auto)]

mod expression;

pub use expression::{multiple_of, multiple_of_register, with_term};
