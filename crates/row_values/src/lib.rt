//! What the row of a node says, once over all operators: the number of the node's bits is what its operator makes of
//! the numbers of its arguments. And which variables it speaks of: the node's own bits and helpers, and its arguments'
//! bits.
//!
//! `specs/RowValues.antt` has both statements, `laws` proves them. It knows no sheet and no duty. No command uses it yet.
#![tactic(auto)]

pub mod laws;
