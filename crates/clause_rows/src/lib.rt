//! The clauses of a duty, by which a refutation or an environment that breaks it is looked for.
//!
//! Only nodes of the duty's reach have variables (`specs/Reach.antt`, `specs/Numbering.antt`): those that its
//! hypotheses and goals need, and those that say of two needed bytes of memory whether they have one address.
//! `clauses` gives the rows of the nodes, the rows of pairs of bytes, the hypotheses, and the goals negated
//! (`specs/DutyClauses.antt`); `number_variables` says which variables the nodes have. What the clauses are to say of
//! environments stands in `specs/Readings.antt`. No command uses it yet.
#![tactic(auto)]

mod duty_clauses;
pub mod laws;
mod numbering;
mod reach;
mod same_row;

pub use duty_clauses::clauses;
pub use numbering::{Numbering, number_variables};
pub use same_row::push_same;
