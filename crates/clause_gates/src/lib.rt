//! Gates as clauses: AND, OR, NOT, a copy, XOR, the majority of three, and a choice.
//!
//! `specs/Gates.antt` lists the clauses of each gate; a `ClauseList` takes them in their normal form: literals
//! in order of variable, each once, and no clause with a literal and its negation (`specs/NormalForms.antt`).
//! By `laws` an assignment meets the clauses of a gate exactly where its output is the connective of its inputs.
//! No command uses it yet.
//!
//! For example the AND of `x` and `x` has the clauses `-r or x` (twice) and `r or -x`.
#![tactic(auto)]

mod gates;
pub mod laws;
mod list;

pub use gates::{negated, plain};
pub use list::ClauseList;
