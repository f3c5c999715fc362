//! Literals and clauses, which refutations are made of: what an assignment meets (`specs/Assignments.antt`),
//! and resolvents (`specs/Resolvents.antt`). It knows no nodes. No command uses it yet.
//!
//! For example `x or y` and `not x or z` have on `x` the resolvent `y or z`: an assignment that meets both
//! meets it too, by `laws::resolvents_are_met`.
#![tactic(auto)]

mod clause;
pub mod laws;

pub use clause::{Clause, Lit};
