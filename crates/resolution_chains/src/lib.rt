//! Chains of resolutions over numbered clauses: `is_chain` tells exactly whether a chain ends with the
//! literals that it lists (`specs/Chains.antt`), in time by the clauses that it names. It knows no node and no duty.
//! No command uses it yet.
//!
//! For example `x or y`, resolved on `x` with `not x or z` and on `y` with `not y or z`, is `z`.
#![tactic(auto)]

mod chain;
pub mod laws;
mod marks;

pub use chain::is_chain;
pub use marks::Marks;
