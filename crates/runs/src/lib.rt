//! Runs of steps over states of any type, and their laws.
//!
//! The definitions say what a step does, where a run of at most n steps has come to and how it has
//! ended, what it does along a path of places, and when two steps are equivalent within a bound. The
//! laws hold of every step on every type: what is over stays, a run is one of its parts after the
//! other, and a run under tests goes as the free run does until the first test that fails. A call
//! gives a proof the law at a type:
//!
//!     path_law::<Counter>();
//!
//! Where the state is a record of definitions alone, a proof cites the same lemmas.
#![tactic(auto)]

mod ends;
mod laws;

pub use ends::{RunEnd, StepEnd};
pub use laws::{path_law, run_law, way_law};
