//! The machine that runs functions, one step at a time.
//!
//! A `State` has registers, flags, vectors, spans of memory, regions with their rights, declared stack
//! bytes and a place. `step` and `run` do what the definitions of the step say, from every state: an
//! access that no region allows faults, and a flag that is read while it is unset ends the run.
//! `first_difference` compares two returned states. The laws say what holds of every step and run:
//! ranges, what stays as it was, and how a run under the tests follows the free run.
//!
//!     let mut state = State::new(regs, vecs, spans, regions, stack);
//!     match state.run(&function, 1_000) {
//!         RunEnd::Returned(steps) => ..
//!         RunEnd::Faulted(step) | RunEnd::Unset(step) => ..
//!         RunEnd::Running => ..
//!     }
#![tactic(auto)]

mod difference;
mod laws;
mod operands;
mod ranges;
mod state;
mod vector_access;
mod vectors;

pub use difference::{Difference, difference_law};
pub use laws::{path_law, run_law, state_law, step_frame_law, way_law};
pub use memory_spans::{Region, Span, memory_law};
pub use runs::{RunEnd, StepEnd};
pub use state::State;
