//! Traces: what a run of a function did, step by step, and at which steps of two traces an alignment
//! matches them.
//!
//! `trace` runs a function from a state to its end. It gives the places of the steps, and the visits of
//! the heads of the function's flow graph, with the registers and vectors that the steps there found.
//!
//!     let graph = graph(alloc, &function)?;
//!     let trace = trace(alloc, &function, &graph, &start, 20_000)?;
//!     for visit in &trace.visits {
//!         ..
//!     }
//!
//! That matched visits are what they are is said by definitions alone (`specs/Matching.antt`).
#![tactic(auto)]

mod alignments;
mod laws;
mod recording;
mod traces;
mod tracing;

pub use alignments::{Alignment, Equation};
pub use laws::{matching_law, path_of_run_law};
pub use recording::Visit;
pub use traces::{Trace, TraceRefusal};
pub use tracing::trace;
