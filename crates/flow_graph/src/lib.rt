//! The flow graph of a function: where control goes from each instruction, whatever the flags.
//!
//! `graph` makes the graph of a closed function. Its heads are the targets of backward jumps, and its
//! cut points the entry, the heads and the returns, each in order and once. `is_path` says whether
//! places follow one another in the flow.
//!
//!     let graph = graph(alloc, &function)?;
//!     for place in graph.cuts() {
//!         ..
//!     }
#![tactic(auto)]

mod building;
mod control;
mod graphs;

pub use building::graph;
pub use control::Flow;
pub use graphs::Graph;
