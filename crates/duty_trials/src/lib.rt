//! Duties for tests and benches: sheets of nodes that are tried before they are built, with the pairs of their bytes of
//! memory, and duties over them that are known to be whole.
//!
//! `Trial::of` takes any nodes, and refuses one that may not stand there. `Trial::duty` gives whole duties alone; it knows
//! those over sheets with at most one scratch line.
#![tactic(auto)]

mod building;
mod bytes;
mod trial;
mod whole;

pub use building::{Built, TrialFault, fits};
pub use trial::Trial;
