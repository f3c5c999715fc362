//! Which nodes of a sheet some nodes need: themselves, their arguments, theirs, and so on.
//!
//! For example the sum of a register and a constant needs three nodes. `specs/Reached.antt` says it of a list of nodes.
//! No command uses it yet.
#![tactic(auto)]

mod reach;

pub use reach::needed;
