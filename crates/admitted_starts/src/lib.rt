//! The start states of the machine that an admission admits.
//!
//! The entry registers decide which they are: they say all of an admitted start state but its vectors
//! and its memory, which are free (`admitted_starts_law`).
#![tactic(auto)]

mod laws;

pub use laws::admitted_starts_law;
