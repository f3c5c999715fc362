//! Duties: what is to be shown of the sheets that a comparison builds. It knows no clause, no refutation and
//! no product. No command uses it yet.
//!
//! `specs/` says when a duty is true and which environments break it (`Truth`), what a node needs (`Needs`),
//! and which duties are whole (`Whole`). For example the duty that both sides have the same byte at an
//! address is true without scratch lines, and broken by some environment where that byte is one
//! (`laws::bytes_at_one_address`).
#![tactic(auto)]

mod duty;
pub mod laws;

pub use duty::{Access, Duty, DutyName, Fixed, Kind, Relation, Spot, StartPair};
