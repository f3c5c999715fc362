//! Finds the body of a function among the items of a text, and where its labels lead.
//!
//! `extent(b"f", items)` is the body of `f` and what stands behind it, exactly as `specs/Body.antt` says;
//! `BodyLabels::of(alloc, body)` are its labels, kept in an ordered map: `target(b".L2")` is the place of
//! the instruction that a jump to `.L2` goes to. What a function is and why a text is refused is in
//! `specs/Faults.antt` and `specs/Functions.antt`, over any reader of single statements; the laws on these
//! are in `proofs/BodyLaws.antt`.
#![tactic(auto)]

mod body;
mod labels;

pub use body::{extent, is_data, is_directive, last_line, leaves};
pub use labels::BodyLabels;
