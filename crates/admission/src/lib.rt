//! What an admission says: which start states of a function are looked at, and what is compared at its end.
//!
//! An admission names regions of memory, what the entry registers must meet, scratch memory, stack
//! bytes and live outputs. `admits` tells of entry registers whether a start state with them is
//! admitted; this depends on the entry registers alone.
//!
//! ```text
//! if admission.admits(&regs) {
//!     let first = admission.region_at(&regs, 0);
//! }
//! ```
#![tactic(auto)]

mod admission;
mod expr;
mod meaning;
mod pair;
mod refusal;

pub use admission::{Admission, Need, RegionLine, Rel};
pub use expr::{Expr, Term};
pub use insn_ops::Output;
pub use memory_spans::Region;
pub use pair::Pair;
pub use refusal::AdmitRefusal;
pub use sqlite_items::Items;
