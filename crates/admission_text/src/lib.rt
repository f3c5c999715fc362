//! Reads admissions from text.
//!
//! `read_admission` answers with the admission that a text spells, and with the first fault of a text
//! that spells none.
//!
//! ```text
//! let admission = read_admission(alloc, b"admit 1\nregion a %rdi 16 read\nlive %eax\n")?;
//! ```
#![tactic(auto)]

mod cuts;
mod entry;
mod expr;
mod laws;
mod line;
mod read;
mod register;

pub use admission::AdmitRefusal;
pub use laws::admissions_have_one_meaning;
pub use read::read_admission;
