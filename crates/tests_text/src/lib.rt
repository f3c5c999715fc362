//! Reads tests from JSON.
//!
//! `read_tests` answers with the tests that a file spells, registers and vectors that are not named
//! with their defaults, or with the first fault.
//!
//! ```text
//! let tests = read_tests(alloc, b"{\"tests\":[{\"regs\":{\"rsi\":4}}]}")?;
//! ```
#![tactic(auto)]

mod laws;
mod memory;
mod read;
mod refusal;
mod register;
mod shape;
mod test;
mod vector;

pub use laws::tests_have_one_meaning;
pub use read::read_tests;
pub use refusal::TestRefusal;
pub use test::{Test, Tests};
