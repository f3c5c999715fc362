//! Plain functions, the short form of `decide`: 64-bit moves, sums and differences, and one return.
//!
//! `first_unplain` tells where a function is not plain. `compare` tells of two plain functions that they
//! are equivalent within a bound, or from which start state they return with different `%rax`: each
//! leaves a sum of the entry registers there. The laws say how plain functions end.
//!
//!     match compare(left.insns.as_slice(), right.insns.as_slice()) {
//!         Verdict::Equivalent(bound) => ..
//!         Verdict::Different(counterexample) => ..
//!     }
#![tactic(auto)]

mod laws;
mod plainness;
mod sums;
mod verdict;

pub use laws::{plain_functions_agree, plain_functions_are_closed, plain_functions_return};
pub use plainness::first_unplain;
pub use verdict::{Counterexample, Ending, Verdict, compare};
