//! Addresses on a sheet: their difference, and whether they are equal, built from their linear forms.
//!
//! Addresses that share a base differ by a constant, so their difference is a constant node and their
//! equality is decided when it is built; all equalities of two bases share one difference. For example
//! the equality of `a + 8` and `b + 3` is that `a - b` is 2^64 - 5. `specs/Differences.antt` says which
//! nodes are built.
#![tactic(auto)]

mod difference;
mod form;
mod sums;

pub use difference::{address_difference, address_equality};
pub use sums::{exponent_of, multiple};
