//! Combinations of linear forms modulo 2^w, from 1 to 64 bits.
//!
//! `combines` tells exactly whether a form is the sum of others, each times a weight, and `solve` finds
//! such weights, or tells that there are none. For example at 8 bits the form `2a` is no multiple of
//! `4a`, and `4a` is 2 times `2a`.
#![tactic(auto)]

mod combining;
mod elimination;
mod inverse;
pub mod laws;
mod matrix_row;
mod pivot;
mod places;
mod solving;

pub use combining::combines;
pub use solving::solve;
