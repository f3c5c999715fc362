//! The names of registers, from and to their numbers: general ones of 8 to 64 bits, vectors of 128 and
//! 256.
//!
//! `register_named(b"r10d")` is width 32 and number 10, and `name_of(32, 10)` is `r10d`.
//! specs/Names.antt has the one table of names; `names_are_read` says that each stands for one
//! register, and is read as this.
#![tactic(auto)]

mod laws;
mod names;
mod reading;

pub use laws::names_are_read;
pub use names::{name_of, register_name};
pub use reading::{register_named, register_number};
