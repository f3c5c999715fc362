//! Mnemonics of instructions, as they are printed.
//!
//! `push_mnemonic` appends the mnemonic of an operation: of those that spell it, the one with its
//! suffix and the first name of its condition. It names the instruction again (`mnemonics_name_shapes`).
//!
//!     push_mnemonic(&mut text, Op::Cmov(Cond::B), false, 64)?;    // cmovbq
//!
//! The mnemonic of a new row is a line in `specs/` and an arm in `src/`.
#![tactic(auto)]

mod general;
mod mnemonic;
mod vectors;

pub use mnemonic::{mnemonics_name_shapes, push_mnemonic};
