//! What the general instructions compute, and the flags that they set, in words of machine code.
//!
//! `scalar`, `flags` and `holds` are the definitions `computed`, `flags_after` and `cond_of` of
//! `insn_semantics`, run: for every width from 1 to 64 bits, and without a division. None of
//! them takes memory. The arithmetic of words that they stand on serves the operations on vectors too.
//!
//! For example `scalar(Op::Add, 8, 0xff, 1)` is 0, the sum of two bytes; `flags(Op::Add, 8, 0xff, 1, before)`
//! has the carry and the zero flag set, so `holds(Cond::B, ..)` of them is `Some(true)`.
#![tactic(auto)]

mod conds;
mod flag_rules;
mod rows;
mod words;

pub use conds::holds;
pub use flag_rules::flags;
pub use rows::scalar;
pub use words::{
    low_bits, word_add, word_mul, word_not, word_sar, word_shl, word_shr, word_sub, word_sx,
};
