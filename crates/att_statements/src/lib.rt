//! Reads single statements of GNU AT&T text: the instruction that one is, or the first kind of fault
//! that it has.
//!
//! `statement(b"movl 8(%rdi,%rcx,4), %eax", 3, &labels)` is the 32-bit move on line 3 from memory to
//! eax, and `statement(b"jne .L2", 4, &labels)` a jump to the place that `labels` says of `.L2`. What
//! numbers, operands and statements are is said in specs/Operands.antt and specs/Statements.antt by what
//! stands where in a text; `statements_are_read` is the law that the answers are right.
#![tactic(auto)]

mod cuts;
mod laws;
mod memory;
mod numbers;
mod operand;
mod part;
mod registers;
mod statements;

pub use laws::statements_are_read;
pub(crate) use part::{Operands, Part};
pub use statements::statement;
