//! The law that a printed instruction is read as itself again.
//!
//! The text that `insn_text` gives of an instruction that was read, put as a line of its own into a
//! function, is read as that instruction: nothing is lost but its line and what an immediate has above
//! the instruction's width. The crate has this law alone: a function that does nothing, whose contract a
//! caller gets by calling it.
//!
//! ```text
//! printed_instructions_are_read_back();
//! // now the proof knows: each instruction of a function that was read, a jump's aside, IsReadBack
//! ```
#![tactic(auto)]

mod law;

pub use law::printed_instructions_are_read_back;
