//! Instructions and functions as text.
//!
//! `insn_text` gives the text of an instruction in GNU AT&T syntax, and `show_text` all lines of a
//! function with its cut points marked. Both give exactly the bytes that the definitions say.
//!
//!     let text = insn_text(alloc, &insn)?;    // addl (%rdi,%rcx,4),%eax
//!
//! Mnemonics are those of `insn_mnemonics`.
#![tactic(auto)]

mod insns;
mod laws;
mod operands;
mod show;

pub use insns::insn_text;
pub use laws::operands_are_read_back;
pub use show::show_text;
