//! Reads functions from GNU AT&T text.
//!
//! `read_function(alloc, text, &name)` is the function of that name which a text spells, or the text's
//! first fault with its line: both exactly as `specs/FunctionText.antt` says, and every function that is
//! read is closed. For example, `read_function(alloc, b"f:\n ret\n", &f)` has one instruction, on line 2,
//! and `read_function(alloc, b"f:\n jmp .L9\n", &f)` is refused on line 2, as the label is unknown.
#![tactic(auto)]

mod body;
mod laws;
mod text;

pub use laws::texts_have_one_meaning;
pub use text::read_function;
pub use text_lines::{ReadKind, ReadRefusal};
