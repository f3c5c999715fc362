//! Cuts a text into lines, labels and statements, and says why texts are refused.
//!
//! `items_in(alloc, b"f: ret # done\n")` is the label `f` and the statement `ret`, both on line 1, and the
//! number of lines: exactly the items that `specs/Lines.antt` says of a text, in their order. `wrong_line`
//! and `long_line` find what is wrong with a text as a text. `Labels` and `specs/Statements.antt` are what
//! a reader of single statements is given, and owes.
#![tactic(auto)]

mod cuts;
mod faults;
mod items;
mod labels;
mod refusal;
mod words;

pub use cuts::{first_line, visible_part};
pub use faults::{long_line, wrong_line};
pub use items::{Item, items_in};
pub use labels::Labels;
pub use refusal::{ReadKind, ReadRefusal, saturated};
pub use words::{
    behind_blanks, is_blank, is_digit, is_name, is_name_byte, is_name_start, split_word, trim,
};
