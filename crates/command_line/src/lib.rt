//! The arguments of the command line.
//!
//! `command_of` answers with the command that the arguments are, if they are one. It first decides by
//! the rules whether they are one; then a parser of `clap` reads the values.
//!
//! ```text
//! let command = command_of(alloc, arguments)?;
//! ```
#![tactic(auto)]

mod command;
mod line;
mod number;
mod parser;
mod read;

pub use command::{Command, FunctionArguments, RunArguments};
pub use read::{command_law, command_of};
