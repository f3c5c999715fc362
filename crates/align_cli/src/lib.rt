//! The commands of `align`, and `align_main`, which does all that the program does.
//!
//! Its contract says of every status what it means of the files that the arguments name. Each command
//! has a file of definitions (`specs/Decide.antt`, `Run.antt`, `Show.antt`), rows in `Commands.antt`, and
//! a function that ends in an answer; which arguments it is says `command_line`. Each kind of file has
//! rows in `Files.antt`. The clauses of `align_main` are the same for all.
//!
//!     let status = align_main(&rt, alloc, arguments, &OpenGate, &mut shelf, &mut out);
#![tactic(auto)]

mod answer;
mod decide;
mod files;
mod laws;
mod run;
mod show;
mod top;

pub use laws::reports_are_one;
pub use top::align_main;
