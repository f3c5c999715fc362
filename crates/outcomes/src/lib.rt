//! How a call can end: with the error of a call that found no memory (`Memory`), or, of items that are
//! read one after another, with the first fault among them (`specs/Firsts.antt`). It knows no text and
//! no machine.
#![tactic(auto)]

mod memory;

pub use memory::Memory;
