//! Tests of the reader of function text. Expected values follow from the rules by hand.
//!
//! Whole texts go through `att_reader::read_function`, and a statement through `att_statements::statement`;
//! there is nothing else here.
#![tactic(auto)]

#[cfg(test)]
mod faults;
#[cfg(test)]
mod limits;
#[cfg(test)]
mod lines;
#[cfg(test)]
mod reading;
#[cfg(test)]
mod single;
#[cfg(test)]
mod statements;
