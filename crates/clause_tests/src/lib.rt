//! Tests of the clauses of duties, and nothing else: lists that are written by hand from the rules, one clause a line.
#![tactic(auto)]

#[cfg(test)]
mod bytes;
#[cfg(test)]
mod duties;
#[cfg(test)]
mod trial;
