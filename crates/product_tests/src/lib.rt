//! Tests of `product_automaton`, which stand here so that the crate is proved once.
#![tactic(auto)]

#[cfg(test)]
mod rules;
#[cfg(test)]
mod tests;
