//! Tests of `certificate_file`, which stand here so that the crate is proved once.
#![tactic(auto)]

#[cfg(test)]
mod texts;
