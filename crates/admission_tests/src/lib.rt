//! Admissions read from text, and what they admit. It has tests alone.
#![tactic(auto)]

#[cfg(test)]
mod tests;
