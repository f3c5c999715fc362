//! Tests of the machine, and nothing else: runs of small functions and first differences of states,
//! whose expected values are worked by hand.
#![tactic(auto)]

#[cfg(test)]
mod conditions;
#[cfg(test)]
mod differences;
#[cfg(test)]
mod memory;
#[cfg(test)]
mod stack;
#[cfg(test)]
mod statements;
#[cfg(test)]
mod states;
#[cfg(test)]
mod stepping;
#[cfg(test)]
mod trials;
