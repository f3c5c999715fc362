//! Tests of flow graphs, traces and printed instructions, and nothing else: functions of text, whose
//! expected values are worked by hand.
#![tactic(auto)]

#[cfg(test)]
mod graphs;
#[cfg(test)]
mod shown;
#[cfg(test)]
mod starts;
#[cfg(test)]
mod texts;
#[cfg(test)]
mod traced;
