//! Tests of nodes, sheets, forms and systems of forms, and nothing else: tables of nodes that are built
//! one after another, whose numbers are worked by hand from the rules, and tables of weighted sums.
#![tactic(auto)]

#[cfg(test)]
mod building;
#[cfg(test)]
mod evaluation;
#[cfg(test)]
mod forms;
#[cfg(test)]
mod systems;
#[cfg(test)]
mod trial;
#[cfg(test)]
mod values;
