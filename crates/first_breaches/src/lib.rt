//! Rules in order, each kept or broken at places, and the first breach of them: definitions and their
//! laws alone (`specs/Breaches.antt`). It knows no rule.
#![tactic(auto)]
