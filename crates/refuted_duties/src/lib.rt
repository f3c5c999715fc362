//! When a refutation is accepted for a duty (`specs/Refuted.antt`), and that the duty is then true (`laws`): an
//! environment that breaks it would be read by an assignment that meets its clauses, from which no accepted steps
//! start. Nothing here computes. No command uses it yet.
#![tactic(auto)]

pub mod laws;
