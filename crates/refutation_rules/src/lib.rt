//! The rules of refutations: what each of the six kinds of step asks for and what it adds (`specs/Steps.antt`), and
//! which list of steps is accepted (`specs/Judging.antt`). By `laws` each step that is obeyed adds what holds, so
//! accepted steps over clauses that an assignment meets are impossible. Nothing here computes. No command uses it yet.
//!
//! For example from a unit clause that `a` equals `b`, a step may derive that `a + c` equals `b + c`, since the
//! difference of their forms is that of `a` and `b`.
#![tactic(auto)]

mod equation;
pub mod laws;

pub use equation::Equation;
