//! Nodes: words of 1 to 64 bits, each made by an operator from the words of nodes before it, and what
//! they are in an environment of registers, vectors, memories and a probe.
//!
//! `specs/` says what the nodes are (`Nodes`), their values (`Values`), and the widths and values along
//! a list of nodes (`Sheets`). For example in the list `Entry(7)`, `Const { w: 64, v: 8 }`,
//! `Add(0, 1)` the value of node 2 is what register 7 was at the entry, plus 8, modulo 2^64. `width`,
//! `operate` and `Env::value` compute widths and values.
#![tactic(auto)]

mod env;
mod node;
mod operation;

pub use env::{Both, Env};
pub use node::{Node, NodeId};
pub use operation::{arguments, operate, width};
