//! Sheets: lists of nodes over earlier ones, each once, that are built by rules.
//!
//! `Sheet::build` gives the number of a node that has, in every environment, the value of the node that
//! is asked for (`specs/Rules.antt` says which node it is, and `specs/Made.antt` what becomes of the
//! sheet). `Sheet::eval` and `Sheet::form` give values and linear forms. An expression over words is built
//! operator by operator (`specs/Building.antt`); by `expressions_have_their_values` its node has the
//! expression's value in every environment, and by `rows_have_their_values` so has the row of each general
//! operation.
//!
//! ```text
//! let mut sheet = Sheet::new(alloc);
//! let a = sheet.build(Node::Entry { n: 7 })?;
//! let b = sheet.build(Node::Const { w: 64, v: 0 })?;
//! sheet.build(Node::Add(a, b))?;    // is a
//! ```
#![tactic(auto)]

pub mod laws;
mod rules;
mod sheet;

pub use node_forms::Form;
pub use node_values::{Env, Node, NodeId};
pub use sheet::{Sheet, SheetFull};
