//! The row of a node: the clauses by which its bits are what its operator makes of the bits of its arguments.
//!
//! Each node has a variable for each of its bits, the lowest first, and behind them those of its helpers;
//! `specs/NodeRows.antt` says which row of `clause_words` a node has, and how many helpers. Inputs and bytes of
//! memory have none. No command uses it yet.
#![tactic(auto)]

mod node_row;

pub use node_row::{helper_count, push_node};
