//! What the clauses of a duty say: the assignments that meet them are those that read an environment that breaks the
//! duty. So a duty is true exactly where no assignment meets its clauses.
//!
//! `laws` proves both directions and what follows of them. For an environment the bits of each node are written down
//! node by node, and the helpers that its row asks for. For an assignment the registers are read off their nodes, and
//! the byte of a side at an address off the first byte of memory in the reach that has the address, of those of the
//! side and of those outside the scratch lines (`specs/ReadEnvironment.antt`). It knows no code of clauses. No command
//! uses it yet.
#![tactic(auto)]

pub mod laws;
