//! The steps of a refutation.

use clauses::Lit;
use node_values::NodeId;
use sqlite_items::Items;

/// A step of a refutation. Clauses are named by number, from 1; a part of a combination is a
/// coefficient and a named equation: a unit clause by its number, or an earlier step by the negative
/// of its number.
#[derive(Debug, Drop)]
pub enum Step {
    /// A clause resolved in turn with others: each of `next` is a pivot and a clause. The result has
    /// the literals `lits`.
    Chain {
        lits: Items<Lit>,
        first: u32,
        next: Items<(u32, u32)>,
    },
    /// Two nodes are equal: the difference of their forms is the combination.
    Equal {
        i: NodeId,
        j: NodeId,
        parts: Items<(u64, i64)>,
    },
    /// Two nodes with one operator have equal arguments.
    Same {
        i: NodeId,
        j: NodeId,
        clause: u32,
    },
    /// An equality holds: the difference of its arguments is the combination.
    Holds {
        i: NodeId,
        parts: Items<(u64, i64)>,
    },
    /// An equality fails: the difference of its arguments is the combination and a constant other than 0.
    Fails {
        i: NodeId,
        parts: Items<(u64, i64)>,
    },
    /// Two equalities hold together: the difference of the first is `unit` times that of the second,
    /// and the combination.
    Both {
        i: NodeId,
        j: NodeId,
        unit: u64,
        parts: Items<(u64, i64)>,
    },
}

/// Steps, each from what stands before it.
#[derive(Debug, Drop)]
pub struct Refutation {
    pub steps: Items<Step>,
}
