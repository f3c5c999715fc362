//! Trees of splits, with refutations at their leaves.

use crate::step::Refutation;
use duty_claims::Relation;
use sqlite_items::Items;

/// How a duty is shown: at once, or for each way in which two accesses can lie to each other.
#[derive(Debug, Drop)]
pub enum Tree {
    /// By a refutation.
    Leaf(Refutation),
    /// Accesses `i` and `j` have one of the relations `rels`, by `proof`; under each the child of its
    /// place shows the duty.
    Split {
        i: u32,
        j: u32,
        rels: Items<Relation>,
        proof: Refutation,
        kids: Items<Tree>,
    },
}
