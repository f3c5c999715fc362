//! The types of a product of two functions.

use insn_ops::Side;
use sqlite_items::Items;

/// What an invariant speaks of.
#[derive(Clone, Copy, Debug, PartialEq, Eq)]
pub enum Atom {
    /// A general register of a side.
    Reg(Side, u8),
    /// A general register at the entry.
    Entry(u8),
    /// Lane `.2` of vector register `.1` of a side.
    Lane(Side, u8, u8),
}

/// One side of a comparison.
#[derive(Clone, Copy, Debug, PartialEq, Eq)]
pub enum Bound1 {
    Of(Atom),
    Num(u64),
}

/// A fact on two states, modulo 2^w.
#[derive(Debug, Drop)]
pub enum Invariant {
    /// The weighted sum of the terms and of `c` is 0.
    Lin {
        w: u32,
        terms: Items<(u64, Atom)>,
        c: u64,
    },
    /// `a` is below `b`, or equal to it where the comparison is not strict.
    Less {
        signed: bool,
        strict: bool,
        w: u32,
        a: Bound1,
        b: Bound1,
    },
}

/// A pair of places, one in each function, with the invariants of the states there, and its ranks.
#[derive(Debug, Drop)]
pub struct PNode {
    pub left: u32,
    pub right: u32,
    pub invs: Items<Invariant>,
    pub rank_left: u32,
    pub rank_right: u32,
}

/// A way on from one node to another: a path of places on each side, either of which may be empty.
#[derive(Debug, Drop)]
pub struct PEdge {
    pub from: u32,
    pub to: u32,
    pub left: Items<u32>,
    pub right: Items<u32>,
}

/// A product of two functions. Node 0 is the entry of both, node 1 the exit, which stands for both
/// having returned. Contracts see each list of it as a list.
#[derive(Debug, Drop)]
pub struct Product {
    pub nodes: Items<PNode>,
    pub edges: Items<PEdge>,
}
