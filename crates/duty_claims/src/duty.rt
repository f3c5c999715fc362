//! What is to be shown of a sheet: that hypotheses lead to a goal.

use insn_ops::Side;
use terms::{NodeId, Sheet};

/// How the addresses of two accesses lie to each other.
#[derive(Clone, Copy, Debug, PartialEq, Eq)]
pub enum Relation {
    /// They share no byte.
    Apart,
    /// The second begins so many bytes behind the first.
    Offset(i8),
}

/// The relation of accesses `i` and `j`.
#[derive(Clone, Copy, Debug, PartialEq, Eq)]
pub struct Fixed {
    pub i: u32,
    pub j: u32,
    pub rel: Relation,
}

/// An access to memory: its side, its address, how many bytes it has, and whether it writes.
#[derive(Clone, Copy, Debug, PartialEq, Eq)]
pub struct Access {
    pub side: Side,
    pub at: NodeId,
    pub bytes: u32,
    pub write: bool,
}

/// The node or the edge of a product that a sheet belongs to, by number.
#[derive(Clone, Copy, Debug, PartialEq, Eq)]
pub enum Spot {
    Node(u32),
    Edge(u32),
}

/// What a duty shows.
#[derive(Clone, Copy, Debug, PartialEq, Eq)]
pub enum Kind {
    /// Some edge leads on.
    Cover,
    /// Both sides fault along the edge, or neither does.
    Faults,
    /// Invariant number `.0` of the target holds.
    Keep(u32),
    /// Live output number `.0` is the same on both sides.
    Live(u32),
    /// The memories are the same.
    Memory,
    /// The relations of two accesses cover all cases.
    Cases,
    /// A fact on the way.
    Lemma,
}

/// Where a duty stands, and what it shows.
#[derive(Clone, Copy, Debug, PartialEq, Eq)]
pub struct DutyName {
    pub spot: Spot,
    pub kind: Kind,
}

/// Two bytes of memory `m` and `n`, the node that their addresses are equal, and where they are of
/// different sides the node that the address lies in a scratch line.
#[derive(Clone, Copy, Debug, PartialEq, Eq)]
pub struct StartPair {
    pub m: NodeId,
    pub n: NodeId,
    pub same_at: NodeId,
    pub scratch: Option<NodeId>,
}

/// Goals, one of which is to be 1 in every environment in which all hypotheses are.
#[derive(Clone, Copy)]
pub struct Duty<'a> {
    pub sheet: &'a Sheet,
    pub hyps: &'a [NodeId],
    pub goal: NodeId,
    pub name: DutyName,
    /// Further goals: the goal or one of these has to be 1.
    pub more: &'a [NodeId],
    /// Each two bytes of memory of the sheet, in order.
    pub pairs: &'a [StartPair],
    /// Base and length of each scratch line.
    pub scratch: &'a [(NodeId, NodeId)],
}
