//! Nodes of bit-vector expressions, by their operator and the numbers of their arguments.

use insn_ops::Side;

/// The number of a node in its sheet.
#[derive(Clone, Copy, Debug, PartialEq, Eq, PartialOrd, Ord, Hash)]
pub struct NodeId(pub u32);

/// A node: a word of 1 to 64 bits, by an operator on the words of nodes before it.
///
/// `Node::Add(NodeId(0), NodeId(1))` is the sum of the first two nodes of a sheet, modulo 2^w where
/// both have w bits.
#[derive(Clone, Copy, Debug, PartialEq, Eq)]
#[derive_where(Hash)]
pub enum Node {
    /// The number `v`, of `w` bits.
    Const {
        w: u32,
        v: u64,
    },
    /// A general register of a side, of 64 bits.
    Reg {
        #[derive_where(skip(Hash))]
        side: Side,
        n: u8,
    },
    /// A general register at the entry, of 64 bits.
    Entry {
        n: u8,
    },
    /// Byte `i` of a vector register of a side.
    VecByte {
        #[derive_where(skip(Hash))]
        side: Side,
        n: u8,
        i: u8,
    },
    /// The byte of a side's memory at an address.
    Start {
        #[derive_where(skip(Hash))]
        side: Side,
        at: NodeId,
    },
    /// One more number of 64 bits.
    Probe,
    /// Sum, difference and product.
    Add(NodeId, NodeId),
    Sub(NodeId, NodeId),
    Mul(NodeId, NodeId),
    /// Bit by bit.
    And(NodeId, NodeId),
    Or(NodeId, NodeId),
    Xor(NodeId, NodeId),
    Not(NodeId),
    /// Shifts by a number: to the left, to the right with zeros, to the right with the sign.
    Shl(NodeId, u32),
    Shr(NodeId, u32),
    Sar(NodeId, u32),
    /// The first argument's bits in front of the second's.
    Cat(NodeId, NodeId),
    /// The `.2` bits from bit `.1` on.
    Cut(NodeId, u32, u32),
    /// To `.0` bits by the sign.
    Sx(u32, NodeId),
    /// Comparisons, of 1 bit: equal, below, and below by the sign.
    Eq(NodeId, NodeId),
    Ult(NodeId, NodeId),
    Slt(NodeId, NodeId),
    /// The second argument where the first is 1, else the third.
    If(NodeId, NodeId, NodeId),
}
