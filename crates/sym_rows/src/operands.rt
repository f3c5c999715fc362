//! The nodes that a row, a flag and a condition are over.

use terms::NodeId;

/// The nodes that a general row names: the destination's old value, the source, and the condition. A row that
/// does not name one of them has any node there.
#[derive(Clone, Copy, Debug)]
pub struct RowNodes {
    pub destination: NodeId,
    pub source: NodeId,
    pub condition: NodeId,
}

/// The nodes that a flag is read off: the result, and the left and the right operand of the sum, the difference or
/// the shift.
#[derive(Clone, Copy, Debug)]
pub struct FlagNodes {
    pub result: NodeId,
    pub left: NodeId,
    pub right: NodeId,
}

/// The nodes of the flags that a condition reads. A condition that does not read one of them has any node of one
/// bit there.
#[derive(Clone, Copy, Debug)]
pub struct ConditionNodes {
    pub carry: NodeId,
    pub parity: NodeId,
    pub zero: NodeId,
    pub sign: NodeId,
    pub overflow: NodeId,
}

/// A flag.
#[derive(Clone, Copy, Debug)]
pub enum Flag {
    Carry,
    Parity,
    Zero,
    Sign,
    Overflow,
}
