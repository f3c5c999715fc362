//! What is read of operands.
use insn_table::Operand;

/// An operand, whether its number is out of the range of immediates, and whether it is a label that
/// leads nowhere.
#[derive(Clone, Copy, Debug, PartialEq, Eq)]
pub(crate) struct Part {
    pub operand: Operand,
    pub beyond: bool,
    pub lost: bool,
}

/// The four operands of a statement, whether a number is out of the range of immediates, and whether a
/// label leads nowhere.
#[derive(Clone, Copy, Debug, PartialEq, Eq)]
pub(crate) struct Operands {
    pub args: [Operand; 4],
    pub beyond: bool,
    pub lost: bool,
}
