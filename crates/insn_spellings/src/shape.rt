//! What a mnemonic says of an instruction.
use insn_ops::Op;

/// What the mnemonic of an instruction says: the operation, the width of its form in bits (0 where the
/// suffix is left out, and 64 where the form has none), and whether the form is a VEX one.
#[derive(Clone, Copy, Debug, PartialEq, Eq)]
pub struct Shape {
    pub op: Op,
    pub w: u32,
    pub vex: bool,
}
