//! What is compared.
use crate::admission::Admission;
use insn_table::Function;

/// Two functions, and the start states from which they are to do the same.
#[derive(Drop)]
pub struct Pair {
    pub left: Function,
    pub right: Function,
    pub admission: Admission,
}
