//! Admissions, line by line.
use crate::expr::Expr;
use align_base::Word;
use insn_ops::Output;
use sqlite_items::Items;

/// How two values are compared.
#[derive(Clone, Copy, Debug, PartialEq, Eq)]
pub enum Rel {
    Eq,
    Ne,
    /// Below, unsigned.
    Lt,
    /// At most, unsigned.
    Le,
    /// Below, signed.
    Slt,
    /// At most, signed.
    Sle,
}

/// What the entry registers must meet.
#[derive(Drop)]
pub enum Need {
    /// The two values stand in this relation.
    Compare { a: Expr, rel: Rel, b: Expr },
    /// The value leaves `r` when divided by `m`, a power of two.
    Modulo { a: Expr, m: u64, r: u64 },
}

/// A region of memory: `len` bytes from `base` on, which may be read, and written where `write` is.
#[derive(Drop)]
pub struct RegionLine {
    pub name: Word,
    pub base: Expr,
    pub len: Expr,
    pub write: bool,
}

/// An admission: its regions, needs, pairs of regions (by number) that share no byte, scratch memory
/// (bases and lengths), the number of stack bytes, and the live outputs.
#[derive(Drop)]
pub struct Admission {
    pub regions: Items<RegionLine>,
    pub needs: Items<Need>,
    pub aparts: Items<(u32, u32)>,
    pub scratch: Items<(Expr, Expr)>,
    pub stack: u64,
    pub live: Items<Output>,
}
