//! Alignments: which visits of two functions match each other.

/// The equation `a*x = b*y + k*e + c` modulo 2^64 between general register `x` of the left function,
/// general register `y` of the right one, and a general register `e` of the entry. `k` is -1 where the
/// bool is true, and else 1.
#[derive(Clone, Copy, Debug, PartialEq, Eq)]
pub struct Equation {
    pub a: u64,
    pub x: u8,
    pub b: u64,
    pub y: u8,
    pub e: Option<(u8, bool)>,
    pub c: u64,
}

/// How visits of two traces match: by an equation, or not at all.
#[derive(Clone, Copy, Debug, PartialEq, Eq)]
pub struct Alignment {
    pub equation: Option<Equation>,
}
