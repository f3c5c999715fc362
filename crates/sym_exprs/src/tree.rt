//! Trees of expressions.

/// An operator on two words of one width; the last three answer one bit.
#[derive(Clone, Copy, Debug, PartialEq, Eq)]
pub enum Operator {
    Plus,
    Minus,
    Times,
    And,
    Or,
    Xor,
    Equal,
    Below,
    SignedBelow,
}

/// How a word is shifted.
#[derive(Clone, Copy, Debug, PartialEq, Eq)]
pub enum Shift {
    Left,
    Right,
    Signed,
}

/// An expression over words, as `Expr` of the semantics of instructions: a leaf by its number; a number of w bits; two
/// arguments of w bits; a complement of w bits; a word of w bits that is shifted; two words joined, the second of n bits; n
/// bits from bit k on; a word extended from m bits to n by the sign; a choice; and a part that a leaf's number names in
/// another.
#[derive(Drop)]
pub enum ExprTree {
    Leaf(u32),
    Number(u32, u64),
    Two(Operator, u32, Box<ExprTree>, Box<ExprTree>),
    Not(u32, Box<ExprTree>),
    Shifted(Shift, u32, Box<ExprTree>, u32),
    Joined(u32, Box<ExprTree>, Box<ExprTree>),
    Cut(Box<ExprTree>, u32, u32),
    Extended(u32, u32, Box<ExprTree>),
    Choice(Box<ExprTree>, Box<ExprTree>, Box<ExprTree>),
    Let(u32, Box<ExprTree>, Box<ExprTree>),
}
