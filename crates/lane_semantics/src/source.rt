//! Where a lane comes from.

/// A lane of the arguments, by its width in bits and its number, or zero.
#[derive(Clone, Copy, Debug, PartialEq, Eq)]
pub enum Source {
    /// A lane of the first argument.
    First(u32, u32),
    /// A lane of the second argument.
    Second(u32, u32),
    /// Zero, whatever the width.
    Zero,
}
