//! What is compared where two functions have returned.

/// What is compared where two functions have returned.
#[derive(Clone, Copy, Debug, PartialEq, Eq)]
pub enum Output {
    /// The low `w` bits of general register `n`: 8, 16, 32 or 64.
    Reg { n: u8, w: u32 },
    /// The low `w` bits of vector register `n`: 128 or 256.
    Vec { n: u8, w: u32 },
}
