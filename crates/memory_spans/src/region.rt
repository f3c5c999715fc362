//! A region: addresses, and the right to write them.

/// A region of memory: `len` bytes from `base` on, which may be read, and written where `write` is.
#[derive(Clone, Copy, Debug, PartialEq, Eq)]
pub struct Region {
    pub base: u64,
    pub len: u64,
    pub write: bool,
}
