//! Tests.
use lane_views::Bytes32;
use sqlite_items::Items;

/// A test: the registers and the vectors of a start state, and bytes of its memory with their
/// addresses. Of equal addresses the last holds; a byte that is not named is 0.
#[derive(Drop)]
pub struct Test {
    pub regs: [u64; 16],
    pub vecs: [Bytes32; 16],
    pub bytes: Items<(u64, u8)>,
}

/// The tests of a file, at most 64.
#[derive(Drop)]
pub struct Tests {
    pub tests: Items<Test>,
}
