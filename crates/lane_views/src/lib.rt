//! Vectors as their bytes, and the lanes of 8, 16, 32 and 64 bits in them, the lowest byte first.
//!
//! A lane is the number of its bytes, and setting one leaves all other bytes. A `View` sees bytes that
//! are elsewhere; none of the calls copies bytes or takes memory.
//!
//! For example lane 1 of 16 bits of the bytes 1, 2, 3, 4, .. is 0x0403.
#![tactic(auto)]

mod laws;
mod numbers;
mod vector;
mod view;

pub use laws::set_lanes_are_read_back;
pub use vector::Bytes32;
pub use view::View;
