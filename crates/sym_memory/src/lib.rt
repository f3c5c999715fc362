//! The memory of a side along a path, as nodes: a read is the newest byte that was written at its address,
//! else the byte of the start.
//!
//! `SymMem` is a list of written bytes. `read` and `probe` build exactly the nodes of `specs/Reads.antt`,
//! and in every environment each byte has the value that `specs/Bytes.antt` says. For example a read of
//! one byte at `a + 1`, after a write of two bytes at `a` and of one at `b`, is a choice by whether
//! `a - b` is 2^64 - 1, between the byte at `b` and the second byte at `a`.
#![tactic(auto)]

mod byte;
mod memory;
mod written;

pub use memory::SymMem;
pub use written::Written;
