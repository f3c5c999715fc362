//! Values printed one behind another, none of whose texts begins another's. Reading gives the value at
//! the front of a text and what stands behind it, or how far the text is the front of one.
//!
//! `number(b"17 apart", 255, 0, Ending::By(b' '))` is 17 with `apart` behind it; of `1` it is
//! `Err(b"")`, since `1` begins such a number, and of `1x` it is `Err(b"x")`. Readers of
//! larger values are made of these, in specs/Readers.antt; by the laws of proofs/Chains.antt and
//! proofs/Combined.antt they are right where their parts are.
#![tactic(auto)]

mod laws;
mod numbers;
mod stop;
mod words;

pub use laws::parts_are_read;
pub use numbers::{Ending, number, signed};
pub use stop::Stop;
pub use words::{behind, named};
