//! Memory as the machine has it: a byte at each address, kept as spans of bytes.
//!
//! A `Span` has bytes from an address on. Spans in order and apart are a memory (`memory_of`), in which a
//! byte of no span is 0. Words of up to eight bytes and blocks of up to 32 are read from any address on,
//! and written where spans have the addresses; addresses wrap at 2^64. `memory_law` says what is read
//! after a write. A `Region` names addresses that may be read, and says whether they may be written.
//!
//!     let mut spans = vec![Span { at: 0x1000, bytes: [1, 2, 3, 4] }];
//!     word_of(&spans, 0x1001, 2) == 0x0302
//!     put_word(&mut spans, 0x1000, 1, 9);
#![tactic(auto)]

mod blocks;
mod laws;
mod ranges;
mod region;
mod span;
mod words;

pub use blocks::{load, load_in, store, zeros};
pub use laws::memory_law;
pub use ranges::{are_bytes, spans_hold_bytes};
pub use region::Region;
pub use span::{Span, copy_spans};
pub use words::{byte_at, put_word, word_in, word_of};
