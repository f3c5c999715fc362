//! The small parts of texts, for all readers and printers: cuts at a byte, words, numbers and bytes.
//!
//! `cut_at(b"a:b:c", b':')` is `a` and `b:c`, `two_words(b"stack 8")` are `stack` and `8`,
//! `amount_within(b"0x10", 99)` is 16, and `push_value(out, 16)` writes `0x10`. A number has one
//! decimal text, and what is written is read back: `numbers_are_read_back`, `bytes_are_read_back`.
#![tactic(auto)]

mod bytes;
mod cuts;
mod laws;
mod numbers;
mod places;
mod printing;
mod words;

pub use bytes::{byte_at, is_hex_text};
pub use cuts::{after_byte, cut_at, first_part};
pub use laws::{
    bytes_are_read_back, cuts_are_parts, decimals_are_canonical, numbers_are_read_back,
};
pub use numbers::{
    amount_within, capped_amount, capped_decimal, capped_digits, decimal_within, digits_within,
};
pub use places::place_in;
pub use printing::{push_byte, push_bytes, push_decimal, push_value};
pub use words::{five_words, four_words, one_word, three_words, two_words};
