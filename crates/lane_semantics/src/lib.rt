//! What the operations on vector registers compute: definitions, and laws of them.
//!
//! A row is data: of which lanes of the arguments a lane of the result is computed, and an expression over
//! these. The value of an operation is the value of its row's expression, lane by lane.
//!
//! For example each lane of `paddsb` is the sum of the two lanes at its place, with one bit more, and then
//! saturated to 8 bits: the sum of 100 and 100 is 127.
#![tactic(auto)]

mod formed_laws;
mod laws;
mod source;

pub use formed_laws::lanes_are_formed;
pub use laws::{
    averages_round_up, chains_give_a_byte_and_a_mask, equal_lanes_give_ones,
    halves_of_products_make_the_product, long_shifts_leave_zeros_or_the_sign,
    pairs_in_order_move_nothing, pandn_complements_the_first, rows_take_the_least_and_the_greatest,
    signed_rows_saturate, unpacked_lanes_stand_in_turn, unsigned_rows_saturate,
};
pub use source::Source;
