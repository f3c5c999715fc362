//! Rows: the clauses by which the bits of a word are what an operator makes of other words.
//!
//! A word has a variable for each bit, one after another, the lowest first; a `Row` says of which words a row
//! speaks, and `specs/Rows.antt` lists its clauses, column by column; `specs/Products.antt` has those of a product.
//! By `laws` the clauses of a sum, a difference, a product, an order or an equality are met for some values of their
//! helpers, and for one alone, exactly where the numbers are the sum, the difference, the product, in the order or
//! equal. No command uses it yet.
#![tactic(auto)]

pub mod laws;
mod product;
mod row;

pub use product::{product_helper_count, push_product};
pub use row::{Row, push_equal, push_row};
