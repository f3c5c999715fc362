//! Certificates.

use product_automaton::Product;
use refutations::Tree;
use sqlite_items::Items;

/// A product with its invariants, and how each of its duties is shown.
#[derive(Debug, Drop)]
pub struct Certificate {
    pub product: Product,
    pub trees: Items<Tree>,
}
