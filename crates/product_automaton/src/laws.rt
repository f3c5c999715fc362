//! The law of a product's cycles.
ghost use Rattle.product_automaton.specs.Cycles.{CyclesAdvance};
ghost use Rattle.product_automaton.specs.Ranks.{RanksFall};

use crate::product::Product;

/// The law of cycles: where ranks fall, no cycle of the product has only empty left paths, nor only
/// empty right ones. It does nothing.
pub fn cycle_law(product: &Product)
    requires { RanksFall product.now }
    ensures { CyclesAdvance product.now }
{}
