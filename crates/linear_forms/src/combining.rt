//! Whether a form is the weighted sum of others.
ghost use Rattle.std.specs.Prelude.{◌≡◌, ℕ, ◌<◌, ◌≤◌, ◌↔◌, IfOk, IsTrue};
ghost use Rattle.std.specs.List.{AllByRecursion};
ghost use Rattle.node_forms.specs.Sums.{SameWord};
ghost use Rattle.linear_forms.specs.Combinations.{IsAt, IsCombination, weighted};
ghost use Rattle.linear_forms.specs.Places.{word_at};

use crate::places::{Place, places_of, word_of};
use node_forms::Form;
use outcomes::Memory;
use scalar_ops::low_bits;
use std::alloc::Global;

/// Whether the target is the sum of the parts, each times its weight, modulo 2^w.
///
/// All forms have one width w, from 1 to 64. A weight may be any number.
pub fn combines(alloc: Global, target: &Form, parts: &[(u64, Form)]) -> Result<bool, Memory>
    requires width { (0 < target.now.w) × (target.now.w ≤ 64) }
    requires parts { AllByRecursion (λ p. IsAt target.now.w p.1) parts.now }
    ensures { IfOk result (λ answer. IsTrue answer ↔ IsCombination target.now.w target.now parts.now) }
{
    let places = places_of(alloc, target, parts)?;
    for place in places.as_slice() {
        if !agrees(target, parts, *place) {
            return Ok(false);
        }
    }
    Ok(true)
}

/// Whether the sum of the parts has the target's word at a place.
fn agrees(target: &Form, parts: &[(u64, Form)], place: Place) -> bool
    requires { (0 < target.now.w) × (target.now.w ≤ 64) }
    ensures { IsTrue result ↔ SameWord target.now.w (weighted (word_at place) parts.now) (word_at place target.now) }
{
    let sum = weighted_sum(parts, place);
    low_bits(target.w, sum) == low_bits(target.w, word_of(target, place))
}

/// The sum of the parts' words at a place, modulo 2^64.
fn weighted_sum(parts: &[(u64, Form)], place: Place) -> u64
    ensures { SameWord 64 result (weighted (word_at place) parts.now) }
{
    let mut sum = 0u64;
    for (weight, part) in parts {
        sum = sum.wrapping_add(weight.wrapping_mul(word_of(part, place)));
    }
    sum
}
