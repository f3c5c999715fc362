//! Weights with which forms make another one.
ghost use Rattle.std.specs.Prelude.{◌≡◌, ℕ, ◌+◌, ◌<◌, ◌≤◌, ◌^◌, List, [], length, slice_index, slice_index_or, IfOk, IfSome, IfNone};
ghost use Rattle.std.specs.List.{AllByRecursion, AllZip, zip};
ghost use Rattle.node_forms.specs.Sums.{SameWord};
ghost use Rattle.linear_forms.specs.Combinations.{IsAt, IsCombination};
ghost use Rattle.linear_forms.specs.Places.{IsRowOf, IsUnit};
ghost use Rattle.linear_forms.specs.MatrixRows.{word};

use crate::elimination::eliminate;
use crate::matrix_row::MatrixRow;
use crate::places::{Place, places_of, word_of};
use node_forms::Form;
use outcomes::Memory;
use scalar_ops::low_bits;
use std::alloc::Global;

/// Weights below 2^w, one for each part, with which the parts add up to the target modulo 2^w.
///
/// None where no weights do. All forms have one width w, from 1 to 64.
pub fn solve(alloc: Global, target: &Form, parts: &[Form]) -> Result<Option<Vec<u64>>, Memory>
    requires width { (0 < target.now.w) × (target.now.w ≤ 64) }
    requires parts { AllByRecursion (IsAt target.now.w) parts.now }
    ensures count { IfOk result (λ answer. IfSome answer (λ weights. length weights.items ≡ length parts.now)) }
    ensures words { IfOk result (λ answer. IfSome answer (λ weights. AllByRecursion (λ q. q < 2 ^ target.now.w) weights.items)) }
    ensures combines { IfOk result (λ answer. IfSome answer (λ weights.
        IsCombination target.now.w target.now (zip weights.items parts.now))) }
    ensures none { IfOk result (λ answer. IfNone answer ((weights : List ℕ)
        → ¬ IsCombination target.now.w target.now (zip weights parts.now))) }
{
    let places = places_of(alloc, target, parts)?;
    let places = places.as_slice();
    let rows = rows_of(alloc, places, parts)?;
    let base = row_of(alloc, places, target, parts.len(), parts.len())?;
    match eliminate(target.w, places.len(), rows, base) {
        None => Ok(None),
        Some(left) => {
            let (_, weights) = left.words().split_at(places.len());
            Ok(Some(low_words(alloc, target.w, weights)?))
        }
    }
}

/// A row for each part: its words at the places, and behind them less 1 at its own number.
fn rows_of(alloc: Global, places: &[Place], parts: &[Form]) -> Result<Vec<MatrixRow>, Memory>
    requires { length places.now + length parts.now < 2 ^ 64 }
    ensures count { IfOk result (λ rows. length rows.items ≡ length parts.now) }
    ensures long { IfOk result (λ rows. AllByRecursion (λ row. length row ≡ length places.now + length parts.now) rows.items) }
    ensures words { IfOk result (λ rows. AllZip (IsRowOf places.now) parts.now rows.items) }
    ensures units { IfOk result (λ rows. (k : ℕ) → k < length rows.items
        → IsUnit (length places.now) (length parts.now) k (slice_index_or rows.items k [])) }
{
    let mut rows = Vec::new(alloc);
    for (at, part) in parts.iter().enumerate() {
        rows.push(row_of(alloc, places, part, parts.len(), at)?)?;
    }
    Ok(rows)
}

/// The words of a form at the places, and behind them `count` words: less 1 at `own`, and 0 else.
fn row_of(
    alloc: Global,
    places: &[Place],
    form: &Form,
    count: usize,
    own: usize,
) -> Result<MatrixRow, Memory>
    requires { length places.now + count < 2 ^ 64 }
    ensures length { IfOk result (λ row. length row ≡ length places.now + count) }
    ensures words { IfOk result (IsRowOf places.now form.now) }
    ensures unit { IfOk result (IsUnit (length places.now) count own) }
{
    let mut words = Vec::new(alloc);
    for place in places {
        words.push(word_of(form, *place))?;
    }
    for at in 0..count {
        words.push(if at == own { u64::MAX } else { 0 })?;
    }
    Ok(MatrixRow::new(words))
}

/// The words modulo 2^w.
fn low_words(alloc: Global, w: u32, words: &[u64]) -> Result<Vec<u64>, Memory>
    requires { (0 < w) × (w ≤ 64) }
    ensures count { IfOk result (λ low. length low.items ≡ length words.now) }
    ensures words { IfOk result (λ low. AllByRecursion (λ q. q < 2 ^ w) low.items) }
    ensures same { IfOk result (λ low. (k : ℕ) → SameWord w (slice_index low.items k) (slice_index words.now k)) }
{
    let mut low = Vec::new(alloc);
    for word in words {
        low.push(low_bits(w, *word))?;
    }
    Ok(low)
}
