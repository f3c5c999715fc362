//! Elimination modulo 2^w by pivots with the least power of two.
ghost use Rattle.std.specs.Prelude.{◌≡◌, ℕ, ◌+◌, ◌%◌, ◌^◌, ◌<◌, ◌≤◌, [], length, IfSome, IfNone, MatchBool};
ghost use Rattle.std.specs.List.{AllByRecursion};
ghost use Rattle.linear_forms.specs.MatrixRows.{AddsUp, IsMultiple, Makes, word};

use crate::matrix_row::MatrixRow;
use crate::pivot::{Pivot, find_pivot};
use scalar_ops::low_bits;

/// What is left of the target, where weights of the rows make it: behind its first `n` words stand the
/// weights. None where no weights do.
///
/// In the same way each row has, behind its first `n` words, weights of all rows with which it adds up to
/// nothing. Of all words that are left the pivot has the least power of two as a factor, so it divides
/// them all, and the rows without its own have a word at its place only as a multiple of it.
pub fn eliminate(
    w: u32,
    n: usize,
    mut rows: Vec<MatrixRow>,
    mut target: MatrixRow,
) -> Option<MatrixRow>
    requires width { (0 < w) × (w ≤ 64) }
    requires places { n ≤ length target }
    requires long { AllByRecursion (λ row. length row ≡ length target) rows.items }
    requires rows { AllByRecursion (AddsUp w n rows.items []) rows.items }
    requires target { AddsUp w n rows.items target target }
    ensures length { IfSome result (λ left. length left ≡ length target) }
    ensures makes { IfSome result (λ left. Makes w n rows.items target (λ k. word (n + k) left)) }
    ensures none { IfNone result ((weights : ℕ → ℕ) → ¬ Makes w n rows.items target weights) }
{
    let mut power = 0;
    while power < w {
        match find_pivot(rows.as_slice(), n, power) {
            None => power += 1,
            Some((at, place)) => {
                if !has_factor(target.words()[place], power) {
                    return None;
                }
                let pivot = Pivot::new(rows.remove(at), place, power);
                pivot.clear(&mut target);
                pivot.clear_all(rows.as_mut_slice());
            }
        }
    }
    if is_multiple(target.words(), n, w) {
        Some(target)
    } else {
        None
    }
}

/// Whether a word has 2^power as a factor.
fn has_factor(word: u64, power: u32) -> bool
    requires { power < 64 }
    ensures { MatchBool result (word % 2 ^ power ≡ 0) (¬ (word % 2 ^ power ≡ 0)) }
{
    word % (1 << power) == 0
}

/// Whether the first `n` words are 0 modulo 2^w.
fn is_multiple(words: &[u64], n: usize, w: u32) -> bool
    requires width { (0 < w) × (w ≤ 64) }
    requires places { n ≤ length words.now }
    ensures { MatchBool result (IsMultiple n w words.now) ((j : ℕ) × (j < n) × ¬ (word j words.now % 2 ^ w ≡ 0)) }
{
    for place in 0..n {
        if low_bits(w, words[place]) != 0 {
            return false;
        }
    }
    true
}
