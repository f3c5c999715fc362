//! The row that clears a place of all others.
ghost use Rattle.std.specs.Prelude.{◌≡◌, ℕ, ◌+◌, ◌*◌, ◌/◌, ◌%◌, ◌^◌, ◌<◌, ◌≤◌, length, slice_index_or, [], MatchOption};
ghost use Rattle.std.specs.List.{AllByRecursion, AllZip};
ghost use Rattle.linear_forms.specs.Pivots.{CanBeCleared, IsPivot};
ghost use Rattle.linear_forms.specs.MatrixRows.{IsCleared, IsEven, IsOddAt, word};

use crate::inverse::inverse;
use crate::matrix_row::{MatrixRow, odd_place};

/// A row, and a place at which its word is 2^power times an odd number, with the inverse of that number.
#[derive(Debug, Drop)]
pub struct Pivot {
    pub row: MatrixRow,
    pub place: usize,
    pub power: u32,
    pub inverse: u64,
}

impl Pivot {
    /// The pivot at a place of a row.
    pub fn new(row: MatrixRow, place: usize, power: u32) -> Pivot
        requires power { power < 64 }
        requires place { place < length row }
        requires multiple { word place row % 2 ^ power ≡ 0 }
        requires odd { IsOddAt power row place }
        ensures pivot { IsPivot result }
        ensures row { result.row ≡ row }
        ensures place { result.place ≡ place }
        ensures power { result.power ≡ power }
    {
        let inverse = inverse(row.words()[place] >> power);
        Pivot {
            row,
            place,
            power,
            inverse,
        }
    }

    /// Adds the multiple of the pivot's row that makes the word at its place 0.
    pub fn clear(&self, row: &mut MatrixRow)
        requires pivot { IsPivot self.now }
        requires row { CanBeCleared self.now row.old }
        ensures { IsCleared self.now.row self.now.place row.old row.new }
    {
        let factor = row.words()[self.place] >> self.power;
        let times = factor.wrapping_mul(self.inverse).wrapping_neg();
        row.add(times, &self.row);
    }

    /// Clears all of the rows.
    pub fn clear_all(&self, rows: &mut [MatrixRow])
        requires pivot { IsPivot self.now }
        requires rows { AllByRecursion (CanBeCleared self.now) rows.old }
        ensures { AllZip (IsCleared self.now.row self.now.place) rows.old rows.new }
    {
        for row in rows.iter_mut() {
            self.clear(row);
        }
    }
}

/// A row and a place among the first `n` whose word has bit `power`.
pub fn find_pivot(rows: &[MatrixRow], n: usize, power: u32) -> Option<(usize, usize)>
    requires places { AllByRecursion (λ row. n ≤ length row) rows.now }
    requires power { power < 64 }
    ensures { MatchOption result (AllByRecursion (IsEven n power) rows.now)
        (λ p. (p.0 < length rows.now) × (p.1 < n) × IsOddAt power (slice_index_or rows.now p.0 []) p.1) }
{
    for (at, row) in rows.iter().enumerate() {
        if let Some(place) = odd_place(row.words(), n, power) {
            return Some((at, place));
        }
    }
    None
}
