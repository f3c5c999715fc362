//! Rows of words.
ghost use Rattle.std.specs.Prelude.{◌≡◌, ℕ, ◌+◌, ◌*◌, ◌<◌, ◌≤◌, length, MatchOption};
ghost use Rattle.node_forms.specs.Sums.{SameWord};
ghost use Rattle.linear_forms.specs.MatrixRows.{IsEven, IsOddAt, word};

use std::marker::Model;

/// Words by place.
///
/// Contracts see it as the list.
#[derive(Debug, Drop)]
pub struct MatrixRow {
    words: Vec<u64>,
}

impl Model for MatrixRow {
    ghost use Rattle.std.specs.Prelude.{List, ℕ};

    ghost Value = { List ℕ };

    ghost view = { λ r. r.words.items };
}

impl MatrixRow {
    /// The row of these words.
    pub fn new(words: Vec<u64>) -> MatrixRow
        ensures { result ≡ words.items }
    {
        MatrixRow { words }
    }

    /// The words.
    pub fn words(&self) -> &[u64]
        ensures { result.now ≡ self.now }
    {
        self.words.as_slice()
    }

    /// Adds a multiple of a row, modulo 2^64.
    pub fn add(&mut self, times: u64, row: &MatrixRow)
        requires { length row.now ≡ length self.old }
        ensures length { length self.new ≡ length self.old }
        ensures sum { (j : ℕ) → SameWord 64 (word j self.new) (word j self.old + times * word j row.now) }
    {
        add_multiple(self.words.as_mut_slice(), times, row.words.as_slice());
    }
}

/// Adds a multiple of words to others, modulo 2^64.
fn add_multiple(words: &mut [u64], times: u64, others: &[u64])
    requires { length others.now ≡ length words.old }
    ensures { (j : ℕ) → SameWord 64 (word j words.new) (word j words.old + times * word j others.now) }
{
    for at in 0..words.len() {
        words[at] = words[at].wrapping_add(times.wrapping_mul(others[at]));
    }
}

/// A place below `n` whose word has bit `power`.
pub fn odd_place(words: &[u64], n: usize, power: u32) -> Option<usize>
    requires places { n ≤ length words.now }
    requires power { power < 64 }
    ensures { MatchOption result (IsEven n power words.now) (λ j. (j < n) × IsOddAt power words.now j) }
{
    for place in 0..n {
        if (words[place] >> power) % 2 == 1 {
            return Some(place);
        }
    }
    None
}
