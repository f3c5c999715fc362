//! Totals of coefficients, one for each atom.
ghost use Rattle.std.specs.Prelude.{◌≡◌, ℕ, ◌+◌, ◌*◌, ◌%◌, ◌^◌, ◌<◌, ◌≤◌, ◌↔◌, IfOk, IsTrue, length, replicate, set, slice_index};
ghost use Rattle.node_forms.specs.Sums.{AreFalling, SameWord, listed_coefficient};
ghost use Rattle.form_sums.specs.Made.{AreBelow, AreClear};

use node_values::NodeId;
use outcomes::Memory;
use scalar_ops::low_bits;
use std::alloc::Global;
use std::marker::Model;

/// A total for each atom, by its number.
///
/// Contracts see the list of totals.
#[derive(Drop)]
pub struct Totals {
    totals: Vec<u64>,
    /// How many totals are not 0.
    count: usize,
}

impl Model for Totals {
    ghost use Rattle.std.specs.Prelude.{◌≡◌, ◌==◌, ℕ, List, count_by, not};

    ghost Value = { List ℕ };

    ghost view = { λ t. t.totals.items };

    ghost invariant = { λ t. t.count ≡ count_by (λ n. not (n == 0)) t.totals.items };
}

impl Totals {
    /// Totals of 0 for `room` atoms.
    pub fn new(alloc: Global, room: usize) -> Result<Totals, Memory>
        ensures { IfOk result (λ totals. totals ≡ replicate room 0) }
    {
        let totals = vec![in alloc; 0; room]?;
        Ok(Totals { totals, count: 0 })
    }

    /// Whether each total is 0.
    pub fn are_clear(&self) -> bool
        ensures { IsTrue result ↔ AreClear self.now }
    {
        self.count == 0
    }

    /// Puts a total in the place of that of an atom.
    fn put(&mut self, at: usize, after: u64)
        requires { at < length self.old }
        ensures { self.new ≡ set self.old at after }
    {
        let before = self.totals[at];
        self.totals[at] = after;
        match (before, after) {
            (0, 0) => {}
            (0, _) => self.count += 1,
            (_, 0) => self.count -= 1,
            _ => {}
        }
    }

    /// Adds `c` to the total of an atom, modulo 2^w.
    fn add(&mut self, w: u32, atom: NodeId, c: u64)
        requires width { (0 < w) × (w ≤ 64) }
        requires room { atom.0 < length self.old }
        ensures { self.new ≡ set self.old atom.0 ((slice_index self.old atom.0 + c) % 2 ^ w) }
    {
        let at = atom.0 as usize;
        let sum = low_bits(w, self.totals[at].wrapping_add(c));
        self.put(at, sum);
    }

    /// Adds the coefficients of atoms, each times `weight`, modulo 2^w.
    pub fn add_all(&mut self, w: u32, weight: u64, atoms: &[(NodeId, u64)])
        requires width { (0 < w) × (w ≤ 64) }
        requires room { AreFalling (length self.old) atoms.now }
        requires below { AreBelow w self.old }
        ensures totals { (atom : ℕ)
            → SameWord w (slice_index self.new atom) (slice_index self.old atom + weight * listed_coefficient atoms.now atom) }
        ensures below { AreBelow w self.new }
        ensures length { length self.new ≡ length self.old }
    {
        for (atom, coefficient) in atoms {
            self.add(w, *atom, weight.wrapping_mul(*coefficient));
        }
    }
}
