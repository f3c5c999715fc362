//! Marks of variables.
ghost use Rattle.std.specs.Prelude.{◌≡◌, ◌<◌, ◌↔◌, None, IfOk, IsTrue, length, replicate};
ghost use Rattle.resolution_chains.specs.Marks.{IsBelow, IsClean, all_marked, all_unmarked, literal, marked, passed, resolved, sign_at, unmarked};

use clauses::Lit;
use outcomes::Memory;
use std::alloc::Global;
use std::marker::Model;

/// A sign for each variable that is marked: true where the literal is the variable itself.
///
/// Contracts see it as the list of these signs by variable.
#[derive(Drop)]
pub struct Marks {
    signs: Vec<Option<bool>>,
    /// How many variables are marked.
    count: usize,
}

impl Model for Marks {
    ghost use Rattle.std.specs.Prelude.{◌≡◌, List, Option, Bool, count_by, is_some};

    ghost Value = { List (Option Bool) };

    ghost view = { λ marks. marks.signs.items };

    ghost invariant = { λ marks. marks.count ≡ count_by is_some marks.signs.items };
}

impl Marks {
    /// No marks, with room for the variables below `room`.
    pub fn new(alloc: Global, room: usize) -> Result<Marks, Memory>
        ensures { IfOk result (λ marks. marks ≡ replicate room None) }
    {
        let signs = vec![in alloc; None; room]?;
        Ok(Marks { signs, count: 0 })
    }

    /// The sign that a variable is marked with.
    pub fn sign(&self, x: u32) -> Option<bool>
        ensures { result ≡ sign_at self.now x }
    {
        self.signs.get(x as usize).copied().flatten()
    }

    /// Whether no variable is marked.
    pub fn is_clean(&self) -> bool
        ensures { IsTrue result ↔ IsClean self.now }
    {
        self.count == 0
    }

    /// Marks a literal. False where its variable is marked with the other sign.
    pub fn mark(&mut self, lit: Lit) -> bool
        requires { lit.var < length self.old }
        ensures marks { marked self.old lit ≡ passed result self.new }
        ensures length { length self.new ≡ length self.old }
    {
        match self.sign(lit.var) {
            None => {
                self.signs[lit.var as usize] = Some(!lit.neg);
                self.count += 1;
                true
            }
            Some(true) => !lit.neg,
            Some(false) => lit.neg,
        }
    }

    /// Takes the mark of a literal away. False where it is not marked.
    pub fn unmark(&mut self, lit: Lit) -> bool
        ensures marks { unmarked self.old lit ≡ passed result self.new }
        ensures length { length self.new ≡ length self.old }
    {
        let there = match self.sign(lit.var) {
            None => false,
            Some(true) => !lit.neg,
            Some(false) => lit.neg,
        };
        if there {
            self.signs[lit.var as usize] = None;
            self.count -= 1;
        }
        there
    }

    /// Marks all literals of a clause. False where one is marked with the other sign.
    pub fn mark_all(&mut self, lits: &[Lit]) -> bool
        requires { IsBelow (length self.old) lits.now }
        ensures marks { all_marked self.old lits.now ≡ passed result self.new }
        ensures length { length self.new ≡ length self.old }
    {
        for lit in lits {
            if !self.mark(*lit) {
                return false;
            }
        }
        true
    }

    /// Takes the marks of all literals away. False where one is not marked.
    pub fn unmark_all(&mut self, lits: &[Lit]) -> bool
        ensures marks { all_unmarked self.old lits.now ≡ passed result self.new }
        ensures length { length self.new ≡ length self.old }
    {
        for lit in lits {
            if !self.unmark(*lit) {
                return false;
            }
        }
        true
    }

    /// Resolves the clause that is marked with another one on a variable. False where they have no resolvent.
    pub fn resolve(&mut self, pivot: u32, other: &[Lit]) -> bool
        requires { IsBelow (length self.old) other.now }
        ensures marks { resolved self.old pivot other.now ≡ passed result self.new }
        ensures length { length self.new ≡ length self.old }
    {
        match self.sign(pivot) {
            None => false,
            Some(sign) => {
                self.unmark(literal(pivot, sign))
                    && self.mark_all(other)
                    && self.unmark(literal(pivot, !sign))
            }
        }
    }
}

/// A literal by its variable and sign.
fn literal(var: u32, sign: bool) -> Lit
    ensures { result ≡ literal var sign }
{
    Lit { var, neg: !sign }
}
