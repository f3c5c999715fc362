//! The clauses of gates.
ghost use Rattle.std.specs.Prelude.{◌≡◌, [], ◌∷◌, ◌++◌, OnOk};
ghost use Rattle.clause_gates.specs.Gates.{and_gate, choice_gate, copy_gate, majority_gate, negation, not_gate, or_gate, positive, xor_gate};
ghost use Rattle.clause_gates.specs.NormalForms.{normal_clauses};

use crate::list::ClauseList;
use clauses::Lit;
use outcomes::Memory;

/// The literal of the other sign.
pub fn negated(lit: Lit) -> Lit
    ensures { result ≡ negation lit }
{
    Lit {
        var: lit.var,
        neg: !lit.neg,
    }
}

/// A variable as it is.
pub fn plain(var: u32) -> Lit
    ensures { result ≡ positive var }
{
    Lit { var, neg: false }
}

// After an error of these some of the gate's clauses may stand in the list.
impl ClauseList {
    /// A literal that is true.
    pub fn unit(&mut self, r: Lit) -> Result<(), Memory>
        ensures { OnOk result (self.new ≡ self.old ++ normal_clauses ((r ∷ []) ∷ [])) }
    {
        self.push(&[r])
    }

    /// `r` is `a` and `b`.
    pub fn and(&mut self, r: Lit, a: Lit, b: Lit) -> Result<(), Memory>
        ensures { OnOk result (self.new ≡ self.old ++ normal_clauses (and_gate r a b)) }
    {
        self.push_each(&[[negated(r), a], [negated(r), b]])?;
        self.push(&[r, negated(a), negated(b)])
    }

    /// `r` is `a` or `b`.
    pub fn or(&mut self, r: Lit, a: Lit, b: Lit) -> Result<(), Memory>
        ensures { OnOk result (self.new ≡ self.old ++ normal_clauses (or_gate r a b)) }
    {
        self.push_each(&[[r, negated(a)], [r, negated(b)]])?;
        self.push(&[negated(r), a, b])
    }

    /// `r` is `a`.
    pub fn copy(&mut self, r: Lit, a: Lit) -> Result<(), Memory>
        ensures { OnOk result (self.new ≡ self.old ++ normal_clauses (copy_gate r a)) }
    {
        self.push_each(&[[negated(r), a], [r, negated(a)]])
    }

    /// `r` is not `a`.
    pub fn not(&mut self, r: Lit, a: Lit) -> Result<(), Memory>
        ensures { OnOk result (self.new ≡ self.old ++ normal_clauses (not_gate r a)) }
    {
        self.push_each(&[[negated(r), negated(a)], [r, a]])
    }

    /// `r` tells whether exactly one of `a` and `b` is true.
    pub fn xor(&mut self, r: Lit, a: Lit, b: Lit) -> Result<(), Memory>
        ensures { OnOk result (self.new ≡ self.old ++ normal_clauses (xor_gate r (a ∷ b ∷ []))) }
    {
        let (nr, na, nb) = (negated(r), negated(a), negated(b));
        self.push_each(&[[nr, a, b], [r, na, b], [r, a, nb], [nr, na, nb]])
    }

    /// `r` tells whether one or all three of `a`, `b` and `c` are true.
    pub fn xor_of_three(&mut self, r: Lit, a: Lit, b: Lit, c: Lit) -> Result<(), Memory>
        ensures { OnOk result (self.new ≡ self.old ++ normal_clauses (xor_gate r (a ∷ b ∷ c ∷ []))) }
    {
        let (nr, na, nb, nc) = (negated(r), negated(a), negated(b), negated(c));
        self.push_each(&[
            [nr, a, b, c],
            [r, na, b, c],
            [r, a, nb, c],
            [nr, na, nb, c],
            [r, a, b, nc],
            [nr, na, b, nc],
            [nr, a, nb, nc],
            [r, na, nb, nc],
        ])
    }

    /// `m` is what most of `a`, `b` and `c` are.
    pub fn majority(&mut self, m: Lit, a: Lit, b: Lit, c: Lit) -> Result<(), Memory>
        ensures { OnOk result (self.new ≡ self.old ++ normal_clauses (majority_gate m a b c)) }
    {
        let (nm, na, nb, nc) = (negated(m), negated(a), negated(b), negated(c));
        self.push_each(&[
            [nm, a, b],
            [nm, a, c],
            [nm, b, c],
            [m, na, nb],
            [m, na, nc],
            [m, nb, nc],
        ])
    }

    /// `r` is `a` where `c` is true, else `b`.
    pub fn choice(&mut self, r: Lit, c: Lit, a: Lit, b: Lit) -> Result<(), Memory>
        ensures { OnOk result (self.new ≡ self.old ++ normal_clauses (choice_gate r c a b)) }
    {
        let (nr, nc) = (negated(r), negated(c));
        self.push_each(&[
            [nc, nr, a],
            [nc, r, negated(a)],
            [c, nr, b],
            [c, r, negated(b)],
        ])
    }
}
