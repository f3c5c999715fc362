//! Expressions over the entry registers.
ghost use Rattle.std.specs.Prelude.{◌≡◌, ◌<◌, IfSome};
ghost use Rattle.admission.specs.Values.{added, value_of};
ghost use Rattle.admission.specs.WellFormed.{IsExpr, IsTerm};

use sqlite_items::Items;

/// A term of an expression: the number `c`, times the entry value of general register `reg` where it
/// names one, added or, where `minus` is set, subtracted.
#[derive(Clone, Copy, Debug, PartialEq, Eq)]
pub struct Term {
    pub minus: bool,
    pub c: u64,
    pub reg: Option<u8>,
}

/// A sum of terms over the entry registers, modulo 2^64.
#[derive(Drop)]
pub struct Expr {
    pub terms: Items<Term>,
}

impl Term {
    /// What it adds at these entry registers, modulo 2^64.
    fn added(&self, regs: &[u64; 16]) -> u64
        requires { IsTerm self.now }
        ensures { result ≡ added regs.now self.now }
    {
        let factor = match self.reg {
            None => 1,
            Some(n) => regs[n as usize],
        };
        let amount = self.c.wrapping_mul(factor);
        if self.minus {
            amount.wrapping_neg()
        } else {
            amount
        }
    }
}

impl Expr {
    /// Its value at these entry registers.
    pub fn value(&self, regs: &[u64; 16]) -> u64
        requires { IsExpr self.now }
        ensures { result ≡ value_of regs.now self.now }
    {
        let mut sum = 0u64;
        for term in self.terms.as_slice() {
            sum = sum.wrapping_add(term.added(regs));
        }
        sum
    }
}
