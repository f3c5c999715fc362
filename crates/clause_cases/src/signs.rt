//! Assignments in the making, and unit resolution.
use clauses::{Clause, Lit};
use std::alloc::{AllocError, Global};

/// The signs of variables, as far as they are known. Variable 0 is none.
#[derive(Drop)]
pub struct Signs {
    signs: Vec<Option<bool>>,
}

/// What is known of a clause.
#[derive(Clone, Copy)]
enum Known {
    /// It is met, or two of its literals are open.
    Nothing,
    /// All of its literals but this one are false.
    Unit(Lit),
    /// All of its literals are false.
    Broken,
}

impl Signs {
    /// No sign of so many variables is known.
    pub fn of(alloc: Global, variables: u32) -> Result<Signs, AllocError> {
        let mut signs = Vec::new(alloc);
        for _ in 0..variables as u64 + 1 {
            signs.push(None)?;
        }
        Ok(Signs { signs })
    }

    /// Sets a sign; None where there is no such variable.
    pub fn set(&mut self, var: u32, sign: bool) -> Option<()> {
        let at = var as usize;
        if at >= self.signs.len() {
            return None;
        }
        self.signs[at] = Some(sign);
        Some(())
    }

    /// The word of so many bits from a variable on, the lowest first; None where one is not known.
    pub fn word(&self, first: u32, width: u32) -> Option<u64> {
        let mut word = 0;
        for k in 0..width {
            let bit = self.sign(first.checked_add(k)?)?;
            if bit && k < 64 {
                word |= 1 << k;
            }
        }
        Some(word)
    }

    /// Sets what follows from clauses by unit resolution; None where one is broken.
    pub fn resolve(&mut self, clauses: &[Clause]) -> Option<()> {
        for _turn in 0..self.signs.len() {
            let mut grown = false;
            for clause in clauses {
                match self.known(clause) {
                    Known::Nothing => {}
                    Known::Unit(lit) => {
                        self.set(lit.var, !lit.neg)?;
                        grown = true;
                    }
                    Known::Broken => return None,
                }
            }
            if !grown {
                return Some(());
            }
        }
        None
    }

    /// Whether the sign of each variable is known.
    pub fn are_all_set(&self) -> bool {
        self.signs.iter().skip(1).all(|sign| sign.is_some())
    }

    fn sign(&self, var: u32) -> Option<bool> {
        self.signs.get(var as usize).copied()?
    }

    fn known(&self, clause: &Clause) -> Known {
        let mut last = None;
        for lit in clause.lits() {
            match self.sign(lit.var) {
                Some(sign) if sign != lit.neg => return Known::Nothing,
                Some(_) => {}
                None if last.is_some() => return Known::Nothing,
                None => last = Some(*lit),
            }
        }
        match last {
            None => Known::Broken,
            Some(lit) => Known::Unit(lit),
        }
    }
}
