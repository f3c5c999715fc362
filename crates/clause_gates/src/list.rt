//! Clauses in the making.
ghost use Rattle.std.specs.Prelude.{◌≡◌, ◌==◌, [], ◌∷◌, ◌++◌, IfOk, IsTrue, OnErr, OnOk, Some, None, map, length, nat_lt, slice_get, ◌≤◌, if◌then◌else◌};
ghost use Rattle.std.specs.List.{prefix_len};
ghost use Rattle.std.specs.Option.{option_and_then};
ghost use Rattle.std.specs.List.Sorted.{IsStrictlyIncreasing};
ghost use Rattle.clause_gates.specs.NormalForms.{inserted, normal_clauses, normal_form};

use clauses::{Clause, Lit};
use outcomes::Memory;
use std::alloc::Global;
use std::marker::Model;

/// Clauses in the making: each that is put to them is taken in its normal form, or left out where it has
/// none.
///
/// Contracts see it as the list of clauses, each as the list of its literals.
#[derive(Drop)]
pub struct ClauseList {
    clauses: Vec<Clause>,
    /// Room for the literals of the next clause.
    room: Vec<Lit>,
    alloc: Global,
}

impl Model for ClauseList {
    ghost use Rattle.std.specs.Prelude.{List};
    ghost use Rattle.clauses.specs.declared.clause.Lit.{Lit};

    ghost Value = { List (List Lit) };

    ghost view = { λ list. list.clauses.items };
}

impl ClauseList {
    /// No clauses.
    pub fn new(alloc: Global) -> ClauseList
        ensures { result ≡ [] }
    {
        ClauseList {
            clauses: Vec::new(alloc),
            room: Vec::new(alloc),
            alloc,
        }
    }

    /// The clauses.
    pub fn into_clauses(self) -> Vec<Clause>
        ensures { result.items ≡ self }
    {
        let ClauseList {
            clauses,
            room: _,
            alloc: _,
        } = self;
        clauses
    }

    /// The allocator of the clauses.
    pub fn allocator(&self) -> Global {
        self.alloc
    }

    /// How many clauses there are.
    pub fn len(&self) -> usize
        ensures { result ≡ length self.now }
    {
        self.clauses.len()
    }

    /// Whether there is none.
    pub fn is_empty(&self) -> bool
        ensures { result ≡ (length self.now == 0) }
    {
        self.clauses.is_empty()
    }

    /// Puts a clause of these literals behind the others, in its normal form.
    pub fn push(&mut self, lits: &[Lit]) -> Result<(), Memory>
        ensures ok { OnOk result (self.new ≡ self.old ++ normal_clauses (lits.now ∷ [])) }
        ensures err { OnErr result (self.new ≡ self.old) }
    {
        self.room.clear();
        if gather(&mut self.room, lits)? {
            let clause = Clause::of(self.alloc, self.room.as_slice())?;
            self.clauses.push(clause)?;
        }
        Ok(())
    }

    /// Puts clauses of the same number of literals behind the others, each in its normal form. After an
    /// error some of them may stand there.
    pub fn push_each<const N: usize>(&mut self, rows: &[[Lit; N]]) -> Result<(), Memory>
        ensures { OnOk result (self.new ≡ self.old ++ normal_clauses rows.now) }
    {
        for lits in rows {
            self.push(lits)?;
        }
        Ok(())
    }
}

/// Puts literals one after another into an empty list in order of variable, each once; false where one has the negation
/// of another.
#[tactic(auto, unfolding(crate::specs::NormalForms::normal_form))]
fn gather(kept: &mut Vec<Lit>, lits: &[Lit]) -> Result<bool, Memory>
    requires { kept.old.items ≡ [] }
    ensures value { IfOk result (λ there. normal_form lits.now ≡ (if there then Some kept.new.items else None)) }
    ensures ordered { IfOk result (λ there. IsTrue there → IsStrictlyIncreasing (map (λ l. l.var) kept.new.items)) }
{
    for lit in lits {
        if !insert(kept, *lit)? {
            return Ok(false);
        }
    }
    Ok(true)
}

/// Puts a literal in its place, once; false where its negation is there.
fn insert(kept: &mut Vec<Lit>, lit: Lit) -> Result<bool, Memory>
    ensures { IfOk result (λ there. inserted lit kept.old.items ≡ (if there then Some kept.new.items else None)) }
{
    let at = lower(kept.as_slice(), lit.var);
    match sign_at(kept.as_slice(), at, lit.var) {
        Some(neg) => Ok(neg == lit.neg),
        None => {
            kept.insert(at, lit)?;
            Ok(true)
        }
    }
}

/// The sign of the literal at a place, where it is of this variable.
fn sign_at(kept: &[Lit], at: usize, var: u32) -> Option<bool>
    ensures { result ≡ option_and_then (λ l. if l.var == var then Some l.neg else None) (slice_get kept.now at) }
{
    let other = kept.get(at)?;
    if other.var == var {
        Some(other.neg)
    } else {
        None
    }
}

/// How many literals at the front have a lower variable.
fn lower(kept: &[Lit], var: u32) -> usize
    ensures value { result ≡ prefix_len (λ l. nat_lt l.var var) kept.now }
    ensures inside { result ≤ length kept.now }
{
    kept.iter().take_while(|l| l.var < var).count()
}
