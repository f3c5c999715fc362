//! Whether a chain ends with the literals that it lists.
ghost use Rattle.std.specs.Prelude.{◌≡◌, ◌↔◌, List, IsTrue, length, option_map, option_and_then, Some};
ghost use Rattle.std.specs.List.{AllByRecursion};
ghost use Rattle.clauses.specs.Assignments.{IsClause};
ghost use Rattle.resolution_chains.specs.Chains.{IsChain, numbered};
ghost use Rattle.resolution_chains.specs.Marks.{IsBelow, IsClean, all_linked, all_marked, cancelled, linked, passed};

use crate::marks::Marks;
use clauses::{Clause, Lit};

/// Whether a chain of resolutions, which begins with the clause number `first` and goes on with each pivot and clause of
/// `next`, ends with exactly the literals `lits`, in order of variable, each once.
///
/// `marks` are clean before, and after where it does; else they are left as they come.
pub fn is_chain(
    marks: &mut Marks,
    clauses: &[Clause],
    lits: &[Lit],
    first: u32,
    next: &[(u32, u32)],
) -> bool
    requires clean { IsClean marks.old }
    requires ordered { AllByRecursion IsClause clauses.now }
    requires room { AllByRecursion (IsBelow (length marks.old)) clauses.now }
    ensures value { IsTrue result ↔ IsChain clauses.now lits.now first next.now }
    ensures clean { IsTrue result → IsClean marks.new }
    ensures length { length marks.new ≡ length marks.old }
    ensures room { IsTrue result → IsBelow (length marks.old) lits.now }
{
    if !is_in_order(lits) {
        return false;
    }
    cancel(marks, clauses, lits, first, next) && marks.is_clean()
}

/// Marks what a chain ends with and takes the marks of the literals `lits` away. False where two clauses have no
/// resolvent or one of the literals is not marked.
fn cancel(
    marks: &mut Marks,
    clauses: &[Clause],
    lits: &[Lit],
    first: u32,
    next: &[(u32, u32)],
) -> bool
    requires room { AllByRecursion (IsBelow (length marks.old)) clauses.now }
    ensures marks { cancelled clauses.now marks.old lits.now first next.now ≡ passed result marks.new }
    ensures length { length marks.new ≡ length marks.old }
{
    begin(marks, clauses, first) && link_all(marks, clauses, next) && marks.unmark_all(lits)
}

/// Whether literals stand in order of variable, each variable once.
fn is_in_order(lits: &[Lit]) -> bool
    ensures { IsTrue result ↔ IsClause lits.now }
{
    for at in 1..lits.len() {
        if lits[at - 1].var >= lits[at].var {
            return false;
        }
    }
    true
}

/// The clause of this number, from 1.
pub fn clause_at(clauses: &[Clause], number: u32) -> Option<&Clause>
    ensures { option_map (λ c. c.now) result ≡ numbered clauses.now number }
{
    match number.checked_sub(1) {
        None => None,
        Some(at) => clauses.get(at as usize),
    }
}

/// Marks the clause of a number. False where there is none.
fn begin(marks: &mut Marks, clauses: &[Clause], first: u32) -> bool
    requires room { AllByRecursion (IsBelow (length marks.old)) clauses.now }
    ensures marks { option_and_then (all_marked marks.old) (numbered clauses.now first) ≡ passed result marks.new }
    ensures length { length marks.new ≡ length marks.old }
{
    match clause_at(clauses, first) {
        None => false,
        Some(clause) => marks.mark_all(clause.lits()),
    }
}

/// Resolves the clause that is marked with the clause of a number. False where they have no resolvent.
fn link(marks: &mut Marks, clauses: &[Clause], pivot: u32, number: u32) -> bool
    requires room { AllByRecursion (IsBelow (length marks.old)) clauses.now }
    ensures marks { linked clauses.now marks.old (pivot, number) ≡ passed result marks.new }
    ensures length { length marks.new ≡ length marks.old }
{
    match clause_at(clauses, number) {
        None => false,
        Some(clause) => marks.resolve(pivot, clause.lits()),
    }
}

/// Resolves the clause that is marked in turn with others. False where some two have no resolvent.
fn link_all(marks: &mut Marks, clauses: &[Clause], next: &[(u32, u32)]) -> bool
    requires room { AllByRecursion (IsBelow (length marks.old)) clauses.now }
    ensures marks { all_linked clauses.now marks.old next.now ≡ passed result marks.new }
    ensures length { length marks.new ≡ length marks.old }
{
    for (pivot, number) in next {
        if !link(marks, clauses, *pivot, *number) {
            return false;
        }
    }
    true
}
