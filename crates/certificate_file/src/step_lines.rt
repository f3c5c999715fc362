//! The lines of a refutation.
ghost use Rattle.std.specs.Prelude.{◌≡◌, ◌+◌, length, suc};
ghost use Rattle.text_codes.specs.Readers.{linked_at};
ghost use Rattle.text_codes.specs.Stops.{Gives, Tells};
ghost use Rattle.certificate_file.specs.StepReading as reading;

use crate::fields::{integer, long, word};
use crate::listed::{Ended, Spelled, fitted, push};
use crate::product_lines::row;
use clauses::Lit;
use node_values::NodeId;
use refutations::Step;
use sqlite_items::Items;
use std::alloc::Global;
use text_codes::{Ending, Stop, behind, number, signed};

/// A literal, or 0.
fn literal(text: &[u8]) -> Result<(Lit, &[u8]), &[u8]>
    ensures { Tells (λ x. (x.0, x.1.now)) result (reading.lit_at text.now) }
{
    let ((neg, (var, _)), rest) = signed(text, 0xffff_ffff, 0xffff_ffff, Ending::By(b' '))?;
    Ok((
        Lit {
            var: var as u32,
            neg,
        },
        rest,
    ))
}

/// Literals up to a 0.
fn literals(alloc: Global, text: &[u8]) -> Result<(Items<Lit>, &[u8]), Stop<'_>>
    ensures { Gives (λ x. (x.0, x.1.now)) result (reading.lits_at text.now) }
{
    let mut found = Vec::new(alloc);
    let mut rest = text;
    loop {
        let (lit, after) = literal(rest)?;
        if lit.var == 0 {
            return Ok((fitted(alloc, found)?, after));
        }
        push(&mut found, lit)?;
        rest = after;
    }
}

/// The number of a clause, and the byte that ends it.
fn clause(text: &[u8]) -> Result<((u32, u8), &[u8]), &[u8]>
    ensures { Tells (λ x. (x.0, x.1.now)) result (reading.clause_at text.now) }
{
    let ((n, end), rest) = number(text, 0xffff_ffff, 0, Ending::Either)?;
    Ok(((n as u32, end), rest))
}

/// A pivot and a clause, and the byte that ends them.
fn pair(text: &[u8]) -> Result<(((u32, u32), u8), &[u8]), &[u8]>
    ensures { Tells (λ x. (x.0, x.1.now)) result (reading.pair_of_at text.now) }
{
    let (pivot, rest) = word(text, b' ')?;
    let ((n, end), rest) = clause(rest)?;
    Ok((((pivot, n), end), rest))
}

/// Pivots and clauses up to the end of a line, behind a clause that this byte ended.
fn pairs(alloc: Global, text: &[u8], end: u8) -> Result<(Items<(u32, u32)>, &[u8]), Stop<'_>>
    ensures { Gives (λ x. (x.0, x.1.now)) result (linked_at reading.pair_of_at (suc (length text.now)) end text.now) }
{
    let mut found = Vec::new(alloc);
    let mut rest = text;
    let mut last = end;
    while last != b'\n' {
        let ((next, end), after) = pair(rest)?;
        push(&mut found, next)?;
        rest = after;
        last = end;
    }
    Ok((fitted(alloc, found)?, rest))
}

/// The clauses of a chain.
fn clauses(alloc: Global, text: &[u8]) -> Result<(((u32, u8), Items<(u32, u32)>), &[u8]), Stop<'_>>
    ensures { Gives (λ x. (x.0, x.1.now)) result (reading.clauses_at text.now) }
{
    let ((first, end), rest) = clause(text)?;
    let (next, rest) = pairs(alloc, rest, end)?;
    Ok((((first, end), next), rest))
}

/// A chain, behind its letter.
fn chain(alloc: Global, text: &[u8]) -> Result<(Step, &[u8]), Stop<'_>>
    ensures { Gives (λ x. (x.0, x.1.now)) result (reading.chain_at text.now) }
{
    let rest = behind(text, b" ")?;
    let (lits, rest) = literals(alloc, rest)?;
    let (((first, _), next), rest) = clauses(alloc, rest)?;
    Ok((Step::Chain { lits, first, next }, rest))
}

/// The number of a node.
fn node_id(text: &[u8]) -> Result<(NodeId, &[u8]), &[u8]>
    ensures { Tells (λ x. (x.0, x.1.now)) result (reading.node_id_at text.now) }
{
    let (n, rest) = word(text, b' ')?;
    Ok((NodeId(n), rest))
}

impl Ended for (u64, i64) {
    ghost read_at = { reading.part_at };

    fn read(text: &[u8], end: u8) -> Result<((u64, i64), &[u8]), &[u8]> {
        let (weight, rest) = long(text, b' ')?;
        let (name, rest) = integer(rest, 0x8000_0000_0000_0000, 0x7fff_ffff_ffff_ffff, end)?;
        Ok(((weight, name), rest))
    }
}

/// An equality of nodes, behind its letter.
fn equal(alloc: Global, text: &[u8]) -> Result<(Step, &[u8]), Stop<'_>>
    ensures { Gives (λ x. (x.0, x.1.now)) result (reading.equal_at text.now) }
{
    let rest = behind(text, b" ")?;
    let (i, rest) = node_id(rest)?;
    let (j, rest) = node_id(rest)?;
    let (parts, rest) = row(alloc, rest)?;
    Ok((Step::Equal { i, j, parts }, rest))
}

/// Nodes of one operator, behind the letter.
fn same(text: &[u8]) -> Result<(Step, &[u8]), &[u8]>
    ensures { Tells (λ x. (x.0, x.1.now)) result (reading.same_at text.now) }
{
    let rest = behind(text, b" ")?;
    let (i, rest) = node_id(rest)?;
    let (j, rest) = node_id(rest)?;
    let (clause, rest) = word(rest, b'\n')?;
    Ok((Step::Same { i, j, clause }, rest))
}

/// An equality that holds, behind its letter.
fn holds(alloc: Global, text: &[u8]) -> Result<(Step, &[u8]), Stop<'_>>
    ensures { Gives (λ x. (x.0, x.1.now)) result (reading.holds_at text.now) }
{
    let rest = behind(text, b" ")?;
    let (i, rest) = node_id(rest)?;
    let (parts, rest) = row(alloc, rest)?;
    Ok((Step::Holds { i, parts }, rest))
}

/// An equality that fails, behind its letter.
fn fails(alloc: Global, text: &[u8]) -> Result<(Step, &[u8]), Stop<'_>>
    ensures { Gives (λ x. (x.0, x.1.now)) result (reading.fails_at text.now) }
{
    let rest = behind(text, b" ")?;
    let (i, rest) = node_id(rest)?;
    let (parts, rest) = row(alloc, rest)?;
    Ok((Step::Fails { i, parts }, rest))
}

/// Two equalities that hold together, behind the letter.
fn both(alloc: Global, text: &[u8]) -> Result<(Step, &[u8]), Stop<'_>>
    ensures { Gives (λ x. (x.0, x.1.now)) result (reading.both_at text.now) }
{
    let rest = behind(text, b" ")?;
    let (i, rest) = node_id(rest)?;
    let (j, rest) = node_id(rest)?;
    let (unit, rest) = long(rest, b' ')?;
    let (parts, rest) = row(alloc, rest)?;
    Ok((Step::Both { i, j, unit, parts }, rest))
}

impl Spelled for Step {
    ghost read_at = { reading.step_at };

    fn read(alloc: Global, text: &[u8]) -> Result<(Step, &[u8]), Stop<'_>> {
        match text {
            [b'r', rest @ ..] => chain(alloc, rest),
            [b'e', rest @ ..] => equal(alloc, rest),
            [b'g', rest @ ..] => Ok(same(rest)?),
            [b't', rest @ ..] => holds(alloc, rest),
            [b'n', rest @ ..] => fails(alloc, rest),
            [b'q', rest @ ..] => both(alloc, rest),
            _ => Err(Stop::At(text)),
        }
    }
}
