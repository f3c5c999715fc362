//! The lines of a product.
ghost use Rattle.std.specs.Prelude.{◌≡◌, ◌<◌, decimal, map};
ghost use Rattle.register_names.specs.Names.{register_names};
ghost use Rattle.text_codes.specs.Readers.{names_at, word_at};
ghost use Rattle.text_codes.specs.Stops.{Gives, Tells};
ghost use Rattle.certificate_file.specs.ProductReading as reading;

use crate::fields::{letter, long, row_count, small, word};
use crate::listed::{Ended, Spelled, line, times};
use insn_ops::Side;
use itoa::Buffer;
use product_automaton::{Atom, Bound1, Invariant, PEdge, PNode};
use register_names::name_of;
use sqlite_items::Items;
use std::alloc::Global;
use text_codes::{Stop, behind, named};

/// The side of an atom.
fn side(text: &[u8]) -> Result<(Side, &[u8]), &[u8]>
    ensures { Tells (λ x. (x.0, x.1.now)) result (reading.side_at text.now) }
{
    match text {
        [b'l', rest @ ..] => Ok((Side::Left, rest)),
        [b'r', rest @ ..] => Ok((Side::Right, rest)),
        _ => Err(text),
    }
}

/// The number of the register whose name stands here.
fn register_word(text: &[u8]) -> Result<(u8, &[u8]), &[u8]>
    ensures { Tells (λ x. (x.0, x.1.now)) result (names_at 0 (register_names 64) text.now) }
{
    let names = [
        name_of(64, 0),
        name_of(64, 1),
        name_of(64, 2),
        name_of(64, 3),
        name_of(64, 4),
        name_of(64, 5),
        name_of(64, 6),
        name_of(64, 7),
        name_of(64, 8),
        name_of(64, 9),
        name_of(64, 10),
        name_of(64, 11),
        name_of(64, 12),
        name_of(64, 13),
        name_of(64, 14),
        name_of(64, 15),
    ];
    named(text, &names)
}

/// A register, ended by this byte.
fn register(text: &[u8], end: u8) -> Result<(u8, &[u8]), &[u8]>
    ensures { Tells (λ x. (x.0, x.1.now)) result (reading.register_at end text.now) }
{
    let (n, rest) = register_word(text)?;
    let rest = behind(rest, &[end])?;
    Ok((n, rest))
}

/// An atom of a side, behind the side's letter.
fn sided(text: &[u8], end: u8, side: Side) -> Result<(Atom, &[u8]), &[u8]>
    ensures { Tells (λ x. (x.0, x.1.now)) result (reading.sided_at end side text.now) }
{
    let rest = behind(text, b".")?;
    match rest {
        [b'y', after @ ..] => {
            let (v, rest) = small(after, 15, b'.')?;
            let (lane, rest) = small(rest, 255, end)?;
            Ok((Atom::Lane(side, v, lane), rest))
        }
        _ => {
            let (n, rest) = register(rest, end)?;
            Ok((Atom::Reg(side, n), rest))
        }
    }
}

/// An atom, ended by this byte.
fn atom(text: &[u8], end: u8) -> Result<(Atom, &[u8]), &[u8]>
    ensures { Tells (λ x. (x.0, x.1.now)) result (reading.atom_at end text.now) }
{
    match text {
        [b'e', after @ ..] => {
            let rest = behind(after, b".")?;
            let (n, rest) = register(rest, end)?;
            Ok((Atom::Entry(n), rest))
        }
        _ => {
            let (side, rest) = side(text)?;
            sided(rest, end, side)
        }
    }
}

/// A side of a comparison, ended by this byte.
fn bound(text: &[u8], end: u8) -> Result<(Bound1, &[u8]), &[u8]>
    ensures { Tells (λ x. (x.0, x.1.now)) result (reading.bound_at end text.now) }
{
    match text {
        [b'#', after @ ..] => {
            let (n, rest) = long(after, end)?;
            Ok((Bound1::Num(n), rest))
        }
        _ => {
            let (a, rest) = atom(text, end)?;
            Ok((Bound1::Of(a), rest))
        }
    }
}

/// A comparison, behind the word `inv`.
fn less(text: &[u8]) -> Result<(Invariant, &[u8]), &[u8]>
    ensures { Tells (λ x. (x.0, x.1.now)) result (reading.less_at text.now) }
{
    let (signed, rest) = letter(text, b's', b'u')?;
    let rest = behind(rest, b"l")?;
    let (strict, rest) = letter(rest, b't', b'e')?;
    let rest = behind(rest, b" ")?;
    let (w, rest) = word(rest, b' ')?;
    let (a, rest) = bound(rest, b' ')?;
    let (b, rest) = bound(rest, b'\n')?;
    Ok((
        Invariant::Less {
            signed,
            strict,
            w,
            a,
            b,
        },
        rest,
    ))
}

impl Spelled for (u64, Atom) {
    ghost read_at = { reading.term_at };

    fn read(_alloc: Global, text: &[u8]) -> Result<((u64, Atom), &[u8]), Stop<'_>> {
        let (weight, rest) = long(text, b' ')?;
        let (atom, rest) = atom(rest, b' ')?;
        Ok(((weight, atom), rest))
    }
}

/// A sum, behind its first letter.
fn lin(alloc: Global, text: &[u8]) -> Result<(Invariant, &[u8]), Stop<'_>>
    ensures { Gives (λ x. (x.0, x.1.now)) result (reading.lin_at text.now) }
{
    let rest = behind(text, b"in ")?;
    let (w, rest) = word(rest, b' ')?;
    let (count, rest) = long(rest, b' ')?;
    let (terms, rest) = times(alloc, count, rest)?;
    let (c, rest) = long(rest, b'\n')?;
    Ok((Invariant::Lin { w, terms, c }, rest))
}

impl Spelled for Invariant {
    ghost read_at = { reading.invariant_at };

    fn read(alloc: Global, text: &[u8]) -> Result<(Invariant, &[u8]), Stop<'_>> {
        let rest = behind(text, b"inv ")?;
        match rest {
            [b'l', after @ ..] => lin(alloc, after),
            _ => Ok(less(rest)?),
        }
    }
}

/// A list whose count ends its line.
pub(crate) fn lines<T: Spelled>(alloc: Global, text: &[u8]) -> Result<(Items<T>, &[u8]), Stop<'_>>
    ensures { Gives (λ x. (x.0, x.1.now)) result (reading.lines_at T.read_at text.now) }
{
    let (count, rest) = long(text, b'\n')?;
    times(alloc, count, rest)
}

/// A list behind its count on a line.
pub(crate) fn row<T: Ended>(alloc: Global, text: &[u8]) -> Result<(Items<T>, &[u8]), Stop<'_>>
    ensures { Gives (λ x. (x.0, x.1.now)) result (reading.row_at T.read_at text.now) }
{
    let (count, rest) = row_count(text)?;
    line(alloc, count, rest)
}

/// The places of node `i`.
fn places(text: &[u8], i: u64) -> Result<((u32, u32), &[u8]), &[u8]>
    ensures { Tells (λ x. (x.0, x.1.now)) result (reading.places_at i text.now) }
{
    if i == 1 {
        let rest = behind(text, b"- - ")?;
        Ok(((0, 0), rest))
    } else {
        let (left, rest) = word(text, b' ')?;
        let (right, rest) = word(rest, b' ')?;
        Ok(((left, right), rest))
    }
}

/// What stands behind the number of node `i`.
fn numbered(text: &[u8], i: u64) -> Result<&[u8], &[u8]>
    ensures { Tells (λ x. (tt, x.now)) result (word_at (decimal i) text.now) }
{
    let mut buffer = Buffer::new();
    behind(text, buffer.format(i).as_bytes())
}

/// Node `i`.
pub(crate) fn node(alloc: Global, text: &[u8], i: u64) -> Result<(PNode, &[u8]), Stop<'_>>
    ensures { Gives (λ x. (x.0, x.1.now)) result (reading.node_at i text.now) }
{
    let rest = behind(text, b"node ")?;
    let rest = numbered(rest, i)?;
    let rest = behind(rest, b" ")?;
    let ((left, right), rest) = places(rest, i)?;
    let (rank_left, rest) = word(rest, b' ')?;
    let (rank_right, rest) = word(rest, b' ')?;
    let (invs, rest) = lines(alloc, rest)?;
    Ok((
        PNode {
            left,
            right,
            invs,
            rank_left,
            rank_right,
        },
        rest,
    ))
}

impl Ended for u32 {
    ghost read_at = { reading.u32_at };

    fn read(text: &[u8], end: u8) -> Result<(u32, &[u8]), &[u8]> {
        word(text, end)
    }
}

impl Spelled for PEdge {
    ghost read_at = { reading.edge_at };

    fn read(alloc: Global, text: &[u8]) -> Result<(PEdge, &[u8]), Stop<'_>> {
        let rest = behind(text, b"edge ")?;
        let (from, rest) = word(rest, b' ')?;
        let (to, rest) = word(rest, b'\n')?;
        let rest = behind(rest, b"left ")?;
        let (left, rest) = row(alloc, rest)?;
        let rest = behind(rest, b"right ")?;
        let (right, rest) = row(alloc, rest)?;
        Ok((
            PEdge {
                from,
                to,
                left,
                right,
            },
            rest,
        ))
    }
}
