//! Trees, and whole certificates.
ghost use Rattle.std.specs.Prelude.{◌≡◌, ◌<◌, ◌≤◌, ◌^◌, IsTrue, MatchBool};
ghost use Rattle.text_codes.specs.Readers.{numbered_at, times_at};
ghost use Rattle.text_codes.specs.Stops.{Gives, Tells};
ghost use Rattle.certificate_file.specs.ProductReading.{node_at};
ghost use Rattle.certificate_file.specs.StepReading.{int_of, integer_at};
ghost use Rattle.certificate_file.specs.TreeReading as reading;

use crate::certificate::Certificate;
use crate::fields::{long, some_count, word};
use crate::listed::{Spelled, fitted, push, times};
use crate::product_lines::{lines, node};
use duty_claims::Relation;
use product_automaton::{PNode, Product};
use refutations::{Refutation, Step, Tree};
use sqlite_items::Items;
use std::alloc::Global;
use text_codes::{Ending, Stop, behind, signed};

/// The number of 8 bits of this sign, true for a negative one.
fn byte_of(negative: bool, n: u64) -> i8
    requires low { IsTrue negative → 1 ≤ n }
    requires high { MatchBool negative (n ≤ 128) (n ≤ 127) }
    ensures { result ≡ int_of negative n }
{
    if negative {
        -1 - (n - 1) as i8
    } else {
        n as i8
    }
}

/// An offset.
fn offset(text: &[u8]) -> Result<(i8, &[u8]), &[u8]>
    ensures { Tells (λ x. (x.0, x.1.now)) result (integer_at 128 127 32 text.now) }
{
    let ((negative, (n, _)), rest) = signed(text, 128, 127, Ending::By(b' '))?;
    Ok((byte_of(negative, n), rest))
}

impl Spelled for Relation {
    ghost read_at = { reading.relation_at };

    fn read(_alloc: Global, text: &[u8]) -> Result<(Relation, &[u8]), Stop<'_>> {
        match text {
            [b'a', rest @ ..] => {
                let rest = behind(rest, b"part ")?;
                Ok((Relation::Apart, rest))
            }
            [b'o', rest @ ..] => {
                let rest = behind(rest, b"ff ")?;
                let (d, rest) = offset(rest)?;
                Ok((Relation::Offset(d), rest))
            }
            _ => Err(Stop::At(text)),
        }
    }
}

/// A leaf, behind its first letter.
fn leaf(alloc: Global, text: &[u8]) -> Result<(Tree, &[u8]), Stop<'_>>
    ensures { Gives (λ x. (x.0, x.1.now)) result (reading.leaf_at text.now) }
{
    let rest = behind(text, b"eaf ")?;
    let (steps, rest) = lines(alloc, rest)?;
    Ok((Tree::Leaf(Refutation { steps }), rest))
}

/// The accesses, the relations and the steps of a split.
type Front = (u32, (u32, (Items<Relation>, Items<Step>)));

/// What stands in a split before its children.
fn front(alloc: Global, text: &[u8]) -> Result<(Front, &[u8]), Stop<'_>>
    ensures { Gives (λ x. (x.0, x.1.now)) result (reading.front_at text.now) }
{
    let (i, rest) = word(text, b' ')?;
    let (j, rest) = word(rest, b' ')?;
    let (count, rest) = some_count(rest)?;
    let (rels, rest) = times(alloc, count, rest)?;
    let (steps, rest) = lines(alloc, rest)?;
    Ok(((i, (j, (rels, steps))), rest))
}

/// A tree with at most so many splits above any leaf.
#[cycle(trees)]
fn tree(alloc: Global, text: &[u8], depth: u8) -> Result<(Tree, &[u8]), Stop<'_>>
    ensures { Gives (λ x. (x.0, x.1.now)) result (reading.tree_at depth text.now) }
{
    match text {
        [] => Err(Stop::At(text)),
        [letter, rest @ ..] => {
            if *letter == b'l' {
                leaf(alloc, rest)
            } else if *letter == b's' && depth > 0 {
                split(alloc, rest, depth - 1)
            } else {
                Err(Stop::At(text))
            }
        }
    }
}

/// A split with children of at most this depth, behind its first letter.
#[cycle(trees)]
fn split(alloc: Global, text: &[u8], depth: u8) -> Result<(Tree, &[u8]), Stop<'_>>
    ensures { Gives (λ x. (x.0, x.1.now)) result (reading.split_at (reading.tree_at depth) text.now) }
{
    let rest = behind(text, b"plit ")?;
    let ((i, (j, (rels, steps))), rest) = front(alloc, rest)?;
    let (kids, rest) = trees(alloc, rels.len() as u64, rest, depth)?;
    let proof = Refutation { steps };
    Ok((
        Tree::Split {
            i,
            j,
            rels,
            proof,
            kids,
        },
        rest,
    ))
}

/// So many trees.
#[cycle(trees)]
fn trees(
    alloc: Global,
    count: u64,
    text: &[u8],
    depth: u8,
) -> Result<(Items<Tree>, &[u8]), Stop<'_>>
    ensures { Gives (λ x. (x.0, x.1.now)) result (times_at (reading.tree_at depth) count text.now) }
{
    let mut found = Vec::new(alloc);
    let mut rest = text;
    let mut left = count;
    while left > 0 {
        let (tree, after) = tree(alloc, rest, depth)?;
        push(&mut found, tree)?;
        rest = after;
        left -= 1;
    }
    Ok((fitted(alloc, found)?, rest))
}

/// So many nodes, numbered from 0.
fn nodes_of(alloc: Global, count: u64, text: &[u8]) -> Result<(Items<PNode>, &[u8]), Stop<'_>>
    ensures { Gives (λ x. (x.0, x.1.now)) result (numbered_at node_at 0 count text.now) }
{
    let mut found = Vec::new(alloc);
    let mut rest = text;
    let mut number = 0;
    while number < count {
        let (node, after) = node(alloc, rest, number)?;
        push(&mut found, node)?;
        rest = after;
        number += 1;
    }
    Ok((fitted(alloc, found)?, rest))
}

/// The nodes of a product.
fn nodes(alloc: Global, text: &[u8]) -> Result<(Items<PNode>, &[u8]), Stop<'_>>
    ensures { Gives (λ x. (x.0, x.1.now)) result (reading.nodes_at text.now) }
{
    let (count, rest) = long(text, b'\n')?;
    nodes_of(alloc, count, rest)
}

/// The trees of all duties.
fn all_trees(alloc: Global, text: &[u8]) -> Result<(Items<Tree>, &[u8]), Stop<'_>>
    ensures { Gives (λ x. (x.0, x.1.now)) result (reading.trees_at text.now) }
{
    let (count, rest) = long(text, b'\n')?;
    trees(alloc, count, rest, 16)
}

/// A certificate.
pub(crate) fn certificate(alloc: Global, text: &[u8]) -> Result<(Certificate, &[u8]), Stop<'_>>
    ensures { Gives (λ x. (x.0, x.1.now)) result (reading.certificate_at text.now) }
{
    let rest = behind(text, b"align-certificate 1\nnodes ")?;
    let (nodes, rest) = nodes(alloc, rest)?;
    let rest = behind(rest, b"edges ")?;
    let (edges, rest) = lines(alloc, rest)?;
    let rest = behind(rest, b"duties ")?;
    let (trees, rest) = all_trees(alloc, rest)?;
    let rest = behind(rest, b"end\n")?;
    let product = Product { nodes, edges };
    Ok((Certificate { product, trees }, rest))
}
