//! The lines of a certificate, written.
ghost use Rattle.std.specs.Prelude.{◌≡◌, ◌++◌, OnOk};
ghost use Rattle.text_codes.specs.Lists.{end_before, line_of, numbered_of, until};
ghost use Rattle.certificate_file.specs.Numbers.{lines_text, number_text, row_text};
ghost use Rattle.certificate_file.specs.Products as products;
ghost use Rattle.certificate_file.specs.Steps as steps;
ghost use Rattle.certificate_file.specs.Trees as trees;

use crate::writing::{
    Written, WrittenEnded, push_all, push_atom, push_bound, push_integer, push_line, push_number,
};
use clauses::Lit;
use duty_claims::Relation;
use node_values::NodeId;
use product_automaton::{Atom, Invariant, PEdge, PNode};
use refutations::Step;
use std::alloc::AllocError;

/// Appends a list whose count ends its line.
pub(crate) fn push_lines<T: Written>(out: &mut Vec<u8>, values: &[T]) -> Result<(), AllocError>
    ensures { OnOk result (out.new.items ≡ out.old.items ++ lines_text T.text_of values.now) }
{
    push_number(out, values.len() as u64, b'\n')?;
    push_all(out, values)
}

/// Appends a list behind its count on a line.
fn push_row<T: WrittenEnded>(out: &mut Vec<u8>, values: &[T]) -> Result<(), AllocError>
    ensures { OnOk result (out.new.items ≡ out.old.items ++ row_text T.text_of values.now) }
{
    let count = values.len() as u64;
    push_number(out, count, if count == 0 { b'\n' } else { b' ' })?;
    push_line(out, values)
}

impl Written for (u64, Atom) {
    ghost text_of = { products.term_text };

    fn write(&self, out: &mut Vec<u8>) -> Result<(), AllocError> {
        push_number(out, self.0, b' ')?;
        push_atom(out, self.1, b' ')
    }
}

/// Appends the word of a comparison.
fn push_order(out: &mut Vec<u8>, signed: bool, strict: bool) -> Result<(), AllocError>
    ensures { OnOk result (out.new.items ≡ out.old.items ++ products.order_word signed strict) }
{
    if signed {
        if strict {
            out.extend_from_slice(b"slt ")
        } else {
            out.extend_from_slice(b"sle ")
        }
    } else if strict {
        out.extend_from_slice(b"ult ")
    } else {
        out.extend_from_slice(b"ule ")
    }
}

impl Written for Invariant {
    ghost text_of = { products.invariant_text };

    fn write(&self, out: &mut Vec<u8>) -> Result<(), AllocError> {
        match self {
            Invariant::Lin { w, terms, c } => {
                out.extend_from_slice(b"inv lin ")?;
                push_number(out, u64::from(*w), b' ')?;
                push_number(out, terms.len() as u64, b' ')?;
                push_all(out, terms.as_slice())?;
                push_number(out, *c, b'\n')
            }
            Invariant::Less {
                signed,
                strict,
                w,
                a,
                b,
            } => {
                out.extend_from_slice(b"inv ")?;
                push_order(out, *signed, *strict)?;
                push_number(out, u64::from(*w), b' ')?;
                push_bound(out, *a, b' ')?;
                push_bound(out, *b, b'\n')
            }
        }
    }
}

/// Appends the places of node `i`.
fn push_places(out: &mut Vec<u8>, i: u64, node: &PNode) -> Result<(), AllocError>
    ensures { OnOk result (out.new.items ≡ out.old.items ++ products.places_text i node.now) }
{
    if i == 1 {
        out.extend_from_slice(b"- - ")
    } else {
        push_number(out, u64::from(node.left), b' ')?;
        push_number(out, u64::from(node.right), b' ')
    }
}

/// Appends node `i`.
fn push_node(out: &mut Vec<u8>, i: u64, node: &PNode) -> Result<(), AllocError>
    ensures { OnOk result (out.new.items ≡ out.old.items ++ products.node_text i node.now) }
{
    out.extend_from_slice(b"node ")?;
    push_number(out, i, b' ')?;
    push_places(out, i, node)?;
    push_number(out, u64::from(node.rank_left), b' ')?;
    push_number(out, u64::from(node.rank_right), b' ')?;
    push_lines(out, node.invs.as_slice())
}

impl WrittenEnded for u32 {
    ghost text_of = { number_text };

    fn write(&self, out: &mut Vec<u8>, end: u8) -> Result<(), AllocError> {
        push_number(out, u64::from(*self), end)
    }
}

/// Appends the paths of an edge.
fn push_paths(out: &mut Vec<u8>, left: &[u32], right: &[u32]) -> Result<(), AllocError>
    ensures { OnOk result (out.new.items ≡ out.old.items ++ products.paths_text left.now right.now) }
{
    out.extend_from_slice(b"left ")?;
    push_row(out, left)?;
    out.extend_from_slice(b"right ")?;
    push_row(out, right)
}

impl Written for PEdge {
    ghost text_of = { products.edge_text };

    fn write(&self, out: &mut Vec<u8>) -> Result<(), AllocError> {
        out.extend_from_slice(b"edge ")?;
        push_number(out, u64::from(self.from), b' ')?;
        push_number(out, u64::from(self.to), b'\n')?;
        push_paths(out, self.left.as_slice(), self.right.as_slice())
    }
}

/// Appends a literal.
fn push_literal(out: &mut Vec<u8>, lit: Lit) -> Result<(), AllocError>
    ensures { OnOk result (out.new.items ≡ out.old.items ++ steps.lit_text lit) }
{
    if lit.neg {
        out.extend_from_slice(b"-")?;
    }
    push_number(out, u64::from(lit.var), b' ')
}

/// Appends literals and the 0 behind them.
#[tactic(auto, unfolding(text_codes::specs::Lists::until))]
fn push_literals(out: &mut Vec<u8>, lits: &[Lit]) -> Result<(), AllocError>
    ensures { OnOk result (out.new.items ≡ out.old.items ++ until steps.lit_text steps.no_literal lits.now) }
{
    let mut rest = lits;
    while let [first, after @ ..] = rest {
        push_literal(out, *first)?;
        rest = after;
    }
    push_literal(out, Lit { var: 0, neg: false })
}

impl WrittenEnded for (u32, u32) {
    ghost text_of = { steps.pair_text };

    fn write(&self, out: &mut Vec<u8>, end: u8) -> Result<(), AllocError> {
        push_number(out, u64::from(self.0), b' ')?;
        push_number(out, u64::from(self.1), end)
    }
}

impl WrittenEnded for (u64, i64) {
    ghost text_of = { steps.part_text };

    fn write(&self, out: &mut Vec<u8>, end: u8) -> Result<(), AllocError> {
        push_number(out, self.0, b' ')?;
        push_integer(out, self.1, end)
    }
}

/// Appends a node's number.
fn push_id(out: &mut Vec<u8>, node: NodeId) -> Result<(), AllocError>
    ensures { OnOk result (out.new.items ≡ out.old.items ++ number_text 32 node.0) }
{
    push_number(out, u64::from(node.0), b' ')
}

/// Appends the clauses of a chain.
fn push_clauses(out: &mut Vec<u8>, first: u32, next: &[(u32, u32)]) -> Result<(), AllocError>
    ensures { OnOk result (out.new.items ≡ out.old.items ++ (number_text (end_before next.now) first ++ line_of steps.pair_text next.now)) }
{
    push_number(
        out,
        u64::from(first),
        if next.is_empty() { b'\n' } else { b' ' },
    )?;
    push_line(out, next)
}

/// Appends the nodes of a step, behind its letter.
fn push_ids(out: &mut Vec<u8>, word: &[u8], i: NodeId, j: NodeId) -> Result<(), AllocError>
    ensures { OnOk result (out.new.items ≡ out.old.items ++ (word.now ++ (number_text 32 i.0 ++ number_text 32 j.0))) }
{
    out.extend_from_slice(word)?;
    push_id(out, i)?;
    push_id(out, j)
}

impl Written for Step {
    ghost text_of = { steps.step_text };

    fn write(&self, out: &mut Vec<u8>) -> Result<(), AllocError> {
        match self {
            Step::Chain { lits, first, next } => {
                out.extend_from_slice(b"r ")?;
                push_literals(out, lits.as_slice())?;
                push_clauses(out, *first, next.as_slice())
            }
            Step::Equal { i, j, parts } => {
                push_ids(out, b"e ", *i, *j)?;
                push_row(out, parts.as_slice())
            }
            Step::Same { i, j, clause } => {
                push_ids(out, b"g ", *i, *j)?;
                push_number(out, u64::from(*clause), b'\n')
            }
            Step::Holds { i, parts } => {
                out.extend_from_slice(b"t ")?;
                push_id(out, *i)?;
                push_row(out, parts.as_slice())
            }
            Step::Fails { i, parts } => {
                out.extend_from_slice(b"n ")?;
                push_id(out, *i)?;
                push_row(out, parts.as_slice())
            }
            Step::Both { i, j, unit, parts } => {
                push_ids(out, b"q ", *i, *j)?;
                push_number(out, *unit, b' ')?;
                push_row(out, parts.as_slice())
            }
        }
    }
}

impl Written for Relation {
    ghost text_of = { trees.relation_text };

    fn write(&self, out: &mut Vec<u8>) -> Result<(), AllocError> {
        match self {
            Relation::Apart => out.extend_from_slice(b"apart "),
            Relation::Offset(d) => {
                out.extend_from_slice(b"off ")?;
                push_integer(out, i64::from(*d), b' ')
            }
        }
    }
}

/// Appends nodes, numbered from 0.
#[tactic(auto, unfolding(text_codes::specs::Lists::numbered_of))]
pub(crate) fn push_nodes(out: &mut Vec<u8>, nodes: &[PNode]) -> Result<(), AllocError>
    ensures { OnOk result (out.new.items ≡ out.old.items ++ numbered_of products.node_text 0 nodes.now) }
{
    let mut rest = nodes;
    let mut number = 0;
    while let [first, after @ ..] = rest {
        push_node(out, number, first)?;
        rest = after;
        number += 1;
    }
    Ok(())
}

/// Appends what stands in a split before its children.
pub(crate) fn push_split(
    out: &mut Vec<u8>,
    i: u32,
    j: u32,
    rels: &[Relation],
    shown: &[Step],
) -> Result<(), AllocError>
    ensures { OnOk result (out.new.items ≡ out.old.items ++ trees.split_text i j rels.now shown.now) }
{
    out.extend_from_slice(b"split ")?;
    push_number(out, u64::from(i), b' ')?;
    push_number(out, u64::from(j), b' ')?;
    push_number(out, rels.len() as u64, b' ')?;
    push_all(out, rels)?;
    push_lines(out, shown)
}
