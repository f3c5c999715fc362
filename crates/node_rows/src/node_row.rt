//! The rows of nodes.
ghost use Rattle.std.specs.Prelude.{◌≡◌, ℕ, ◌+◌, ◌-◌, ◌^◌, ◌<◌, ◌≤◌, ◌++◌, Some, OnOk, IfSome, length, slice_index};
ghost use Rattle.clause_gates.specs.NormalForms.{normal_clauses};
ghost use Rattle.clause_words.specs.Rows.{RowHasRoom, row_clauses};
ghost use Rattle.node_rows.specs.NodeRows.{HaveRoom, columns_of, helpers_of, node_clauses, node_row};
ghost use Rattle.node_values.specs.Nodes.{AreWordWidths, IsNode};

use clause_gates::ClauseList;
use clause_words::{Row, product_helper_count, push_equal, push_product, push_row};
use node_values::{Node, NodeId};
use outcomes::Memory;

/// Puts the row of a node behind the other clauses. `firsts` and `widths` are the variables of the lowest bits and the
/// widths of the nodes before it, `r` the variable of its own lowest bit.
pub fn push_node(
    list: &mut ClauseList,
    node: Node,
    firsts: &[u32],
    widths: &[u32],
    r: u32,
) -> Result<(), Memory>
    requires node { IsNode (slice_index widths.now) (length widths.now) node }
    requires widths { AreWordWidths widths.now }
    requires firsts { HaveRoom firsts.now }
    requires lengths { length firsts.now ≡ length widths.now }
    requires r { r + 12416 ≤ 2 ^ 32 }
    ensures { OnOk result (list.new ≡ list.old ++ normal_clauses
        (node_clauses (slice_index firsts.now) (slice_index widths.now) r node)) }
{
    match node {
        Node::Mul(a, b) => {
            let w = width_of(widths, a);
            push_product(list, w, r, first_of(firsts, a), first_of(firsts, b), r + w)
        }
        Node::Eq(a, b) => {
            let w = width_of(widths, a);
            push_equal(list, w, r, first_of(firsts, a), first_of(firsts, b), r + 1)
        }
        _ => push_columns(list, node, firsts, widths, r),
    }
}

/// Puts the columns of a node behind the other clauses, if it has some.
fn push_columns(
    list: &mut ClauseList,
    node: Node,
    firsts: &[u32],
    widths: &[u32],
    r: u32,
) -> Result<(), Memory>
    requires node { IsNode (slice_index widths.now) (length widths.now) node }
    requires widths { AreWordWidths widths.now }
    requires firsts { HaveRoom firsts.now }
    requires lengths { length firsts.now ≡ length widths.now }
    requires r { r + 12416 ≤ 2 ^ 32 }
    ensures { OnOk result (list.new ≡ list.old ++ normal_clauses
        (columns_of (node_row (slice_index firsts.now) (slice_index widths.now) r node))) }
{
    match row_of(node, firsts, widths, r) {
        Some((w, row)) => push_row(list, w, &row),
        None => Ok(()),
    }
}

/// The columns of a node.
fn row_of(node: Node, firsts: &[u32], widths: &[u32], r: u32) -> Option<(u32, Row)>
    requires node { IsNode (slice_index widths.now) (length widths.now) node }
    requires widths { AreWordWidths widths.now }
    requires firsts { HaveRoom firsts.now }
    requires lengths { length firsts.now ≡ length widths.now }
    requires r { r + 12416 ≤ 2 ^ 32 }
    ensures value { result ≡ node_row (slice_index firsts.now) (slice_index widths.now) r node }
    ensures room { IfSome result (λ row. RowHasRoom row.0 row.1) }
{
    match node {
        Node::Const { w, v } => Some((w, Row::Const { r, v })),
        Node::Add(a, b) => {
            let (w, a, b) = pair(firsts, widths, a, b);
            Some((
                w,
                Row::Sum {
                    w,
                    r,
                    a,
                    b,
                    carry: r + w,
                },
            ))
        }
        Node::Sub(a, b) => {
            let (w, a, b) = pair(firsts, widths, a, b);
            Some((
                w,
                Row::Sum {
                    w,
                    r: a,
                    a: r,
                    b,
                    carry: r + w,
                },
            ))
        }
        Node::And(a, b) => {
            let (w, a, b) = pair(firsts, widths, a, b);
            Some((w, Row::And { r, a, b }))
        }
        Node::Or(a, b) => {
            let (w, a, b) = pair(firsts, widths, a, b);
            Some((w, Row::Or { r, a, b }))
        }
        Node::Xor(a, b) => {
            let (w, a, b) = pair(firsts, widths, a, b);
            Some((w, Row::Xor { r, a, b }))
        }
        Node::Ult(a, b) => {
            let (w, a, b) = pair(firsts, widths, a, b);
            Some((
                w,
                Row::Less {
                    w,
                    r,
                    a,
                    b,
                    lower: r + 1,
                },
            ))
        }
        Node::Slt(a, b) => {
            let (w, a, b) = pair(firsts, widths, a, b);
            Some((
                w,
                Row::SignedLess {
                    w,
                    r,
                    a,
                    b,
                    lower: r + 1,
                },
            ))
        }
        Node::Not(a) => {
            let (w, a) = argument(firsts, widths, a);
            Some((w, Row::Not { r, a }))
        }
        Node::Shl(a, by) => {
            let (w, a) = argument(firsts, widths, a);
            Some((w, Row::Shl { r, a, by }))
        }
        Node::Shr(a, by) => {
            let (w, a) = argument(firsts, widths, a);
            Some((w, Row::Shr { w, r, a, by }))
        }
        Node::Sar(a, by) => {
            let (w, a) = argument(firsts, widths, a);
            Some((w, Row::Sar { w, r, a, by }))
        }
        Node::Cat(high, low) => {
            let (n, high) = argument(firsts, widths, high);
            let (m, low) = argument(firsts, widths, low);
            Some((n + m, Row::Cat { m, r, high, low }))
        }
        Node::Cut(a, from, n) => {
            let (_, a) = argument(firsts, widths, a);
            Some((n, Row::Cut { r, a, from }))
        }
        Node::Sx(n, a) => {
            let (m, a) = argument(firsts, widths, a);
            Some((n, Row::Sx { m, r, a }))
        }
        Node::If(c, a, b) => {
            let (_, c) = argument(firsts, widths, c);
            let (w, a, b) = pair(firsts, widths, a, b);
            Some((w, Row::If { r, c, a, b }))
        }
        _ => None,
    }
}

/// The width of a node before, and the variable of its lowest bit.
fn argument(firsts: &[u32], widths: &[u32], node: NodeId) -> (u32, u32)
    requires node { node.0 < length widths.now }
    requires widths { AreWordWidths widths.now }
    requires firsts { HaveRoom firsts.now }
    requires lengths { length firsts.now ≡ length widths.now }
    ensures width { result.0 ≡ slice_index widths.now node.0 }
    ensures first { result.1 ≡ slice_index firsts.now node.0 }
    ensures range { (0 < result.0) × (result.0 ≤ 64) }
    ensures room { result.1 + 64 ≤ 2 ^ 32 }
{
    (width_of(widths, node), first_of(firsts, node))
}

/// The width of two nodes before, and the variables of their lowest bits.
fn pair(firsts: &[u32], widths: &[u32], a: NodeId, b: NodeId) -> (u32, u32, u32)
    requires a { a.0 < length widths.now }
    requires b { b.0 < length widths.now }
    requires widths { AreWordWidths widths.now }
    requires firsts { HaveRoom firsts.now }
    requires lengths { length firsts.now ≡ length widths.now }
    ensures width { result.0 ≡ slice_index widths.now a.0 }
    ensures first { result.1 ≡ slice_index firsts.now a.0 }
    ensures second { result.2 ≡ slice_index firsts.now b.0 }
    ensures range { (0 < result.0) × (result.0 ≤ 64) }
    ensures room { (result.1 + 64 ≤ 2 ^ 32) × (result.2 + 64 ≤ 2 ^ 32) }
{
    (
        width_of(widths, a),
        first_of(firsts, a),
        first_of(firsts, b),
    )
}

/// The width of a node before.
fn width_of(widths: &[u32], node: NodeId) -> u32
    requires node { node.0 < length widths.now }
    requires widths { AreWordWidths widths.now }
    ensures value { result ≡ slice_index widths.now node.0 }
    ensures range { (0 < result) × (result ≤ 64) }
{
    widths[node.0 as usize]
}

/// The variable of its lowest bit.
fn first_of(firsts: &[u32], node: NodeId) -> u32
    requires node { node.0 < length firsts.now }
    requires firsts { HaveRoom firsts.now }
    ensures value { result ≡ slice_index firsts.now node.0 }
    ensures room { result + 64 ≤ 2 ^ 32 }
{
    firsts[node.0 as usize]
}

/// How many helpers the row of a node has.
pub fn helper_count(node: Node, widths: &[u32]) -> u32
    requires node { IsNode (slice_index widths.now) (length widths.now) node }
    requires widths { AreWordWidths widths.now }
    ensures { result ≡ helpers_of (slice_index widths.now) node }
{
    match node {
        Node::Add(a, _) => width_of(widths, a) - 1,
        Node::Sub(a, _) => width_of(widths, a) - 1,
        Node::Ult(a, _) => width_of(widths, a) - 1,
        Node::Slt(a, _) => width_of(widths, a) - 1,
        Node::Eq(a, _) => width_of(widths, a),
        Node::Mul(a, _) => product_helper_count(width_of(widths, a)),
        _ => 0,
    }
}
