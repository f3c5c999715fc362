//! Whether a duty is known to be whole.
ghost use Rattle.std.specs.Prelude.{◌≡◌, ◌≢◌, ◌<◌, [], ◌∷◌, IfOk, IfSome, IsTrue, MatchBool, length, map};
ghost use Rattle.std.specs.List.{AllByRecursion};
ghost use Rattle.node_values.specs.Sheets.{node_at};
ghost use Rattle.node_values.specs.declared.node.Node.TheVariants as nodes;
ghost use Rattle.duty_claims.specs.Needs as needs;
ghost use Rattle.duty_claims.specs.Whole.{IsInLines, IsLine, IsNodeOf, IsSameAt, IsWhole, IsWholePair};
ghost use Rattle.duty_trials.specs.Trials.{IsByteAt, SaysEquality, SaysInLines};

use crate::building::Built;
use crate::bytes::{bytes_of, each_two, need_no_byte, needs_only_of};
use duty_claims::{Duty, StartPair};
use insn_ops::Side;
use node_values::{Node, NodeId};
use outcomes::Memory;
use std::alloc::Global;

/// Whether a duty over a sheet is known to be whole: its hypotheses and goals are nodes of one bit, its pairs are those
/// that a `Trial` makes, and it has at most one scratch line.
pub(crate) fn is_whole(alloc: Global, built: &Built, duty: &Duty) -> Result<bool, Memory>
    requires { duty.now.sheet.now ≡ built.now.sheet }
    ensures { IfOk result (λ whole. IsTrue whole → IsWhole duty.now) }
{
    if !are_bits(built, duty.hyps)
        || !is_node_of(built, 1, duty.goal)
        || !are_bits(built, duty.more)
    {
        return Ok(false);
    }
    let bytes = bytes_of(alloc, built)?;
    let two = each_two(alloc, bytes.as_slice())?;
    if !are_pairs_of(duty.pairs, two.as_slice()) || !are_lines(alloc, built, duty.scratch)? {
        return Ok(false);
    }
    are_whole_pairs(alloc, built, duty.scratch, duty.pairs)
}

/// Whether these are nodes of one bit.
fn are_bits(built: &Built, nodes: &[NodeId]) -> bool
    ensures { IsTrue result → AllByRecursion (IsNodeOf built.now.sheet 1) nodes.now }
{
    for node in nodes {
        if !is_node_of(built, 1, *node) {
            return false;
        }
    }
    true
}

/// Whether there is a node of this number, of this width.
fn is_node_of(built: &Built, w: u32, node: NodeId) -> bool
    ensures { IsTrue result → IsNodeOf built.now.sheet w node }
{
    (node.0 as usize) < built.nodes.len() && built.sheet.width(node) == w
}

/// Whether pairs are those of these bytes.
fn are_pairs_of(pairs: &[StartPair], two: &[(u32, u32)]) -> bool
    ensures { IsTrue result → map (λ p. (p.m.0, p.n.0)) pairs.now ≡ two.now }
{
    if pairs.len() != two.len() {
        return false;
    }
    for i in 0..pairs.len() {
        let (m, n) = two[i];
        if pairs[i].m.0 != m || pairs[i].n.0 != n {
            return false;
        }
    }
    true
}

/// Whether scratch lines need no byte of memory.
fn are_lines(alloc: Global, built: &Built, scratch: &[(NodeId, NodeId)]) -> Result<bool, Memory>
    ensures { IfOk result (λ yes. IsTrue yes → AllByRecursion (IsLine built.now.sheet) scratch.now) }
{
    for line in scratch {
        if !is_line(alloc, built, *line)? {
            return Ok(false);
        }
    }
    Ok(true)
}

/// Whether a scratch line needs no byte of memory.
fn is_line(alloc: Global, built: &Built, line: (NodeId, NodeId)) -> Result<bool, Memory>
    ensures { IfOk result (λ yes. IsTrue yes → IsLine built.now.sheet line) }
{
    let (base, len) = line;
    if !is_node_of(built, 64, base) || !is_node_of(built, 64, len) {
        return Ok(false);
    }
    need_no_byte(alloc, built, base, len)
}

/// Whether pairs have their nodes.
fn are_whole_pairs(
    alloc: Global,
    built: &Built,
    scratch: &[(NodeId, NodeId)],
    pairs: &[StartPair],
) -> Result<bool, Memory>
    ensures { IfOk result (λ yes. IsTrue yes → AllByRecursion (IsWholePair built.now.sheet scratch.now) pairs.now) }
{
    for pair in pairs {
        if !is_whole_pair(alloc, built, scratch, *pair)? {
            return Ok(false);
        }
    }
    Ok(true)
}

/// Whether a pair has its nodes.
fn is_whole_pair(
    alloc: Global,
    built: &Built,
    scratch: &[(NodeId, NodeId)],
    pair: StartPair,
) -> Result<bool, Memory>
    ensures { IfOk result (λ yes. IsTrue yes → IsWholePair built.now.sheet scratch.now pair) }
{
    built.sheet.in_order();
    let (Some(a), Some(b)) = (address_of(built, pair.m), address_of(built, pair.n)) else {
        return Ok(false);
    };
    if !is_same_at(alloc, built, pair, a, b)? {
        return Ok(false);
    }
    let one_side = is_same_side(side_of(built, pair.m), side_of(built, pair.n));
    match pair.scratch {
        None => Ok(one_side),
        Some(node) => Ok(!one_side && is_in_lines(alloc, built, scratch, pair, node, a, b)?),
    }
}

/// Whether the node of a pair at these addresses says whether they are equal.
fn is_same_at(
    alloc: Global,
    built: &Built,
    pair: StartPair,
    a: NodeId,
    b: NodeId,
) -> Result<bool, Memory>
    requires first { IsByteAt built.now.sheet pair.m a }
    requires second { IsByteAt built.now.sheet pair.n b }
    ensures { IfOk result (λ yes. IsTrue yes → IsSameAt built.now.sheet pair.m.0 pair.n.0 pair.same_at) }
{
    if !is_node_of(built, 1, pair.same_at) || !says_equality(built, pair.same_at, a, b) {
        return Ok(false);
    }
    needs_only_of(alloc, built, pair.same_at, a, b)
}

/// Whether a node says whether two others are equal.
fn says_equality(built: &Built, node: NodeId, a: NodeId, b: NodeId) -> bool
    requires { node.0 < length built.now.sheet }
    ensures { IsTrue result → SaysEquality built.now.sheet a.0 b.0 node.0 }
{
    built.sheet.in_order();
    let found = built.sheet.node(node);
    if is_equality(found, a, b) {
        return true;
    }
    if is_equality(found, b, a) {
        return true;
    }
    if a.0 != b.0 {
        return false;
    }
    is_one(found)
}

/// Whether a node is the equality of these.
fn is_equality(node: Node, a: NodeId, b: NodeId) -> bool
    ensures { IsTrue result → node ≡ nodes.Eq a b }
{
    match node {
        Node::Eq(x, y) => x.0 == a.0 && y.0 == b.0,
        _ => false,
    }
}

/// Whether a node is the constant 1 of one bit.
fn is_one(node: Node) -> bool
    ensures { IsTrue result → node ≡ nodes.Const 1 1 }
{
    match node {
        Node::Const { w: 1, v: 1 } => true,
        _ => false,
    }
}

/// Whether a node says whether the first address of a pair lies in a scratch line.
fn is_in_lines(
    alloc: Global,
    built: &Built,
    scratch: &[(NodeId, NodeId)],
    pair: StartPair,
    node: NodeId,
    a: NodeId,
    b: NodeId,
) -> Result<bool, Memory>
    requires first { IsByteAt built.now.sheet pair.m a }
    requires second { IsByteAt built.now.sheet pair.n b }
    ensures { IfOk result (λ yes. IsTrue yes → IsInLines built.now.sheet scratch.now pair.m.0 pair.n.0 node) }
{
    if !is_node_of(built, 1, node) || !says_in_lines(built, scratch, node, a) {
        return Ok(false);
    }
    needs_only_of(alloc, built, node, a, b)
}

/// Whether a node says whether an address lies in a scratch line, of which there is at most one.
fn says_in_lines(built: &Built, scratch: &[(NodeId, NodeId)], node: NodeId, address: NodeId) -> bool
    requires node { node.0 < length built.now.sheet }
    requires address { IsNodeOf built.now.sheet 64 address }
    ensures { IsTrue result → SaysInLines built.now.sheet scratch.now address.0 node.0 }
{
    built.sheet.in_order();
    match scratch {
        [] => is_zero(built.sheet.node(node)),
        [(base, len)] => says_in_line(built, *base, *len, node, address),
        _ => false,
    }
}

/// Whether a node says whether an address lies in a scratch line.
fn says_in_line(built: &Built, base: NodeId, len: NodeId, node: NodeId, address: NodeId) -> bool
    requires node { node.0 < length built.now.sheet }
    requires address { IsNodeOf built.now.sheet 64 address }
    ensures { IsTrue result → SaysInLines built.now.sheet ((base, len) ∷ []) address.0 node.0 }
{
    built.sheet.in_order();
    match built.sheet.node(node) {
        Node::Ult(behind, end) => {
            end.0 == len.0 && is_difference(built.sheet.node(behind), address, base)
        }
        _ => false,
    }
}

/// Whether a node is the difference of these.
fn is_difference(node: Node, a: NodeId, b: NodeId) -> bool
    ensures { IsTrue result → node ≡ nodes.Sub a b }
{
    match node {
        Node::Sub(x, y) => x.0 == a.0 && y.0 == b.0,
        _ => false,
    }
}

/// Whether a node is the constant 0 of one bit.
fn is_zero(node: Node) -> bool
    ensures { IsTrue result → node ≡ nodes.Const 1 0 }
{
    match node {
        Node::Const { w: 1, v: 0 } => true,
        _ => false,
    }
}

/// Whether two sides are the same.
pub(crate) fn is_same_side(a: Side, b: Side) -> bool
    ensures { MatchBool result (a ≡ b) (a ≢ b) }
{
    match (a, b) {
        (Side::Left, Side::Left) | (Side::Right, Side::Right) => true,
        _ => false,
    }
}

/// The address of a byte of memory.
pub(crate) fn address_of(built: &Built, node: NodeId) -> Option<NodeId>
    ensures { IfSome result (IsByteAt built.now.sheet node) }
{
    built.sheet.in_order();
    if node.0 as usize >= built.nodes.len() {
        return None;
    }
    match built.sheet.node(node) {
        Node::Start { at, .. } => Some(at),
        _ => None,
    }
}

/// The side of a byte of memory, the left for another node.
pub(crate) fn side_of(built: &Built, node: NodeId) -> Side
    ensures { result ≡ needs.side_of (node_at built.now.sheet node.0) }
{
    if node.0 as usize >= built.nodes.len() {
        return Side::Left;
    }
    match built.sheet.node(node) {
        Node::Start { side, .. } => side,
        _ => Side::Left,
    }
}
