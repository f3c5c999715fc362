//! The rules by which nodes are built.
ghost use Rattle.std.specs.Prelude.{◌≡◌, ℕ, ◌+◌, ◌-◌, ◌<◌, ◌^◌, ◌≤◌, ◌&&◌, List, length, slice_index, IfOk, IfSome, OnErr};
ghost use Rattle.std.specs.List.{AllByRecursion};
ghost use Rattle.node_values.specs.Nodes.{AreAlike, IsNode, arguments as arguments_of};
ghost use Rattle.node_values.specs.Sheets.{node_at};
ghost use Rattle.node_values.specs.declared.node.Node.{Node};
ghost use Rattle.node_values.specs.declared.node.Node.TheVariants as nodes_of;
ghost use Rattle.terms.specs.declared.rules.Reduced.TheVariants as reductions;
ghost use Rattle.terms.specs.Made.{IsEquality};
ghost use Rattle.terms.specs.Rules as rules;
ghost use Rattle.terms.specs.Sheet.{IsWidthList};

use insn_ops::Op;
use node_forms::{constant_difference, number};
use node_values::{Node, NodeId, arguments, operate, width};
use outcomes::Memory;
use scalar_ops::scalar;
use std::alloc::Global;

/// A node of the sheet, or a node that stands there where it is not there yet.
#[derive(Clone, Copy, Debug)]
pub enum Reduced {
    Old(NodeId),
    New(Node),
}

/// Which node of the list a node is, or which new one stands for it.
pub fn reduce(alloc: Global, nodes: &[Node], widths: &[u32], node: Node) -> Result<Reduced, Memory>
    requires list { IsWidthList nodes.now widths.now }
    requires node { IsNode (slice_index widths.now) (length nodes.now) node }
    ensures reduced { IfOk result (λ reduced. reduced ≡ rules.by_rules nodes.now (slice_index widths.now) node) }
    ensures memory { OnErr result (IsEquality node) }
{
    if is_folded(nodes, node) {
        return Ok(Reduced::New(fold(nodes, widths, node)));
    }
    Ok(match node {
        Node::Add(a, b) => sum(nodes, a, b),
        Node::Sub(a, b) => difference(nodes, widths, a, b),
        Node::Mul(a, b) => {
            let (a, b) = in_order(a, b);
            Reduced::New(Node::Mul(a, b))
        }
        Node::And(a, b) => and(nodes, widths, a, b),
        Node::Or(a, b) => or(nodes, a, b),
        Node::Xor(a, b) => xor(nodes, widths, a, b),
        Node::Cat(high, low) => join(nodes, widths, high, low),
        Node::Cut(a, k, n) => cut(nodes, widths, a, k, n),
        Node::Eq(a, b) => return equality(alloc, nodes, widths, a, b),
        Node::Ult(a, b) => below(nodes, a, b),
        Node::Slt(a, b) => signed_below(a, b),
        Node::If(c, a, b) => choice(nodes, c, a, b),
        Node::Const { .. }
        | Node::Reg { .. }
        | Node::Entry { .. }
        | Node::VecByte { .. }
        | Node::Start { .. }
        | Node::Probe
        | Node::Not(_)
        | Node::Shl(_, _)
        | Node::Shr(_, _)
        | Node::Sar(_, _)
        | Node::Sx(_, _) => Reduced::New(node),
    })
}

fn signed_below(a: NodeId, b: NodeId) -> Reduced
    ensures { (ns : List Node) (widths : ℕ → ℕ) → result ≡ rules.unfolded ns widths (nodes_of.Slt a b) }
{
    if a.0 == b.0 {
        Reduced::New(Node::Const { w: 1, v: 0 })
    } else {
        Reduced::New(Node::Slt(a, b))
    }
}

/// Whether a node is this number.
fn is_number(nodes: &[Node], v: u64, at: NodeId) -> bool
    requires { at.0 < length nodes.now }
    ensures { result ≡ rules.is_number nodes.now v at.0 }
{
    match number(nodes, at) {
        Some(n) => n == v,
        None => false,
    }
}

/// The number of a constant; 0 of every other node, and past the end.
fn number_or_zero(nodes: &[Node], at: u32) -> u64
    ensures { result ≡ rules.number_at nodes.now at }
{
    match nodes.get(at as usize) {
        Some(Node::Const { v, .. }) => *v,
        _ => 0,
    }
}

/// Whether a node has arguments, and all are constants; a byte of memory is no constant.
fn is_folded(nodes: &[Node], node: Node) -> bool
    requires { AllByRecursion (λ i. i < length nodes.now) (arguments_of node) }
    ensures { result ≡ rules.is_folded nodes.now node }
{
    match node {
        Node::Const { .. }
        | Node::Reg { .. }
        | Node::Entry { .. }
        | Node::VecByte { .. }
        | Node::Start { .. }
        | Node::Probe => false,
        Node::Not(a) => number(nodes, a).is_some(),
        Node::Shl(a, _) => number(nodes, a).is_some(),
        Node::Shr(a, _) => number(nodes, a).is_some(),
        Node::Sar(a, _) => number(nodes, a).is_some(),
        Node::Cut(a, _, _) => number(nodes, a).is_some(),
        Node::Sx(_, a) => number(nodes, a).is_some(),
        Node::Add(a, b) => are_constants(nodes, a, b),
        Node::Sub(a, b) => are_constants(nodes, a, b),
        Node::Mul(a, b) => are_constants(nodes, a, b),
        Node::And(a, b) => are_constants(nodes, a, b),
        Node::Or(a, b) => are_constants(nodes, a, b),
        Node::Xor(a, b) => are_constants(nodes, a, b),
        Node::Cat(a, b) => are_constants(nodes, a, b),
        Node::Eq(a, b) => are_constants(nodes, a, b),
        Node::Ult(a, b) => are_constants(nodes, a, b),
        Node::Slt(a, b) => are_constants(nodes, a, b),
        Node::If(c, a, b) => number(nodes, c).is_some() && are_constants(nodes, a, b),
    }
}

fn are_constants(nodes: &[Node], a: NodeId, b: NodeId) -> bool
    requires first { a.0 < length nodes.now }
    requires second { b.0 < length nodes.now }
    ensures { result ≡ (rules.is_constant nodes.now a.0 && rules.is_constant nodes.now b.0) }
{
    number(nodes, a).is_some() && number(nodes, b).is_some()
}

/// The constant that a node of constants is.
fn fold(nodes: &[Node], widths: &[u32], node: Node) -> Node
    requires list { IsWidthList nodes.now widths.now }
    requires node { IsNode (slice_index widths.now) (length nodes.now) node }
    ensures { result ≡ rules.folded nodes.now (slice_index widths.now) node }
{
    let [x, y, z] = arguments(node);
    let x = number_or_zero(nodes, x);
    let y = number_or_zero(nodes, y);
    let z = number_or_zero(nodes, z);
    Node::Const {
        w: width(node, widths),
        v: operate(node, widths, x, y, z),
    }
}

/// Of two nodes the one with the lower number, and the other.
fn in_order(a: NodeId, b: NodeId) -> (NodeId, NodeId)
    ensures { result ≡ rules.in_order a b }
{
    if a.0 <= b.0 { (a, b) } else { (b, a) }
}

fn sum(nodes: &[Node], a: NodeId, b: NodeId) -> Reduced
    requires first { a.0 < length nodes.now }
    requires second { b.0 < length nodes.now }
    ensures { (widths : ℕ → ℕ) → result ≡ rules.unfolded nodes.now widths (nodes_of.Add a b) }
{
    if is_number(nodes, 0, b) {
        Reduced::Old(a)
    } else if is_number(nodes, 0, a) {
        Reduced::Old(b)
    } else {
        let (a, b) = in_order(a, b);
        Reduced::New(Node::Add(a, b))
    }
}

fn difference(nodes: &[Node], widths: &[u32], a: NodeId, b: NodeId) -> Reduced
    requires count { length widths.now ≡ length nodes.now }
    requires first { a.0 < length nodes.now }
    requires second { b.0 < length nodes.now }
    ensures { result ≡ rules.unfolded nodes.now (slice_index widths.now) (nodes_of.Sub a b) }
{
    if is_number(nodes, 0, b) {
        Reduced::Old(a)
    } else if a.0 == b.0 {
        zero(widths[a.0 as usize])
    } else {
        Reduced::New(Node::Sub(a, b))
    }
}

/// The constant 0 of this width.
fn zero(w: u32) -> Reduced
    ensures { result ≡ reductions.New (nodes_of.Const w 0) }
{
    Reduced::New(Node::Const { w, v: 0 })
}

fn and(nodes: &[Node], widths: &[u32], a: NodeId, b: NodeId) -> Reduced
    requires list { IsWidthList nodes.now widths.now }
    requires first { a.0 < length nodes.now }
    requires second { b.0 < length nodes.now }
    ensures { result ≡ rules.unfolded nodes.now (slice_index widths.now) (nodes_of.And a b) }
{
    if is_number(nodes, ones(widths[b.0 as usize]), b) {
        Reduced::Old(a)
    } else if is_number(nodes, ones(widths[a.0 as usize]), a) {
        Reduced::Old(b)
    } else if is_number(nodes, 0, b) {
        Reduced::Old(b)
    } else if is_number(nodes, 0, a) || a.0 == b.0 {
        Reduced::Old(a)
    } else {
        let (a, b) = in_order(a, b);
        Reduced::New(Node::And(a, b))
    }
}

/// The greatest word of this width.
fn ones(w: u32) -> u64
    requires { (0 < w) × (w ≤ 64) }
    ensures { result ≡ 2 ^ w - 1 }
{
    scalar(Op::Not, w, 0, 0)
}

fn or(nodes: &[Node], a: NodeId, b: NodeId) -> Reduced
    requires first { a.0 < length nodes.now }
    requires second { b.0 < length nodes.now }
    ensures { (widths : ℕ → ℕ) → result ≡ rules.unfolded nodes.now widths (nodes_of.Or a b) }
{
    if is_number(nodes, 0, b) {
        Reduced::Old(a)
    } else if is_number(nodes, 0, a) {
        Reduced::Old(b)
    } else if a.0 == b.0 {
        Reduced::Old(a)
    } else {
        let (a, b) = in_order(a, b);
        Reduced::New(Node::Or(a, b))
    }
}

fn xor(nodes: &[Node], widths: &[u32], a: NodeId, b: NodeId) -> Reduced
    requires count { length widths.now ≡ length nodes.now }
    requires first { a.0 < length nodes.now }
    requires second { b.0 < length nodes.now }
    ensures { result ≡ rules.unfolded nodes.now (slice_index widths.now) (nodes_of.Xor a b) }
{
    if is_number(nodes, 0, b) {
        Reduced::Old(a)
    } else if is_number(nodes, 0, a) {
        Reduced::Old(b)
    } else if a.0 == b.0 {
        zero(widths[a.0 as usize])
    } else {
        let (a, b) = in_order(a, b);
        Reduced::New(Node::Xor(a, b))
    }
}

fn below(nodes: &[Node], a: NodeId, b: NodeId) -> Reduced
    requires { b.0 < length nodes.now }
    ensures { (widths : ℕ → ℕ) → result ≡ rules.unfolded nodes.now widths (nodes_of.Ult a b) }
{
    if a.0 == b.0 || is_number(nodes, 0, b) {
        Reduced::New(Node::Const { w: 1, v: 0 })
    } else {
        Reduced::New(Node::Ult(a, b))
    }
}

fn choice(nodes: &[Node], c: NodeId, a: NodeId, b: NodeId) -> Reduced
    requires { c.0 < length nodes.now }
    ensures { (widths : ℕ → ℕ) → result ≡ rules.unfolded nodes.now widths (nodes_of.If c a b) }
{
    match number(nodes, c) {
        Some(0) => Reduced::Old(b),
        Some(_) => Reduced::Old(a),
        None if a.0 == b.0 => Reduced::Old(a),
        None => Reduced::New(Node::If(c, a, b)),
    }
}

fn equality(
    alloc: Global,
    nodes: &[Node],
    widths: &[u32],
    a: NodeId,
    b: NodeId,
) -> Result<Reduced, Memory>
    requires list { IsWidthList nodes.now widths.now }
    requires alike { AreAlike (slice_index widths.now) (length nodes.now) a.0 b.0 }
    ensures { IfOk result (λ reduced. reduced ≡ rules.unfolded nodes.now (slice_index widths.now) (nodes_of.Eq a b)) }
{
    Ok(match constant_difference(alloc, nodes, widths, a, b)? {
        Some(c) => Reduced::New(Node::Const {
            w: 1,
            v: if c == 0 { 1 } else { 0 },
        }),
        None => {
            let (a, b) = in_order(a, b);
            Reduced::New(Node::Eq(a, b))
        }
    })
}

/// A join of two adjacent cuts of one node is one cut of it.
fn join(nodes: &[Node], widths: &[u32], high: NodeId, low: NodeId) -> Reduced
    requires list { IsWidthList nodes.now widths.now }
    requires node { IsNode (slice_index widths.now) (length nodes.now) (nodes_of.Cat high low) }
    ensures { result ≡ rules.unfolded nodes.now (slice_index widths.now) (nodes_of.Cat high low) }
{
    let (a, i, m) = part_of(nodes, widths, high);
    let (b, j, n) = part_of(nodes, widths, low);
    if a.0 == b.0 && i == j + n {
        cut(nodes, widths, b, j, n + m)
    } else {
        Reduced::New(Node::Cat(high, low))
    }
}

/// The node, the first bit and the number of bits that a node is a cut of.
#[tactic(auto, using(crate::proofs::WidthFacts::list_ranged))]
fn part_of(nodes: &[Node], widths: &[u32], at: NodeId) -> (NodeId, u32, u32)
    requires list { IsWidthList nodes.now widths.now }
    requires place { at.0 < length nodes.now }
    ensures part { result ≡ rules.part_of nodes.now (slice_index widths.now) at (node_at nodes.now at.0) }
    ensures place { result.0.0 < length nodes.now }
    ensures some { 0 < result.2 }
    ensures within { result.1 + result.2 ≤ slice_index widths.now result.0.0 }
    ensures within_64 { result.1 + result.2 ≤ 64 }
{
    match as_cut(nodes, widths, at) {
        Some(part) => part,
        None => (at, 0, widths[at.0 as usize]),
    }
}

/// What a node that is a cut cuts.
fn as_cut(nodes: &[Node], widths: &[u32], at: NodeId) -> Option<(NodeId, u32, u32)>
    requires list { IsWidthList nodes.now widths.now }
    requires place { at.0 < length nodes.now }
    ensures cut { result ≡ rules.cut_of (node_at nodes.now at.0) }
    ensures node { IfSome result (λ part. IsNode (slice_index widths.now) at.0 (nodes_of.Cut part.0 part.1 part.2)) }
{
    match nodes[at.0 as usize] {
        Node::Cut(a, k, n) => Some((a, k, n)),
        _ => None,
    }
}

/// The `n` bits of a node from bit `k` on.
fn cut(nodes: &[Node], widths: &[u32], a: NodeId, k: u32, n: u32) -> Reduced
    requires list { IsWidthList nodes.now widths.now }
    requires cut { IsNode (slice_index widths.now) (length nodes.now) (nodes_of.Cut a k n) }
    ensures { result ≡ rules.cut_at nodes.now (slice_index widths.now) a.0 k n }
{
    if let Some(v) = number(nodes, a) {
        return Reduced::New(Node::Const {
            w: n,
            v: scalar(Op::Lea, n, 0, v >> k),
        });
    }
    if k == 0 && n == widths[a.0 as usize] {
        return Reduced::Old(a);
    }
    match inner(nodes, widths, a, k, n) {
        None => Reduced::New(Node::Cut(a, k, n)),
        Some(part) => cut(nodes, widths, part.0, part.1, n),
    }
}

/// What a cut of a cut, or of one part of a join, is a cut of.
fn inner(nodes: &[Node], widths: &[u32], a: NodeId, k: u32, n: u32) -> Option<(NodeId, u32)>
    requires list { IsWidthList nodes.now widths.now }
    requires cut { IsNode (slice_index widths.now) (length nodes.now) (nodes_of.Cut a k n) }
    ensures part { result ≡ rules.inner nodes.now (slice_index widths.now) (node_at nodes.now a.0) k n }
    ensures within { IfSome result (λ part. IsNode (slice_index widths.now) a.0 (nodes_of.Cut part.0 part.1 n)) }
{
    let node = nodes[a.0 as usize];
    match node {
        Node::Cut(b, j, _) => Some((b, j + k)),
        Node::Cat(high, low) => {
            let bits = widths[low.0 as usize];
            if k + n <= bits {
                Some((low, k))
            } else if bits <= k {
                Some((high, k - bits))
            } else {
                None
            }
        }
        _ => None,
    }
}
