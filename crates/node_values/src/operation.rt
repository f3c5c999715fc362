//! The operators, on the values of the arguments.
ghost use Rattle.std.specs.Prelude.{◌≡◌, ℕ, ◌+◌, ◌<◌, ◌^◌, ◌≤◌, length, slice_index};
ghost use Rattle.insn_semantics.specs.Words as words;
ghost use Rattle.node_values.specs.Nodes.{AreWordWidths, IsNode, arguments as argument_list, node_width};
ghost use Rattle.node_values.specs.Values.{operation};

use crate::node::Node;
use insn_ops::Op;
use scalar_ops::scalar;

/// The numbers of a node's arguments, in order, and 0 where it has fewer than three.
pub fn arguments(node: Node) -> [u32; 3]
    ensures first { slice_index result 0 ≡ slice_index (argument_list node) 0 }
    ensures second { slice_index result 1 ≡ slice_index (argument_list node) 1 }
    ensures third { slice_index result 2 ≡ slice_index (argument_list node) 2 }
{
    match node {
        Node::Const { .. }
        | Node::Reg { .. }
        | Node::Entry { .. }
        | Node::VecByte { .. }
        | Node::Probe => [0, 0, 0],
        Node::Start { at, .. } => [at.0, 0, 0],
        Node::Add(a, b) => [a.0, b.0, 0],
        Node::Sub(a, b) => [a.0, b.0, 0],
        Node::Mul(a, b) => [a.0, b.0, 0],
        Node::And(a, b) => [a.0, b.0, 0],
        Node::Or(a, b) => [a.0, b.0, 0],
        Node::Xor(a, b) => [a.0, b.0, 0],
        Node::Cat(a, b) => [a.0, b.0, 0],
        Node::Eq(a, b) => [a.0, b.0, 0],
        Node::Ult(a, b) => [a.0, b.0, 0],
        Node::Slt(a, b) => [a.0, b.0, 0],
        Node::Not(a) => [a.0, 0, 0],
        Node::Shl(a, _) => [a.0, 0, 0],
        Node::Shr(a, _) => [a.0, 0, 0],
        Node::Sar(a, _) => [a.0, 0, 0],
        Node::Cut(a, _, _) => [a.0, 0, 0],
        Node::Sx(_, a) => [a.0, 0, 0],
        Node::If(c, a, b) => [c.0, a.0, b.0],
    }
}

/// The width of a node, from the widths of the nodes before it.
pub fn width(node: Node, widths: &[u32]) -> u32
    requires node { IsNode (slice_index widths.now) (length widths.now) node }
    requires widths { AreWordWidths widths.now }
    ensures { result ≡ node_width (slice_index widths.now) node }
{
    match node {
        Node::Const { w, .. } => w,
        Node::Reg { .. } | Node::Entry { .. } | Node::Probe => 64,
        Node::VecByte { .. } | Node::Start { .. } => 8,
        Node::Eq(_, _) | Node::Ult(_, _) | Node::Slt(_, _) => 1,
        Node::Cut(_, _, n) => n,
        Node::Sx(n, _) => n,
        Node::Cat(high, low) => widths[high.0 as usize] + widths[low.0 as usize],
        Node::Add(a, _) => widths[a.0 as usize],
        Node::Sub(a, _) => widths[a.0 as usize],
        Node::Mul(a, _) => widths[a.0 as usize],
        Node::And(a, _) => widths[a.0 as usize],
        Node::Or(a, _) => widths[a.0 as usize],
        Node::Xor(a, _) => widths[a.0 as usize],
        Node::Not(a) => widths[a.0 as usize],
        Node::Shl(a, _) => widths[a.0 as usize],
        Node::Shr(a, _) => widths[a.0 as usize],
        Node::Sar(a, _) => widths[a.0 as usize],
        Node::If(_, a, _) => widths[a.0 as usize],
    }
}

/// A test as a word of one bit.
fn bit(holds: bool) -> u64
    ensures { result ≡ words.bit holds }
{
    if holds { 1 } else { 0 }
}

/// The `m` bits of one word in front of the `n` bits of another.
fn join(m: u32, n: u32, high: u64, low: u64) -> u64
    requires widths { (0 < m) × (m + n ≤ 64) }
    requires high { high < 2 ^ m }
    requires low { low < 2 ^ n }
    ensures { result ≡ words.concatenation n high low }
{
    (high << n) + low
}

/// Whether a word is below another by the sign.
fn is_less(width: u32, x: u64, y: u64) -> u64
    requires width { (0 < width) × (width < 65) }
    requires first { x < 2 ^ width }
    requires second { y < 2 ^ width }
    ensures { result ≡ words.signed_below width x y }
{
    let sign = 1 << (width - 1);
    bit(scalar(Op::Add, width, x, sign) < scalar(Op::Add, width, y, sign))
}

/// The value of a node that reads nothing but its arguments, whose values are `x`, `y` and `z`.
pub fn operate(node: Node, widths: &[u32], x: u64, y: u64, z: u64) -> u64
    requires node { IsNode (slice_index widths.now) (length widths.now) node }
    requires widths { AreWordWidths widths.now }
    requires first { x < 2 ^ slice_index widths.now (slice_index (argument_list node) 0) }
    requires second { y < 2 ^ slice_index widths.now (slice_index (argument_list node) 1) }
    requires third { z < 2 ^ slice_index widths.now (slice_index (argument_list node) 2) }
    ensures { result ≡ operation (slice_index widths.now) node x y z }
{
    match node {
        Node::Const { v, .. } => v,
        Node::Add(a, _) => scalar(Op::Add, widths[a.0 as usize], x, y),
        Node::Sub(a, _) => scalar(Op::Sub, widths[a.0 as usize], x, y),
        Node::Mul(a, _) => scalar(Op::Imul, widths[a.0 as usize], x, y),
        Node::And(_, _) => x & y,
        Node::Or(_, _) => x | y,
        Node::Xor(_, _) => x ^ y,
        Node::Not(a) => scalar(Op::Not, widths[a.0 as usize], x, 0),
        Node::Shl(a, k) => scalar(Op::Shl, widths[a.0 as usize], x, k as u64),
        Node::Shr(a, k) => scalar(Op::Shr, widths[a.0 as usize], x, k as u64),
        Node::Sar(a, k) => scalar(Op::Sar, widths[a.0 as usize], x, k as u64),
        Node::Cat(high, low) => join(widths[high.0 as usize], widths[low.0 as usize], x, y),
        Node::Cut(_, k, n) => scalar(Op::Lea, n, 0, x >> k),
        Node::Sx(n, a) => scalar(Op::Movsx(widths[a.0 as usize]), n, 0, x),
        Node::Eq(_, _) => bit(x == y),
        Node::Ult(_, _) => bit(x < y),
        Node::Slt(a, _) => is_less(widths[a.0 as usize], x, y),
        Node::If(_, _, _) => if x == 0 { z } else { y },
        _ => 0,
    }
}
