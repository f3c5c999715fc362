//! How the low bits of a node come from those of its arguments.
ghost use Rattle.std.specs.Prelude.{◌≡◌, ℕ, ◌<◌, ◌^◌, ◌≤◌, length, slice_index};
ghost use Rattle.node_forms.specs.Linearity.{constant_of, linearity, low_bits_of as low_bits};
ghost use Rattle.node_values.specs.Nodes.{AreWordWidths, IsNode};
ghost use Rattle.node_values.specs.Sheets.{node_at};

use node_values::{Node, NodeId};

/// How the low w bits of a node come from those of its arguments, modulo 2^w.
#[derive(Clone, Copy, Debug, PartialEq, Eq)]
pub enum Linear {
    /// As no sum.
    Atom,
    /// A number.
    Number(u64),
    /// A node's, times a number.
    Times(NodeId, u64),
    /// The sum of two nodes'.
    Plus(NodeId, NodeId),
    /// The difference of two nodes'.
    Minus(NodeId, NodeId),
}

/// How the low `w` bits of a node come from those of its arguments.
pub fn linearity_of(nodes: &[Node], widths: &[u32], w: u32, node: Node) -> Linear
    requires count { length widths.now ≡ length nodes.now }
    requires widths { AreWordWidths widths.now }
    requires node { IsNode (slice_index widths.now) (length widths.now) node }
    ensures { result ≡ linearity nodes.now (slice_index widths.now) w node }
{
    match node {
        Node::Const { v, .. } => Linear::Number(v),
        Node::Add(a, b) => Linear::Plus(a, b),
        Node::Sub(a, b) => Linear::Minus(a, b),
        Node::Mul(a, b) => match (number(nodes, a), number(nodes, b)) {
            (_, Some(v)) => Linear::Times(a, v),
            (Some(v), None) => Linear::Times(b, v),
            (None, None) => Linear::Atom,
        },
        Node::Shl(a, k) => Linear::Times(a, 1 << k),
        Node::Cut(a, 0, _) => low_bits_of(w, widths[a.0 as usize], a),
        Node::Sx(_, a) => low_bits_of(w, widths[a.0 as usize], a),
        Node::Cat(_, low) => low_bits_of(w, widths[low.0 as usize], low),
        _ => Linear::Atom,
    }
}

/// The number of a node that is a constant.
pub fn number(nodes: &[Node], at: NodeId) -> Option<u64>
    requires { at.0 < length nodes.now }
    ensures { result ≡ constant_of (node_at nodes.now at.0) }
{
    match nodes[at.0 as usize] {
        Node::Const { v, .. } => Some(v),
        _ => None,
    }
}

/// The low `w` bits of a node of this width, where it has as many.
fn low_bits_of(w: u32, width: u32, a: NodeId) -> Linear
    ensures { result ≡ low_bits w width a }
{
    if w <= width {
        Linear::Times(a, 1)
    } else {
        Linear::Atom
    }
}
