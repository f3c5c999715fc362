//! Environments: what nodes read.
ghost use Rattle.std.specs.Prelude.{◌≡◌, ℕ, ◌%◌, ◌<◌, ◌^◌, ◌≤◌, length, slice_index};
ghost use Rattle.insn_ops.specs.declared.side.Side.{Side};
ghost use Rattle.node_values.specs.Environments.{environment_of, first_byte, of_side};
ghost use Rattle.node_values.specs.Nodes.{AreWordWidths, IsNode, node_width};
ghost use Rattle.node_values.specs.Values.{node_value};

use crate::node::Node;
use crate::operation::{arguments, operate};
use insn_ops::Side;
use lane_views::Bytes32;
use sqlite_items::Items;

/// A value for each side.
#[derive(Debug, Drop)]
pub struct Both<T> {
    pub left: T,
    pub right: T,
}

impl<T> Both<T> {
    /// The value of a side.
    pub fn of(&self, side: Side) -> &T
        ensures { result.now ≡ of_side self.now side }
    {
        match side {
            Side::Left => &self.left,
            Side::Right => &self.right,
        }
    }
}

/// The registers, vectors and memories of both sides, the registers at the entry, and the probe.
/// An address stands at most once in a list, and a byte that is not listed is 0.
#[derive(Debug, Drop)]
pub struct Env {
    pub regs: Both<[u64; 16]>,
    pub entry: [u64; 16],
    pub vecs: Both<[Bytes32; 16]>,
    pub mem: Both<Items<(u64, u8)>>,
    pub probe: u64,
}

impl Env {
    /// The value of a node, from the widths and the values of the nodes before it.
    pub fn value(&self, node: Node, widths: &[u32], values: &[u64]) -> u64
        requires node { IsNode (slice_index widths.now) (length widths.now) node }
        requires widths { AreWordWidths widths.now }
        requires values { (i : ℕ) → slice_index values.now i < 2 ^ slice_index widths.now i }
        ensures { result ≡ node_value (environment_of self.now) (slice_index widths.now) (slice_index values.now) node }
    {
        match node {
            Node::Reg { side, n } => self.regs.of(side)[n as usize],
            Node::Entry { n } => self.entry[n as usize],
            Node::VecByte { side, n, i } => self.vecs.of(side)[n as usize].bytes[i as usize] as u64,
            Node::Start { side, at } => {
                byte_at(self.mem.of(side).as_slice(), item(values, at.0)) as u64
            }
            Node::Probe => low_64(self.probe),
            _ => {
                let [x, y, z] = arguments(node);
                operate(
                    node,
                    widths,
                    item(values, x),
                    item(values, y),
                    item(values, z),
                )
            }
        }
    }
}

/// A number of 64 bits has no others.
fn low_64(n: u64) -> u64
    ensures { result ≡ n % 2 ^ 64 }
{
    n
}

/// The value of this number, 0 past the end.
fn item(values: &[u64], i: u32) -> u64
    ensures { result ≡ slice_index values.now i }
{
    values.get(i as usize).copied().unwrap_or(0)
}

/// The byte that is listed first at an address, 0 where none is.
fn byte_at(listed: &[(u64, u8)], address: u64) -> u8
    ensures { result ≡ first_byte listed.now address }
{
    for (at, byte) in listed {
        if *at == address {
            return *byte;
        }
    }
    0
}
