//! Sheets whose nodes are tried before they are built.
ghost use Rattle.std.specs.Prelude.{◌≡◌, ◌+◌, ◌<◌, ◌≤◌, ◌^◌, length, IsTrue};
ghost use Rattle.node_values.specs.Nodes.{AreAlike, IsNode};
ghost use Rattle.node_values.specs.Sheets.{width_at};

use node_values::{Node, NodeId};
use std::alloc::Global;
use std::process::Abort;
use std::test::Fail;
use terms::{Sheet, SheetFull};

/// A sheet, and above which numbers no node has been seen.
#[derive(Drop)]
pub struct Trial {
    pub sheet: Sheet,
    pub seen: u32,
    ghost within: { seen ≤ length sheet },
}

impl Trial {
    ghost use Rattle.std.specs.Prelude.{◌≡◌, ◌<◌, ◌≤◌, length, IsTrue};
    ghost use Rattle.node_values.specs.Nodes.{AreAlike, IsNode};
    ghost use Rattle.node_values.specs.Sheets.{width_at};

    /// The sheet without nodes.
    pub(crate) fn new(alloc: Global) -> Trial {
        Trial {
            sheet: Sheet::new(alloc),
            seen: 0,
        }
    }

    /// Whether a node of this number has been seen.
    pub fn has(&self, a: NodeId) -> bool
        ensures { IsTrue result → a.0 < length self.now.sheet }
    {
        a.0 < self.seen
    }

    /// Whether a node has this width.
    pub fn has_width(&self, a: NodeId, w: u32) -> bool
        ensures { IsTrue result → (a.0 < length self.now.sheet) × (width_at self.now.sheet a.0 ≡ w) }
    {
        self.has(a) && self.sheet.width(a) == w
    }

    /// Whether a node has at least this many bits.
    pub fn has_bits(&self, a: NodeId, w: u32) -> bool
        ensures { IsTrue result → (a.0 < length self.now.sheet) × (w ≤ width_at self.now.sheet a.0) }
    {
        self.has(a) && self.sheet.width(a) >= w
    }

    /// Whether two nodes have one width.
    fn are_alike(&self, a: NodeId, b: NodeId) -> bool
        ensures { IsTrue result → AreAlike (width_at self.now.sheet) (length self.now.sheet) a.0 b.0 }
    {
        self.has(a) && self.has(b) && self.sheet.width(a) == self.sheet.width(b)
    }

    /// Whether a node may be shifted by so many bits.
    fn is_shift(&self, a: NodeId, k: u32) -> bool
        ensures { IsTrue result → (a.0 < length self.now.sheet) × (0 < k) × (k < width_at self.now.sheet a.0) }
    {
        self.has(a) && 0 < k && k < self.sheet.width(a)
    }

    /// Whether a node has these bits.
    fn is_cut(&self, a: NodeId, k: u32, n: u32) -> bool
        ensures { IsTrue result → IsNode (width_at self.now.sheet) (length self.now.sheet) (Node.Cut a k n) }
    {
        self.has(a) && 0 < n && k as u64 + n as u64 <= self.sheet.width(a) as u64
    }

    /// Whether two nodes are at most 64 bits together.
    fn is_join(&self, high: NodeId, low: NodeId) -> bool
        ensures { IsTrue result → IsNode (width_at self.now.sheet) (length self.now.sheet) (Node.Cat high low) }
    {
        self.has(high)
            && self.has(low)
            && self.sheet.width(high) as u64 + self.sheet.width(low) as u64 <= 64
    }

    /// Whether a node extends by the sign to so many bits.
    fn is_extension(&self, n: u32, a: NodeId) -> bool
        ensures { IsTrue result → IsNode (width_at self.now.sheet) (length self.now.sheet) (Node.Sx n a) }
    {
        self.has(a) && self.sheet.width(a) < n && n <= 64
    }

    /// Whether a node is one over those that have been seen.
    pub fn fits(&self, node: Node) -> bool
        ensures { IsTrue result → IsNode (width_at self.now.sheet) (length self.now.sheet) node }
    {
        match node {
            Node::Const { w, v } => is_word(w, v),
            Node::Reg { n, .. } => n < 16,
            Node::Entry { n } => n < 16,
            Node::VecByte { n, i, .. } => n < 16 && i < 32,
            Node::Start { at, .. } => self.has_width(at, 64),
            Node::Probe => true,
            Node::Add(a, b) => self.are_alike(a, b),
            Node::Sub(a, b) => self.are_alike(a, b),
            Node::Mul(a, b) => self.are_alike(a, b),
            Node::And(a, b) => self.are_alike(a, b),
            Node::Or(a, b) => self.are_alike(a, b),
            Node::Xor(a, b) => self.are_alike(a, b),
            Node::Not(a) => self.has(a),
            Node::Shl(a, k) => self.is_shift(a, k),
            Node::Shr(a, k) => self.is_shift(a, k),
            Node::Sar(a, k) => self.is_shift(a, k),
            Node::Cat(high, low) => self.is_join(high, low),
            Node::Cut(a, k, n) => self.is_cut(a, k, n),
            Node::Sx(n, a) => self.is_extension(n, a),
            Node::Eq(a, b) => self.are_alike(a, b),
            Node::Ult(a, b) => self.are_alike(a, b),
            Node::Slt(a, b) => self.are_alike(a, b),
            Node::If(c, a, b) => self.has_width(c, 1) && self.are_alike(a, b),
        }
    }

    /// Builds a node, where it is one over those that have been seen.
    pub(crate) fn build(&mut self, rt: &impl Abort, node: Node) -> Result<NodeId, SheetFull> {
        assert!(rt; self.fits(node), "{node:?} is no node here");
        let id = self.sheet.build(node)?;
        self.sheet.in_order();
        if self.seen <= id.0 {
            self.seen = id.0 + 1;
        }
        Ok(id)
    }

    /// Builds nodes one after another, each of which gets the number beside it.
    pub(crate) fn build_all(&mut self, rt: &impl Abort, rows: &[(Node, u32)]) -> Result<(), Fail> {
        for (at, (node, number)) in rows.iter().enumerate() {
            let id = self.build(rt, *node)?;
            assert_eq!(rt; id, NodeId(*number), "row {at}: {node:?}");
        }
        Ok(())
    }
}

/// Whether a number is a word of this width.
fn is_word(w: u32, v: u64) -> bool
    ensures { IsTrue result → (0 < w) × (w ≤ 64) × (v < 2 ^ w) }
{
    0 < w && (w == 64 || w < 64 && v < 1 << w)
}
