//! Nodes that are tried before they are built.
ghost use Rattle.std.specs.Prelude.{◌≡◌, ◌+◌, ◌<◌, ◌≤◌, ◌^◌, IfOk, IsTrue, length, slice_index};
ghost use Rattle.node_values.specs.Nodes.{AreAlike, IsNode};
ghost use Rattle.node_values.specs.Sheets.{AreWidths, IsSheet};
ghost use Rattle.duty_trials.specs.Trials.{IsGrown};
ghost use Rattle.node_values.specs.declared.node.Node.TheVariants as nodes;

use node_values::{Node, NodeId};
use outcomes::Memory;
use std::alloc::{AllocError, AllocFailed, Global};
use terms::{Sheet, SheetFull};
use thiserror::Error;

/// Why a node is not built.
#[derive(Clone, Copy, Debug, PartialEq, Eq, Error)]
pub enum TrialFault {
    /// It may not stand behind the nodes of the sheet.
    #[error("no node over those before it")]
    NoNode,
    #[error("the sheet is full")]
    Full,
    #[error("out of memory")]
    Memory,
}

impl From<SheetFull> for TrialFault {
    fn from(full: SheetFull) -> TrialFault {
        match full {
            SheetFull::Full => TrialFault::Full,
            SheetFull::Memory => TrialFault::Memory,
        }
    }
}

impl From<AllocError> for TrialFault {
    fn from(_error: AllocError) -> TrialFault {
        TrialFault::Memory
    }
}

impl<T: Drop> From<AllocFailed<T>> for TrialFault {
    fn from(_failed: AllocFailed<T>) -> TrialFault {
        TrialFault::Memory
    }
}

impl From<Memory> for TrialFault {
    fn from(_memory: Memory) -> TrialFault {
        TrialFault::Memory
    }
}

/// A sheet, its nodes, and their widths.
#[derive(Drop)]
pub struct Built {
    pub sheet: Sheet,
    pub nodes: Vec<Node>,
    pub widths: Vec<u32>,
    ghost nodes_are: { nodes.items ≡ sheet },
    ghost widths_are: { AreWidths sheet widths.items },
}

impl Built {
    ghost use Rattle.std.specs.Prelude.{◌≡◌, ◌<◌, IfOk, length};
    ghost use Rattle.node_values.specs.Sheets.{AreWidths};

    /// The sheet without nodes.
    pub fn new(alloc: Global) -> Built {
        Built {
            sheet: Sheet::new(alloc),
            nodes: Vec::new(alloc),
            widths: Vec::new(alloc),
        }
    }

    /// The sheet with a node, where it may stand behind the others, and its number.
    pub fn with(self, node: Node) -> Result<(Built, NodeId), TrialFault>
        ensures { IfOk result (λ made. made.1.0 < length made.0.sheet) }
    {
        if !fits(self.widths.as_slice(), node) {
            return Err(TrialFault::NoNode);
        }
        let Built {
            sheet,
            nodes,
            widths,
        } = self;
        let mut sheet = sheet;
        let id = sheet.build(node)?;
        grown(sheet, nodes, widths, id)
    }
}

/// A sheet to which a node was added that has this number, unless it was there.
fn grown(
    sheet: Sheet,
    nodes: Vec<Node>,
    widths: Vec<u32>,
    id: NodeId,
) -> Result<(Built, NodeId), TrialFault>
    requires nodes { IsGrown nodes.items sheet id }
    requires widths { AreWidths nodes.items widths.items }
    requires sheet { IsSheet nodes.items }
    ensures { IfOk result (λ made. made.1.0 < length made.0.sheet) }
{
    if (id.0 as usize) < nodes.len() {
        let built = Built {
            sheet,
            nodes,
            widths,
        };
        return Ok((built, id));
    }
    let mut nodes = nodes;
    let mut widths = widths;
    nodes.push(sheet.node(id))?;
    widths.push(sheet.width(id))?;
    Ok((
        Built {
            sheet,
            nodes,
            widths,
        },
        id,
    ))
}

/// Whether a node may stand behind nodes of these widths.
pub fn fits(widths: &[u32], node: Node) -> bool
    ensures { IsTrue result → IsNode (slice_index widths.now) (length widths.now) node }
{
    match node {
        Node::Const { w, v } => is_word(w, v),
        Node::Reg { n, .. } => n < 16,
        Node::Entry { n } => n < 16,
        Node::VecByte { n, i, .. } => n < 16 && i < 32,
        Node::Start { at, .. } => has(widths, at) && width_of(widths, at) == 64,
        Node::Probe => true,
        Node::Add(a, b) => are_alike(widths, a, b),
        Node::Sub(a, b) => are_alike(widths, a, b),
        Node::Mul(a, b) => are_alike(widths, a, b),
        Node::And(a, b) => are_alike(widths, a, b),
        Node::Or(a, b) => are_alike(widths, a, b),
        Node::Xor(a, b) => are_alike(widths, a, b),
        Node::Not(a) => has(widths, a),
        Node::Shl(a, k) => is_shift(widths, a, k),
        Node::Shr(a, k) => is_shift(widths, a, k),
        Node::Sar(a, k) => is_shift(widths, a, k),
        Node::Cat(high, low) => is_join(widths, high, low),
        Node::Cut(a, k, n) => is_cut(widths, a, k, n),
        Node::Sx(n, a) => is_extension(widths, n, a),
        Node::Eq(a, b) => are_alike(widths, a, b),
        Node::Ult(a, b) => are_alike(widths, a, b),
        Node::Slt(a, b) => are_alike(widths, a, b),
        Node::If(c, a, b) => {
            has(widths, c) && width_of(widths, c) == 1 && are_alike(widths, a, b)
        }
    }
}

/// Whether a number is a word of this width.
fn is_word(w: u32, v: u64) -> bool
    ensures { IsTrue result → (0 < w) × (w ≤ 64) × (v < 2 ^ w) }
{
    0 < w && (w == 64 || w < 64 && v < 1 << w)
}

/// Whether there is a node of this number.
pub(crate) fn has(widths: &[u32], a: NodeId) -> bool
    ensures { IsTrue result → a.0 < length widths.now }
{
    (a.0 as usize) < widths.len()
}

/// The width of a node, 0 where there is none.
fn width_of(widths: &[u32], a: NodeId) -> u32
    ensures { result ≡ slice_index widths.now a.0 }
{
    widths.get(a.0 as usize).copied().unwrap_or(0)
}

/// Whether two nodes have one width.
fn are_alike(widths: &[u32], a: NodeId, b: NodeId) -> bool
    ensures { IsTrue result → AreAlike (slice_index widths.now) (length widths.now) a.0 b.0 }
{
    has(widths, a) && has(widths, b) && width_of(widths, a) == width_of(widths, b)
}

/// Whether a node may be shifted by so many bits.
fn is_shift(widths: &[u32], a: NodeId, k: u32) -> bool
    ensures { IsTrue result → (a.0 < length widths.now) × (0 < k) × (k < slice_index widths.now a.0) }
{
    has(widths, a) && 0 < k && k < width_of(widths, a)
}

/// Whether two nodes are at most 64 bits together.
fn is_join(widths: &[u32], high: NodeId, low: NodeId) -> bool
    ensures { IsTrue result → IsNode (slice_index widths.now) (length widths.now) (nodes.Cat high low) }
{
    has(widths, high)
        && has(widths, low)
        && width_of(widths, high) as u64 + width_of(widths, low) as u64 <= 64
}

/// Whether a node has these bits.
fn is_cut(widths: &[u32], a: NodeId, k: u32, n: u32) -> bool
    ensures { IsTrue result → IsNode (slice_index widths.now) (length widths.now) (nodes.Cut a k n) }
{
    has(widths, a) && 0 < n && k as u64 + n as u64 <= width_of(widths, a) as u64
}

/// Whether a node extends by the sign to so many bits.
fn is_extension(widths: &[u32], n: u32, a: NodeId) -> bool
    ensures { IsTrue result → IsNode (slice_index widths.now) (length widths.now) (nodes.Sx n a) }
{
    has(widths, a) && width_of(widths, a) < n && n <= 64
}
