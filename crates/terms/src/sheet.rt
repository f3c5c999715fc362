//! Sheets.
ghost use Rattle.std.specs.Prelude.{◌≡◌, ◌⊎◌, ℕ, [], ◌+◌, ◌*◌, ◌%◌, ◌<◌, ◌^◌, ◌≤◌, IfOk, IsErrOf, OnErr, length, slice_index};
ghost use Rattle.node_forms.specs.Listed.{IsListed};
ghost use Rattle.node_forms.specs.Forms.{form_at};
ghost use Rattle.node_forms.specs.Sums.{SameWord, weighted_sum};
ghost use Rattle.node_values.specs.Environments.{environment_of};
ghost use Rattle.node_values.specs.Nodes.{IsNode, node_width};
ghost use Rattle.node_values.specs.Sheets.{Extends, IsSheet, node_at, value_at, width_at};
ghost use Rattle.node_values.specs.Values.{Environment, node_value};
ghost use Rattle.terms.specs.Kept.{HasEachNodeOnce, IsKeptSheet};
ghost use Rattle.terms.specs.Sheet.{IsWidthList};
ghost use Rattle.terms.specs.Made.{GrowsInRoom, IsEquality, made, placed};
ghost use Rattle.terms.specs.declared.rules.Reduced.TheVariants as reductions;

use crate::rules::{Reduced, reduce};
use indexmap::IndexSet;
use node_forms::{Form, form_of};
use node_values::{Env, Node, NodeId, width};
use outcomes::Memory;
use std::alloc::{AllocError, AllocFailed, Global};
use std::marker::Model;
use thiserror::Error;

/// Why a node was not built.
#[derive(Clone, Copy, Debug, PartialEq, Eq, Error)]
pub enum SheetFull {
    /// The sheet would have more than 65,536 nodes.
    #[error("the sheet is full")]
    Full,
    #[error("out of memory")]
    Memory,
}

impl From<AllocError> for SheetFull {
    ghost use Rattle.terms.specs.declared.sheet.SheetFull.TheVariants as refusals;

    ghost from_gives = { λ _ e. e ≡ refusals.Memory };

    fn from(_error: AllocError) -> SheetFull {
        SheetFull::Memory
    }
}

impl<T: Drop> From<AllocFailed<T>> for SheetFull {
    ghost use Rattle.terms.specs.declared.sheet.SheetFull.TheVariants as refusals;

    ghost from_gives = { λ _ e. e ≡ refusals.Memory };

    fn from(_failed: AllocFailed<T>) -> SheetFull {
        SheetFull::Memory
    }
}

impl From<Memory> for SheetFull {
    ghost use Rattle.terms.specs.declared.sheet.SheetFull.TheVariants as refusals;

    ghost from_gives = { λ _ e. e ≡ refusals.Memory };

    fn from(_memory: Memory) -> SheetFull {
        SheetFull::Memory
    }
}

/// A list of at most 65,536 nodes, each over nodes before it, and none twice.
///
/// Contracts see it as the list.
#[derive(Drop)]
pub struct Sheet {
    nodes: IndexSet<Node>,
    widths: Vec<u32>,
    alloc: Global,
}

impl Model for Sheet {
    ghost use Rattle.std.specs.Prelude.{List};
    ghost use Rattle.node_values.specs.declared.node.Node.{Node};
    ghost use Rattle.terms.specs.Kept.{IsKeptSheet};

    ghost Value = { List Node };

    ghost view = { λ s. s.nodes.keys };

    ghost invariant = { λ s. IsKeptSheet s.nodes.keys s.widths.items };
}

impl Sheet {
    /// The sheet without nodes. It takes no memory.
    pub fn new(alloc: Global) -> Sheet
        ensures { result ≡ [] }
    {
        Sheet {
            nodes: IndexSet::new(alloc),
            widths: Vec::new(alloc),
            alloc,
        }
    }

    /// Builds a node over nodes of the sheet by the rules, and gives its number: of a node that the sheet
    /// has, or of one that is new and goes last.
    pub fn build(&mut self, node: Node) -> Result<NodeId, SheetFull>
        requires { IsNode (width_at self.old) (length self.old) node }
        ensures made { IfOk result (λ id. made self.old node ≡ record { nodes = self.new; id = id }) }
        ensures value { IfOk result (λ id. (e : Environment)
            → value_at e self.new id.0 ≡ node_value e (width_at self.old) (value_at e self.old) node) }
        ensures width { IfOk result (λ id. width_at self.new id.0 ≡ node_width (width_at self.old) node) }
        ensures inside { IfOk result (λ id. id.0 < length self.new) }
        ensures extends { Extends self.old self.new }
        ensures full { IsErrOf result SheetFull.Full → 65536 < length (made self.old node).nodes }
        // the forms of an equality take memory before it is known whether its node is there
        ensures memory { IsErrOf result SheetFull.Memory
            → IsEquality node ⊎ GrowsInRoom self.old (made self.old node).nodes }
        ensures err { OnErr result (self.new ≡ self.old) }
        ensures sheet { IsSheet self.new }
        ensures distinct { HasEachNodeOnce self.new }
        ensures room { length self.new ≤ 65536 }
    {
        let id = build_in(self.alloc, &mut self.nodes, &mut self.widths, node)?;
        Ok(id)
    }

    /// The node of this number.
    pub fn node(&self, id: NodeId) -> Node
        requires { id.0 < length self.now }
        ensures { result ≡ node_at self.now id.0 }
    {
        self.nodes.as_slice()[id.0 as usize]
    }

    /// The width of a node.
    pub fn width(&self, id: NodeId) -> u32
        requires { id.0 < length self.now }
        ensures { result ≡ width_at self.now id.0 }
    {
        self.widths[id.0 as usize]
    }

    /// That the list is a sheet, and has each node once. It does nothing.
    pub fn in_order(&self)
        ensures sheet { IsSheet self.now }
        ensures distinct { HasEachNodeOnce self.now }
        ensures room { length self.now ≤ 65536 }
    {
        let _ = &self.nodes;
    }

    /// The value of a node in an environment.
    pub fn eval(&self, id: NodeId, env: &Env) -> Result<u64, Memory>
        requires { id.0 < length self.now }
        ensures { IfOk result (λ value. value ≡ value_at (environment_of env.now) self.now id.0) }
    {
        let nodes = self.nodes.as_slice();
        let widths = self.widths.as_slice();
        let values = values(self.alloc, nodes, widths, env)?;
        Ok(values[id.0 as usize])
    }

    /// The linear form of a node at `w`, which is at most the node's width.
    pub fn form(&self, id: NodeId, w: u32) -> Result<Form, Memory>
        requires place { id.0 < length self.now }
        requires width { (0 < w) × (w ≤ width_at self.now id.0) }
        ensures form { IfOk result (IsListed (length self.now) w (form_at self.now w id.0)) }
        ensures value { IfOk result (λ form. (e : Environment)
            → SameWord w (value_at e self.now id.0) (weighted_sum (value_at e self.now) form.atoms + form.c)) }
    {
        form_of(
            self.alloc,
            self.nodes.as_slice(),
            self.widths.as_slice(),
            w,
            id,
        )
    }
}

/// A node of a list.
fn node_in(nodes: &[Node], at: usize) -> Node
    requires { at < length nodes.now }
    ensures { result ≡ node_at nodes.now at }
{
    nodes[at]
}

/// The values of all nodes of a list in an environment.
fn values(alloc: Global, nodes: &[Node], widths: &[u32], env: &Env) -> Result<Vec<u64>, Memory>
    requires { IsWidthList nodes.now widths.now }
    ensures len { IfOk result (λ values. length values.items ≡ length nodes.now) }
    ensures values { IfOk result (λ values. (i : ℕ) → i < length nodes.now
        → slice_index values.items i ≡ value_at (environment_of env.now) nodes.now i) }
{
    let mut values = Vec::new(alloc);
    for i in 0..nodes.len() {
        let node = node_in(nodes, i);
        let value = env.value(node, widths, values.as_slice());
        values.push(value)?;
    }
    Ok(values)
}

/// Builds a node by the rules.
fn build_in(
    alloc: Global,
    nodes: &mut IndexSet<Node>,
    widths: &mut Vec<u32>,
    node: Node,
) -> Result<NodeId, SheetFull>
    requires kept { IsKeptSheet nodes.old.keys widths.old.items }
    requires node { IsNode (width_at nodes.old.keys) (length nodes.old.keys) node }
    ensures made { IfOk result (λ id. made nodes.old.keys node ≡ record { nodes = nodes.new.keys; id = id }) }
    ensures kept { IsKeptSheet nodes.new.keys widths.new.items }
    ensures full { IsErrOf result SheetFull.Full → 65536 < length (made nodes.old.keys node).nodes }
    ensures memory { IsErrOf result SheetFull.Memory
        → IsEquality node ⊎ GrowsInRoom nodes.old.keys (made nodes.old.keys node).nodes }
    ensures err { OnErr result (nodes.new.keys ≡ nodes.old.keys) }
{
    let reduced = reduce(alloc, nodes.as_slice(), widths.as_slice(), node)?;
    match reduced {
        Reduced::Old(id) => Ok(id),
        Reduced::New(new) => place(nodes, widths, new),
    }
}

/// The number of a node, which goes last where the list does not have it.
fn place(nodes: &mut IndexSet<Node>, widths: &mut Vec<u32>, node: Node) -> Result<NodeId, SheetFull>
    requires kept { IsKeptSheet nodes.old.keys widths.old.items }
    requires node { IsNode (width_at nodes.old.keys) (length nodes.old.keys) node }
    ensures placed { IfOk result (λ id. placed nodes.old.keys (reductions.New node) ≡ record { nodes = nodes.new.keys; id = id }) }
    ensures kept { IsKeptSheet nodes.new.keys widths.new.items }
    ensures full { IsErrOf result SheetFull.Full → 65536 < length (placed nodes.old.keys (reductions.New node)).nodes }
    ensures memory { IsErrOf result SheetFull.Memory
        → GrowsInRoom nodes.old.keys (placed nodes.old.keys (reductions.New node)).nodes }
    ensures err { OnErr result (nodes.new.keys ≡ nodes.old.keys) }
{
    if let Some(at) = nodes.get_index_of(&node) {
        return Ok(NodeId(at as u32));
    }
    let at = nodes.len();
    if at == 65_536 {
        return Err(SheetFull::Full);
    }
    widths.push(width(node, widths.as_slice()))?;
    match nodes.insert(node) {
        Ok(_) => Ok(NodeId(at as u32)),
        Err(_) => {
            widths.pop();
            Err(SheetFull::Memory)
        }
    }
}
