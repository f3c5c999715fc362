//! Which nodes some nodes need.
ghost use Rattle.std.specs.Prelude.{◌≡◌, ℕ, ◌<◌, [], ◌∷◌, IfOk, OnOk, length};
ghost use Rattle.std.specs.List.{AllByRecursion};
ghost use Rattle.node_reach.specs.Reached.{MarksBesides, is_marked, is_needed};
ghost use Rattle.node_values.specs.Nodes.{arguments};

use node_values::{Node, NodeId};
use outcomes::Memory;
use std::alloc::Global;
use terms::Sheet;

/// A mark for each node that some of these need; past the end of the list none is.
pub fn needed(alloc: Global, sheet: &Sheet, roots: &[NodeId]) -> Result<Vec<bool>, Memory>
    requires { AllByRecursion (λ n. n.0 < length sheet.now) roots.now }
    ensures { IfOk result (λ marks. (k : ℕ) → is_marked marks.items k ≡ is_needed sheet.now roots.now k) }
{
    sheet.in_order();
    let mut marks = Vec::new(alloc);
    for root in roots {
        mark(&mut marks, root.0)?;
    }
    let mut i = marks.len();
    while i > 0 {
        i -= 1;
        let marked = mark_at(marks.as_slice(), i);
        if marked {
            mark_arguments(&mut marks, sheet.node(NodeId(i as u32)))?;
        }
    }
    Ok(marks)
}

/// Whether a node is marked.
fn mark_at(marks: &[bool], i: usize) -> bool
    ensures { result ≡ is_marked marks.now i }
{
    marks.get(i).copied().unwrap_or(false)
}

/// Marks the arguments of a node.
fn mark_arguments(marks: &mut Vec<bool>, node: Node) -> Result<(), Memory>
    ensures { OnOk result (MarksBesides marks.old.items marks.new.items (arguments node)) }
{
    match node {
        Node::Const { .. }
        | Node::Reg { .. }
        | Node::Entry { .. }
        | Node::VecByte { .. }
        | Node::Probe => Ok(()),
        Node::Start { at, .. } => mark(marks, at.0),
        Node::Add(a, b) => mark_two(marks, a, b),
        Node::Sub(a, b) => mark_two(marks, a, b),
        Node::Mul(a, b) => mark_two(marks, a, b),
        Node::And(a, b) => mark_two(marks, a, b),
        Node::Or(a, b) => mark_two(marks, a, b),
        Node::Xor(a, b) => mark_two(marks, a, b),
        Node::Cat(a, b) => mark_two(marks, a, b),
        Node::Eq(a, b) => mark_two(marks, a, b),
        Node::Ult(a, b) => mark_two(marks, a, b),
        Node::Slt(a, b) => mark_two(marks, a, b),
        Node::Not(a) => mark(marks, a.0),
        Node::Shl(a, _) => mark(marks, a.0),
        Node::Shr(a, _) => mark(marks, a.0),
        Node::Sar(a, _) => mark(marks, a.0),
        Node::Cut(a, _, _) => mark(marks, a.0),
        Node::Sx(_, a) => mark(marks, a.0),
        Node::If(c, a, b) => mark_three(marks, c, a, b),
    }
}

/// Marks three nodes.
fn mark_three(marks: &mut Vec<bool>, c: NodeId, a: NodeId, b: NodeId) -> Result<(), Memory>
    ensures { OnOk result (MarksBesides marks.old.items marks.new.items (c.0 ∷ a.0 ∷ b.0 ∷ [])) }
{
    mark(marks, c.0)?;
    mark_two(marks, a, b)
}

/// Marks two nodes.
fn mark_two(marks: &mut Vec<bool>, a: NodeId, b: NodeId) -> Result<(), Memory>
    ensures { OnOk result (MarksBesides marks.old.items marks.new.items (a.0 ∷ b.0 ∷ [])) }
{
    mark(marks, a.0)?;
    mark(marks, b.0)
}

/// Marks a node.
fn mark(marks: &mut Vec<bool>, n: u32) -> Result<(), Memory>
    ensures { OnOk result (MarksBesides marks.old.items marks.new.items (n ∷ [])) }
{
    while marks.len() <= n as usize {
        marks.push(false)?;
    }
    marks[n as usize] = true;
    Ok(())
}
