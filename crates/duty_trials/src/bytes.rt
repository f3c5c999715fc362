//! The bytes of memory of a sheet.
ghost use Rattle.std.specs.Prelude.{◌≡◌, ◌<◌, [], ◌∷◌, ◌++◌, IfOk, IsTrue, OnOk, length, map, if◌then◌else◌};
ghost use Rattle.duty_claims.specs.Needs.{each_two as each_two_of, is_start as is_byte, start_nodes};
ghost use Rattle.node_reach.specs.Reached.{is_marked as is_marked_in};
ghost use Rattle.duty_trials.specs.Trials.{NeedsNoByte, NeedsOnlyOfTwo};

use crate::building::Built;
use node_reach::needed;
use node_values::{Node, NodeId};
use outcomes::Memory;
use std::alloc::Global;

/// The bytes of memory, in order.
pub(crate) fn bytes_of(alloc: Global, built: &Built) -> Result<Vec<u32>, Memory>
    ensures { IfOk result (λ bytes. bytes.items ≡ start_nodes built.now.sheet) }
{
    built.sheet.in_order();
    let mut bytes = Vec::new(alloc);
    for i in 0..built.nodes.len() {
        let n = i as u32;
        push_start(&mut bytes, built.sheet.node(NodeId(n)), n)?;
    }
    Ok(bytes)
}

/// Puts the number of a node behind others, where it is a byte of memory.
fn push_start(bytes: &mut Vec<u32>, node: Node, n: u32) -> Result<(), Memory>
    ensures { OnOk result (bytes.new.items ≡ bytes.old.items ++ (if is_byte node then n ∷ [] else [])) }
{
    if is_start(node) {
        bytes.push(n)?;
    }
    Ok(())
}

/// Whether a node is marked.
fn is_marked(marks: &[bool], i: usize) -> bool
    ensures { result ≡ is_marked_in marks.now i }
{
    marks.get(i).copied().unwrap_or(false)
}

/// Whether a node is a byte of memory.
pub(crate) fn is_start(node: Node) -> bool
    ensures { result ≡ is_byte node }
{
    match node {
        Node::Start { .. } => true,
        _ => false,
    }
}

/// Each two of some numbers, the earlier one first, in order.
pub(crate) fn each_two(alloc: Global, numbers: &[u32]) -> Result<Vec<(u32, u32)>, Memory>
    ensures { IfOk result (λ two. two.items ≡ each_two_of numbers.now) }
{
    let mut two = Vec::new(alloc);
    for i in 0..numbers.len() {
        push_with_each(&mut two, numbers[i], &numbers[i + 1..])?;
    }
    Ok(two)
}

/// Puts a number with each of some others behind other pairs.
fn push_with_each(two: &mut Vec<(u32, u32)>, m: u32, numbers: &[u32]) -> Result<(), Memory>
    ensures { OnOk result (two.new.items ≡ two.old.items ++ map (λ n. (m, n)) numbers.now) }
{
    for n in numbers {
        two.push((m, *n))?;
    }
    Ok(())
}

/// Whether a node needs no byte of memory but those that two others need.
pub(crate) fn needs_only_of(
    alloc: Global,
    built: &Built,
    node: NodeId,
    a: NodeId,
    b: NodeId,
) -> Result<bool, Memory>
    requires node { node.0 < length built.now.sheet }
    requires a { a.0 < length built.now.sheet }
    requires b { b.0 < length built.now.sheet }
    ensures { IfOk result (λ yes. IsTrue yes → NeedsOnlyOfTwo built.now.sheet a.0 b.0 node.0) }
{
    built.sheet.in_order();
    let inner = needed(alloc, &built.sheet, &[node])?;
    let outer = needed(alloc, &built.sheet, &[a, b])?;
    for i in 0..built.nodes.len() {
        let start = is_start(built.sheet.node(NodeId(i as u32)));
        if start && is_marked(inner.as_slice(), i) && !is_marked(outer.as_slice(), i) {
            return Ok(false);
        }
    }
    Ok(true)
}

/// Whether two nodes need no byte of memory.
pub(crate) fn need_no_byte(
    alloc: Global,
    built: &Built,
    a: NodeId,
    b: NodeId,
) -> Result<bool, Memory>
    requires a { a.0 < length built.now.sheet }
    requires b { b.0 < length built.now.sheet }
    ensures { IfOk result (λ yes. IsTrue yes → NeedsNoByte built.now.sheet a.0 b.0) }
{
    built.sheet.in_order();
    let marks = needed(alloc, &built.sheet, &[a, b])?;
    for i in 0..built.nodes.len() {
        let start = is_start(built.sheet.node(NodeId(i as u32)));
        if start && is_marked(marks.as_slice(), i) {
            return Ok(false);
        }
    }
    Ok(true)
}
