//! The reach of a duty.
ghost use Rattle.std.specs.Prelude.{◌≡◌, ℕ, ◌&&◌, ◌++◌, IfOk, OnOk};
ghost use Rattle.std.specs.List.{filter, flat_map};
ghost use Rattle.node_reach.specs.Reached.{is_marked as is_marked_in};
ghost use Rattle.duty_claims.specs.Whole.{IsWhole};
ghost use Rattle.clause_rows.specs.Reach as reach;

use duty_claims::{Duty, StartPair};
use node_reach::needed;
use outcomes::Memory;
use std::alloc::Global;
use terms::NodeId;

/// The pairs of bytes that the named nodes of a duty need, in order.
pub(crate) fn needed_pairs(alloc: Global, duty: &Duty) -> Result<Vec<StartPair>, Memory>
    requires { IsWhole duty.now }
    ensures { IfOk result (λ pairs. pairs.items ≡ reach.needed_pairs duty.now) }
{
    let named = named_nodes(alloc, duty)?;
    let marks = needed(alloc, duty.sheet, named.as_slice())?;
    marked_pairs(alloc, duty.pairs, marks.as_slice())
}

/// A mark for each node of the reach of a duty, whose needed pairs these are; past the end of the list none is.
pub(crate) fn reach_of(alloc: Global, duty: &Duty, pairs: &[StartPair]) -> Result<Vec<bool>, Memory>
    requires whole { IsWhole duty.now }
    requires pairs { pairs.now ≡ reach.needed_pairs duty.now }
    ensures { IfOk result (λ marks. (k : ℕ) → is_marked_in marks.items k ≡ reach.is_in_reach duty.now k) }
{
    let roots = reach_roots(alloc, duty, pairs)?;
    needed(alloc, duty.sheet, roots.as_slice())
}

/// The nodes that a duty says something of.
fn named_nodes(alloc: Global, duty: &Duty) -> Result<Vec<NodeId>, Memory>
    ensures { IfOk result (λ nodes. nodes.items ≡ reach.named_nodes duty.now) }
{
    let mut nodes = Vec::new(alloc);
    nodes.extend_from_slice(duty.hyps)?;
    nodes.push(duty.goal)?;
    nodes.extend_from_slice(duty.more)?;
    Ok(nodes)
}

/// The pairs of which both bytes are marked.
fn marked_pairs(
    alloc: Global,
    pairs: &[StartPair],
    marks: &[bool],
) -> Result<Vec<StartPair>, Memory>
    ensures { IfOk result (λ kept. kept.items
        ≡ filter (λ p. is_marked_in marks.now p.m.0 && is_marked_in marks.now p.n.0) pairs.now) }
{
    let mut kept = Vec::new(alloc);
    for pair in pairs {
        if is_marked_pair(marks, *pair) {
            kept.push(*pair)?;
        }
    }
    Ok(kept)
}

/// Whether a node is marked.
pub(crate) fn is_marked(marks: &[bool], i: usize) -> bool
    ensures { result ≡ is_marked_in marks.now i }
{
    marks.get(i).copied().unwrap_or(false)
}

/// Whether both bytes of a pair are marked.
fn is_marked_pair(marks: &[bool], pair: StartPair) -> bool
    ensures { result ≡ (is_marked_in marks.now pair.m.0 && is_marked_in marks.now pair.n.0) }
{
    is_marked(marks, pair.m.0 as usize) && is_marked(marks, pair.n.0 as usize)
}

/// The named nodes and the nodes of these pairs.
fn reach_roots(alloc: Global, duty: &Duty, pairs: &[StartPair]) -> Result<Vec<NodeId>, Memory>
    ensures { IfOk result (λ nodes. nodes.items ≡ reach.named_nodes duty.now ++ flat_map reach.pair_nodes pairs.now) }
{
    let mut roots = named_nodes(alloc, duty)?;
    for pair in pairs {
        push_pair_nodes(&mut roots, *pair)?;
    }
    Ok(roots)
}

/// Puts the nodes of a pair behind others.
fn push_pair_nodes(roots: &mut Vec<NodeId>, pair: StartPair) -> Result<(), Memory>
    ensures { OnOk result (roots.new.items ≡ roots.old.items ++ reach.pair_nodes pair) }
{
    roots.push(pair.same_at)?;
    if let Some(node) = pair.scratch {
        roots.push(node)?;
    }
    Ok(())
}
