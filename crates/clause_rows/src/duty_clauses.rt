//! The clauses of a duty.
ghost use Rattle.std.specs.Prelude.{◌≡◌, ◌+◌, ◌^◌, ◌<◌, ◌≤◌, [], ◌∷◌, ◌++◌, IfOk, OnOk, length, map, slice_index};
ghost use Rattle.std.specs.List.{AllByRecursion, flat_map};
ghost use Rattle.clause_gates.specs.Gates.{negation};
ghost use Rattle.clause_gates.specs.NormalForms.{normal_clauses};
ghost use Rattle.duty_claims.specs.Whole.{IsWhole};
ghost use Rattle.clause_rows.specs.DutyClauses as specs;
ghost use Rattle.clause_rows.specs.DutyClauses.{lowest_bit, pair_row, reach_row, reach_rows};
ghost use Rattle.clause_rows.specs.Numbering.{HaveRowRoom, IsNumberingOf};
ghost use Rattle.clause_rows.specs.Reach.{IsPairAmong};

use crate::numbering::{Numbering, numbering_with};
use crate::reach::{is_marked, needed_pairs};
use crate::same_row::push_same;
use clause_gates::{ClauseList, negated, plain};
use clauses::Clause;
use duty_claims::{Duty, StartPair};
use node_rows::push_node;
use outcomes::Memory;
use std::alloc::Global;
use terms::NodeId;

/// The clauses of a duty, each in its normal form.
#[tactic(auto, unfolding(crate::specs::DutyClauses::duty_clauses))]
pub fn clauses(alloc: Global, duty: &Duty) -> Result<Vec<Clause>, Memory>
    requires { IsWhole duty.now }
    ensures { IfOk result (λ clauses. clauses.items ≡ specs.duty_clauses duty.now) }
{
    duty.sheet.in_order();
    let pairs = needed_pairs(alloc, duty)?;
    let numbering = numbering_with(alloc, duty, pairs.as_slice())?;
    let firsts = numbering.firsts.as_slice();
    let mut list = ClauseList::new(alloc);
    push_nodes(&mut list, duty, &numbering)?;
    push_pairs(&mut list, pairs.as_slice(), firsts)?;
    push_units(&mut list, duty.hyps, firsts)?;
    push_negation(&mut list, duty.goal, firsts)?;
    push_negations(&mut list, duty.more, firsts)?;
    Ok(list.into_clauses())
}

/// Puts the rows of the nodes of a duty's reach behind the other clauses.
fn push_nodes(list: &mut ClauseList, duty: &Duty, numbering: &Numbering) -> Result<(), Memory>
    requires whole { IsWhole duty.now }
    requires numbering { IsNumberingOf duty.now numbering.now }
    requires room { HaveRowRoom numbering.now.firsts.items }
    ensures { OnOk result (list.new ≡ list.old ++ normal_clauses (reach_rows duty.now)) }
{
    duty.sheet.in_order();
    for i in 0..numbering.reach.len() {
        push_node_row(list, duty, numbering, i)?;
    }
    Ok(())
}

/// Puts the row of node `i` behind the other clauses, where it is in a duty's reach.
fn push_node_row(
    list: &mut ClauseList,
    duty: &Duty,
    numbering: &Numbering,
    i: usize,
) -> Result<(), Memory>
    requires whole { IsWhole duty.now }
    requires numbering { IsNumberingOf duty.now numbering.now }
    requires room { HaveRowRoom numbering.now.firsts.items }
    requires place { i < length numbering.now.reach.items }
    ensures { OnOk result (list.new ≡ list.old ++ normal_clauses (reach_row duty.now i)) }
{
    duty.sheet.in_order();
    if !is_marked(numbering.reach.as_slice(), i) {
        return Ok(());
    }
    let node = duty.sheet.node(NodeId(i as u32));
    let firsts = numbering.firsts.as_slice();
    push_node(list, node, firsts, numbering.widths.as_slice(), firsts[i])
}

/// Puts the rows of pairs of bytes behind the other clauses.
fn push_pairs(list: &mut ClauseList, pairs: &[StartPair], firsts: &[u32]) -> Result<(), Memory>
    requires pairs { AllByRecursion (IsPairAmong (λ node. node.0 < length firsts.now)) pairs.now }
    requires room { HaveRowRoom firsts.now }
    ensures { OnOk result (list.new ≡ list.old ++ normal_clauses
        (flat_map (pair_row (slice_index firsts.now)) pairs.now)) }
{
    for pair in pairs {
        push_pair(list, *pair, firsts)?;
    }
    Ok(())
}

/// Puts the row of a pair of bytes behind the other clauses.
fn push_pair(list: &mut ClauseList, pair: StartPair, firsts: &[u32]) -> Result<(), Memory>
    requires pair { IsPairAmong (λ node. node.0 < length firsts.now) pair }
    requires room { HaveRowRoom firsts.now }
    ensures { OnOk result (list.new ≡ list.old ++ normal_clauses (pair_row (slice_index firsts.now) pair)) }
{
    let same_at = first_of(firsts, pair.same_at);
    let m = first_of(firsts, pair.m);
    let n = first_of(firsts, pair.n);
    match pair.scratch {
        None => push_same(list, same_at, None, m, n),
        Some(node) => push_same(list, same_at, Some(first_of(firsts, node)), m, n),
    }
}

/// Puts behind the other clauses that each of these nodes is 1.
fn push_units(list: &mut ClauseList, nodes: &[NodeId], firsts: &[u32]) -> Result<(), Memory>
    requires nodes { AllByRecursion (λ node. node.0 < length firsts.now) nodes.now }
    requires room { HaveRowRoom firsts.now }
    ensures { OnOk result (list.new ≡ list.old ++ normal_clauses
        (map (λ node. lowest_bit (slice_index firsts.now) node ∷ []) nodes.now)) }
{
    for node in nodes {
        list.unit(plain(first_of(firsts, *node)))?;
    }
    Ok(())
}

/// Puts behind the other clauses that each of these nodes is 0.
fn push_negations(list: &mut ClauseList, nodes: &[NodeId], firsts: &[u32]) -> Result<(), Memory>
    requires nodes { AllByRecursion (λ node. node.0 < length firsts.now) nodes.now }
    requires room { HaveRowRoom firsts.now }
    ensures { OnOk result (list.new ≡ list.old ++ normal_clauses
        (map (λ node. negation (lowest_bit (slice_index firsts.now) node) ∷ []) nodes.now)) }
{
    for node in nodes {
        push_negation(list, *node, firsts)?;
    }
    Ok(())
}

/// Puts behind the other clauses that a node is 0.
fn push_negation(list: &mut ClauseList, node: NodeId, firsts: &[u32]) -> Result<(), Memory>
    requires node { node.0 < length firsts.now }
    requires room { HaveRowRoom firsts.now }
    ensures { OnOk result (list.new ≡ list.old ++ normal_clauses
        ((negation (lowest_bit (slice_index firsts.now) node) ∷ []) ∷ [])) }
{
    list.unit(negated(plain(first_of(firsts, node))))
}

/// The variable of the lowest bit of a node.
fn first_of(firsts: &[u32], node: NodeId) -> u32
    requires node { node.0 < length firsts.now }
    requires room { HaveRowRoom firsts.now }
    ensures value { result ≡ slice_index firsts.now node.0 }
    ensures room { result + 12416 ≤ 2 ^ 32 }
{
    firsts[node.0 as usize]
}
