//! Building the flow graph of a function.
ghost use Rattle.std.specs.Prelude.{◌≡◌, ℕ, ◌^◌, ◌<◌, ◌≤◌, Some, IfOk, MatchOption, length};
ghost use Rattle.insn_table.specs.Closed.{IsClosed};
ghost use Rattle.flow_graph.specs.Flows.{IsCut, IsHead, ListsInOrder, flows_of, target_of};
ghost use Rattle.flow_graph.specs.Marks.{IsInOrderOf};

use crate::control::{Flow, flow_of};
use crate::graphs::Graph;
use insn_table::{Function, Insn};
use outcomes::Memory;
use std::alloc::Global;

/// The flow graph of a closed function.
pub fn graph(alloc: Global, f: &Function) -> Result<Graph, Memory>
    requires { IsClosed f.now.insns }
    ensures { IfOk result (λ graph. graph ≡ flows_of f.now.insns) }
{
    let flows = flows_of(alloc, f.insns.as_slice())?;
    let heads = heads_of(alloc, &flows)?;
    let cuts = cuts_of(alloc, &flows, &heads)?;
    Ok(Graph { flows, cuts, heads })
}

/// Where control goes from each instruction.
fn flows_of(alloc: Global, insns: &[Insn]) -> Result<Vec<Flow>, Memory>
    ensures { IfOk result (λ flows. flows.items ≡ flows_of insns.now) }
{
    let mut flows = Vec::new(alloc);
    for insn in insns {
        flows.push(flow_of(insn))?;
    }
    Ok(flows)
}

/// The targets of backward jumps, in order, each once.
fn heads_of(alloc: Global, flows: &[Flow]) -> Result<Vec<u32>, Memory>
    ensures { IfOk result (λ heads. ListsInOrder (IsHead flows.now) heads.items) }
{
    let mut targets = Vec::new(alloc);
    for (place, flow) in flows.iter().enumerate() {
        if let Some(target) = backward_target(*flow, place) {
            targets.push(target)?;
        }
    }
    in_order(targets)
}

/// The target of a jump at this place, where the jump is a backward one.
fn backward_target(flow: Flow, place: usize) -> Option<u32>
    ensures { MatchOption result ((target : ℕ) → target_of flow ≡ Some target → place < target)
        (λ target. (target_of flow ≡ Some target) × (target ≤ place)) }
{
    let target = flow.target()?;
    if target as usize <= place {
        Some(target)
    } else {
        None
    }
}

/// The entry, the heads and the returns, in order, each once.
fn cuts_of(alloc: Global, flows: &[Flow], heads: &[u32]) -> Result<Vec<u32>, Memory>
    requires few { length flows.now < 2 ^ 32 }
    requires heads { ListsInOrder (IsHead flows.now) heads.now }
    ensures { IfOk result (λ cuts. ListsInOrder (IsCut flows.now) cuts.items) }
{
    let mut cuts = Vec::from_slice(alloc, heads)?;
    cuts.push(0)?;
    for (place, flow) in flows.iter().enumerate() {
        if let Flow::Return = flow {
            cuts.push(place as u32)?;
        }
    }
    in_order(cuts)
}

/// The places in order, each once.
fn in_order(places: Vec<u32>) -> Result<Vec<u32>, Memory>
    ensures { IfOk result (λ ordered. IsInOrderOf places.items ordered.items) }
{
    let mut ordered = places;
    ordered.sort()?;
    ordered.dedup();
    Ok(ordered)
}
