//! Flow graphs.
ghost use Rattle.std.specs.Prelude.{◌≡◌, ◌↔◌, ◌<◌, Contains, IsTrue, Option, Some, None, slice_get, length};
ghost use Rattle.flow_graph.specs.Flows.{FitsBefore, Follows, IsCut, IsHead, IsPath, ListsInOrder};

use crate::control::Flow;
use std::marker::Model;

/// The flow graph of a function. Contracts see it as the flow of each instruction, in order.
#[derive(Drop)]
pub struct Graph {
    pub(crate) flows: Vec<Flow>,
    pub(crate) cuts: Vec<u32>,
    pub(crate) heads: Vec<u32>,
}

impl Model for Graph {
    ghost use Rattle.std.specs.Prelude.{List};
    ghost use Rattle.flow_graph.specs.declared.control.Flow.{Flow};
    ghost use Rattle.flow_graph.specs.Marks.{HasMarks};

    ghost Value = { List Flow };

    ghost view = { λ graph. graph.flows.items };

    ghost invariant = { λ graph. HasMarks graph.flows.items graph.cuts.items graph.heads.items };
}

impl Graph {
    /// The cut points: the entry, the targets of backward jumps, and the returns.
    pub fn cuts(&self) -> &[u32]
        ensures { ListsInOrder (IsCut self.now) result.now }
    {
        self.cuts.as_slice()
    }

    /// The heads: the targets of backward jumps.
    pub fn heads(&self) -> &[u32]
        ensures { ListsInOrder (IsHead self.now) result.now }
    {
        self.heads.as_slice()
    }

    /// Whether the place is a cut point.
    pub fn is_cut(&self, place: u32) -> bool
        ensures { IsTrue result ↔ IsCut self.now place }
    {
        is_listed(self.cuts(), place)
    }

    /// Whether the place is a head.
    pub fn is_head(&self, place: u32) -> bool
        ensures { IsTrue result ↔ IsHead self.now place }
    {
        is_listed(self.heads(), place)
    }

    /// Whether there is an instruction at the place.
    pub fn has_place(&self, place: u32) -> bool
        ensures { IsTrue result ↔ (place < length self.now) }
    {
        (place as usize) < self.flows.len()
    }

    /// Whether control may go so from one place to another.
    pub fn follows(&self, from: u32, to: u32) -> bool
        ensures { IsTrue result ↔ Follows self.now from to }
    {
        fits_before(&self.flows, from, Some(to))
    }

    /// Whether the instruction at the place returns.
    pub fn returns_at(&self, place: u32) -> bool
        ensures { IsTrue result ↔ (slice_get self.now place ≡ Some Flow.Return) }
    {
        matches!(self.flows.get(place as usize), Some(Flow::Return))
    }

    /// Whether each of the places is an instruction, and each but the first follows the one before it
    /// in the flow. No places are a path.
    pub fn is_path(&self, path: &[u32]) -> bool
        ensures { IsTrue result ↔ IsPath self.now path.now }
    {
        for (i, place) in path.iter().enumerate() {
            if !fits_before(&self.flows, *place, path.get(i + 1).copied()) {
                return false;
            }
        }
        true
    }
}

/// Whether the place is one of these.
fn is_listed(places: &[u32], place: u32) -> bool
    ensures { IsTrue result ↔ Contains places.now place }
{
    places.contains(&place)
}

/// Whether the place is an instruction, and the next one, if there is one, follows it.
fn fits_before(flows: &[Flow], place: u32, next: Option<u32>) -> bool
    ensures { IsTrue result ↔ FitsBefore flows.now place next }
{
    let Some(flow) = flows.get(place as usize) else {
        return false;
    };
    match next {
        None => true,
        Some(next) => flow.leads(place, next),
    }
}
