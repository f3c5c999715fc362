//! Which paths the edges of a product have.
ghost use Rattle.std.specs.Prelude.{◌≡◌, ◌↔◌, Option, IsTrue};
ghost use Rattle.product_automaton.specs.Places.{GoesOn, LeadsBetween, left_next, left_place, right_next, right_place};
ghost use Rattle.product_automaton.specs.Rules.{JoinsNodes, LeadsLeft, LeadsRight};

use crate::product::{PEdge, PNode};
use flow_graph::Graph;

/// Whether the edge leads from a node but the exit to a node but the entry.
pub(crate) fn joins_nodes(edge: &PEdge, nodes: &[PNode]) -> bool
    ensures { IsTrue result ↔ JoinsNodes nodes.now edge.now }
{
    (edge.from as usize) < nodes.len()
        && (edge.to as usize) < nodes.len()
        && edge.to != 0
        && edge.from != 1
}

/// Whether the edge's left path leads from its source to its target.
pub(crate) fn leads_left(edge: &PEdge, nodes: &[PNode], graph: &Graph) -> bool
    ensures { IsTrue result ↔ LeadsLeft nodes.now graph.now edge.now }
{
    let from = left_place(nodes, edge.from);
    leads_between(graph, edge.left.as_slice(), from, left_next(nodes, edge.to))
}

/// Whether the edge's right path leads from its source to its target.
pub(crate) fn leads_right(edge: &PEdge, nodes: &[PNode], graph: &Graph) -> bool
    ensures { IsTrue result ↔ LeadsRight nodes.now graph.now edge.now }
{
    let from = right_place(nodes, edge.from);
    leads_between(
        graph,
        edge.right.as_slice(),
        from,
        right_next(nodes, edge.to),
    )
}

/// The left place of the node of this number.
fn left_place(nodes: &[PNode], number: u32) -> Option<u32>
    ensures { result ≡ left_place nodes.now number }
{
    match nodes.get(number as usize) {
        Some(node) => Some(node.left),
        None => None,
    }
}

/// The right place of the node of this number.
fn right_place(nodes: &[PNode], number: u32) -> Option<u32>
    ensures { result ≡ right_place nodes.now number }
{
    match nodes.get(number as usize) {
        Some(node) => Some(node.right),
        None => None,
    }
}

/// The left place that follows a path into the node, none at the exit.
fn left_next(nodes: &[PNode], number: u32) -> Option<u32>
    ensures { result ≡ left_next nodes.now number }
{
    if number == 1 {
        None
    } else {
        left_place(nodes, number)
    }
}

/// The right place that follows a path into the node, none at the exit.
fn right_next(nodes: &[PNode], number: u32) -> Option<u32>
    ensures { result ≡ right_next nodes.now number }
{
    if number == 1 {
        None
    } else {
        right_place(nodes, number)
    }
}

/// Whether the path leads from one place to the next, or to a return where there is no next one.
fn leads_between(graph: &Graph, path: &[u32], from: Option<u32>, next: Option<u32>) -> bool
    ensures { IsTrue result ↔ LeadsBetween graph.now path.now from next }
{
    let begin = match path.first() {
        Some(place) => Some(*place),
        None => next,
    };
    let goes_on = match path.last() {
        Some(place) => goes_on(graph, *place, next),
        None => true,
    };
    begin == from && goes_on && graph.is_path(path)
}

/// Whether the place is followed by the next one, or returns where there is none.
fn goes_on(graph: &Graph, place: u32, next: Option<u32>) -> bool
    ensures { IsTrue result ↔ GoesOn graph.now place next }
{
    match next {
        None => graph.returns_at(place),
        Some(next) => graph.follows(place, next),
    }
}
