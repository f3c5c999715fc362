//! The longest path of a product, its bound, and whether its ranks fall.
ghost use Rattle.std.specs.Prelude.{◌≡◌, ◌↔◌, ◌^◌, ◌<◌, List, length, IsTrue};
ghost use Rattle.product_automaton.specs.Ranks.{HasLowRanks, LowersRanks, RanksFall, bound_of, left_rank, longest_path, right_rank};
ghost use Rattle.product_automaton.specs.Rules.{KeepsFalls};

use crate::product::{PEdge, PNode, Product};

impl Product {
    /// The length of the longest path of any edge, on either side.
    pub fn longest(&self) -> usize
        ensures { result ≡ longest_path self.now.edges }
    {
        let mut longest = 0;
        for edge in self.edges.as_slice() {
            longest = longest.max(edge.left.len()).max(edge.right.len());
        }
        longest
    }

    /// The number of nodes times the length of the longest path.
    pub fn bound(&self) -> u64
        requires { bound_of self.now < 2 ^ 64 }
        ensures { result ≡ bound_of self.now }
    {
        self.nodes.len() as u64 * self.longest() as u64
    }

    /// Whether no cycle of the product stands still on a side: there are at least two nodes, edges
    /// lead to nodes, an empty path lowers the rank of its side, and ranks are below the number of
    /// nodes.
    pub fn ranks_fall(&self) -> bool
        ensures { IsTrue result ↔ RanksFall self.now }
    {
        let nodes = self.nodes.as_slice();
        let edges = self.edges.as_slice();
        nodes.len() > 1
            && nodes.iter().all(|node| has_low_ranks(node, nodes.len()))
            && edges.iter().all(|edge| lowers(edge, nodes))
    }
}

/// Whether both ranks of the node are below the limit.
pub(crate) fn has_low_ranks(node: &PNode, limit: usize) -> bool
    ensures { IsTrue result ↔ HasLowRanks limit node.now }
{
    (node.rank_left as usize) < limit && (node.rank_right as usize) < limit
}

/// Whether the edge leads to a node, and lowers the rank of each side on which its path is empty.
fn lowers(edge: &PEdge, nodes: &[PNode]) -> bool
    ensures { IsTrue result ↔ LowersRanks nodes.now edge.now }
{
    (edge.to as usize) < nodes.len() && keeps_falls(edge, nodes)
}

/// Whether the edge lowers the rank of each side on which its path is empty.
pub(crate) fn keeps_falls(edge: &PEdge, nodes: &[PNode]) -> bool
    ensures { IsTrue result ↔ KeepsFalls nodes.now edge.now }
{
    (!edge.left.is_empty() || left_rank(nodes, edge.to) < left_rank(nodes, edge.from))
        && (!edge.right.is_empty() || right_rank(nodes, edge.to) < right_rank(nodes, edge.from))
}

/// The left rank of the node of this number, 0 where there is none.
fn left_rank(nodes: &[PNode], number: u32) -> u32
    ensures { result ≡ left_rank nodes.now number }
{
    match nodes.get(number as usize) {
        Some(node) => node.rank_left,
        None => 0,
    }
}

/// The right rank of the node of this number, 0 where there is none.
fn right_rank(nodes: &[PNode], number: u32) -> u32
    ensures { result ≡ right_rank nodes.now number }
{
    match nodes.get(number as usize) {
        Some(node) => node.rank_right,
        None => 0,
    }
}
