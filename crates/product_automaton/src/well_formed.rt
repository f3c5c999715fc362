//! Whether a product meets the rules, and their first breach.
ghost use Rattle.std.specs.Prelude.{◌≡◌, ◌≢◌, ◌↔◌, ℕ, ◌<◌, ◌≤◌, IfSome, IsOk, IsTrue, MatchOption, Err, None, Some, if◌then◌else◌, length, slice_get};
ghost use Rattle.std.specs.List.{AllByRecursion};
ghost use Rattle.first_breaches.specs.Breaches.{FindsNumber, FindsPlace, IsFirstPlace, Place};
ghost use Rattle.product_automaton.specs.Cycles.{CyclesAdvance};
ghost use Rattle.product_automaton.specs.Ranks.{HasLowRanks, RanksFall};
ghost use Rattle.product_automaton.specs.Rules.{HasCounts, HasShortPaths, IsBlank, IsBreachAmong, IsProductBreach, Keeps, KeepsFalls, KeepsInvariants, KeepsPaths, KeepsPlaces, KeepsSizes, MeetsRules, StandsInside, later_rules};

use crate::invariants::invariant_fits;
use crate::paths::{joins_nodes, leads_left, leads_right};
use crate::product::{Invariant, PEdge, PNode, Product};
use crate::ranks::{has_low_ranks, keeps_falls};
use crate::rules::{Breach, Rule};
use flow_graph::Graph;

/// Above the number of each node and each edge.
const LIMIT: u32 = 256;

/// The rules after that on sizes, in order.
const LATER_RULES: [Rule; 5] = [
    Rule::Places,
    Rule::Paths,
    Rule::Falls,
    Rule::Ranks,
    Rule::Invariants,
];

impl Product {
    /// Whether the product meets the rules over the flow graphs of its two functions; else the first
    /// rule that is broken, at its first place. Where it meets them, its ranks fall, and no cycle stands
    /// still on a side.
    pub fn well_formed(&self, left: &Graph, right: &Graph) -> Result<(), Breach>
        ensures ok { IsOk result ↔ MeetsRules self.now left.now right.now }
        ensures first { (breach : Breach) → (result ≡ Err breach) ↔ IsProductBreach self.now left.now right.now breach }
        ensures falls { IsOk result → RanksFall self.now }
        ensures advances { IsOk result → CyclesAdvance self.now }
    {
        match self.first_breach(left, right) {
            None => Ok(()),
            Some(breach) => Err(breach),
        }
    }

    /// The first breach of the rules.
    fn first_breach(&self, left: &Graph, right: &Graph) -> Option<Breach>
        ensures { MatchOption result (MeetsRules self.now left.now right.now) (IsProductBreach self.now left.now right.now) }
    {
        match self.first_bad_size() {
            Some(place) => Some(Rule::Sizes.at(place)),
            None => self.first_later_breach(left, right),
        }
    }

    /// The first breach of the rules after that on sizes, which is kept.
    fn first_later_breach(&self, left: &Graph, right: &Graph) -> Option<Breach>
        requires { (n : ℕ) → KeepsSizes self.now n }
        ensures { MatchOption result (AllByRecursion (λ rule. (at : Place) → Keeps self.now left.now right.now rule at) later_rules)
            (IsBreachAmong later_rules self.now left.now right.now) }
    {
        for rule in LATER_RULES {
            match self.first_place(rule, left, right) {
                Some(place) => return Some(rule.at(place)),
                None => {}
            }
        }
        None
    }

    /// The first place at which the first rule is broken.
    fn first_bad_size(&self) -> Option<(u32, u32)>
        ensures { FindsPlace (λ at. KeepsSizes self.now at.0) result }
    {
        if !has_counts(self) {
            return Some((0, 0));
        }
        for number in 0..LIMIT {
            if !has_few_invariants(self, number) || !has_short_paths(self, number) {
                return Some((number, 0));
            }
        }
        None
    }

    /// The first place at which the rule is broken. The first rule is kept.
    fn first_place(&self, rule: Rule, left: &Graph, right: &Graph) -> Option<(u32, u32)>
        requires { (n : ℕ) → KeepsSizes self.now n }
        ensures { FindsPlace (Keeps self.now left.now right.now rule) result }
    {
        for number in 0..LIMIT {
            if let Some(second) = self.first_second(rule, number, left, right) {
                return Some((number, second));
            }
        }
        None
    }

    /// Of the places with this first number, the second number of the first one at which the rule is
    /// broken. The first rule is kept.
    fn first_second(&self, rule: Rule, number: u32, left: &Graph, right: &Graph) -> Option<u32>
        requires { (n : ℕ) → KeepsSizes self.now n }
        ensures { FindsNumber (λ second. Keeps self.now left.now right.now rule (number, second)) result }
    {
        match rule {
            Rule::Sizes => None,
            Rule::Places => zero_unless(has_good_places(self, number, left, right)),
            Rule::Paths => broken_side(self, number, left, right),
            Rule::Falls => zero_unless(falls_along(self, number)),
            Rule::Ranks => zero_unless(has_good_ranks(self, number)),
            Rule::Invariants => broken_invariant(self, number),
        }
    }
}

/// None where a rule with one number is kept there, else 0.
fn zero_unless(kept: bool) -> Option<u32>
    ensures { result ≡ (if kept then None else Some 0) }
{
    if kept { None } else { Some(0) }
}

/// Whether the numbers of nodes and edges are in their limits.
fn has_counts(product: &Product) -> bool
    ensures { IsTrue result ↔ HasCounts product.now }
{
    product.nodes.len() >= 2 && product.nodes.len() <= 64 && product.edges.len() <= 256
}

/// Whether the node of this number, if there is one, has at most 512 invariants.
fn has_few_invariants(product: &Product, number: u32) -> bool
    ensures { IsTrue result ↔ IfSome (slice_get product.now.nodes number) (λ node. length node.invs ≤ 512) }
{
    match product.nodes.get(number as usize) {
        None => true,
        Some(node) => node.invs.len() <= 512,
    }
}

/// Whether both paths of the edge of this number, if there is one, have at most 512 places.
fn has_short_paths(product: &Product, number: u32) -> bool
    ensures { IsTrue result ↔ IfSome (slice_get product.now.edges number) HasShortPaths }
{
    match product.edges.get(number as usize) {
        None => true,
        Some(edge) => edge.left.len() <= 512 && edge.right.len() <= 512,
    }
}

/// Whether the node of this number, if there is one, has the places that it may have.
fn has_good_places(product: &Product, number: u32, left: &Graph, right: &Graph) -> bool
    ensures { IsTrue result ↔ IfSome (slice_get product.now.nodes number) (KeepsPlaces left.now right.now number) }
{
    match product.nodes.get(number as usize) {
        None => true,
        Some(node) if number < 2 => is_blank(node),
        Some(node) => left.has_place(node.left) && right.has_place(node.right),
    }
}

/// Whether the node has no invariant and 0 for its places.
fn is_blank(node: &PNode) -> bool
    ensures { IsTrue result ↔ IsBlank node.now }
{
    node.left == 0 && node.right == 0 && node.invs.is_empty()
}

/// Whether the edge of this number, if there is one, lowers the rank of each side on which its path is
/// empty.
fn falls_along(product: &Product, number: u32) -> bool
    ensures { IsTrue result ↔ IfSome (slice_get product.now.edges number) (KeepsFalls product.now.nodes) }
{
    match product.edges.get(number as usize) {
        None => true,
        Some(edge) => keeps_falls(edge, product.nodes.as_slice()),
    }
}

/// Whether both ranks of the node of this number, if there is one, are below the number of nodes.
fn has_good_ranks(product: &Product, number: u32) -> bool
    ensures { IsTrue result ↔ IfSome (slice_get product.now.nodes number) (HasLowRanks (length product.now.nodes)) }
{
    match product.nodes.get(number as usize) {
        None => true,
        Some(node) => has_low_ranks(node, product.nodes.len()),
    }
}

/// The first side on which the edge of this number, if there is one, joins no nodes or has no path
/// between them.
fn broken_side(product: &Product, number: u32, left: &Graph, right: &Graph) -> Option<u32>
    ensures { FindsNumber (λ side. IfSome (slice_get product.now.edges number)
        (KeepsPaths product.now.nodes left.now right.now side)) result }
{
    match product.edges.get(number as usize) {
        None => None,
        Some(edge) => first_side(edge, product.nodes.as_slice(), left, right),
    }
}

/// The first side on which the edge joins no nodes or has no path between them.
fn first_side(edge: &PEdge, nodes: &[PNode], left: &Graph, right: &Graph) -> Option<u32>
    ensures { FindsNumber (λ side. KeepsPaths nodes.now left.now right.now side edge.now) result }
{
    if !joins_nodes(edge, nodes) || !leads_left(edge, nodes, left) {
        return Some(0);
    }
    if !leads_right(edge, nodes, right) {
        return Some(1);
    }
    None
}

/// The first invariant that does not fit, of the node of this number, if there is one.
fn broken_invariant(product: &Product, number: u32) -> Option<u32>
    requires { (n : ℕ) → KeepsSizes product.now n }
    ensures { FindsNumber (λ k. IfSome (slice_get product.now.nodes number)
        (λ node. IfSome (slice_get node.invs k) KeepsInvariants)) result }
{
    match product.nodes.get(number as usize) {
        None => None,
        Some(node) => first_unfit(node.invs.as_slice()),
    }
}

/// The first invariant that does not fit.
fn first_unfit(invs: &[Invariant]) -> Option<u32>
    requires { length invs.now ≤ 512 }
    ensures { FindsNumber (λ k. IfSome (slice_get invs.now k) KeepsInvariants) result }
{
    for (k, invariant) in invs.iter().enumerate() {
        if !invariant_fits(invariant) {
            return Some(k as u32);
        }
    }
    None
}
