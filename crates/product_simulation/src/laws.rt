//! The laws of products and of chains.
ghost use Rattle.std.specs.Prelude.{◌≡◌, ◌⊎◌, ℕ, ◌<◌, Bool, true, List, [], length};
ghost use Rattle.insn_table.specs.declared.insn.Function.{Function};
ghost use Rattle.machine.specs.Machine.{Machine};
ghost use Rattle.runs.specs.Path.{Fell, way};
ghost use Rattle.runs.specs.Run.{Step};
ghost use Rattle.product_automaton.specs.declared.product.PEdge.{PEdge};
ghost use Rattle.product_automaton.specs.declared.product.Product.{Product};
ghost use Rattle.product_automaton.specs.ChainBounds.{composed_bound, joined_bound};
ghost use Rattle.product_automaton.specs.Ranks.{RanksFall, bound_of};
ghost use Rattle.product_simulation.specs.Chains.{AreLinked, Link, bounds_of, last_of};
ghost use Rattle.product_simulation.specs.Leads.{IsWayOn, left_next, right_next};
ghost use Rattle.product_simulation.specs.Functions.{EquivalentFunctions, PacedFunctions, ProductLeads, function_step};
ghost use Rattle.product_simulation.specs.Related.{IsStartWhere, SameEndAt, Scratch};

use insn_ops::Output;
use insn_table::Function;
use product_automaton::Product;

/// The law of the product simulation. Where ranks fall and each two related states have a way on,
/// the two functions are equivalent within the bound of the product, with any live outputs and any
/// scratch lines, from each start state that is related to itself at the entry; the bound needs no
/// step more. What else is related is said by any test of a node and two states. It does nothing.
pub fn simulation_law(left: &Function, right: &Function, live: &[Output], product: &Product)
    requires { RanksFall product.now }
    ensures equivalent { (scratch : Scratch) (holds : ℕ → Machine → Machine → Bool)
        → ProductLeads left.now right.now product.now live.now scratch holds
        → EquivalentFunctions (λ s. holds 0 s s) live.now scratch (bound_of product.now) left.now right.now }
    ensures paced { (scratch : Scratch) (holds : ℕ → Machine → Machine → Bool)
        → ProductLeads left.now right.now product.now live.now scratch holds
        → PacedFunctions (λ s. holds 0 s s) (bound_of product.now) left.now right.now }
{}

/// The law of chains: two equivalences in turn make one within the joined bound, and a chain of them
/// makes its first and its last function equivalent within the composed bound. It does nothing.
pub fn chain_law(live: &[Output])
    ensures two { (scratch : Scratch) (test : Machine → Bool) (k l : ℕ) (f g h : Function)
        → EquivalentFunctions test live.now scratch k f g → EquivalentFunctions test live.now scratch l g h
        → EquivalentFunctions test live.now scratch (joined_bound k l) f h }
    ensures chain { (scratch : Scratch) (test : Machine → Bool) (f : Function) (links : List (Link Function))
        → 0 < length links → AreLinked (IsStartWhere test) (SameEndAt live.now scratch) function_step f links
        → EquivalentFunctions test live.now scratch (composed_bound (bounds_of links)) f (last_of f links) }
{}

/// The law of what is no way on, over states of any type: an edge into the exit with a path that is
/// empty on a side, and an edge on which one side alone faults. It does nothing.
pub fn no_way_law<S>()
    ensures empty_into_exit { (place : S → ℕ) (f g : S → Step S) (p : Product) (holds : ℕ → S → S → Bool)
        (e : PEdge) (a b : S) → e.to ≡ 1 → (e.left ≡ []) ⊎ (e.right ≡ [])
        → IsWayOn place f g p (λ node c d. holds node c d ≡ true) e a b → ⊥ }
    ensures left_alone { (place : S → ℕ) (f g : S → Step S) (p : Product) (holds : ℕ → S → S → Bool)
        (e : PEdge) (a b : S) → way place f e.left (left_next p e.to) a ≡ Fell
        → (way place g e.right (right_next p e.to) b ≡ Fell → ⊥)
        → IsWayOn place f g p (λ node c d. holds node c d ≡ true) e a b → ⊥ }
    ensures right_alone { (place : S → ℕ) (f g : S → Step S) (p : Product) (holds : ℕ → S → S → Bool)
        (e : PEdge) (a b : S) → way place g e.right (right_next p e.to) b ≡ Fell
        → (way place f e.left (left_next p e.to) a ≡ Fell → ⊥)
        → IsWayOn place f g p (λ node c d. holds node c d ≡ true) e a b → ⊥ }
{}
