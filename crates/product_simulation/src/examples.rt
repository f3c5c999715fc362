//! Laws of three small products, which show what the premises of the simulation are for.
ghost use Rattle.std.specs.Prelude.{ℕ, [], ◌∷◌, length};
ghost use Rattle.runs.specs.Equivalent.{AreEquivalent};
ghost use Rattle.product_automaton.specs.Ranks.{RanksFall, bound_of, longest_path};
ghost use Rattle.product_simulation.specs.Examples.{AnyEnd, IsAtEntry, LeapingRelated, StandingRelated, WaitingRelated, circle_edge, endless_step, entry_edge, leaping_product, quick_step, slow_step, slower_step, standing_product, waiting_product};
ghost use Rattle.product_simulation.specs.Leads.{EdgesLead};

/// Why the bound counts the nodes: one function returns by its first step, the other by its third,
/// over a product whose longest path is 1. Its edges lead on and its ranks fall, so its bound of 4
/// holds, but the length of the longest path alone is no bound. It does nothing.
pub fn nodes_count_law()
    ensures falls { RanksFall waiting_product }
    ensures leads { EdgesLead (λ s. s) quick_step slow_step waiting_product WaitingRelated }
    ensures bound { AreEquivalent IsAtEntry AnyEnd (bound_of waiting_product) quick_step slow_step }
    ensures longest { AreEquivalent IsAtEntry AnyEnd (longest_path waiting_product.edges) quick_step slow_step → ⊥ }
{}

/// Why the bound counts the steps of paths: one function returns by its first step, the other by its
/// fifth, over a product of two nodes. Its edge leads on and its ranks fall, so its bound of 10 holds,
/// but the number of nodes alone is no bound. It does nothing.
pub fn longest_path_law()
    ensures falls { RanksFall leaping_product }
    ensures leads { EdgesLead (λ s. s) quick_step slower_step leaping_product LeapingRelated }
    ensures bound { AreEquivalent IsAtEntry AnyEnd (bound_of leaping_product) quick_step slower_step }
    ensures nodes { AreEquivalent IsAtEntry AnyEnd (length leaping_product.nodes) quick_step slower_step → ⊥ }
{}

/// Why ranks have to fall: one function returns by its first step, the other never ends, over a
/// product whose edges lead on and whose ranks fall along all edges but the last. The two are
/// equivalent within no bound. It does nothing.
pub fn falling_ranks_law()
    ensures falls_before { RanksFall (standing_product (entry_edge ∷ [])) }
    ensures leads { EdgesLead (λ s. s) quick_step endless_step
        (standing_product (entry_edge ∷ circle_edge ∷ [])) StandingRelated }
    ensures other { (k : ℕ) → AreEquivalent IsAtEntry AnyEnd k quick_step endless_step → ⊥ }
{}
