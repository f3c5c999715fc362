//! The law of sums. The function does nothing; its contract is the law.
ghost use Rattle.std.specs.Prelude.{ℕ, ◌<◌, List};
ghost use Rattle.node_values.specs.declared.node.Node.{Node};
ghost use Rattle.node_values.specs.declared.node.NodeId.{NodeId};
ghost use Rattle.node_values.specs.Sheets.{IsSheet, value_at};
ghost use Rattle.node_values.specs.Values.{Environment};
ghost use Rattle.node_forms.specs.Sums.{SameWord};
ghost use Rattle.form_sums.specs.Sums.{AreWide, AtomsCancel, sum_constant, sum_of};

/// Where the atoms of a weighted sum of nodes' forms cancel, the same sum of the nodes' values is its constant, modulo
/// 2^w, in every environment.
pub fn sums_have_their_constant()
    ensures { (e : Environment) (ns : List Node) (w : ℕ) (ts : List (ℕ × NodeId)) → IsSheet ns → 0 < w → AreWide ns w ts
        → AtomsCancel ns w ts → SameWord w (sum_of (value_at e ns) ts) (sum_constant ns w ts) }
{}
