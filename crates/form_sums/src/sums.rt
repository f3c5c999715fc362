//! What is left of a weighted sum of nodes' forms.
ghost use Rattle.std.specs.Prelude.{◌≡◌, ℕ, ◌+◌, ◌*◌, ◌<◌, ◌≤◌, IfOk, IsSome, OnOk, length, slice_index};
ghost use Rattle.node_values.specs.Sheets.{AreWidths, IsSheet, width_at};
ghost use Rattle.node_forms.specs.Forms.{form_at};
ghost use Rattle.node_forms.specs.Sums.{SameWord};
ghost use Rattle.form_sums.specs.Made.{AreBelow, AreClear, AreForms};
ghost use Rattle.form_sums.specs.Sums.{AreWide, IsLeft};

use crate::forms::Forms;
use crate::totals::Totals;
use node_values::{Node, NodeId};
use outcomes::Memory;
use scalar_ops::low_bits;

/// The constant of a weighted sum of the forms of nodes at `w`, modulo 2^w, where its atoms cancel; else None.
///
/// `w` is from 1 to 64 and at most each node's width; a weight may be any number. The totals are clear before, and
/// after where the atoms cancel.
pub fn left_of_sum(
    totals: &mut Totals,
    forms: &mut Forms,
    nodes: &[Node],
    widths: &[u32],
    w: u32,
    parts: &[(u64, NodeId)],
) -> Result<Option<u64>, Memory>
    requires sheet { IsSheet nodes.now }
    requires widths { AreWidths nodes.now widths.now }
    requires width { (0 < w) × (w ≤ 64) }
    requires parts { AreWide nodes.now w parts.now }
    requires forms { AreForms nodes.now forms.old }
    requires room { length totals.old ≡ length nodes.now }
    requires clear { AreClear totals.old }
    ensures left { IfOk result (IsLeft nodes.now w parts.now) }
    ensures forms { AreForms nodes.now forms.new }
    ensures room { length totals.new ≡ length nodes.now }
    ensures clear { IfOk result (λ left. IsSome left → AreClear totals.new) }
{
    let mut constant = 0u64;
    for (weight, node) in parts {
        constant = add_part(totals, forms, nodes, widths, w, *weight, *node, constant)?;
    }
    if totals.are_clear() {
        Ok(Some(low_bits(w, constant)))
    } else {
        Ok(None)
    }
}

/// Adds the form of a node at `w` to the totals, times its weight, and gives the constant after it.
fn add_part(
    totals: &mut Totals,
    forms: &mut Forms,
    nodes: &[Node],
    widths: &[u32],
    w: u32,
    weight: u64,
    node: NodeId,
    constant: u64,
) -> Result<u64, Memory>
    requires sheet { IsSheet nodes.now }
    requires widths { AreWidths nodes.now widths.now }
    requires width { (0 < w) × (w ≤ 64) × (w ≤ width_at nodes.now node.0) }
    requires node { node.0 < length nodes.now }
    requires forms { AreForms nodes.now forms.old }
    requires room { length totals.old ≡ length nodes.now }
    requires below { AreBelow w totals.old }
    ensures totals { OnOk result ((atom : ℕ) → SameWord w (slice_index totals.new atom)
        (slice_index totals.old atom + weight * (form_at nodes.now w node.0).coefficient atom)) }
    ensures constant { IfOk result (λ after. SameWord w after (constant + weight * (form_at nodes.now w node.0).constant)) }
    ensures forms { AreForms nodes.now forms.new }
    ensures room { length totals.new ≡ length nodes.now }
    ensures below { AreBelow w totals.new }
{
    let place = forms.place(nodes, widths, w, node)?;
    let form = forms.at(place);
    totals.add_all(w, weight, form.atoms.as_slice());
    Ok(constant.wrapping_add(weight.wrapping_mul(form.c)))
}
