//! Nodes built one after the other: what stays of the older ones.
ghost use Rattle.std.specs.Prelude.{◌≡◌, ℕ, ◌<◌, ◌≤◌, IfOk, IsErrOf, length};
ghost use Rattle.node_values.specs.Nodes.{IsNode, node_width};
ghost use Rattle.node_values.specs.Sheets.{Extends, width_at};
ghost use Rattle.node_values.specs.declared.node.Node.TheVariants as nodes_of;
ghost use Rattle.terms.specs.Made.{made};

use terms::{Node, NodeId, Sheet, SheetFull};

/// Builds a node; the older ones keep their numbers and widths.
pub fn node(sheet: &mut Sheet, node: Node) -> Result<NodeId, SheetFull>
    requires { IsNode (width_at sheet.old) (length sheet.old) node }
    ensures made { IfOk result (λ id. made sheet.old node ≡ record { nodes = sheet.new; id = id }) }
    ensures full { IsErrOf result SheetFull.Full → 65536 < length (made sheet.old node).nodes }
    ensures inside { IfOk result (λ id. id.0 < length sheet.new) }
    ensures width { IfOk result (λ id. width_at sheet.new id.0 ≡ node_width (width_at sheet.old) node) }
    ensures extends { Extends sheet.old sheet.new }
    ensures longer { length sheet.old ≤ length sheet.new }
    ensures kept { (i : ℕ) → i < length sheet.old → width_at sheet.new i ≡ width_at sheet.old i }
    ensures room { length sheet.new ≤ 65536 }
{
    sheet.in_order();
    sheet.build(node)
}

/// Builds 0 or 1 as a word of w bits.
pub fn constant(sheet: &mut Sheet, w: u32, v: u64) -> Result<NodeId, SheetFull>
    requires some { 0 < w }
    requires word { w ≤ 64 }
    requires bit { v ≤ 1 }
    ensures made { IfOk result (λ id. made sheet.old (nodes_of.Const w v) ≡ record { nodes = sheet.new; id = id }) }
    ensures full { IsErrOf result SheetFull.Full → 65536 < length (made sheet.old (nodes_of.Const w v)).nodes }
    ensures inside { IfOk result (λ id. id.0 < length sheet.new) }
    ensures width { IfOk result (λ id. width_at sheet.new id.0 ≡ w) }
    ensures extends { Extends sheet.old sheet.new }
    ensures longer { length sheet.old ≤ length sheet.new }
    ensures kept { (i : ℕ) → i < length sheet.old → width_at sheet.new i ≡ width_at sheet.old i }
    ensures room { length sheet.new ≤ 65536 }
{
    node(sheet, Node::Const { w, v })
}
