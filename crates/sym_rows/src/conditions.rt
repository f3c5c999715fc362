//! The nodes of conditions.
ghost use Rattle.std.specs.Prelude.{◌≡◌, ◌<◌, ◌≤◌, IfOk, IsErrOf, length};
ghost use Rattle.insn_semantics.specs.Conditions.{cond_expr};
ghost use Rattle.node_values.specs.Sheets.{Extends};
ghost use Rattle.terms.specs.Building.{HasValue, built};
ghost use Rattle.sym_rows.specs.Leaves.{AreLeaves, condition_leaf};

use crate::building::node;
use crate::operands::ConditionNodes;
use insn_ops::Cond;
use terms::{Node, NodeId, Sheet, SheetFull};

/// Builds a condition over the nodes of the flags. In every environment the node is 1 where the condition holds,
/// and else 0.
pub fn condition(sheet: &mut Sheet, cond: Cond, over: ConditionNodes) -> Result<NodeId, SheetFull>
    requires { AreLeaves 1 sheet.old (condition_leaf over) }
    ensures built { IfOk result (λ id. built sheet.old (condition_leaf over) (cond_expr cond) ≡ record { nodes = sheet.new; id = id }) }
    ensures value { IfOk result (λ id.
        HasValue sheet.old (condition_leaf over) (cond_expr cond) (record { nodes = sheet.new; id = id })) }
    ensures full { IsErrOf result SheetFull.Full → 65536 < length (built sheet.old (condition_leaf over) (cond_expr cond)).nodes }
    ensures extends { Extends sheet.old sheet.new }
    ensures room { length sheet.new ≤ 65536 }
{
    sheet.in_order();
    let built = built_condition(sheet, cond, over);
    sheet.in_order();
    built
}

/// The node of a condition.
#[tactic(auto, unfolding(terms::specs::Building::built), using(crate::proofs::Past::still_over, crate::proofs::Widths::extends_through))]
fn built_condition(sheet: &mut Sheet, cond: Cond, over: ConditionNodes) -> Result<NodeId, SheetFull>
    requires { AreLeaves 1 sheet.old (condition_leaf over) }
    ensures built { IfOk result (λ id. built sheet.old (condition_leaf over) (cond_expr cond) ≡ record { nodes = sheet.new; id = id }) }
    ensures full { IsErrOf result SheetFull.Full → 65536 < length (built sheet.old (condition_leaf over) (cond_expr cond)).nodes }
    ensures extends { Extends sheet.old sheet.new }
{
    let ConditionNodes {
        carry,
        parity,
        zero,
        sign,
        overflow,
    } = over;
    match cond {
        Cond::E => Ok(zero),
        Cond::Ne => node(sheet, Node::Not(zero)),
        Cond::B => Ok(carry),
        Cond::Ae => node(sheet, Node::Not(carry)),
        Cond::Be => node(sheet, Node::Or(carry, zero)),
        Cond::A => {
            let not_above = node(sheet, Node::Or(carry, zero))?;
            node(sheet, Node::Not(not_above))
        }
        Cond::L => node(sheet, Node::Xor(sign, overflow)),
        Cond::Ge => {
            let less = node(sheet, Node::Xor(sign, overflow))?;
            node(sheet, Node::Not(less))
        }
        Cond::Le => {
            let less = node(sheet, Node::Xor(sign, overflow))?;
            node(sheet, Node::Or(zero, less))
        }
        Cond::G => {
            let less = node(sheet, Node::Xor(sign, overflow))?;
            let not_greater = node(sheet, Node::Or(zero, less))?;
            node(sheet, Node::Not(not_greater))
        }
        Cond::S => Ok(sign),
        Cond::Ns => node(sheet, Node::Not(sign)),
        Cond::O => Ok(overflow),
        Cond::No => node(sheet, Node::Not(overflow)),
        Cond::P => Ok(parity),
        Cond::Np => node(sheet, Node::Not(parity)),
    }
}
