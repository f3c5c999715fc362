//! The row of a general operation, and the nodes that its flags are over.
ghost use Rattle.std.specs.Prelude.{◌≡◌, ℕ, ◌<◌, ◌≤◌, IfOk, IsErrOf, length};
ghost use Rattle.std.specs.List.{AllByRecursion};
ghost use Rattle.insn_semantics.specs.Exprs.{leaves_of};
ghost use Rattle.insn_semantics.specs.FormedRows.{HasRowWidth, row_widths};
ghost use Rattle.insn_semantics.specs.Rows.{row_expr};
ghost use Rattle.machine.specs.Access as access;
ghost use Rattle.node_values.specs.Sheets.{Extends, width_at};
ghost use Rattle.sym_rows.specs.Leaves.{row_leaf};
ghost use Rattle.sym_general.specs.Applied.{IsBit, constant_or, row_made};
ghost use Rattle.sym_general.specs.Applied as applied;

use insn_ops::Op;
use sym_rows::operands::{FlagNodes, RowNodes};
use sym_rows::rows::row;
use terms::{Node, NodeId, Sheet, SheetFull};

/// Whether an operation computes a word.
pub fn computes_word(op: Op) -> bool
    ensures { result ≡ applied.computes_word op }
{
    !matches!(
        op,
        Op::Jump(_) | Op::Jmp | Op::Push | Op::Pop | Op::Ret | Op::Nop | Op::Endbr64 | Op::Vector(_)
    )
}

/// Whether it writes what it computes.
pub fn writes(op: Op) -> bool
    ensures { result ≡ access.writes op }
{
    !matches!(op, Op::Cmp | Op::Test)
}

/// The constant that is the left operand of the flags, if one is.
fn left_constant(op: Op) -> Option<u64>
    ensures { result ≡ applied.left_constant op }
{
    match op {
        Op::Neg => Some(0),
        _ => None,
    }
}

/// The constant that is the right operand.
fn right_constant(op: Op) -> Option<u64>
    ensures { result ≡ applied.right_constant op }
{
    match op {
        Op::Inc | Op::Dec => Some(1),
        _ => None,
    }
}

/// The node of the right operand, where it is no constant.
fn right_node(op: Op, over: RowNodes) -> NodeId
    ensures { result ≡ applied.right_node op over }
{
    match op {
        Op::Neg => over.destination,
        _ => over.source,
    }
}

/// Builds a constant of w bits, 0 or 1, or else gives a node of the sheet.
fn constant_or(
    sheet: &mut Sheet,
    constant: Option<u64>,
    w: u32,
    id: NodeId,
) -> Result<NodeId, SheetFull>
    requires some { 0 < w }
    requires word { w ≤ 64 }
    requires small { IsBit constant }
    ensures made { IfOk result (λ made. constant_or constant w id sheet.old ≡ record { nodes = sheet.new; id = made }) }
    ensures full { IsErrOf result SheetFull.Full → 65536 < length (constant_or constant w id sheet.old).nodes }
    ensures extends { Extends sheet.old sheet.new }
{
    match constant {
        Some(v) => sheet.build(Node::Const { w, v }),
        None => Ok(id),
    }
}

/// Builds the row of an operation at w bits, a shift by k, and then the constants that its flags are over.
#[tactic(auto, unfolding(crate::specs::Applied::row_made))]
pub fn build_row(
    sheet: &mut Sheet,
    op: Op,
    w: u32,
    k: u32,
    over: RowNodes,
) -> Result<FlagNodes, SheetFull>
    requires some { 0 < w }
    requires word { w ≤ 64 }
    requires row { HasRowWidth op w k }
    requires inside { (i : ℕ) → (row_leaf over i).0 < length sheet.old }
    requires widths { AllByRecursion (λ i. width_at sheet.old (row_leaf over i).0 ≡ row_widths op w i) (leaves_of (row_expr op w k)) }
    ensures made { IfOk result (λ nodes. row_made op w k over sheet.old ≡ record { nodes = sheet.new; over = nodes }) }
    ensures full { IsErrOf result SheetFull.Full → 65536 < length (row_made op w k over sheet.old).nodes }
    ensures extends { Extends sheet.old sheet.new }
{
    let result = row(sheet, op, w, k, over)?;
    let left = constant_or(sheet, left_constant(op), w, over.destination)?;
    let right = constant_or(sheet, right_constant(op), w, right_node(op, over))?;
    Ok(FlagNodes {
        result,
        left,
        right,
    })
}
