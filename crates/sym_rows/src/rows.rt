//! The nodes of general rows.
ghost use Rattle.std.specs.Prelude.{◌≡◌, ℕ, ◌<◌, ◌≤◌, IfOk, IsErrOf, length};
ghost use Rattle.std.specs.List.{AllByRecursion};
ghost use Rattle.insn_semantics.specs.Exprs.{leaves_of};
ghost use Rattle.insn_semantics.specs.FormedRows.{HasRowWidth, row_widths};
ghost use Rattle.insn_semantics.specs.Rows.{row_expr};
ghost use Rattle.node_values.specs.Sheets.{Extends, width_at};
ghost use Rattle.terms.specs.Building.{HasValue, built};
ghost use Rattle.sym_rows.specs.Leaves.{row_leaf};

use crate::building::{constant, node};
use crate::operands::RowNodes;
use insn_ops::Op;
use terms::{Node, NodeId, Sheet, SheetFull};

/// Builds what a general operation computes at `w` bits, a shift by `k`, over nodes of the sheet. In every
/// environment the node has the row's value.
pub fn row(sheet: &mut Sheet, op: Op, w: u32, k: u32, over: RowNodes) -> Result<NodeId, SheetFull>
    requires row { HasRowWidth op w k }
    requires inside { (i : ℕ) → (row_leaf over i).0 < length sheet.old }
    requires widths { AllByRecursion (λ i. width_at sheet.old (row_leaf over i).0 ≡ row_widths op w i) (leaves_of (row_expr op w k)) }
    ensures built { IfOk result (λ id. built sheet.old (row_leaf over) (row_expr op w k) ≡ record { nodes = sheet.new; id = id }) }
    ensures value { IfOk result (λ id.
        HasValue sheet.old (row_leaf over) (row_expr op w k) (record { nodes = sheet.new; id = id })) }
    ensures full { IsErrOf result SheetFull.Full → 65536 < length (built sheet.old (row_leaf over) (row_expr op w k)).nodes }
    ensures extends { Extends sheet.old sheet.new }
    ensures room { length sheet.new ≤ 65536 }
{
    sheet.in_order();
    let built = built_row(sheet, op, w, k, over);
    sheet.in_order();
    built
}

/// The node of what a general operation computes at `w` bits, a shift by `k`.
#[tactic(auto, unfolding(terms::specs::Building::built), using(crate::proofs::Past::still_over, crate::proofs::Widths::extends_through))]
fn built_row(sheet: &mut Sheet, op: Op, w: u32, k: u32, over: RowNodes) -> Result<NodeId, SheetFull>
    requires row { HasRowWidth op w k }
    requires inside { (i : ℕ) → (row_leaf over i).0 < length sheet.old }
    requires widths { AllByRecursion (λ i. width_at sheet.old (row_leaf over i).0 ≡ row_widths op w i) (leaves_of (row_expr op w k)) }
    ensures built { IfOk result (λ id. built sheet.old (row_leaf over) (row_expr op w k) ≡ record { nodes = sheet.new; id = id }) }
    ensures full { IsErrOf result SheetFull.Full → 65536 < length (built sheet.old (row_leaf over) (row_expr op w k)).nodes }
    ensures extends { Extends sheet.old sheet.new }
{
    let RowNodes {
        destination: d,
        source: s,
        condition: c,
    } = over;
    match op {
        Op::Mov | Op::Movabs => Ok(s),
        Op::Add => node(sheet, Node::Add(d, s)),
        Op::Sub => node(sheet, Node::Sub(d, s)),
        Op::Cmp => node(sheet, Node::Sub(d, s)),
        Op::Test => node(sheet, Node::And(d, s)),
        Op::And => node(sheet, Node::And(d, s)),
        Op::Or => node(sheet, Node::Or(d, s)),
        Op::Xor => node(sheet, Node::Xor(d, s)),
        Op::Inc => {
            let one = constant(sheet, w, 1)?;
            node(sheet, Node::Add(d, one))
        }
        Op::Dec => {
            let one = constant(sheet, w, 1)?;
            node(sheet, Node::Sub(d, one))
        }
        Op::Neg => {
            let zero = constant(sheet, w, 0)?;
            node(sheet, Node::Sub(zero, d))
        }
        Op::Not => node(sheet, Node::Not(d)),
        Op::Shl => node(sheet, Node::Shl(d, k)),
        Op::Shr => node(sheet, Node::Shr(d, k)),
        Op::Sar => node(sheet, Node::Sar(d, k)),
        Op::Imul => node(sheet, Node::Mul(d, s)),
        Op::Lea => node(sheet, Node::Cut(s, 0, w)),
        Op::Movzx(m) => {
            let zeros = constant(sheet, w - m, 0)?;
            node(sheet, Node::Cat(zeros, s))
        }
        Op::Movsx(_) => node(sheet, Node::Sx(w, s)),
        Op::Cltq => node(sheet, Node::Sx(64, s)),
        Op::Cmov(_) => node(sheet, Node::If(c, s, d)),
        Op::Set(_) => {
            let zeros = constant(sheet, 7, 0)?;
            node(sheet, Node::Cat(zeros, c))
        }
        Op::Jump(_)
        | Op::Jmp
        | Op::Push
        | Op::Pop
        | Op::Ret
        | Op::Nop
        | Op::Endbr64
        | Op::Vector(_) => Ok(d),
    }
}
