//! Flags that are built only where they are read.
ghost use Rattle.std.specs.Prelude.{◌≡◌, ◌<◌, ◌≤◌, IfOk, IsErrOf, length};
ghost use Rattle.insn_semantics.specs.OperationGroups.{is_shift};
ghost use Rattle.node_values.specs.Sheets.{Extends, value_at, width_at};
ghost use Rattle.node_values.specs.Values.{Environment};
ghost use Rattle.sym_rows.specs.LazyFlags.{IsSetFlag, built_read, flag_word, shift_count};

use crate::flags::flag;
use crate::operands::{Flag, FlagNodes};
use insn_ops::Op;
use terms::{Node, NodeId, Sheet, SheetFull};

/// A flag of a symbolic state.
#[derive(Clone, Copy, Debug)]
pub enum SymFlag {
    /// It may have any value.
    Unset,
    /// An operation at `w` bits set it, and it is not built yet.
    From { op: Op, w: u32, over: FlagNodes },
    /// A node.
    Built(NodeId),
}

/// Whether an operation is a shift.
fn is_shift(op: Op) -> bool
    ensures { result ≡ is_shift op }
{
    matches!(op, Op::Shl | Op::Shr | Op::Sar)
}

/// The count of a shift whose right operand is a constant; 0 of the other operations.
pub fn shift_count(sheet: &Sheet, op: Op, right: NodeId) -> u64
    requires { right.0 < length sheet.now }
    ensures { result ≡ shift_count sheet.now op right }
{
    if !is_shift(op) {
        return 0;
    }
    match sheet.node(right) {
        Node::Const { v, .. } => v,
        _ => 0,
    }
}

/// Builds a flag that is set. In every environment the node has the flag's value.
pub fn read_flag(sheet: &mut Sheet, which: Flag, read: SymFlag) -> Result<NodeId, SheetFull>
    requires { IsSetFlag sheet.old which read }
    ensures built { IfOk result (λ id. built_read sheet.old which read ≡ record { nodes = sheet.new; id = id }) }
    ensures value { IfOk result (λ id. (e : Environment) → value_at e sheet.new id.0 ≡ flag_word e sheet.old which read) }
    ensures width { IfOk result (λ id. width_at sheet.new id.0 ≡ 1) }
    ensures inside { IfOk result (λ id. id.0 < length sheet.new) }
    ensures full { IsErrOf result SheetFull.Full → 65536 < length (built_read sheet.old which read).nodes }
    ensures extends { Extends sheet.old sheet.new }
    ensures room { length sheet.new ≤ 65536 }
{
    match read {
        SymFlag::Unset => {
            sheet.in_order();
            Ok(NodeId(0))
        }
        SymFlag::Built(id) => {
            sheet.in_order();
            Ok(id)
        }
        SymFlag::From { op, w, over } => {
            let k = shift_count(sheet, op, over.right);
            flag(sheet, which, op, w, k as u32, over)
        }
    }
}
