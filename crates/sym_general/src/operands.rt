//! The operands that a general instruction reads, and where their nodes stand.
ghost use Rattle.std.specs.Prelude.{◌≡◌};
ghost use Rattle.sym_general.specs.Operands as operands;

use insn_ops::Op;
use sym_rows::operands::RowNodes;
use terms::NodeId;

/// Whether the row names its destination's old value.
fn reads_destination(op: Op) -> bool
    ensures { result ≡ operands.reads_destination op }
{
    matches!(
        op,
        Op::Add
            | Op::Sub
            | Op::Cmp
            | Op::Test
            | Op::And
            | Op::Or
            | Op::Xor
            | Op::Inc
            | Op::Dec
            | Op::Neg
            | Op::Not
            | Op::Shl
            | Op::Shr
            | Op::Sar
            | Op::Imul
            | Op::Cmov(_)
    )
}

/// Whether it names its source before its destination, as a move by condition does.
fn names_source_first(op: Op) -> bool
    ensures { result ≡ operands.names_source_first op }
{
    matches!(op, Op::Cmov(_))
}

/// The place of the destination among the operands.
fn destination_at(op: Op) -> usize
    ensures { result ≡ operands.destination_at op }
{
    if names_source_first(op) { 1 } else { 0 }
}

/// The place of the source.
fn source_at(op: Op) -> usize
    ensures { result ≡ operands.source_at op }
{
    if reads_destination(op) && !names_source_first(op) {
        1
    } else {
        0
    }
}

/// A node of a list; where there is none, node 0.
fn node_of(values: &[NodeId], place: usize) -> NodeId
    ensures { result ≡ operands.node_of values.now place }
{
    match values.get(place) {
        Some(id) => *id,
        None => NodeId(0),
    }
}

/// The nodes of a row.
pub fn row_nodes(op: Op, values: &[NodeId], cond: Option<NodeId>) -> RowNodes
    ensures { result ≡ operands.row_nodes op values.now cond }
{
    RowNodes {
        destination: node_of(values, destination_at(op)),
        source: node_of(values, source_at(op)),
        condition: match cond {
            Some(id) => id,
            None => NodeId(0),
        },
    }
}
