//! A full sheet: a chain of products and sums without carry.
ghost use Rattle.std.specs.Prelude.{◌≡◌, ◌<◌, IfOk, length};
ghost use Rattle.node_values.specs.Sheets.{width_at};

use node_values::{Node, NodeId};
use std::alloc::Global;
use terms::{Sheet, SheetFull};

/// How many links a sheet of 65,536 nodes has, of three nodes each.
const LINKS: u64 = 21_845;

/// A sheet of 65,536 nodes, and the number of the last one.
pub fn full_sheet(alloc: Global) -> Result<(Sheet, NodeId), SheetFull>
    ensures { IfOk result (λ made. made.1.0 < length made.0) }
{
    let mut sheet = Sheet::new(alloc);
    let mut last = sheet.build(Node::Entry { n: 0 })?;
    for v in 1..LINKS + 1 {
        last = link(&mut sheet, last, v)?;
    }
    Ok((sheet, last))
}

/// `last` times `v`, and then `xor` with it.
fn link(sheet: &mut Sheet, last: NodeId, v: u64) -> Result<NodeId, SheetFull>
    requires place { last.0 < length sheet.old }
    requires width { width_at sheet.old last.0 ≡ 64 }
    ensures place { IfOk result (λ id. id.0 < length sheet.new) }
    ensures width { IfOk result (λ id. width_at sheet.new id.0 ≡ 64) }
{
    sheet.in_order();
    let number = sheet.build(Node::Const { w: 64, v })?;
    let product = sheet.build(Node::Mul(last, number))?;
    let id = sheet.build(Node::Xor(product, number))?;
    Ok(id)
}
