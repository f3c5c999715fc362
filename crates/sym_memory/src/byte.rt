//! The nodes of a byte that is read.
ghost use Rattle.std.specs.Prelude.{◌≡◌, ◌+◌, ◌<◌, ◌^◌, ◌≤◌, ℤ, pos, ◌+ℤ◌, IfOk, IsErrOf, length, reverse, []};
ghost use Rattle.insn_semantics.specs.Words as words;
ghost use Rattle.node_values.specs.Sheets.{Extends, IsSheet};
ghost use Rattle.terms.specs.Rules.{is_number};
ghost use Rattle.address_nodes.specs.Multiples.{IsAddress, IsOfWidth};
ghost use Rattle.sym_memory.specs.Writes.{AreWritten};
ghost use Rattle.sym_memory.specs.Writes as writes;
ghost use Rattle.sym_memory.specs.Reads as reads;
ghost use Rattle.sym_memory.specs.Choices.{AreChoices, with_choices};

use crate::written::{Place, Written};
use address_nodes::address_equality;
use duty_claims::{Fixed, Relation};
use insn_ops::Side;
use node_values::{Node, NodeId};
use std::alloc::Global;
use terms::{Sheet, SheetFull};

/// Builds the byte that is read at a place.
#[tactic(auto, using(crate::proofs::Longer::chosen_longer))]
pub fn read_byte(
    alloc: Global,
    sheet: &mut Sheet,
    side: Side,
    fixed: &[Fixed],
    place: Place,
    written: &[Written],
) -> Result<NodeId, SheetFull>
    requires address { IsAddress sheet.old place.address }
    requires written { AreWritten sheet.old written.now }
    ensures made { IfOk result (λ id. reads.byte_read side fixed.now place (reverse written.now) sheet.old ≡ record { nodes = sheet.new; id = id }) }
    ensures extends { Extends sheet.old sheet.new }
    ensures full { IsErrOf result SheetFull.Full → 65536 < length (reads.byte_read side fixed.now place (reverse written.now) sheet.old).nodes }
{
    let mut choices = Vec::new(alloc);
    let innermost = build_tests(alloc, sheet, side, fixed, place, written, &mut choices)?;
    let id = choose(sheet, choices, innermost)?;
    Ok(id)
}

/// Builds the tests of a read, from the newest written byte on, and answers the byte behind the last one.
fn build_tests(
    alloc: Global,
    sheet: &mut Sheet,
    side: Side,
    fixed: &[Fixed],
    place: Place,
    written: &[Written],
    choices: &mut Vec<(NodeId, NodeId)>,
) -> Result<NodeId, SheetFull>
    requires address { IsAddress sheet.old place.address }
    requires written { AreWritten sheet.old written.now }
    requires choices { choices.old.items ≡ [] }
    ensures made { IfOk result (λ id. reads.byte_read side fixed.now place (reverse written.now) sheet.old
        ≡ with_choices choices.new.items (record { nodes = sheet.new; id = id })) }
    ensures width { IfOk result (IsOfWidth sheet.new 8) }
    ensures choices { IfOk result (λ _. AreChoices sheet.new choices.new.items) }
    ensures extends { Extends sheet.old sheet.new }
    ensures full { IsErrOf result SheetFull.Full → 65536 < length (reads.byte_read side fixed.now place (reverse written.now) sheet.old).nodes }
{
    sheet.in_order();
    let mut at = written.len();
    while 0 < at {
        at -= 1;
        let newest = written[at];
        let test = build_test(alloc, sheet, fixed, place, newest)?;
        sheet.in_order();
        if is_one(sheet, test) {
            return Ok(newest.value);
        }
        choices.push((test, newest.value))?;
    }
    let at = place.address;
    let start = sheet.build(Node::Start { side, at })?;
    Ok(start)
}

/// Builds the choices around a byte, the last one first.
fn choose(
    sheet: &mut Sheet,
    choices: Vec<(NodeId, NodeId)>,
    innermost: NodeId,
) -> Result<NodeId, SheetFull>
    requires byte { IsOfWidth sheet.old 8 innermost }
    requires choices { AreChoices sheet.old choices.items }
    ensures made { IfOk result (λ id. with_choices choices.items (record { nodes = sheet.old; id = innermost })
        ≡ record { nodes = sheet.new; id = id }) }
    ensures extends { Extends sheet.old sheet.new }
    ensures full { IsErrOf result SheetFull.Full
        → 65536 < length (with_choices choices.items (record { nodes = sheet.old; id = innermost })).nodes }
{
    sheet.in_order();
    let mut choices = choices;
    let mut id = innermost;
    while let Some((test, value)) = choices.pop() {
        id = sheet.build(Node::If(test, value, id))?;
    }
    Ok(id)
}

/// Whether a node is the constant 1.
fn is_one(sheet: &Sheet, id: NodeId) -> bool
    requires { id.0 < length sheet.now }
    ensures { result ≡ is_number sheet.now 1 id.0 }
{
    match sheet.node(id) {
        Node::Const { v, .. } => v == 1,
        _ => false,
    }
}

/// Builds the test whether a written byte is the byte that is read.
#[tactic(auto, using(crate::proofs::Longer::test_longer))]
fn build_test(
    alloc: Global,
    sheet: &mut Sheet,
    fixed: &[Fixed],
    place: Place,
    written: Written,
) -> Result<NodeId, SheetFull>
    requires address { IsAddress sheet.old place.address }
    requires written { IsAddress sheet.old written.at }
    ensures made { IfOk result (λ id. reads.test fixed.now place written sheet.old ≡ record { nodes = sheet.new; id = id }) }
    ensures width { IfOk result (IsOfWidth sheet.new 1) }
    ensures extends { Extends sheet.old sheet.new }
    ensures full { IsErrOf result SheetFull.Full → 65536 < length (reads.test fixed.now place written sheet.old).nodes }
{
    let relation = relation_of(fixed, written.access, place.access);
    let id = test_by(alloc, sheet, relation, place, written)?;
    Ok(id)
}

/// Builds the test under the relation that is fixed, if one is.
#[tactic(auto, using(crate::proofs::Longer::made_longer, crate::proofs::Longer::equality_longer, crate::proofs::Longer::stays, crate::proofs::Longer::extends_trans))]
fn test_by(
    alloc: Global,
    sheet: &mut Sheet,
    relation: Option<Relation>,
    place: Place,
    written: Written,
) -> Result<NodeId, SheetFull>
    requires address { IsAddress sheet.old place.address }
    requires written { IsAddress sheet.old written.at }
    ensures made { IfOk result (λ id. reads.test_by place written sheet.old relation ≡ record { nodes = sheet.new; id = id }) }
    ensures width { IfOk result (IsOfWidth sheet.new 1) }
    ensures extends { Extends sheet.old sheet.new }
    ensures full { IsErrOf result SheetFull.Full → 65536 < length (reads.test_by place written sheet.old relation).nodes }
{
    sheet.in_order();
    match relation {
        None => {
            let address = byte_address(sheet, written.at, written.byte)?;
            address_equality(alloc, sheet, place.address, address)
        }
        Some(relation) => {
            let v = bit(is_same_byte(relation, place.byte, written.byte));
            sheet.build(Node::Const { w: 1, v })
        }
    }
}

/// Builds the address of a byte of an access.
#[tactic(auto, using(crate::proofs::Longer::made_longer, crate::proofs::Longer::stays), unfolding(crate::specs::Reads::byte_address))]
pub fn byte_address(sheet: &mut Sheet, at: NodeId, byte: u32) -> Result<NodeId, SheetFull>
    requires { IsAddress sheet.old at }
    ensures made { IfOk result (λ id. reads.byte_address sheet.old at byte ≡ record { nodes = sheet.new; id = id }) }
    ensures width { IfOk result (IsAddress sheet.new) }
    ensures extends { Extends sheet.old sheet.new }
    ensures full { IsErrOf result SheetFull.Full → 65536 < length (reads.byte_address sheet.old at byte).nodes }
{
    sheet.in_order();
    if byte == 0 {
        return Ok(at);
    }
    let v = byte as u64;
    let number = sheet.build(Node::Const { w: 64, v })?;
    sheet.build(Node::Add(at, number))
}

/// A test as a word of one bit.
fn bit(holds: bool) -> u64
    ensures value { result ≡ words.bit holds }
    ensures below { result < 2 ^ 1 }
{
    if holds { 1 } else { 0 }
}

/// The relation that is fixed first for two accesses.
fn relation_of(fixed: &[Fixed], i: u32, j: u32) -> Option<Relation>
    ensures { result ≡ writes.relation_of fixed.now i j }
{
    for entry in fixed {
        if entry.i == i && entry.j == j {
            return Some(entry.rel);
        }
    }
    None
}

/// Whether byte `b` of the second access is byte `c` of the first.
fn is_same_byte(relation: Relation, b: u32, c: u32) -> bool
    ensures { result ≡ writes.is_same_byte relation b c }
{
    match relation {
        Relation::Apart => false,
        Relation::Offset(d) => b as i64 + d as i64 == c as i64,
    }
}
