//! The difference of two addresses, and that they are equal.
ghost use Rattle.std.specs.Prelude.{◌≡◌, ℕ, ◌+◌, ◌-◌, ◌<◌, ◌^◌, ◌≤◌, IfOk, IsErrOf, length};
ghost use Rattle.insn_semantics.specs.Words as words;
ghost use Rattle.insn_semantics.specs.Words.{equal, minus};
ghost use Rattle.node_values.specs.Sheets.{Extends, value_at};
ghost use Rattle.node_values.specs.Values.{Environment};
ghost use Rattle.address_nodes.specs.Multiples.{AreTerms, IsAddress, IsOfWidth, IsSumSoFar, sum_of};
ghost use Rattle.address_nodes.specs.Differences.{difference, difference_form, difference_terms, equality, equation, is_least_subtracted, no_difference, summed_difference, with_constant};

use crate::form::difference_of;
use crate::sums::{MOST_ADDED, add_terms, subtract_terms};
use insn_ops::Op;
use node_values::{Node, NodeId};
use scalar_ops::scalar;
use std::alloc::Global;
use terms::{Form, Sheet, SheetFull};

/// Builds the difference of two addresses.
#[tactic(auto, using(crate::proofs::DifferenceNodes::difference_longer))]
pub fn address_difference(
    alloc: Global,
    sheet: &mut Sheet,
    a: NodeId,
    b: NodeId,
) -> Result<NodeId, SheetFull>
    requires first { IsAddress sheet.old a }
    requires second { IsAddress sheet.old b }
    ensures made { IfOk result (λ id. difference sheet.old a b ≡ record { nodes = sheet.new; id = id }) }
    ensures width { IfOk result (IsAddress sheet.new) }
    ensures value { IfOk result (λ id. (e : Environment)
        → value_at e sheet.new id.0 ≡ minus 64 (value_at e sheet.old a.0) (value_at e sheet.old b.0)) }
    ensures extends { Extends sheet.old sheet.new }
    ensures full { IsErrOf result SheetFull.Full → 65536 < length (difference sheet.old a b).nodes }
{
    sheet.in_order();
    let form = difference_of(alloc, sheet, a, b)?;
    let id = difference_by(sheet, a, b, form)?;
    Ok(id)
}

/// Builds the node that two addresses are equal.
#[tactic(auto, using(crate::proofs::DifferenceNodes::turned_longer, crate::proofs::DifferenceNodes::straight_longer))]
pub fn address_equality(
    alloc: Global,
    sheet: &mut Sheet,
    a: NodeId,
    b: NodeId,
) -> Result<NodeId, SheetFull>
    requires first { IsAddress sheet.old a }
    requires second { IsAddress sheet.old b }
    ensures made { IfOk result (λ id. equality sheet.old a b ≡ record { nodes = sheet.new; id = id }) }
    ensures width { IfOk result (IsOfWidth sheet.new 1) }
    ensures value { IfOk result (λ id. (e : Environment)
        → value_at e sheet.new id.0 ≡ equal (value_at e sheet.old a.0) (value_at e sheet.old b.0)) }
    ensures extends { Extends sheet.old sheet.new }
    ensures full { IsErrOf result SheetFull.Full → 65536 < length (equality sheet.old a b).nodes }
{
    sheet.in_order();
    let form = difference_of(alloc, sheet, a, b)?;
    if subtracts_least(form.atoms.as_slice()) {
        let turned = difference_of(alloc, sheet, b, a)?;
        let id = no_difference_by(sheet, b, a, turned)?;
        return Ok(id);
    }
    let id = no_difference_by(sheet, a, b, form)?;
    Ok(id)
}

/// Builds the difference with this form.
#[tactic(auto, using(crate::proofs::Growing::constant_longer, crate::proofs::Growing::extends_trans))]
fn difference_by(sheet: &mut Sheet, a: NodeId, b: NodeId, form: Form) -> Result<NodeId, SheetFull>
    requires first { IsAddress sheet.old a }
    requires second { IsAddress sheet.old b }
    requires terms { form.atoms ≡ difference_terms sheet.old a b }
    requires constant { form.c ≡ (difference_form sheet.old a b).constant }
    ensures made { IfOk result (λ id. summed_difference sheet.old a b ≡ record { nodes = sheet.new; id = id }) }
    ensures extends { Extends sheet.old sheet.new }
    ensures full { IsErrOf result SheetFull.Full → 65536 < length (summed_difference sheet.old a b).nodes }
{
    sheet.in_order();
    let sum = sum_of_terms(sheet, form.atoms.as_slice())?;
    with_number(sheet, form.c, sum)
}

/// Builds the node that the difference with this form is 0.
#[tactic(auto, using(crate::proofs::Growing::equation_longer, crate::proofs::Growing::extends_trans))]
fn no_difference_by(
    sheet: &mut Sheet,
    a: NodeId,
    b: NodeId,
    form: Form,
) -> Result<NodeId, SheetFull>
    requires first { IsAddress sheet.old a }
    requires second { IsAddress sheet.old b }
    requires terms { form.atoms ≡ difference_terms sheet.old a b }
    requires constant { form.c ≡ (difference_form sheet.old a b).constant }
    ensures made { IfOk result (λ id. no_difference sheet.old a b ≡ record { nodes = sheet.new; id = id }) }
    ensures extends { Extends sheet.old sheet.new }
    ensures full { IsErrOf result SheetFull.Full → 65536 < length (no_difference sheet.old a b).nodes }
{
    sheet.in_order();
    let sum = sum_of_terms(sheet, form.atoms.as_slice())?;
    sum_is(sheet, form.c, sum)
}

/// Builds the sum of terms that stand by falling numbers.
#[tactic(auto, using(crate::proofs::Growing::subtracted_longer, crate::proofs::Growing::sum_longer, crate::proofs::Growing::terms_stay, crate::proofs::Growing::extends_trans))]
fn sum_of_terms(sheet: &mut Sheet, terms: &[(NodeId, u64)]) -> Result<Option<NodeId>, SheetFull>
    requires { AreTerms sheet.old terms.now }
    ensures made { IfOk result (λ sum. sum_of sheet.old terms.now ≡ record { nodes = sheet.new; node = sum }) }
    ensures sum { IfOk result (IsSumSoFar sheet.new) }
    ensures extends { Extends sheet.old sheet.new }
    ensures full { IsErrOf result SheetFull.Full → 65536 < length (sum_of sheet.old terms.now).nodes }
{
    sheet.in_order();
    let sum = add_terms(sheet, terms)?;
    sheet.in_order();
    subtract_terms(sheet, sum, terms)
}

/// Builds a sum and a constant.
#[tactic(auto, using(crate::proofs::Growing::made_longer, crate::proofs::Growing::stays))]
fn with_number(sheet: &mut Sheet, c: u64, sum: Option<NodeId>) -> Result<NodeId, SheetFull>
    requires { IsSumSoFar sheet.old sum }
    ensures made { IfOk result (λ id. with_constant sheet.old c sum ≡ record { nodes = sheet.new; id = id }) }
    ensures extends { Extends sheet.old sheet.new }
    ensures full { IsErrOf result SheetFull.Full → 65536 < length (with_constant sheet.old c sum).nodes }
{
    sheet.in_order();
    match sum {
        None => sheet.build(Node::Const { w: 64, v: c }),
        Some(sum) => {
            if c == 0 {
                return Ok(sum);
            }
            let number = sheet.build(Node::Const { w: 64, v: c })?;
            sheet.build(Node::Add(sum, number))
        }
    }
}

/// Builds the node that a sum and a constant are together 0.
#[tactic(auto, using(crate::proofs::Growing::made_longer, crate::proofs::Growing::stays))]
fn sum_is(sheet: &mut Sheet, c: u64, sum: Option<NodeId>) -> Result<NodeId, SheetFull>
    requires { IsSumSoFar sheet.old sum }
    ensures made { IfOk result (λ id. equation sheet.old c sum ≡ record { nodes = sheet.new; id = id }) }
    ensures extends { Extends sheet.old sheet.new }
    ensures full { IsErrOf result SheetFull.Full → 65536 < length (equation sheet.old c sum).nodes }
{
    sheet.in_order();
    match sum {
        None => sheet.build(Node::Const {
            w: 1,
            v: bit(c == 0),
        }),
        Some(sum) => {
            let number = sheet.build(Node::Const {
                w: 64,
                v: scalar(Op::Sub, 64, 0, c),
            })?;
            sheet.build(Node::Eq(sum, number))
        }
    }
}

/// A test as a word of one bit.
fn bit(holds: bool) -> u64
    ensures { result ≡ words.bit holds }
{
    if holds { 1 } else { 0 }
}

/// Whether the term with the least number is subtracted.
fn subtracts_least(terms: &[(NodeId, u64)]) -> bool
    ensures { result ≡ is_least_subtracted terms.now }
{
    match terms.last() {
        Some((_, weight)) => MOST_ADDED < *weight,
        None => false,
    }
}
