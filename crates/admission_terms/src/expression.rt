//! Terms of expressions as nodes.
ghost use Rattle.std.specs.Prelude.{◌≡◌, ◌%◌, ◌<◌, ◌^◌, IfOk, IfSome, IsErrOf, length};
ghost use Rattle.insn_semantics.specs.Words.{times};
ghost use Rattle.node_values.specs.Sheets.{Extends, IsSheet, value_at};
ghost use Rattle.node_values.specs.Values.{Environment};
ghost use Rattle.terms.specs.Made.{made};
ghost use Rattle.address_nodes.specs.Multiples.{IsAddress, exponent};
ghost use Rattle.admission.specs.WellFormed.{IsTerm};
ghost use Rattle.admission_terms.specs.Expressions.{join, joined, multiple_value, value_with, with_factor};
ghost use Rattle.admission_terms.specs.Expressions as nodes;

use address_nodes::{exponent_of, multiple};
use admission::Term;
use node_values::{Node, NodeId};
use terms::{Sheet, SheetFull};

/// Builds the number of a product, where `q` is the power of two with this exponent, or none.
#[tactic(auto, using(crate::proofs::Longer::same_extends))]
fn build_factor(sheet: &mut Sheet, q: u64, power: Option<u32>) -> Result<(), SheetFull>
    ensures made { IfOk result (λ _. with_factor sheet.old q power ≡ sheet.new) }
    ensures extends { Extends sheet.old sheet.new }
    ensures sheet { IfOk result (λ _. IsSheet sheet.new) }
    ensures full { IsErrOf result SheetFull.Full → 65536 < length (with_factor sheet.old q power) }
{
    sheet.in_order();
    if power.is_none() {
        sheet.build(Node::Const { w: 64, v: q })?;
    }
    Ok(())
}

/// Builds `q` times the entry value of general register `n`.
#[tactic(auto, using(crate::proofs::Longer::made_longer, crate::proofs::Longer::multiple_longer, crate::proofs::Longer::extends_trans))]
pub fn multiple_of_register(sheet: &mut Sheet, q: u64, n: u8) -> Result<NodeId, SheetFull>
    requires { n < 16 }
    ensures made { IfOk result (λ id. nodes.multiple_of_register sheet.old q n ≡ record { nodes = sheet.new; id = id }) }
    ensures width { IfOk result (IsAddress sheet.new) }
    ensures value { IfOk result (λ id. (e : Environment)
        → value_at e sheet.new id.0 ≡ times 64 q (e.entry n % 2 ^ 64)) }
    ensures extends { Extends sheet.old sheet.new }
    ensures sheet { IfOk result (λ _. IsSheet sheet.new) }
    ensures full { IsErrOf result SheetFull.Full → 65536 < length (nodes.multiple_of_register sheet.old q n).nodes }
{
    let power = exponent_of(q);
    build_factor(sheet, q, power)?;
    let register = sheet.build(Node::Entry { n })?;
    multiple(sheet, 64, q, register)
}

/// Builds the number `q`, times the entry value of general register `reg` where there is one.
pub fn multiple_of(sheet: &mut Sheet, q: u64, reg: Option<u8>) -> Result<NodeId, SheetFull>
    requires { IfSome reg (λ n. n < 16) }
    ensures made { IfOk result (λ id. nodes.multiple_of sheet.old q reg ≡ record { nodes = sheet.new; id = id }) }
    ensures width { IfOk result (IsAddress sheet.new) }
    ensures value { IfOk result (λ id. (e : Environment) → value_at e sheet.new id.0 ≡ multiple_value e q reg) }
    ensures extends { Extends sheet.old sheet.new }
    ensures sheet { IfOk result (λ _. IsSheet sheet.new) }
    ensures full { IsErrOf result SheetFull.Full → 65536 < length (nodes.multiple_of sheet.old q reg).nodes }
{
    match reg {
        None => sheet.build(Node::Const { w: 64, v: q }),
        Some(n) => multiple_of_register(sheet, q, n),
    }
}

/// Builds a sum and one more term, added or subtracted.
#[tactic(auto, using(crate::proofs::Longer::made_longer, crate::proofs::Longer::stays, crate::proofs::Longer::extends_trans, crate::proofs::Longer::later_value))]
pub fn with_term(sheet: &mut Sheet, sum: NodeId, term: Term) -> Result<NodeId, SheetFull>
    requires sum { IsAddress sheet.old sum }
    requires term { IsTerm term }
    ensures made { IfOk result (λ id. nodes.with_term sheet.old sum term ≡ record { nodes = sheet.new; id = id }) }
    ensures width { IfOk result (IsAddress sheet.new) }
    ensures value { IfOk result (λ id. (e : Environment)
        → value_at e sheet.new id.0 ≡ value_with e (value_at e sheet.old sum.0) term) }
    ensures extends { Extends sheet.old sheet.new }
    ensures sheet { IfOk result (λ _. IsSheet sheet.new) }
    ensures full { IsErrOf result SheetFull.Full → 65536 < length (nodes.with_term sheet.old sum term).nodes }
{
    sheet.in_order();
    let id = multiple_of(sheet, term.c, term.reg)?;
    let joined = add_or_subtract(sheet, term.minus, sum, id)?;
    Ok(joined)
}

/// Builds a sum, or a difference where `minus` is set.
#[tactic(auto, using(crate::proofs::Longer::made_longer))]
fn add_or_subtract(
    sheet: &mut Sheet,
    minus: bool,
    a: NodeId,
    b: NodeId,
) -> Result<NodeId, SheetFull>
    requires first { IsAddress sheet.old a }
    requires second { IsAddress sheet.old b }
    ensures made { IfOk result (λ id. made sheet.old (join minus a b) ≡ record { nodes = sheet.new; id = id }) }
    ensures width { IfOk result (IsAddress sheet.new) }
    ensures value { IfOk result (λ id. (e : Environment)
        → value_at e sheet.new id.0 ≡ joined minus (value_at e sheet.old a.0) (value_at e sheet.old b.0)) }
    ensures extends { Extends sheet.old sheet.new }
    ensures sheet { IfOk result (λ _. IsSheet sheet.new) }
    ensures full { IsErrOf result SheetFull.Full → 65536 < length (made sheet.old (join minus a b)).nodes }
{
    sheet.in_order();
    if minus {
        sheet.build(Node::Sub(a, b))
    } else {
        sheet.build(Node::Add(a, b))
    }
}
