//! A node times a number, and sums of such multiples.
ghost use Rattle.std.specs.Prelude.{◌≡◌, ◌*◌, ◌-◌, ◌<◌, ◌^◌, ◌≤◌, IfOk, IsErrOf, length};
ghost use Rattle.insn_semantics.specs.Words.{times};
ghost use Rattle.node_values.specs.Sheets.{Extends, IsSheet, value_at};
ghost use Rattle.node_values.specs.Values.{Environment};
ghost use Rattle.address_nodes.specs.Multiples.{AreTerms, IsAddress, IsOfWidth, IsSumSoFar, added, begun, exponent, subtracted};
ghost use Rattle.address_nodes.specs.Multiples as nodes;

use node_values::{Node, NodeId};
use terms::{Sheet, SheetFull};

/// Coefficients above are subtracted as what is missing from 2^64.
pub const MOST_ADDED: u64 = 1 << 63;

/// Builds `q` times a node of `w` bits: the node itself, a shift to the left, or a product.
#[tactic(auto, using(crate::proofs::Growing::multiple_by_longer))]
pub fn multiple(sheet: &mut Sheet, w: u32, q: u64, a: NodeId) -> Result<NodeId, SheetFull>
    requires node { IsOfWidth sheet.old w a }
    requires number { q < 2 ^ w }
    ensures made { IfOk result (λ id. nodes.multiple sheet.old w q a ≡ record { nodes = sheet.new; id = id }) }
    ensures width { IfOk result (IsOfWidth sheet.new w) }
    ensures value { IfOk result (λ id. (e : Environment)
        → value_at e sheet.new id.0 ≡ times w q (value_at e sheet.old a.0)) }
    ensures extends { Extends sheet.old sheet.new }
    ensures sheet { IfOk result (λ _. IsSheet sheet.new) }
    ensures full { IsErrOf result SheetFull.Full → 65536 < length (nodes.multiple sheet.old w q a).nodes }
{
    sheet.in_order();
    let exponent = exponent_of(q);
    let id = multiple_by(sheet, w, q, a, exponent)?;
    Ok(id)
}

/// Builds `q` times a node, where `q` is the power of two with this exponent, or none.
#[tactic(auto, using(crate::proofs::Growing::made_longer, crate::proofs::Growing::multiple_longer, crate::proofs::Growing::stays, crate::proofs::Growing::sum_stays, crate::proofs::Growing::extends_trans))]
fn multiple_by(
    sheet: &mut Sheet,
    w: u32,
    q: u64,
    a: NodeId,
    power: Option<u32>,
) -> Result<NodeId, SheetFull>
    requires node { IsOfWidth sheet.old w a }
    requires width { (0 < w) × (w ≤ 64) }
    requires number { q < 2 ^ w }
    requires power { power ≡ exponent 64 q }
    ensures made { IfOk result (λ id. nodes.multiple_by sheet.old w q a power ≡ record { nodes = sheet.new; id = id }) }
    ensures extends { Extends sheet.old sheet.new }
    ensures full { IsErrOf result SheetFull.Full → 65536 < length (nodes.multiple_by sheet.old w q a power).nodes }
    ensures sheet { IfOk result (λ _. IsSheet sheet.new) }
{
    sheet.in_order();
    match power {
        Some(k) => {
            if k == 0 {
                return Ok(a);
            }
            sheet.build(Node::Shl(a, k))
        }
        None => {
            let number = sheet.build(Node::Const { w, v: q })?;
            sheet.build(Node::Mul(number, a))
        }
    }
}

/// The exponent of a power of two, none of another number.
pub fn exponent_of(q: u64) -> Option<u32>
    ensures { result ≡ exponent 64 q }
{
    let mut n = 64;
    while 0 < n {
        n -= 1;
        if q == 1 << n {
            return Some(n);
        }
    }
    None
}

/// Builds the sum and one more term.
#[tactic(auto, using(crate::proofs::Growing::made_longer, crate::proofs::Growing::multiple_longer, crate::proofs::Growing::stays, crate::proofs::Growing::sum_stays, crate::proofs::Growing::extends_trans))]
fn plus_term(
    sheet: &mut Sheet,
    sum: Option<NodeId>,
    atom: NodeId,
    weight: u64,
) -> Result<NodeId, SheetFull>
    requires sum { IsSumSoFar sheet.old sum }
    requires atom { IsAddress sheet.old atom }
    ensures made { IfOk result (λ id. nodes.plus_term sheet.old sum (atom, weight) ≡ record { nodes = sheet.new; id = id }) }
    ensures width { IfOk result (IsAddress sheet.new) }
    ensures extends { Extends sheet.old sheet.new }
    ensures sheet { IfOk result (λ _. IsSheet sheet.new) }
    ensures full { IsErrOf result SheetFull.Full → 65536 < length (nodes.plus_term sheet.old sum (atom, weight)).nodes }
{
    sheet.in_order();
    let term = multiple(sheet, 64, weight, atom)?;
    match sum {
        None => Ok(term),
        Some(sum) => sheet.build(Node::Add(sum, term)),
    }
}

/// Builds the sum, which is 0 where there is no term.
fn begin(sheet: &mut Sheet, sum: Option<NodeId>) -> Result<NodeId, SheetFull>
    requires { IsSumSoFar sheet.old sum }
    ensures made { IfOk result (λ id. begun sheet.old sum ≡ record { nodes = sheet.new; id = id }) }
    ensures width { IfOk result (IsAddress sheet.new) }
    ensures extends { Extends sheet.old sheet.new }
    ensures full { IsErrOf result SheetFull.Full → 65536 < length (begun sheet.old sum).nodes }
{
    match sum {
        None => sheet.build(Node::Const { w: 64, v: 0 }),
        Some(sum) => Ok(sum),
    }
}

/// Builds the sum less `weight` times an atom.
#[tactic(auto, using(crate::proofs::Growing::made_longer, crate::proofs::Growing::multiple_longer, crate::proofs::Growing::stays, crate::proofs::Growing::sum_stays, crate::proofs::Growing::extends_trans))]
fn minus_term(
    sheet: &mut Sheet,
    sum: Option<NodeId>,
    atom: NodeId,
    weight: u64,
) -> Result<NodeId, SheetFull>
    requires sum { IsSumSoFar sheet.old sum }
    requires atom { IsAddress sheet.old atom }
    requires weight { 0 < weight }
    ensures made { IfOk result (λ id. nodes.minus_term sheet.old sum (atom, weight) ≡ record { nodes = sheet.new; id = id }) }
    ensures width { IfOk result (IsAddress sheet.new) }
    ensures extends { Extends sheet.old sheet.new }
    ensures sheet { IfOk result (λ _. IsSheet sheet.new) }
    ensures full { IsErrOf result SheetFull.Full → 65536 < length (nodes.minus_term sheet.old sum (atom, weight)).nodes }
{
    sheet.in_order();
    let first = begin(sheet, sum)?;
    sheet.in_order();
    let term = multiple(sheet, 64, u64::MAX - weight + 1, atom)?;
    sheet.build(Node::Sub(first, term))
}

/// Builds the sum of the terms that are added, the last one first.
pub fn add_terms(sheet: &mut Sheet, terms: &[(NodeId, u64)]) -> Result<Option<NodeId>, SheetFull>
    requires { AreTerms sheet.old terms.now }
    ensures made { IfOk result (λ sum. added sheet.old terms.now ≡ record { nodes = sheet.new; node = sum }) }
    ensures sum { IfOk result (IsSumSoFar sheet.new) }
    ensures extends { Extends sheet.old sheet.new }
    ensures full { IsErrOf result SheetFull.Full → 65536 < length (added sheet.old terms.now).nodes }
{
    sheet.in_order();
    let mut sum = None;
    let mut at = terms.len();
    while 0 < at {
        at -= 1;
        let (atom, weight) = terms[at];
        if weight <= MOST_ADDED {
            sum = Some(plus_term(sheet, sum, atom, weight)?);
        }
    }
    Ok(sum)
}

/// Builds the sum less the terms that are subtracted, the last one first.
pub fn subtract_terms(
    sheet: &mut Sheet,
    sum: Option<NodeId>,
    terms: &[(NodeId, u64)],
) -> Result<Option<NodeId>, SheetFull>
    requires sum { IsSumSoFar sheet.old sum }
    requires terms { AreTerms sheet.old terms.now }
    ensures made { IfOk result (λ less. subtracted (record { nodes = sheet.old; node = sum }) terms.now
        ≡ record { nodes = sheet.new; node = less }) }
    ensures sum { IfOk result (IsSumSoFar sheet.new) }
    ensures extends { Extends sheet.old sheet.new }
    ensures full { IsErrOf result SheetFull.Full
        → 65536 < length (subtracted (record { nodes = sheet.old; node = sum }) terms.now).nodes }
{
    sheet.in_order();
    let mut less = sum;
    let mut at = terms.len();
    while 0 < at {
        at -= 1;
        let (atom, weight) = terms[at];
        if MOST_ADDED < weight {
            less = Some(minus_term(sheet, less, atom, weight)?);
        }
    }
    Ok(less)
}
