//! The form of the difference of two addresses.
ghost use Rattle.std.specs.Prelude.{◌≡◌, ℕ, ◌+◌, ◌<◌, ◌^◌, ◌≤◌, IfOk, length};
ghost use Rattle.insn_semantics.specs.Words.{minus};
ghost use Rattle.node_forms.specs.Forms.{form_at};
ghost use Rattle.address_nodes.specs.Multiples.{IsAddress};
ghost use Rattle.address_nodes.specs.Differences.{difference_form, difference_terms, terms_below};
ghost use Rattle.address_nodes.specs.Heads.{head_number, head_weight, without_head};

use insn_ops::Op;
use node_values::NodeId;
use outcomes::Memory;
use scalar_ops::scalar;
use sqlite_items::Items;
use std::alloc::Global;
use terms::{Form, Sheet};

/// The form of the difference of two addresses.
pub fn difference_of(alloc: Global, sheet: &Sheet, a: NodeId, b: NodeId) -> Result<Form, Memory>
    requires first { IsAddress sheet.now a }
    requires second { IsAddress sheet.now b }
    ensures terms { IfOk result (λ form. form.atoms ≡ difference_terms sheet.now a b) }
    ensures constant { IfOk result (λ form. form.c ≡ (difference_form sheet.now a b).constant) }
{
    sheet.in_order();
    let first = sheet.form(a, 64)?;
    let second = sheet.form(b, 64)?;
    let terms = differences(alloc, first.atoms.as_slice(), second.atoms.as_slice())?;
    Ok(Form {
        w: 64,
        atoms: Items::from_vec(terms),
        c: scalar(Op::Sub, 64, first.c, second.c),
    })
}

/// The differences of coefficients, of two lists of terms by falling numbers.
fn differences(
    alloc: Global,
    first: &[(NodeId, u64)],
    second: &[(NodeId, u64)],
) -> Result<Vec<(NodeId, u64)>, Memory>
    ensures { IfOk result (λ terms. (n : ℕ) (f g : ℕ → ℕ) → first.now ≡ terms_below f n → second.now ≡ terms_below g n
        → terms.items ≡ terms_below (λ atom. minus 64 (f atom) (g atom)) n) }
{
    let mut terms = Vec::new(alloc);
    let mut left = first;
    let mut right = second;
    loop {
        let end = number_of(left).max(number_of(right));
        if end == 0 {
            return Ok(terms);
        }
        let atom = (end - 1) as u32;
        let weight = scalar(Op::Sub, 64, weight_of(left, atom), weight_of(right, atom));
        if weight != 0 {
            terms.push((NodeId(atom), weight))?;
        }
        left = rest_of(left, atom);
        right = rest_of(right, atom);
    }
}

/// The number behind that of the first term, 0 where there is none.
fn number_of(terms: &[(NodeId, u64)]) -> u64
    ensures value { result ≡ head_number terms.now }
    ensures below { result ≤ 2 ^ 32 }
{
    match terms.first() {
        Some((atom, _)) => atom.0 as u64 + 1,
        None => 0,
    }
}

/// The coefficient of the first term, where it has this atom, and else 0.
fn weight_of(terms: &[(NodeId, u64)], atom: u32) -> u64
    ensures { result ≡ head_weight atom terms.now }
{
    match terms.first() {
        Some((first, weight)) if first.0 == atom => *weight,
        _ => 0,
    }
}

/// The terms without the first, where it has this atom.
fn rest_of<'a>(terms: &'a [(NodeId, u64)], atom: u32) -> &'a [(NodeId, u64)]
    ensures { result.now ≡ without_head atom terms.now }
{
    match terms.first() {
        Some((first, _)) if first.0 == atom => &terms[1..],
        _ => terms,
    }
}
