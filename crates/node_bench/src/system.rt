//! A system of 40 forms over 60 atoms that has a solution.
ghost use Rattle.std.specs.Prelude.{◌≡◌, IfOk};
ghost use Rattle.std.specs.List.{AllByRecursion};
ghost use Rattle.linear_forms.specs.Combinations.{IsAt};

use node_forms::Form;
use node_values::NodeId;
use sqlite_items::Items;
use std::alloc::{AllocError, Global};

const PARTS: u32 = 40;

const ATOMS: u32 = 60;

/// A number for part `i` and place `j`; every fourth place has no power of two in common.
fn coefficient(i: u32, j: u32) -> u64 {
    let seed = (i as u64 * 64 + j as u64 + 1).wrapping_mul(0x9e37_79b9_7f4a_7c15);
    (seed ^ (seed >> 29)) << (j % 4)
}

/// The sum of the parts' numbers at a place, each times its own number and 1.
fn sum(j: u32) -> u64 {
    let mut sum = 0u64;
    for i in 0..PARTS {
        sum = sum.wrapping_add(coefficient(i, j).wrapping_mul(i as u64 + 1));
    }
    sum
}

/// Part `i`.
fn part(alloc: Global, i: u32) -> Result<Form, AllocError>
    ensures { IfOk result (λ form. form.w ≡ 64) }
{
    let mut atoms = Items::new(alloc);
    for j in 0..ATOMS {
        atoms.push((NodeId(j), coefficient(i, j)))?;
    }
    Ok(Form {
        w: 64,
        atoms,
        c: coefficient(i, ATOMS),
    })
}

/// All parts.
pub fn parts(alloc: Global) -> Result<Vec<Form>, AllocError>
    ensures { IfOk result (λ parts. AllByRecursion (IsAt 64) parts.items) }
{
    let mut parts = Vec::new(alloc);
    for i in 0..PARTS {
        parts.push(part(alloc, i)?)?;
    }
    Ok(parts)
}

/// The form that the parts make.
pub fn target(alloc: Global) -> Result<Form, AllocError>
    ensures { IfOk result (λ form. form.w ≡ 64) }
{
    let mut atoms = Items::new(alloc);
    for j in 0..ATOMS {
        atoms.push((NodeId(j), sum(j)))?;
    }
    Ok(Form {
        w: 64,
        atoms,
        c: sum(ATOMS),
    })
}
