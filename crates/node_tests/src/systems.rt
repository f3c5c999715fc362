//! Combinations of forms with zero divisors.
ghost use Rattle.std.specs.Prelude.{◌≡◌, IfOk};
ghost use Rattle.std.specs.List.{AllByRecursion};
ghost use Rattle.linear_forms.specs.Combinations.{IsAt};

use linear_forms::{combines, solve};
use node_forms::Form;
use node_values::NodeId;
use sqlite_items::Items;
use std::alloc::{AllocError, Global};
use std::process::Abort;
use std::test::Fail;

/// Coefficients of the atoms 0 to 2, and a constant.
type Words = [u64; 4];

/// The form with these words at `w`.
fn form(alloc: Global, w: u32, words: &Words) -> Result<Form, AllocError>
    ensures { IfOk result (λ form. form.w ≡ w) }
{
    let [a, b, c, constant] = *words;
    let mut atoms = Items::new(alloc);
    for (number, q) in [(2, c), (1, b), (0, a)] {
        if q != 0 {
            atoms.push((NodeId(number), q))?;
        }
    }
    Ok(Form {
        w,
        atoms,
        c: constant,
    })
}

fn forms(alloc: Global, w: u32, rows: &[Words]) -> Result<Vec<Form>, AllocError>
    ensures { IfOk result (λ forms. AllByRecursion (IsAt w) forms.items) }
{
    let mut forms = Vec::new(alloc);
    for words in rows {
        forms.push(form(alloc, w, words)?)?;
    }
    Ok(forms)
}

fn weighted_forms(
    alloc: Global,
    w: u32,
    rows: &[(u64, Words)],
) -> Result<Vec<(u64, Form)>, AllocError>
    ensures { IfOk result (λ parts. AllByRecursion (λ p. IsAt w p.1) parts.items) }
{
    let mut parts = Vec::new(alloc);
    for (weight, words) in rows {
        parts.push((*weight, form(alloc, w, words)?))?;
    }
    Ok(parts)
}

/// Whether the parts with these weights make the target.
fn makes(
    rt: &impl Abort,
    alloc: Global,
    w: u32,
    target: &Words,
    rows: &[(u64, Words)],
) -> Result<bool, Fail> {
    assert!(rt; 0 < w && w <= 64);
    let target = form(alloc, w, target)?;
    let parts = weighted_forms(alloc, w, rows)?;
    Ok(combines(alloc, &target, parts.as_slice())?)
}

/// The weights that are found.
fn solved(
    rt: &impl Abort,
    alloc: Global,
    w: u32,
    target: &Words,
    rows: &[Words],
) -> Result<Option<Vec<u64>>, Fail> {
    assert!(rt; 0 < w && w <= 64);
    let target = form(alloc, w, target)?;
    let parts = forms(alloc, w, rows)?;
    Ok(solve(alloc, &target, parts.as_slice())?)
}

/// Rows with the weights beside them.
fn paired(alloc: Global, weights: &[u64], rows: &[Words]) -> Result<Vec<(u64, Words)>, AllocError> {
    let mut pairs = Vec::new(alloc);
    for (weight, words) in weights.iter().zip(rows) {
        pairs.push((*weight, *words))?;
    }
    Ok(pairs)
}

#[test]
fn sums_of_parts_are_told(rt: HostRuntime) -> Result<(), Fail> {
    let rows = [
        (8, [2, 0, 0, 0], [(1, [2, 0, 0, 0])].as_slice(), true),
        (8, [2, 0, 0, 0], [(129, [2, 0, 0, 0])].as_slice(), true),
        (8, [2, 0, 0, 0], [(257, [2, 0, 0, 0])].as_slice(), true),
        (16, [2, 0, 0, 0], [(129, [2, 0, 0, 0])].as_slice(), false),
        (8, [2, 0, 0, 1], [(1, [2, 0, 0, 0])].as_slice(), false),
        (8, [2, 0, 0, 0], [(1, [2, 1, 0, 0])].as_slice(), false),
        (8, [2, 1, 0, 0], [(1, [2, 0, 0, 0])].as_slice(), false),
        (
            8,
            [1, 0, 1, 7],
            [(1, [1, 1, 0, 3]), (255, [0, 1, 255, 252])].as_slice(),
            true,
        ),
        (8, [0, 0, 0, 0], [(128, [2, 4, 0, 6])].as_slice(), true),
        (64, [0, 0, 0, 0], [].as_slice(), true),
        (1, [1, 0, 0, 1], [(3, [1, 0, 0, 1])].as_slice(), true),
    ];
    for (w, target, parts, right) in rows {
        let told = makes(&rt, rt.alloc(), w, &target, parts)?;
        assert_eq!(rt; told, right, "{target:?} of {parts:?} at {w} bits");
    }
    Ok(())
}

#[test]
fn weights_are_found_where_there_are_some(rt: HostRuntime) -> Result<(), Fail> {
    let rows = [
        (8, [2, 0, 0, 0], [[4, 0, 0, 0]].as_slice(), false),
        (8, [4, 0, 0, 0], [[2, 0, 0, 0]].as_slice(), true),
        (8, [1, 0, 0, 0], [[3, 0, 0, 0]].as_slice(), true),
        (
            8,
            [2, 2, 0, 0],
            [[1, 0, 1, 0], [1, 2, 255, 0]].as_slice(),
            true,
        ),
        (8, [2, 2, 0, 0], [[1, 0, 1, 0]].as_slice(), false),
        (8, [2, 2, 0, 0], [[1, 2, 255, 0]].as_slice(), false),
        (
            8,
            [3, 0, 0, 0],
            [[1, 0, 0, 0], [2, 0, 0, 0]].as_slice(),
            true,
        ),
        (
            8,
            [1, 0, 0, 0],
            [[2, 0, 0, 0], [4, 0, 0, 0]].as_slice(),
            false,
        ),
        (
            8,
            [6, 0, 0, 0],
            [[4, 0, 0, 0], [2, 0, 0, 0]].as_slice(),
            true,
        ),
        (8, [12, 67, 0, 0], [[4, 1, 0, 0]].as_slice(), true),
        (8, [0, 2, 0, 0], [[4, 2, 0, 0]].as_slice(), false),
        (8, [0, 128, 0, 0], [[4, 2, 0, 0]].as_slice(), true),
        (8, [0, 0, 0, 6], [[0, 0, 0, 2]].as_slice(), true),
        (8, [0, 0, 0, 3], [[0, 0, 0, 2]].as_slice(), false),
        (8, [1, 0, 0, 0], [[1, 0, 0, 1]].as_slice(), false),
        (
            8,
            [1, 0, 0, 0],
            [[1, 0, 0, 1], [0, 0, 0, 3]].as_slice(),
            true,
        ),
        (8, [0, 0, 0, 0], [].as_slice(), true),
        (8, [0, 0, 0, 1], [].as_slice(), false),
        (
            1,
            [1, 0, 0, 0],
            [[1, 1, 0, 0], [0, 1, 0, 0]].as_slice(),
            true,
        ),
        (64, [5, 0, 0, 0], [[u64::MAX, 0, 0, 0]].as_slice(), true),
        (64, [1, 0, 0, 0], [[1 << 63, 0, 0, 0]].as_slice(), false),
    ];
    for (w, target, parts, solvable) in rows {
        match solved(&rt, rt.alloc(), w, &target, parts)? {
            Some(weights) => {
                let pairs = paired(rt.alloc(), weights.as_slice(), parts)?;
                let right = makes(&rt, rt.alloc(), w, &target, pairs.as_slice())?;
                assert!(rt; solvable && right, "{target:?} by {parts:?} at {w} bits");
                assert_eq!(rt; weights.len(), parts.len());
            }
            None => assert!(rt; !solvable, "{target:?} by {parts:?} at {w} bits"),
        }
    }
    Ok(())
}
