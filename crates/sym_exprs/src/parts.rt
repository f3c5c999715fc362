//! Trees made of their parts.
ghost use Rattle.std.specs.Prelude.{◌≡◌, IfOk};
ghost use Rattle.insn_semantics.specs.Exprs as exprs;
ghost use Rattle.sym_exprs.specs.Trees.{expr_of, operator_of, shift_of};

use crate::tree::{ExprTree, Operator, Shift};
use outcomes::Memory;
use std::alloc::Global;

/// The leaf of a number.
pub fn leaf(i: u32) -> ExprTree
    ensures { expr_of result ≡ exprs.Leaf i }
{
    ExprTree::Leaf(i)
}

/// A number of w bits.
pub fn number(w: u32, v: u64) -> ExprTree
    ensures { expr_of result ≡ exprs.Number w v }
{
    ExprTree::Number(w, v)
}

/// An operator on two arguments of w bits.
pub fn two(
    alloc: Global,
    operator: Operator,
    w: u32,
    x: ExprTree,
    y: ExprTree,
) -> Result<ExprTree, Memory>
    ensures { IfOk result (λ t. expr_of t ≡ exprs.Two (operator_of operator) w (expr_of x) (expr_of y)) }
{
    let x = Box::new(alloc, x)?;
    let y = Box::new(alloc, y)?;
    Ok(ExprTree::Two(operator, w, x, y))
}

/// The complement of w bits.
pub fn not(alloc: Global, w: u32, x: ExprTree) -> Result<ExprTree, Memory>
    ensures { IfOk result (λ t. expr_of t ≡ exprs.Not w (expr_of x)) }
{
    let x = Box::new(alloc, x)?;
    Ok(ExprTree::Not(w, x))
}

/// A word of w bits, shifted by k.
pub fn shifted(alloc: Global, shift: Shift, w: u32, x: ExprTree, k: u32) -> Result<ExprTree, Memory>
    ensures { IfOk result (λ t. expr_of t ≡ exprs.Shifted (shift_of shift) w (expr_of x) k) }
{
    let x = Box::new(alloc, x)?;
    Ok(ExprTree::Shifted(shift, w, x, k))
}

/// Two words joined, the second of n bits.
pub fn joined(alloc: Global, n: u32, x: ExprTree, y: ExprTree) -> Result<ExprTree, Memory>
    ensures { IfOk result (λ t. expr_of t ≡ exprs.Joined n (expr_of x) (expr_of y)) }
{
    let x = Box::new(alloc, x)?;
    let y = Box::new(alloc, y)?;
    Ok(ExprTree::Joined(n, x, y))
}

/// n bits from bit k on.
pub fn cut(alloc: Global, x: ExprTree, k: u32, n: u32) -> Result<ExprTree, Memory>
    ensures { IfOk result (λ t. expr_of t ≡ exprs.Cut (expr_of x) k n) }
{
    let x = Box::new(alloc, x)?;
    Ok(ExprTree::Cut(x, k, n))
}

/// A word of m bits, extended to n by the sign.
pub fn extended(alloc: Global, m: u32, n: u32, x: ExprTree) -> Result<ExprTree, Memory>
    ensures { IfOk result (λ t. expr_of t ≡ exprs.Extended m n (expr_of x)) }
{
    let x = Box::new(alloc, x)?;
    Ok(ExprTree::Extended(m, n, x))
}

/// The second where the first is 1, else the third.
pub fn choice(alloc: Global, c: ExprTree, x: ExprTree, y: ExprTree) -> Result<ExprTree, Memory>
    ensures { IfOk result (λ t. expr_of t ≡ exprs.Choice (expr_of c) (expr_of x) (expr_of y)) }
{
    let c = Box::new(alloc, c)?;
    let x = Box::new(alloc, x)?;
    let y = Box::new(alloc, y)?;
    Ok(ExprTree::Choice(c, x, y))
}

/// A part that leaf i names in what follows.
pub fn named(alloc: Global, i: u32, x: ExprTree, y: ExprTree) -> Result<ExprTree, Memory>
    ensures { IfOk result (λ t. expr_of t ≡ exprs.Let i (expr_of x) (expr_of y)) }
{
    let x = Box::new(alloc, x)?;
    let y = Box::new(alloc, y)?;
    Ok(ExprTree::Let(i, x, y))
}
