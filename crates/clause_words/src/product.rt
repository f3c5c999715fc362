//! Rows of products.
ghost use Rattle.std.specs.Prelude.{◌≡◌, ◌+◌, ◌-◌, ◌*◌, ◌^◌, ◌<◌, ◌≤◌, ◌++◌, OnOk};
ghost use Rattle.clause_gates.specs.Gates.{copy_gate, positive};
ghost use Rattle.clause_gates.specs.NormalForms.{normal_clauses};
ghost use Rattle.clause_words.specs.Products.{product_helpers, product_row, stage_clauses, stage_rows, stage_start, sum_start};
ghost use Rattle.clause_words.specs.Rows.{HasRoom, bit as bit_of, columns};

use crate::row::{Row, bit, push_row};
use clause_gates::{ClauseList, plain};
use outcomes::Memory;

/// Puts the row of a product of `w` bits behind the others; its helpers begin with the variable `h`.
pub fn push_product(
    list: &mut ClauseList,
    w: u32,
    r: u32,
    a: u32,
    b: u32,
    h: u32,
) -> Result<(), Memory>
    requires w { (0 < w) × (w ≤ 64) }
    requires r { HasRoom w r }
    requires a { HasRoom w a }
    requires b { HasRoom w b }
    requires h { h + 12352 ≤ 2 ^ 32 }
    ensures { OnOk result (list.new ≡ list.old ++ normal_clauses (product_row w r a b h)) }
{
    push_row(list, w, &Row::Times { r: h, a, b })?;
    push_stages(list, w, a, b, h)?;
    push_copies(list, w, r, h)
}

/// Puts the stages of a product but the first behind the others.
fn push_stages(list: &mut ClauseList, w: u32, a: u32, b: u32, h: u32) -> Result<(), Memory>
    requires w { (0 < w) × (w ≤ 64) }
    requires a { HasRoom w a }
    requires b { HasRoom w b }
    requires h { h + 12352 ≤ 2 ^ 32 }
    ensures { OnOk result (list.new ≡ list.old ++ normal_clauses (columns (stage_clauses w a b h) (w - 1))) }
{
    let mut sum = h;
    let mut start = h + w;
    for k in 0..w - 1 {
        let n = w - 1 - k;
        push_stage(list, n, a, b + k + 1, start, sum + 1)?;
        sum = start + n;
        start += 3 * n - 1;
    }
    Ok(())
}

/// Puts the copies of the lowest bits of all sums behind the others.
fn push_copies(list: &mut ClauseList, w: u32, r: u32, h: u32) -> Result<(), Memory>
    requires w { (0 < w) × (w ≤ 64) }
    requires r { HasRoom w r }
    requires h { h + 12352 ≤ 2 ^ 32 }
    ensures { OnOk result (list.new ≡ list.old ++ normal_clauses
        (columns (λ k. copy_gate (bit_of r k) (positive (sum_start w h k))) w)) }
{
    let mut sum = h;
    let mut start = h + w;
    list.copy(bit(r, 0), plain(h))?;
    for k in 0..w - 1 {
        let n = w - 1 - k;
        sum = start + n;
        start += 3 * n - 1;
        list.copy(bit(r, k + 1), plain(sum))?;
    }
    Ok(())
}

/// Puts a stage of a product on `n` bits behind the others: the multiple of `a` by the bit `b` begins at `start`, and is
/// added to the word `sum`.
fn push_stage(
    list: &mut ClauseList,
    n: u32,
    a: u32,
    b: u32,
    start: u32,
    sum: u32,
) -> Result<(), Memory>
    requires a { HasRoom n a }
    requires b { b < 2 ^ 32 }
    requires start { start + 3 * n ≤ 2 ^ 32 }
    requires sum { HasRoom n sum }
    ensures { OnOk result (list.new ≡ list.old ++ normal_clauses (stage_rows n a b start sum)) }
{
    push_row(list, n, &Row::Times { r: start, a, b })?;
    push_row(
        list,
        n,
        &Row::Sum {
            w: n,
            r: start + n,
            a: sum,
            b: start,
            carry: start + n + n,
        },
    )
}

/// How many helpers the row of a product of `w` bits has.
pub fn product_helper_count(w: u32) -> u32
    requires { (0 < w) × (w ≤ 64) }
    ensures value { result ≡ product_helpers w }
    ensures few { result ≤ 12352 }
{
    let mut count = w;
    for k in 0..w - 1 {
        count += 3 * (w - 1 - k) - 1;
    }
    count
}
