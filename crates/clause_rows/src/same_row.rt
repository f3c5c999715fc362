//! The rows of pairs of bytes.
ghost use Rattle.std.specs.Prelude.{◌≡◌, ◌+◌, ◌^◌, ◌<◌, ◌≤◌, ◌++◌, OnOk};
ghost use Rattle.clause_gates.specs.NormalForms.{normal_clauses};
ghost use Rattle.clause_rows.specs.SameRows.{same_column, same_row};

use clause_gates::{ClauseList, negated, plain};
use outcomes::Memory;

/// Puts the row of two bytes behind the other clauses: `m` and `n` are the variables of their lowest bits, `same_at`
/// the bit that their addresses are equal, and `scratch`, where their sides differ, the bit that a scratch line has it.
pub fn push_same(
    list: &mut ClauseList,
    same_at: u32,
    scratch: Option<u32>,
    m: u32,
    n: u32,
) -> Result<(), Memory>
    requires m { m + 8 ≤ 2 ^ 32 }
    requires n { n + 8 ≤ 2 ^ 32 }
    ensures { OnOk result (list.new ≡ list.old ++ normal_clauses (same_row same_at scratch m n)) }
{
    for k in 0..8 {
        push_column(list, same_at, scratch, m, n, k)?;
    }
    Ok(())
}

/// Puts the clauses of a bit behind the others.
fn push_column(
    list: &mut ClauseList,
    same_at: u32,
    scratch: Option<u32>,
    m: u32,
    n: u32,
    k: u32,
) -> Result<(), Memory>
    requires m { m + k < 2 ^ 32 }
    requires n { n + k < 2 ^ 32 }
    ensures { OnOk result (list.new ≡ list.old ++ normal_clauses (same_column same_at scratch m n k)) }
{
    let (e, x, y) = (negated(plain(same_at)), plain(m + k), plain(n + k));
    let (not_x, not_y) = (negated(x), negated(y));
    match scratch {
        None => list.push_each(&[[e, not_x, y], [e, x, not_y]]),
        Some(at) => {
            let g = plain(at);
            list.push_each(&[[e, not_x, y, g], [e, x, not_y, g]])
        }
    }
}
