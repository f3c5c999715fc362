//! Rows of words.
ghost use Rattle.std.specs.Prelude.{◌≡◌, ◌⊎◌, ◌+◌, ◌-◌, ◌/◌, ◌%◌, ◌^◌, ◌<◌, ◌≤◌, ◌==◌, [], ◌∷◌, ◌++◌, min, OnOk, IfOk, map, nat_lt, if◌then◌else◌};
ghost use Rattle.clause_gates.specs.Gates.{and_gate, choice_gate, copy_gate, majority_gate, negation, not_gate, or_gate, positive, xor_gate};
ghost use Rattle.clause_gates.specs.NormalForms.{normal_clauses};
ghost use Rattle.clause_words.specs.Rows.{HasRoom, RowHasRoom, all_alike, bit as bit_of, column, columns, equal_row, last_place, less_column, row_clauses, sum_column, top_exchanged as top_place, unit};

use clause_gates::{ClauseList, negated, plain};
use clauses::Lit;
use outcomes::Memory;

/// The words that a row speaks of, each by the variable of its lowest bit: `r` is the result. Widths `w` are those
/// of the arguments.
#[derive(Clone, Copy, Debug, PartialEq, Eq)]
pub enum Row {
    /// The number `v`.
    Const {
        r: u32,
        v: u64,
    },
    And {
        r: u32,
        a: u32,
        b: u32,
    },
    /// Each bit of `a` with the bit `b`.
    Times {
        r: u32,
        a: u32,
        b: u32,
    },
    Or {
        r: u32,
        a: u32,
        b: u32,
    },
    Xor {
        r: u32,
        a: u32,
        b: u32,
    },
    Not {
        r: u32,
        a: u32,
    },
    /// `a` where the bit `c` is 1, else `b`.
    If {
        r: u32,
        c: u32,
        a: u32,
        b: u32,
    },
    /// Shifts by a number.
    Shl {
        r: u32,
        a: u32,
        by: u32,
    },
    Shr {
        w: u32,
        r: u32,
        a: u32,
        by: u32,
    },
    Sar {
        w: u32,
        r: u32,
        a: u32,
        by: u32,
    },
    /// The bits of `a` from one on.
    Cut {
        r: u32,
        a: u32,
        from: u32,
    },
    /// By the sign of the `m` bits of `a`.
    Sx {
        m: u32,
        r: u32,
        a: u32,
    },
    /// The `m` bits of `low` with `high` before them.
    Cat {
        m: u32,
        r: u32,
        high: u32,
        low: u32,
    },
    /// The sum, with the carry out of each column but the last.
    Sum {
        w: u32,
        r: u32,
        a: u32,
        b: u32,
        carry: u32,
    },
    /// Whether `a` is below `b`, with the order of their lowest bits.
    Less {
        w: u32,
        r: u32,
        a: u32,
        b: u32,
        lower: u32,
    },
    /// The same by the sign.
    SignedLess {
        w: u32,
        r: u32,
        a: u32,
        b: u32,
        lower: u32,
    },
    /// Whether `a` and `b` are alike, bit by bit.
    Alike {
        x: u32,
        a: u32,
        b: u32,
    },
    /// The bit `r` is 1 only where each bit of `x` is.
    Each {
        r: u32,
        x: u32,
    },
}

/// Bit `k` of a word.
pub(crate) fn bit(word: u32, k: u32) -> Lit
    requires { word + k < 2 ^ 32 }
    ensures { result ≡ bit_of word k }
{
    plain(word + k)
}

/// Puts the clauses of `w` columns of a row behind the others.
pub fn push_row(list: &mut ClauseList, w: u32, row: &Row) -> Result<(), Memory>
    requires { RowHasRoom w row.now }
    ensures { OnOk result (list.new ≡ list.old ++ normal_clauses (row_clauses w row.now)) }
{
    for k in 0..w {
        push_column(list, w, row, k)?;
    }
    Ok(())
}

/// Puts the row of an equality of `w` bits behind the others: the bit `r` tells whether `a` and `b` are equal, the
/// bits of `alike` where they are.
pub fn push_equal(
    list: &mut ClauseList,
    w: u32,
    r: u32,
    a: u32,
    b: u32,
    alike: u32,
) -> Result<(), Memory>
    requires r { HasRoom 1 r }
    requires a { HasRoom w a }
    requires b { HasRoom w b }
    requires alike { HasRoom w alike }
    ensures { OnOk result (list.new ≡ list.old ++ normal_clauses (equal_row w r a b alike)) }
{
    push_row(list, w, &Row::Alike { x: alike, a, b })?;
    push_row(list, w, &Row::Each { r, x: alike })?;
    push_all_alike(list, w, r, alike)
}

/// Puts the clause that `r` is 1 or some of the `w` bits of `alike` is 0 behind the others.
fn push_all_alike(list: &mut ClauseList, w: u32, r: u32, alike: u32) -> Result<(), Memory>
    requires r { HasRoom 1 r }
    requires alike { HasRoom w alike }
    ensures { OnOk result (list.new ≡ list.old ++ normal_clauses (all_alike w r alike ∷ [])) }
{
    let mut lits = Vec::new(list.allocator());
    lits.push(bit(r, 0))?;
    for k in 0..w {
        lits.push(negated(bit(alike, k)))?;
    }
    list.push(lits.as_slice())
}

/// Puts the clauses of column `k` of `w` behind the others.
fn push_column(list: &mut ClauseList, w: u32, row: &Row, k: u32) -> Result<(), Memory>
    requires room { RowHasRoom w row.now }
    requires inside { k < w }
    ensures { OnOk result (list.new ≡ list.old ++ normal_clauses (column row.now k)) }
{
    match *row {
        Row::Const { r, v } => push_bit(list, bit(r, k), v, k),
        Row::And { r, a, b } => list.and(bit(r, k), bit(a, k), bit(b, k)),
        Row::Times { r, a, b } => list.and(bit(r, k), bit(a, k), bit(b, 0)),
        Row::Or { r, a, b } => list.or(bit(r, k), bit(a, k), bit(b, k)),
        Row::Xor { r, a, b } => list.xor(bit(r, k), bit(a, k), bit(b, k)),
        Row::Not { r, a } => list.not(bit(r, k), bit(a, k)),
        Row::If { r, c, a, b } => list.choice(bit(r, k), bit(c, 0), bit(a, k), bit(b, k)),
        Row::Shl { r, a, by } => push_left(list, r, a, by, k),
        Row::Shr { w: whole, r, a, by } => push_right(list, whole, r, a, by, k),
        Row::Sar { w: whole, r, a, by } => list.copy(bit(r, k), bit(a, lesser(k + by, whole - 1))),
        Row::Cut { r, a, from } => list.copy(bit(r, k), bit(a, k + from)),
        Row::Sx { m, r, a } => list.copy(bit(r, k), bit(a, lesser(k, m - 1))),
        Row::Cat { m, r, high, low } => push_joined(list, m, r, high, low, k),
        Row::Sum {
            w: whole,
            r,
            a,
            b,
            carry,
        } => push_sum(list, whole, r, a, b, carry, k),
        Row::Less {
            w: whole,
            r,
            a,
            b,
            lower,
        } => { push_less(list, whole, r, bit(a, k), bit(b, k), lower, k) }
        Row::SignedLess {
            w: whole,
            r,
            a,
            b,
            lower,
        } => {
            let (x, y) = top_exchanged(whole, a, b, k);
            push_less(list, whole, r, bit(x, k), bit(y, k), lower, k)
        }
        Row::Alike { x, a, b } => list.xor(negated(bit(x, k)), bit(a, k), bit(b, k)),
        Row::Each { r, x } => list.push(&[negated(bit(r, 0)), bit(x, k)]),
    }
}

/// The lesser of two numbers.
fn lesser(m: u32, n: u32) -> u32
    ensures { result ≡ min m n }
{
    if m < n { m } else { n }
}

/// The literal `r` where bit `k` of a number is 1, else its negation.
fn push_bit(list: &mut ClauseList, r: Lit, v: u64, k: u32) -> Result<(), Memory>
    requires { k < 64 }
    ensures { OnOk result (list.new ≡ list.old ++ normal_clauses (unit (if v / 2 ^ k % 2 == 1 then r else negation r))) }
{
    if (v >> k) % 2 == 1 {
        list.unit(r)
    } else {
        list.unit(negated(r))
    }
}

/// Column `k` of a shift to the left.
fn push_left(list: &mut ClauseList, r: u32, a: u32, by: u32, k: u32) -> Result<(), Memory>
    requires r { r + k < 2 ^ 32 }
    requires a { a + k < 2 ^ 32 }
    ensures { OnOk result (list.new ≡ list.old ++ normal_clauses
        (if nat_lt k by then unit (negation (bit_of r k)) else copy_gate (bit_of r k) (bit_of a (k - by)))) }
{
    if k < by {
        list.unit(negated(bit(r, k)))
    } else {
        list.copy(bit(r, k), bit(a, k - by))
    }
}

/// Column `k` of a shift of `w` bits to the right.
fn push_right(list: &mut ClauseList, w: u32, r: u32, a: u32, by: u32, k: u32) -> Result<(), Memory>
    requires r { r + k < 2 ^ 32 }
    requires a { a + w ≤ 2 ^ 32 }
    requires by { k + by < 2 ^ 32 }
    ensures { OnOk result (list.new ≡ list.old ++ normal_clauses
        (if nat_lt (k + by) w then copy_gate (bit_of r k) (bit_of a (k + by)) else unit (negation (bit_of r k)))) }
{
    if k + by < w {
        list.copy(bit(r, k), bit(a, k + by))
    } else {
        list.unit(negated(bit(r, k)))
    }
}

/// Column `k` of a word before `m` bits of another.
fn push_joined(
    list: &mut ClauseList,
    m: u32,
    r: u32,
    high: u32,
    low: u32,
    k: u32,
) -> Result<(), Memory>
    requires r { r + k < 2 ^ 32 }
    requires low { low + m ≤ 2 ^ 32 }
    requires high { high + k < 2 ^ 32 }
    ensures { OnOk result (list.new ≡ list.old ++ normal_clauses
        (copy_gate (bit_of r k) (if nat_lt k m then bit_of low k else bit_of high (k - m)))) }
{
    if k < m {
        list.copy(bit(r, k), bit(low, k))
    } else {
        list.copy(bit(r, k), bit(high, k - m))
    }
}

/// Column `k` of a sum of `w` bits.
fn push_sum(
    list: &mut ClauseList,
    w: u32,
    r: u32,
    a: u32,
    b: u32,
    carry: u32,
    k: u32,
) -> Result<(), Memory>
    requires r { r + k < 2 ^ 32 }
    requires a { a + k < 2 ^ 32 }
    requires b { b + k < 2 ^ 32 }
    requires carry { carry + k < 2 ^ 32 }
    requires k { k + 1 < 2 ^ 32 }
    ensures { OnOk result (list.new ≡ list.old ++ normal_clauses
        (sum_column w (bit_of r) (bit_of a) (bit_of b) (bit_of carry) k)) }
{
    if k == 0 {
        push_first_sum(list, w, bit(r, 0), bit(a, 0), bit(b, 0), bit(carry, 0))
    } else {
        let (sum, first, second) = (bit(r, k), bit(a, k), bit(b, k));
        let (into, out) = (bit(carry, k - 1), bit(carry, k));
        push_next_sum(list, k + 1 < w, sum, first, second, into, out)
    }
}

/// A column of a sum but the lowest, with the carries into it and, where it `goes_on`, out of it.
fn push_next_sum(
    list: &mut ClauseList,
    goes_on: bool,
    r: Lit,
    a: Lit,
    b: Lit,
    into: Lit,
    out: Lit,
) -> Result<(), Memory>
    ensures { OnOk result (list.new ≡ list.old ++ normal_clauses
        (xor_gate r (a ∷ b ∷ into ∷ []) ++ (if goes_on then majority_gate out a b into else []))) }
{
    list.xor_of_three(r, a, b, into)?;
    if goes_on {
        list.majority(out, a, b, into)
    } else {
        Ok(())
    }
}

/// The lowest column of a sum of `w` bits.
fn push_first_sum(
    list: &mut ClauseList,
    w: u32,
    r: Lit,
    a: Lit,
    b: Lit,
    carry: Lit,
) -> Result<(), Memory>
    ensures { OnOk result (list.new ≡ list.old ++ normal_clauses
        (xor_gate r (a ∷ b ∷ []) ++ (if nat_lt 1 w then and_gate carry a b else []))) }
{
    list.xor(r, a, b)?;
    if 1 < w { list.and(carry, a, b) } else { Ok(()) }
}

/// Column `k` of an order of `w` bits, over these bits of its arguments.
fn push_less(
    list: &mut ClauseList,
    w: u32,
    r: u32,
    a: Lit,
    b: Lit,
    lower: u32,
    k: u32,
) -> Result<(), Memory>
    requires r { r < 2 ^ 32 }
    requires lower { lower + k < 2 ^ 32 }
    requires k { k + 1 < 2 ^ 32 }
    ensures { OnOk result (list.new ≡ list.old ++ normal_clauses
        (less_column (last_place w (bit_of r 0) (bit_of lower)) (λ _. a) (λ _. b) k)) }
{
    let place = last(w, r, lower, k);
    if k == 0 {
        list.and(place, negated(a), b)
    } else {
        list.majority(place, negated(a), b, last(w, r, lower, k - 1))
    }
}

/// Helper `k` of an order of `w` bits, the result in the last place.
fn last(w: u32, r: u32, lower: u32, k: u32) -> Lit
    requires lower { lower + k < 2 ^ 32 }
    requires k { k + 1 < 2 ^ 32 }
    ensures { result ≡ last_place w (bit_of r 0) (bit_of lower) k }
{
    if k + 1 == w { plain(r) } else { bit(lower, k) }
}

/// The words of which bit `k` is compared by the sign: the highest bits are exchanged.
fn top_exchanged(w: u32, a: u32, b: u32, k: u32) -> (u32, u32)
    requires { k + 1 < 2 ^ 32 }
    ensures first { bit_of result.0 k ≡ top_place w (bit_of a) (bit_of b) k }
    ensures second { bit_of result.1 k ≡ top_place w (bit_of b) (bit_of a) k }
    ensures words { ((result.0 ≡ a) × (result.1 ≡ b)) ⊎ ((result.0 ≡ b) × (result.1 ≡ a)) }
{
    if k + 1 == w { (b, a) } else { (a, b) }
}
