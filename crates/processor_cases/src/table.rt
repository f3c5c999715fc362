//! Reads a line of the table: the numbers of operations and conditions, flags, and cases.
ghost use Rattle.std.specs.Prelude.{◌≡◌, ◌+◌, ◌≤◌, IfOk, length, slice_get};
ghost use Rattle.processor_cases.specs.Table.{case_of, case_of_numbers, condition_case, conditions, flag_of, flags_from, has_flags, long_case, operation_of, operations, row_case, row_of};

use crate::case::Case;
use crate::numbers::numbers;
use crate::vector_rows::vector_case;
use insn_ops::{Cond, Flags, Op};
use std::alloc::{AllocError, Global};

/// The general operations, each at its number.
pub fn operations() -> [Op; 24]
    ensures { result ≡ operations }
{
    [
        Op::Mov,
        Op::Movabs,
        Op::Add,
        Op::Sub,
        Op::Cmp,
        Op::Test,
        Op::And,
        Op::Or,
        Op::Xor,
        Op::Inc,
        Op::Dec,
        Op::Neg,
        Op::Not,
        Op::Shl,
        Op::Shr,
        Op::Sar,
        Op::Imul,
        Op::Lea,
        Op::Movzx(8),
        Op::Movzx(16),
        Op::Movsx(8),
        Op::Movsx(16),
        Op::Movsx(32),
        Op::Cltq,
    ]
}

/// The conditions, each at its number.
fn conditions() -> [Cond; 16]
    ensures { result ≡ conditions }
{
    [
        Cond::E,
        Cond::Ne,
        Cond::B,
        Cond::Ae,
        Cond::Be,
        Cond::A,
        Cond::L,
        Cond::Ge,
        Cond::Le,
        Cond::G,
        Cond::S,
        Cond::Ns,
        Cond::O,
        Cond::No,
        Cond::P,
        Cond::Np,
    ]
}

/// The condition of a number.
fn condition(number: u64) -> Option<Cond>
    ensures { result ≡ slice_get conditions number }
{
    conditions().get(number as usize).copied()
}

/// The operation at a place of a list.
fn operation_at(operations: &[Op], place: usize) -> Option<Op>
    ensures { result ≡ slice_get operations.now place }
{
    operations.get(place).copied()
}

/// The general operation of a number.
fn general_operation(number: u64) -> Option<Op>
    ensures { result ≡ slice_get operations number }
{
    operation_at(&operations(), number as usize)
}

/// The operation of a row.
fn operation(kind: u64, number: u64) -> Option<Op>
    ensures { result ≡ operation_of kind number }
{
    if kind == 0 {
        general_operation(number)
    } else if kind == 2 {
        Some(Op::Cmov(condition(number)?))
    } else if kind == 3 {
        Some(Op::Set(condition(number)?))
    } else {
        None
    }
}

/// A flag as it is written: 0, 1, or 2 where it is unset.
fn flag(code: u64) -> Option<bool>
    ensures { result ≡ flag_of code }
{
    if code == 2 { None } else { Some(code == 1) }
}

/// Whether five flags are written from a place on.
fn has_flags(n: &[u64], at: usize) -> bool
    requires { at + 5 ≤ length n.now }
    ensures { result ≡ has_flags n.now at }
{
    n[at] < 3 && n[at + 1] < 3 && n[at + 2] < 3 && n[at + 3] < 3 && n[at + 4] < 3
}

/// The flags that are written from a place on.
fn flags_from(n: &[u64], at: usize) -> Flags
    requires { at + 5 ≤ length n.now }
    ensures { result ≡ flags_from n.now at }
{
    Flags {
        cf: flag(n[at]),
        pf: flag(n[at + 1]),
        zf: flag(n[at + 2]),
        sf: flag(n[at + 3]),
        of: flag(n[at + 4]),
    }
}

/// The case of 16 numbers.
fn row_case(n: &[u64]) -> Option<Case>
    requires { length n.now ≡ 16 }
    ensures { result ≡ row_case n.now }
{
    if n[2] < 65 && has_flags(n, 5) {
        let op = operation(n[0], n[1])?;
        Some(Case::Row {
            number: n[1],
            op,
            w: n[2] as u32,
            a: n[3],
            b: n[4],
            before: flags_from(n, 5),
            value: n[10],
            after: [n[11], n[12], n[13], n[14], n[15]],
        })
    } else {
        None
    }
}

/// The case of 8 numbers.
fn condition_case(n: &[u64]) -> Option<Case>
    requires { length n.now ≡ 8 }
    ensures { result ≡ condition_case n.now }
{
    if n[0] == 1 && has_flags(n, 2) {
        let cond = condition(n[1])?;
        Some(Case::Condition {
            cond,
            flags: flags_from(n, 2),
            holds: n[7],
        })
    } else {
        None
    }
}

/// The case of 16 numbers: of a vector operation where they begin with 4 or more.
fn long_case(n: &[u64]) -> Option<Case>
    requires { length n.now ≡ 16 }
    ensures { result ≡ long_case n.now }
{
    if n[0] < 4 {
        row_case(n)
    } else {
        vector_case(n)
    }
}

/// The case of numbers.
fn case_of_numbers(n: &[u64]) -> Option<Case>
    ensures { result ≡ case_of_numbers n.now }
{
    match n.len() {
        16 => long_case(n),
        8 => condition_case(n),
        _ => None,
    }
}

impl Case {
    /// The case that a line of the table spells; None for a line that spells none.
    pub fn read(alloc: Global, line: &str) -> Result<Option<Case>, AllocError>
        ensures { IfOk result (λ r. r ≡ case_of line.now) }
    {
        match numbers(alloc, line)? {
            Some(n) => Ok(case_of_numbers(n.as_slice())),
            None => Ok(None),
        }
    }
}
