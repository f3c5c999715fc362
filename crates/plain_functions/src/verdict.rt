//! What two plain functions are to each other, by the sums that they leave in `%rax`.
ghost use Rattle.std.specs.Prelude.{◌≤◌, length};
ghost use Rattle.plain_functions.specs.Plain.{IsPlain};
ghost use Rattle.plain_functions.specs.Verdict.{IsVerdict};

use crate::sums::{rax_sum, telling_registers};
use insn_table::Insn;

/// How a function ended: after how many steps, and with which `%rax`.
#[derive(Clone, Copy, Debug, PartialEq, Eq)]
pub struct Ending {
    pub steps: u64,
    pub value: u64,
}

/// The registers of a start state from which two functions end differently, and how each ended.
#[derive(Clone, Copy, Debug, PartialEq, Eq)]
pub struct Counterexample {
    pub regs: [u64; 16],
    pub left: Ending,
    pub right: Ending,
}

/// What two plain functions are to each other.
#[derive(Clone, Copy, Debug, PartialEq, Eq)]
pub enum Verdict {
    /// They are equivalent within this bound.
    Equivalent(u64),
    /// They are different.
    Different(Counterexample),
}

/// Compares two plain functions.
pub fn compare(left: &[Insn], right: &[Insn]) -> Verdict
    requires left_plain { IsPlain left.now }
    requires left_few { length left.now ≤ 4096 }
    requires right_plain { IsPlain right.now }
    requires right_few { length right.now ≤ 4096 }
    ensures { IsVerdict left.now right.now result }
{
    let left_sum = rax_sum(left);
    let right_sum = rax_sum(right);
    let left_steps = left.len() as u64;
    let right_steps = right.len() as u64;
    match telling_registers(&left_sum, &right_sum) {
        None => Verdict::Equivalent(2 * left_steps.max(right_steps)),
        Some(regs) => Verdict::Different(Counterexample {
            regs,
            left: Ending {
                steps: left_steps,
                value: left_sum.value(&regs),
            },
            right: Ending {
                steps: right_steps,
                value: right_sum.value(&regs),
            },
        }),
    }
}
