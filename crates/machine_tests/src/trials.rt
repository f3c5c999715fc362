//! Runs of small functions from a start state, and what is seen of their ends.
ghost use Rattle.std.specs.Prelude.{◌≡◌, IfOk};
ghost use Rattle.insn_table.specs.Closed.{IsClosed};

use crate::statements::{RAX, RCX, RSP};
use crate::states::start;
use align_base::Word;
use insn_table::{Function, FunctionBuilder, Statement};
use machine::{RunEnd, State};
use std::alloc::Global;
use std::test::Fail;

/// What is looked at in a state: nothing, the place, a register now or at the entry, or the word of the
/// eight bytes from an address on.
#[derive(Clone, Copy)]
pub enum Sight {
    Nothing,
    Place,
    Rax,
    Rcx,
    Rsp,
    EntryRax,
    Word(u64),
}

/// One statement to three, of which `NO_MORE` is none.
pub type Body = [Statement<'static>; 3];

/// A function of statements and a return, what `%rax` and `%rcx` hold at the start, how its run ends
/// within nine steps, and what is seen then.
#[derive(Clone, Copy)]
pub struct Trial {
    pub body: Body,
    pub rax: u64,
    pub rcx: u64,
    pub end: RunEnd,
    pub seen: [(Sight, u64); 3],
}

pub const NO_SIGHT: (Sight, u64) = (Sight::Nothing, 0);

/// A trial of which the end alone is looked at.
pub(crate) fn make_trial(body: Body, rax: u64, rcx: u64, end: RunEnd) -> Trial {
    Trial {
        body,
        rax,
        rcx,
        end,
        seen: [NO_SIGHT; 3],
    }
}

/// A trial of which one thing more is looked at.
pub(crate) fn seeing(trial: Trial, sight: Sight, value: u64) -> Trial {
    let [first, second, _] = trial.seen;
    Trial {
        seen: [(sight, value), first, second],
        ..trial
    }
}

/// The function of these statements and a return.
pub(crate) fn function(alloc: Global, body: Body) -> Result<Function, Fail>
    ensures { IfOk result (λ f. IsClosed f.insns) }
{
    let mut builder = FunctionBuilder::new(alloc);
    for statement in body {
        if !statement.mnemonic.is_empty() {
            builder.push(statement.mnemonic, &statement.args)?;
        }
    }
    builder.push(b"ret", &[])?;
    Ok(builder.finish(Word::new(alloc, b"f")?)?)
}

fn word_at(state: &State, at: u64) -> u64 {
    u64::from_le_bytes([0, 1, 2, 3, 4, 5, 6, 7].map(|k| state.byte(at.wrapping_add(k))))
}

fn value_seen(state: &State, sight: Sight) -> u64 {
    match sight {
        Sight::Nothing => 0,
        Sight::Place => state.place() as u64,
        Sight::Rax => state.reg(RAX),
        Sight::Rcx => state.reg(RCX),
        Sight::Rsp => state.reg(RSP),
        Sight::EntryRax => state.entry(RAX),
        Sight::Word(at) => word_at(state, at),
    }
}

/// Whether all of this is seen in a state.
fn is_seen(state: &State, seen: &[(Sight, u64)]) -> bool {
    seen.iter()
        .all(|(sight, value)| value_seen(state, *sight) == *value)
}

fn goes_as_told(alloc: Global, trial: &Trial) -> Result<bool, Fail> {
    let f = function(alloc, trial.body)?;
    let mut state = start(alloc, trial.rax, trial.rcx)?;
    let end = state.run(&f, 9);
    Ok(end == trial.end && is_seen(&state, &trial.seen))
}

/// The number of the first trial that goes otherwise than it tells, counted from 0.
pub(crate) fn first_wrong(alloc: Global, trials: &[Trial]) -> Result<Option<usize>, Fail> {
    for k in 0..trials.len() {
        if !goes_as_told(alloc, &trials[k])? {
            return Ok(Some(k));
        }
    }
    Ok(None)
}
