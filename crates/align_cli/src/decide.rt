//! The command `decide` in its short form: two plain functions, compared by the sums that they leave
//! in `%rax`.
ghost use Rattle.std.specs.Prelude.{◌≡◌, ◌≤◌, length, IfErr, IfOk, OnOk};
ghost use Rattle.align_base.specs.Shelf.{NoneFailed};
ghost use Rattle.insn_table.specs.Closed.{IsClosed};
ghost use Rattle.plain_functions.specs.Plain.{IsPlain};
ghost use Rattle.align_cli.specs.Answers.{TakesSome, TellsOf};
ghost use Rattle.align_cli.specs.Decide.{RefusesEither, RefusesUnplain};
ghost use Rattle.align_cli.specs.Commands.{files_of};
ghost use Rattle.align_cli.specs.Inside.{Compares, StopsCommand, StopsWith};
ghost use Rattle.align_cli.specs.View.{decide_view};

use crate::answer::{Answer, Stop};
use crate::files::function_in;
use align_base::{Shelf, Status};
use align_report::{different_text, equivalent_text, side_name, unplain_refusal};
use command_line::FunctionArguments;
use insn_ops::Side;
use insn_table::Function;
use plain_functions::{Verdict, compare, first_unplain};
use std::alloc::{AllocError, Global};

/// Compares two plain functions.
fn compared(alloc: Global, left: &Function, right: &Function) -> Result<Answer, AllocError>
    requires left_plain { IsPlain left.now.insns }
    requires left_few { length left.now.insns ≤ 4096 }
    requires right_plain { IsPlain right.now.insns }
    requires right_few { length right.now.insns ≤ 4096 }
    ensures { IfOk result (λ answer. Compares answer.status left.now.insns right.now.insns answer.report.items) }
{
    match compare(left.insns.as_slice(), right.insns.as_slice()) {
        Verdict::Equivalent(bound) => Ok(Answer::new(Status::Good, equivalent_text(alloc, bound)?)),
        Verdict::Different(found) => Ok(Answer::new(
            Status::Negative,
            different_text(alloc, &found)?,
        )),
    }
}

/// Refuses a function that is not plain.
fn refuse_unplain(alloc: Global, side: Side, function: &Function) -> Result<(), Stop>
    requires { IsClosed function.now.insns }
    ensures ok { OnOk result (IsPlain function.now.insns) }
    ensures err { IfErr result (StopsWith (RefusesUnplain side function.now.insns)) }
{
    match first_unplain(function.insns.as_slice()) {
        None => Ok(()),
        Some(line) => Err(Stop::Refused(unplain_refusal(alloc, side_name(side), line)?)),
    }
}

/// Judges two functions that were read: refuses the first that is not plain, and compares plain ones.
fn judged(alloc: Global, left: &Function, right: &Function) -> Result<Answer, Stop>
    requires left_closed { IsClosed left.now.insns }
    requires left_few { length left.now.insns ≤ 4096 }
    requires right_closed { IsClosed right.now.insns }
    requires right_few { length right.now.insns ≤ 4096 }
    ensures ok { IfOk result (λ answer. Compares answer.status left.now.insns right.now.insns answer.report.items) }
    ensures err { IfErr result (StopsWith (λ report. RefusesEither report left.now.insns right.now.insns)) }
{
    refuse_unplain(alloc, Side::Left, left)?;
    refuse_unplain(alloc, Side::Right, right)?;
    Ok(compared(alloc, left, right)?)
}

/// Takes and reads the left file, then the right one, and compares the functions.
pub fn decided<F: Shelf>(
    alloc: Global,
    left: &FunctionArguments,
    right: &FunctionArguments,
    shelf: &mut F,
) -> Result<Answer, Stop>
    ensures holding { (F.account shelf.new).holding ≡ (F.account shelf.old).holding }
    ensures takes { TakesSome (files_of (decide_view left.now right.now)) (F.account shelf.old) (F.account shelf.new) }
    ensures ok { IfOk result (λ answer.
        TellsOf (decide_view left.now right.now) answer.status (F.account shelf.old) (F.account shelf.new) answer.report.items) }
    ensures none_failed { OnOk result (NoneFailed (F.account shelf.old) (F.account shelf.new)) }
    ensures err { IfErr result (StopsCommand (decide_view left.now right.now) (F.account shelf.old) (F.account shelf.new)) }
{
    let f = function_in(alloc, shelf, side_name(Side::Left), left)?;
    let g = function_in(alloc, shelf, side_name(Side::Right), right)?;
    judged(alloc, &f, &g)
}
