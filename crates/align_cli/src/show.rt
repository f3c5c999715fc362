//! The command `show`: a function as it was read, with its cut points.
ghost use Rattle.std.specs.Prelude.{◌≡◌, IfErr, IfOk, OnOk};
ghost use Rattle.align_base.specs.Shelf.{NoneFailed};
ghost use Rattle.align_cli.specs.Answers.{TakesSome, TellsOf};
ghost use Rattle.align_cli.specs.Commands.{files_of};
ghost use Rattle.align_cli.specs.Inside.{StopsCommand};
ghost use Rattle.align_cli.specs.View.{show_command};

use crate::answer::{Answer, Stop};
use crate::files::function_in;
use align_base::{Shelf, Status};
use align_report::lone_file;
use command_line::FunctionArguments;
use flow_graph::graph;
use insn_text::show_text;
use std::alloc::Global;

/// Takes and reads the function, and shows it.
pub fn shown<F: Shelf>(
    alloc: Global,
    arguments: &FunctionArguments,
    shelf: &mut F,
) -> Result<Answer, Stop>
    ensures holding { (F.account shelf.new).holding ≡ (F.account shelf.old).holding }
    ensures takes { TakesSome (files_of (show_command arguments.now)) (F.account shelf.old) (F.account shelf.new) }
    ensures ok { IfOk result (λ answer.
        TellsOf (show_command arguments.now) answer.status (F.account shelf.old) (F.account shelf.new) answer.report.items) }
    ensures none_failed { OnOk result (NoneFailed (F.account shelf.old) (F.account shelf.new)) }
    ensures err { IfErr result (StopsCommand (show_command arguments.now) (F.account shelf.old) (F.account shelf.new)) }
{
    let function = function_in(alloc, shelf, lone_file(), arguments)?;
    let graph = graph(alloc, &function)?;
    Ok(Answer {
        status: Status::Good,
        report: show_text(alloc, &function, &graph)?,
    })
}
