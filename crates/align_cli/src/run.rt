//! The command `run`: a function under every test of a file.
ghost use Rattle.std.specs.Prelude.{◌≡◌, IfErr, IfOk, OnOk};
ghost use Rattle.align_base.specs.Shelf.{NoneFailed};
ghost use Rattle.align_cli.specs.Answers.{TakesSome, TellsOf};
ghost use Rattle.align_cli.specs.Commands.{files_of};
ghost use Rattle.align_cli.specs.Inside.{StopsCommand};
ghost use Rattle.align_cli.specs.View.{run_command};

use crate::answer::{Answer, Stop};
use crate::files::{admission_in, function_in, tests_in};
use align_base::{Shelf, Status};
use align_report::{lone_file, run_text};
use command_line::RunArguments;
use std::alloc::Global;

/// Takes and reads the function, the admission and the tests, in this order, and runs the function
/// under each test.
pub fn ran<F: Shelf>(alloc: Global, arguments: &RunArguments, shelf: &mut F) -> Result<Answer, Stop>
    ensures holding { (F.account shelf.new).holding ≡ (F.account shelf.old).holding }
    ensures takes { TakesSome (files_of (run_command arguments.now)) (F.account shelf.old) (F.account shelf.new) }
    ensures ok { IfOk result (λ answer.
        TellsOf (run_command arguments.now) answer.status (F.account shelf.old) (F.account shelf.new) answer.report.items) }
    ensures none_failed { OnOk result (NoneFailed (F.account shelf.old) (F.account shelf.new)) }
    ensures err { IfErr result (StopsCommand (run_command arguments.now) (F.account shelf.old) (F.account shelf.new)) }
{
    let function = function_in(alloc, shelf, lone_file(), &arguments.function)?;
    let admission = admission_in(alloc, shelf, &arguments.admission)?;
    let tests = tests_in(alloc, shelf, &arguments.tests)?;
    Ok(Answer::new(
        Status::Good,
        run_text(alloc, &function, &admission, &tests, arguments.steps)?,
    ))
}
