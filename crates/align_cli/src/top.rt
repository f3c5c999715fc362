//! The top call: all that the program does.
ghost use Rattle.std.specs.Prelude.{◌≡◌, ◌≢◌, ◌⊎◌, ◌∷◌, ◌++◌, [], IfErr, IfOk, OnOk, MatchResult};
ghost use Rattle.align_base.specs.Causes.{Rose};
ghost use Rattle.align_base.specs.Shelf.{NoneFailed};
ghost use Rattle.align_base.specs.declared.status.Status.{Status};
ghost use Rattle.align_cli.specs.Answers.{FailsAtFile, Finishes, Given, GivenNothing, GivenPrefix, RefusesCommand, TakesAtMost, Tells, TellsUsage};
ghost use Rattle.command_line.specs.Command.{Command, IsCommand, IsUsageError, OfCommand};
ghost use Rattle.align_cli.specs.Commands.{Accepts, Owes, Rejects, files_of, finals};
ghost use Rattle.align_cli.specs.Files.{HasBadFile};
ghost use Rattle.align_cli.specs.Inside.{InterruptsArguments, StopsArguments};
ghost use Rattle.align_report.specs.Usage.{usage_text};
ghost use Rattle.align_cli.specs.Statuses.{interruptions, IsOneOf};

use crate::answer::{Answer, Interruption, Stop};
use crate::decide::decided;
use crate::run::ran;
use crate::show::shown;
use align_base::{Gate, GiveFault, Shelf, Sink, Status, Word};
use align_report::usage_text;
use command_line::command_of;
use std::alloc::{AllocError, Global};
use std::thread::Threads;

/// The usage, for arguments that are no command.
fn usage(alloc: Global) -> Result<Answer, AllocError>
    ensures { IfOk result (λ answer. (answer.status ≡ Status.Usage) × (answer.report.items ≡ usage_text)) }
{
    Ok(Answer::new(Status::Usage, usage_text(alloc)?))
}

/// Carries out what the arguments ask for, up to what is given, or stops where something is refused.
fn carried_out<F: Shelf>(alloc: Global, arguments: &[Word], shelf: &mut F) -> Result<Answer, Stop>
    ensures holding { (F.account shelf.new).holding ≡ (F.account shelf.old).holding }
    ensures untouched { IsUsageError arguments.now → F.account shelf.new ≡ F.account shelf.old }
    ensures takes { (command : Command) → IsCommand arguments.now command
        → TakesAtMost (files_of command) (F.account shelf.old) (F.account shelf.new) }
    ensures ok { IfOk result (λ answer.
        Tells arguments.now answer.status (F.account shelf.old) (F.account shelf.new) answer.report.items) }
    ensures none_failed { OnOk result (NoneFailed (F.account shelf.old) (F.account shelf.new)) }
    ensures err { IfErr result (StopsArguments arguments.now (F.account shelf.old) (F.account shelf.new)) }
{
    match command_of(alloc, arguments)? {
        Some(command_line::Command::DecidePlain(left, right)) => decided(
            alloc, &left, &right, shelf,
        ),
        Some(command_line::Command::Run(run)) => ran(alloc, &run, shelf),
        Some(command_line::Command::Show(function)) => shown(alloc, &function, shelf),
        None => Ok(usage(alloc)?),
    }
}

/// What the arguments ask for, up to what is given.
fn answer_of<F: Shelf>(
    alloc: Global,
    arguments: &[Word],
    shelf: &mut F,
) -> Result<Answer, Interruption>
    ensures holding { (F.account shelf.new).holding ≡ (F.account shelf.old).holding }
    ensures untouched { IsUsageError arguments.now → F.account shelf.new ≡ F.account shelf.old }
    ensures takes { (command : Command) → IsCommand arguments.now command
        → TakesAtMost (files_of command) (F.account shelf.old) (F.account shelf.new) }
    ensures ok { IfOk result (λ answer.
        Tells arguments.now answer.status (F.account shelf.old) (F.account shelf.new) answer.report.items) }
    ensures none_failed { OnOk result (NoneFailed (F.account shelf.old) (F.account shelf.new)) }
    ensures err { IfErr result (InterruptsArguments arguments.now (F.account shelf.old) (F.account shelf.new)) }
{
    match carried_out(alloc, arguments, shelf) {
        Ok(answer) => Ok(answer),
        Err(Stop::Refused(text)) => Ok(Answer::new(Status::Refused, text)),
        Err(Stop::Shelf) => Err(Interruption::Shelf),
        Err(Stop::Memory) => Err(Interruption::Memory),
    }
}

/// Does what the arguments of the command line ask for, those behind the program's name: takes files
/// from the shelf and gives one report to the sink. No command uses the gate or the threads yet.
pub fn align_main<R: Threads + Sync, G: Gate + Sync, F: Shelf, O: Sink>(
    rt: &R,
    alloc: Global,
    arguments: &[Word],
    gate: &G,
    shelf: &mut F,
    out: &mut O,
) -> Status
    // The command was carried out, and what its report says is so: of `decide`, that the functions in
    // the files are equivalent within the printed bound, or that both return from the printed state
    // with different %rax; of `run`, that the report is that of the runs; of `show`, that it is that of
    // the function.
    ensures good { result ≡ Status.Good
        → Given (λ report. OfCommand arguments.now (λ command.
        Finishes command Status.Good (F.account shelf.old) (F.account shelf.new) report))
        (O.account out.old) (O.account out.new) }
    ensures negative { result ≡ Status.Negative
        → Given (λ report. OfCommand arguments.now (λ command.
        Finishes command Status.Negative (F.account shelf.old) (F.account shelf.new) report))
        (O.account out.old) (O.account out.new) }
    ensures known { result ≢ Status.Unknown }

    // The first file, in order, that is too large or not what it has to be is refused, or else what all of
    // them hold.
    ensures refused { result ≡ Status.Refused
        → Given (λ report. OfCommand arguments.now (λ command. RefusesCommand command (F.account shelf.old) (F.account shelf.new) report))
        (O.account out.old) (O.account out.new) }

    // The arguments are no command, and arguments that are none end so.
    ensures usage { result ≡ Status.Usage
        → Given (TellsUsage arguments.now (F.account shelf.old) (F.account shelf.new)) (O.account out.old) (O.account out.new) }
    ensures must_show_usage { IsUsageError arguments.now → IsOneOf (Status.Usage ∷ interruptions) result }

    // A command with a bad file, or with files whose contents it rejects, is refused, one that accepts them
    // is carried out, and one whose files call for a status ends with it, unless a call failed or memory ran
    // out.
    ensures must_refuse { (command : Command) → IsCommand arguments.now command
        → HasBadFile (F.account shelf.old).holding (files_of command) ⊎ Rejects command (F.account shelf.old).holding
        → IsOneOf (Status.Refused ∷ interruptions) result }
    ensures must_finish { (command : Command) → IsCommand arguments.now command
        → Accepts command (F.account shelf.old).holding → IsOneOf (finals command ++ interruptions) result }
    ensures must_answer { (command : Command) (status : Status) → IsCommand arguments.now command
        → Owes command status (F.account shelf.old).holding → IsOneOf (status ∷ interruptions) result }

    // The take of a file failed, after those before it were read, and nothing was given. With any other
    // status no call of the shelf failed.
    ensures shelf_fault { result ≡ Status.ShelfFault
        → OfCommand arguments.now (λ command. FailsAtFile command (F.account shelf.old) (F.account shelf.new)) }
    ensures no_shelf_fault { result ≢ Status.ShelfFault → NoneFailed (F.account shelf.old) (F.account shelf.new) }
    ensures nothing_given { result ≡ Status.ShelfFault → O.account out.new ≡ O.account out.old }

    // The give failed, after a prefix of a report that tells what is so. With any other status no give
    // failed.
    ensures sink_fault { result ≡ Status.SinkFault → Rose (O.account out.old).faults (O.account out.new).faults }
    ensures no_sink_fault { result ≢ Status.SinkFault → (O.account out.new).faults ≡ (O.account out.old).faults }
    ensures given_prefix { result ≡ Status.SinkFault
        → GivenPrefix arguments.now (F.account shelf.old) (F.account shelf.new) (O.account out.old) (O.account out.new) }

    // Out of memory, and nothing was written: the sink had no call, or the one that gives a report.
    ensures no_memory { result ≡ Status.NoMemory → (O.account out.new).written ≡ (O.account out.old).written }
    ensures given_nothing { result ≡ Status.NoMemory
        → GivenNothing arguments.now (F.account shelf.old) (F.account shelf.new) (O.account out.old) (O.account out.new) }

    // No more calls than the command has files, none where the arguments are no command; and every name
    // holds what it held.
    ensures takes { (command : Command) → IsCommand arguments.now command
        → TakesAtMost (files_of command) (F.account shelf.old) (F.account shelf.new) }
    ensures untouched { IsUsageError arguments.now → F.account shelf.new ≡ F.account shelf.old }
    ensures holding { (F.account shelf.new).holding ≡ (F.account shelf.old).holding }
{
    let _ = rt;
    let _ = gate;
    match answer_of(alloc, arguments, shelf) {
        Err(Interruption::Shelf) => Status::ShelfFault,
        Err(Interruption::Memory) => Status::NoMemory,
        Ok(answer) => match out.give(answer.report.as_slice()) {
            Ok(()) => answer.status,
            Err(GiveFault::Failed) => Status::SinkFault,
            Err(GiveFault::Memory) => Status::NoMemory,
        },
    }
}
