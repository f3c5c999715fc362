//! The law of the commands' reports.
ghost use Rattle.std.specs.Prelude.{◌≡◌, ℕ, List, Some};
ghost use Rattle.align_base.specs.Shelf.{Holding};
ghost use Rattle.align_base.specs.declared.status.Status.{Status};
ghost use Rattle.align_cli.specs.Commands.{Says};
ghost use Rattle.command_line.specs.Command.{Command};

/// A law: where the shelf tells what it holds, there is one report at most that a command that was
/// carried out gives with a status.
pub fn reports_are_one()
    ensures { (command : Command) (status : Status) (held : Holding) (x y : List ℕ)
        → Says command status (Some held) x → Says command status (Some held) y → x ≡ y }
{}
