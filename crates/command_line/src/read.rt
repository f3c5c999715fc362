//! From arguments to commands.
ghost use Rattle.std.specs.Prelude.{◌≡◌, ◌↔◌, codes, IfNone, IfOk, IfSome, IsTrue, ℕ};
ghost use Rattle.command_line.specs.Command as plain;
ghost use Rattle.command_line.specs.Command.{GiveSteps, IsCommand, IsNumberWithin, IsUsageError};
ghost use Rattle.command_line.specs.Parser.{AreOf, IsOfForm};
ghost use Rattle.command_line.specs.View.{command_view, line_view};
ghost use Rattle.command_line.specs.declared.command.CommandForm.{CommandForm};

use crate::command;
use crate::command::Command;
use crate::line::{Line, Valued, line_of};
use crate::number::number_within;
use crate::parser::{decide_of, parser_words, run_of, show_of};
use align_base::Word;
use outcomes::Memory;
use std::alloc::Global;

/// Whether an option is `--steps` with a number of steps.
fn is_steps(option: &Valued<'_>) -> bool
    ensures { IsTrue result ↔ ((n : ℕ) × (option.now.flag.now ≡ codes "--steps")
        × IsNumberWithin 1 65536 option.now.value.now n) }
{
    if option.flag != "--steps" {
        return false;
    }
    number_within(option.value, 1, 65_536).is_some()
}

/// Whether the options of a line are none, or a number of steps alone.
fn are_steps(line: &Line<'_>) -> bool
    ensures { IsTrue result ↔ ((n : ℕ) × GiveSteps (line_view line.now).options n) }
{
    if line.options.len() > 1 {
        return false;
    }
    match line.options.as_slice().first() {
        None => true,
        Some(option) => is_steps(option),
    }
}

/// Decides by the rules of which command the name, the options and the plain arguments are.
fn form_of(name: &[u8], line: &Line<'_>) -> Option<command::CommandForm>
    ensures some { IfSome result (IsOfForm name.now (line_view line.now)) }
    ensures none { IfNone result ((form : CommandForm) → IsOfForm name.now (line_view line.now) form → ⊥) }
{
    let plain = line.plain.len();
    if name == b"decide".as_slice() && plain == 4 && line.options.is_empty() {
        return Some(command::CommandForm::DecidePlain);
    }
    if name == b"run".as_slice() && plain == 4 && are_steps(line) {
        return Some(command::CommandForm::Run);
    }
    if name == b"show".as_slice() && plain == 2 && line.options.is_empty() {
        return Some(command::CommandForm::Show);
    }
    None
}

/// The values of a command of this form, as the parser reads them.
fn values_of(alloc: Global, form: command::CommandForm, line: &Line<'_>) -> Result<Command, Memory>
    requires { (c : plain.Command) × AreOf form (line_view line.now) c }
    ensures { IfOk result (λ found. AreOf form (line_view line.now) (command_view found)) }
{
    match form {
        command::CommandForm::DecidePlain => {
            let words = parser_words(alloc, "decide", line)?;
            decide_of(alloc, words.as_slice())
        }
        command::CommandForm::Run => {
            let words = parser_words(alloc, "run", line)?;
            run_of(alloc, words.as_slice())
        }
        command::CommandForm::Show => {
            let words = parser_words(alloc, "show", line)?;
            show_of(alloc, words.as_slice())
        }
    }
}

/// The command that the arguments are, where they are one.
pub fn command_of(alloc: Global, arguments: &[Word]) -> Result<Option<Command>, Memory>
    ensures some { IfOk result (λ found. IfSome found (λ command. IsCommand arguments.now (command_view command))) }
    ensures none { IfOk result (λ found. IfNone found (IsUsageError arguments.now)) }
{
    let [name, behind @ ..] = arguments else {
        return Ok(None);
    };
    let Some(line) = line_of(alloc, behind)? else {
        return Ok(None);
    };
    let Some(form) = form_of(name.bytes(), &line) else {
        return Ok(None);
    };
    Ok(Some(values_of(alloc, form, &line)?))
}

/// A law: arguments are one command at most.
pub fn command_law(arguments: &[Word])
    ensures { (a b : plain.Command) → IsCommand arguments.now a → IsCommand arguments.now b → a ≡ b }
{
    let _ = arguments;
}
