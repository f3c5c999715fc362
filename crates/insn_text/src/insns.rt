//! The text of an instruction.
ghost use Rattle.std.specs.Prelude.{◌≡◌, ◌++◌, ◌<◌, IfOk, OnOk, string_bytes};
ghost use Rattle.insn_text.specs.InsnText.{insn_text, operands_text};

use crate::operands::push_operand;
use insn_mnemonics::push_mnemonic;
use insn_table::{Insn, Operand};
use outcomes::Memory;
use std::alloc::{AllocError, Global};

/// The text of an instruction, in GNU AT&T syntax: the mnemonic with its suffix and the operands. A
/// jump's target is `@` and its place.
pub fn insn_text(alloc: Global, insn: &Insn) -> Result<String, Memory>
    ensures { IfOk result (λ text. string_bytes text ≡ insn_text insn.now) }
{
    let mut text = String::new(alloc);
    push_insn(&mut text, insn)?;
    Ok(text)
}

/// Appends the text of an instruction.
#[tactic(auto, unfolding(crate::specs::InsnText::insn_text))]
pub(crate) fn push_insn(out: &mut String, insn: &Insn) -> Result<(), AllocError>
    ensures { OnOk result (string_bytes out.new ≡ string_bytes out.old ++ insn_text insn.now) }
{
    push_mnemonic(out, insn.op, insn.vex, insn.w)?;
    push_operands(out, " ", insn.w, &insn.args)
}

/// Appends operands up to the first that is nothing: this text before the first one, and a comma before
/// each other one.
#[tactic(auto, unfolding(crate::specs::InsnText::operands_text))]
fn push_operands(
    out: &mut String,
    lead: &str,
    w: u32,
    operands: &[Operand],
) -> Result<(), AllocError>
    ensures { OnOk result (string_bytes out.new ≡ string_bytes out.old ++ operands_text lead.now w operands.now) }
{
    match operands {
        [] | [Operand::Nothing, ..] => Ok(()),
        [operand, rest @ ..] => {
            out.push_str(lead)?;
            push_operand(out, w, *operand)?;
            push_operands(out, ",", w, rest)
        }
    }
}
