//! The lines of a function.
ghost use Rattle.std.specs.Prelude.{◌≡◌, ◌++◌, IfOk, string_bytes};
ghost use Rattle.flow_graph.specs.Flows.{flows_of};
ghost use Rattle.insn_table.specs.Closed.{IsClosed};
ghost use Rattle.insn_text.specs.ShowText.{IsShown, heading, insn_line};

use crate::insns::push_insn;
use flow_graph::Graph;
use insn_table::{Function, Insn};
use outcomes::Memory;
use std::alloc::{AllocError, Global};

/// The lines of a function: its name, how many instructions it has, and each instruction with its
/// place, behind `*` where it is a cut point. `g` is the flow graph of `f`.
pub fn show_text(alloc: Global, f: &Function, g: &Graph) -> Result<Vec<u8>, Memory>
    requires closed { IsClosed f.now.insns }
    requires graph { g.now ≡ flows_of f.now.insns }
    ensures { IfOk result (λ text. IsShown f.now text.items) }
{
    let mut text = heading(alloc, f)?;
    for (place, insn) in f.insns.as_slice().iter().enumerate() {
        let line = insn_line(alloc, g.is_cut(place as u32), place, insn)?;
        text.extend_from_slice(line.as_bytes())?;
    }
    Ok(text)
}

/// The first two lines.
#[tactic(auto, unfolding(crate::specs::ShowText::heading))]
fn heading(alloc: Global, f: &Function) -> Result<Vec<u8>, AllocError>
    ensures { IfOk result (λ text. text.items ≡ heading f.now) }
{
    let mut text = Vec::from_slice(alloc, b"function ")?;
    text.extend_from_slice(f.name.bytes())?;
    let count = f.insns.len();
    let line = format!(in alloc; "\ninsns {count}\n")?;
    text.extend_from_slice(line.as_bytes())?;
    Ok(text)
}

/// The line of the instruction at a place, with or without a mark.
#[tactic(auto, unfolding(crate::specs::ShowText::insn_line))]
fn insn_line(alloc: Global, marked: bool, place: usize, insn: &Insn) -> Result<String, AllocError>
    ensures { IfOk result (λ line. string_bytes line ≡ insn_line marked place insn.now) }
{
    let mark = if marked { "*" } else { " " };
    let mut line = format!(in alloc; "{mark} {place} ")?;
    push_insn(&mut line, insn)?;
    line.push_str("\n")?;
    Ok(line)
}
