//! Reads the function of a name from a whole text.
ghost use Rattle.std.specs.Prelude.{◌≡◌, IfOk};
ghost use Rattle.outcomes.specs.Answering.{Answers, Gives};
ghost use Rattle.insn_table.specs.Closed.{IsClosed};
ghost use Rattle.insn_table.specs.declared.insn.Function.{Function};
ghost use Rattle.text_lines.specs.declared.refusal.ReadRefusal.{ReadRefusal};
ghost use Rattle.text_lines.specs.Kinds.{out_of_memory};
ghost use Rattle.att_reader.specs.FunctionText.{IsFunctionText, IsFunctionRefusal};
ghost use Rattle.att_reader.specs.Reading.{told, insns_of_text};

use crate::body::{read_body, refused};
use align_base::Word;
use att_bodies::{extent, last_line, leaves};
use insn_table::{Bytes, Function, Insns};
use std::alloc::Global;
use text_lines::{ReadKind, ReadRefusal, items_in, long_line, wrong_line};

/// The instructions of the function of this name, or the first fault of the text's items.
fn insns_in(alloc: Global, text: &[u8], name: &[u8]) -> Result<Insns, ReadRefusal>
    ensures { Gives out_of_memory result (told (insns_of_text text.now name.now)) }
{
    let (items, lines) = items_in(alloc, text)?;
    let Some((body, after)) = extent(name, items.as_slice()) else {
        return Err(refused(0, ReadKind::NoFunction));
    };
    let insns = read_body(alloc, body)?;
    if leaves(insns.as_slice()) {
        Ok(insns)
    } else {
        Err(refused(last_line(lines, body, after), ReadKind::FallsOff))
    }
}

/// The function of this name, or the text's first fault.
fn function_in(alloc: Global, text: &[u8], name: &Word) -> Result<Function, ReadRefusal>
    ensures { Answers out_of_memory (IsFunctionText text.now name.now) (IsFunctionRefusal text.now name.now) result }
{
    if let Some(line) = wrong_line(text) {
        return Err(refused(line, ReadKind::NotUtf8));
    }
    if let Some(line) = long_line(text) {
        return Err(refused(line, ReadKind::LineLong));
    }
    let insns = insns_in(alloc, text, name.bytes())?;
    let name = Word::new(alloc, name.bytes())?;
    Ok(Function {
        name,
        insns,
        pool: Bytes::new(alloc),
    })
}

/// The function of this name that a text spells, or the first fault of the text.
///
/// The text is GNU AT&T assembly as compilers write it. Where memory is not found, that is the refusal.
pub fn read_function(alloc: Global, text: &[u8], name: &Word) -> Result<Function, ReadRefusal>
    // What is answered is so ..
    ensures exact { Answers out_of_memory (IsFunctionText text.now name.now)
        (IsFunctionRefusal text.now name.now) result }

    // .. and what is so is answered.
    ensures only { (f : Function) → IsFunctionText text.now name.now f → Gives out_of_memory result (Ok f) }
    ensures refused { (e : ReadRefusal) → IsFunctionRefusal text.now name.now e → Gives out_of_memory result (Err e) }

    // Whatever is read can be run from any of its instructions on.
    ensures closed { IfOk result (λ f. IsClosed f.insns) }
{
    function_in(alloc, text, name)
}
