//! One line, printed and read back.
use align_base::Word;
use att_reader::{ReadRefusal, read_function};
use insn_ops::Op;
use insn_table::{Insn, Operand};
use insn_text::insn_text;
use outcomes::Memory;
use std::alloc::{AllocError, Global};
use thiserror::Error;

/// A line as it is printed, and whether that is read as the same instruction again.
#[derive(Drop)]
pub struct Row {
    pub printed: String,
    pub returns: bool,
}

/// Why a line is not printed.
#[derive(Clone, Copy, Debug, PartialEq, Eq, Error)]
pub enum Fault {
    #[error("not read")]
    Refused,
    #[error("out of memory")]
    OutOfMemory,
}

impl From<Memory> for Fault {
    fn from(_memory: Memory) -> Fault {
        Fault::OutOfMemory
    }
}

impl From<AllocError> for Fault {
    fn from(_error: AllocError) -> Fault {
        Fault::OutOfMemory
    }
}

impl From<ReadRefusal> for Fault {
    fn from(_refusal: ReadRefusal) -> Fault {
        Fault::Refused
    }
}

/// The line's instruction, printed and read back.
pub fn printed_row(alloc: Global, line: &str) -> Result<Row, Fault> {
    let insn = read(alloc, line)?;
    let printed = insn_text(alloc, &insn)?;
    let returns = is_jump(insn.op) || is_same(&insn, &read(alloc, printed.as_str())?);
    Ok(Row { printed, returns })
}

/// The first instruction of a function of this line and a return.
fn read(alloc: Global, line: &str) -> Result<Insn, Fault> {
    let text = format!(in alloc; "f:\n{line}\n.L1: ret\n")?;
    let name = Word::new(alloc, b"f")?;
    let f = read_function(alloc, text.as_str().as_bytes(), &name)?;
    match f.insns.as_slice() {
        [insn, ..] => Ok(*insn),
        [] => Err(Fault::Refused),
    }
}

fn is_jump(op: Op) -> bool {
    matches!(op, Op::Jump(_) | Op::Jmp)
}

/// Whether the instructions are the same, but for their lines and what immediates have above the form's
/// width.
fn is_same(insn: &Insn, other: &Insn) -> bool {
    insn.op == other.op
        && insn.w == other.w
        && insn.vex == other.vex
        && insn
            .args
            .iter()
            .zip(other.args.iter())
            .all(|(arg, read)| is_same_operand(insn.w, *arg, *read))
}

fn is_same_operand(w: u32, operand: Operand, other: Operand) -> bool {
    match (operand, other) {
        (Operand::Imm(v), Operand::Imm(u)) => low_bits(w, v) == low_bits(w, u),
        _ => operand == other,
    }
}

fn low_bits(w: u32, v: u64) -> u64 {
    match w {
        8 => v & 0xff,
        16 => v & 0xffff,
        32 => v & 0xffff_ffff,
        _ => v,
    }
}
