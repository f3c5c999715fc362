//! The mnemonic that is printed of an operation.
ghost use Rattle.std.specs.Prelude.{◌≡◌, ◌++◌, Some, Ok, OnOk, string_bytes};
ghost use Rattle.insn_table.specs.declared.insn.Insn.{Insn};
ghost use Rattle.insn_spellings.specs.declared.shape.Shape.{Shape};
ghost use Rattle.insn_table.specs.Forms.{fits_of};
ghost use Rattle.insn_spellings.specs.Rows.{named};
ghost use Rattle.insn_spellings.specs.Spellings.{table_rows};
ghost use Rattle.insn_table.specs.Table.{IsTableInsn};
ghost use Rattle.insn_mnemonics.specs.Mnemonics.{mnemonic};

use crate::general::{ending, middle, stem};
use insn_ops::Op;
use std::alloc::AllocError;

/// The law that the mnemonic that is printed of an instruction of the table names a shape of which
/// `fits` makes the instruction again. It does nothing.
#[tactic(auto, using(crate::proofs::Naming::naming))]
pub fn mnemonics_name_shapes()
    ensures { (i : Insn) → IsTableInsn i → (shape : Shape) × (named table_rows (mnemonic i.op i.vex i.w) ≡ Some shape)
        × (fits_of shape i.args i.line ≡ Ok i) }
{}

/// Appends the mnemonic of an operation of `w` bits, with VEX or without.
pub fn push_mnemonic(out: &mut String, op: Op, vex: bool, w: u32) -> Result<(), AllocError>
    ensures { OnOk result (string_bytes out.new ≡ string_bytes out.old ++ mnemonic op vex w) }
{
    if vex {
        out.push_str("v")?;
    }
    out.push_str(stem(op))?;
    out.push_str(middle(op))?;
    out.push_str(ending(op, w))
}
