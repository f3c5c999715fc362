//! The laws of the instruction table: functions without code, whose contracts say what holds of every
//! instruction of the table.
ghost use Rattle.std.specs.Prelude.{◌≡◌, ◌≤◌, ℕ, Bool, List, Some, Ok};
ghost use Rattle.std.specs.List.{AllByRecursion, count_by};
ghost use Rattle.insn_ops.specs.declared.op.Op.{Op};
ghost use Rattle.insn_table.specs.declared.insn.Operand.{Operand};
ghost use Rattle.insn_table.specs.declared.insn.Insn.{Insn};
ghost use Rattle.insn_spellings.specs.declared.shape.Shape.{Shape};
ghost use Rattle.insn_spellings.specs.Rows.{named};
ghost use Rattle.insn_spellings.specs.Spellings.{table_rows};
ghost use Rattle.insn_table.specs.Classes.{takes};
ghost use Rattle.insn_table.specs.Forms.{forms, fits_of};
ghost use Rattle.insn_table.specs.Table.{HasRegisters, IsTableInsn};

/// A law: each instruction of the table has a mnemonic, and it is what `fits` makes of the shape that the
/// mnemonic names and of its operands as they are.
#[tactic(auto, using(crate::proofs::TableInsns::mnemonics))]
pub fn table_insns_have_mnemonics()
    ensures { (i : Insn) → IsTableInsn i
        → (mnemonic : List ℕ) × ((shape : Shape) × (named table_rows mnemonic ≡ Some shape)
        × (fits_of shape i.args i.line ≡ Ok i)) }
{}

/// A law: what `fits` makes of a shape that a mnemonic names is an instruction of the table, where its
/// registers and scales are ones that there are.
#[tactic(auto, using(crate::proofs::TableInsns::fitted))]
pub fn fitted_insns_are_of_the_table()
    ensures { (mnemonic : List ℕ) (shape : Shape) (args : List Operand) (line : ℕ) (i : Insn)
        → named table_rows mnemonic ≡ Some shape → fits_of shape args line ≡ Ok i
        → AllByRecursion HasRegisters i.args → IsTableInsn i }
{}

/// A law: no two forms of an operation take the same operands, so the first one that takes them is the
/// only one.
pub fn forms_are_apart()
    ensures { (op : Op) (vex : Bool) (w : ℕ) (args : List Operand) → count_by (takes args) (forms op vex w) ≤ 1 }
{}
