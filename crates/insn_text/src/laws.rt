//! Laws of printed operands, as contracts of functions that do nothing.
ghost use Rattle.std.specs.Prelude.{ℕ, ◌^◌, ◌<◌, List};
ghost use Rattle.att_statements.specs.Operands.{IsOperandText, Plain};
ghost use Rattle.insn_table.specs.declared.insn.Operand.{Operand};
ghost use Rattle.insn_text.specs.InsnText.{operand_text};
ghost use Rattle.insn_text.specs.ReadBack.{NumberReadBack};

/// The law that printed operands are read back: whatever text a register or memory was read from, what
/// is printed of it is read as it again, and what is printed of an immediate of w bits as a number that
/// is the same modulo 2^w. It does nothing.
pub fn operands_are_read_back()
    ensures plain { (w : ℕ) (text : List ℕ) (operand : Operand) → IsOperandText text (Plain operand)
        → IsOperandText (operand_text w operand) (Plain operand) }
    ensures number { (w v : ℕ) → v < 2 ^ 64 → NumberReadBack w v }
{}
