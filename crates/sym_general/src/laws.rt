//! Laws of general instructions. The functions do nothing; their contracts are the laws.
ghost use Rattle.std.specs.Prelude.{ℕ};
ghost use Rattle.insn_table.specs.declared.insn.Insn.{Insn};
ghost use Rattle.insn_semantics.specs.FormedRows.{HasRowWidth};
ghost use Rattle.machine.specs.Family.{family_of};
ghost use Rattle.machine.specs.Runnable.{HasRowOf, HasWidth};
ghost use Rattle.sym_general.specs.Operands.{HasCountOf};
ghost use Rattle.sym_general.specs.Results.{IsGeneral};

/// The row of each general instruction that can be run, and of a shift with its count, has its widths.
pub fn runnable_rows_have_widths()
    ensures { (i : Insn) (k : ℕ) → IsGeneral i.op → HasWidth (family_of i.op) i.w → HasRowOf i.op i → HasCountOf i k
        → HasRowWidth i.op i.w k }
{}
