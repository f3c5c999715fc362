//! The law of printed instructions.
ghost use Rattle.std.specs.Prelude.{◌≡◌, ℕ, List, Some, false, slice_get};
ghost use Rattle.std.specs.List.{list_any};
ghost use Rattle.att_reader.specs.FunctionText.{IsFunctionText};
ghost use Rattle.insn_table.specs.Classes.{is_target};
ghost use Rattle.insn_table.specs.declared.insn.Function.{Function};
ghost use Rattle.insn_table.specs.declared.insn.Insn.{Insn};
ghost use Rattle.att_round_trip.specs.RoundTrip.{IsReadBack};

/// The law that printed instructions are read back: each instruction of a function that a text spells is
/// read as itself again, but for the target of a jump, which is printed as a place. It does nothing.
pub fn printed_instructions_are_read_back()
    ensures { (text name : List ℕ) (f : Function) (k : ℕ) (i : Insn) → IsFunctionText text name f → slice_get f.insns k ≡ Some i
        → list_any is_target i.args ≡ false → IsReadBack i }
{}
