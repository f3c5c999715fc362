//! Laws of flags. The functions do nothing; their contracts are the laws.
ghost use Rattle.std.specs.Prelude.{List};
ghost use Rattle.node_values.specs.Sheets.{Extends, IsSheet};
ghost use Rattle.node_values.specs.declared.node.Node.{Node};
ghost use Rattle.sym_rows.specs.declared.lazy_flags.SymFlag.{SymFlag};
ghost use Rattle.sym_rows.specs.declared.operands.Flag.{Flag};
ghost use Rattle.sym_rows.specs.LazyFlags.{IsSetFlag, StaysSet};

/// A flag that is set stays so while the sheet grows, and keeps its word.
pub fn set_flags_stay()
    ensures { (ns later : List Node) (which : Flag) (f : SymFlag) → IsSheet ns → Extends ns later
        → IsSetFlag ns which f → StaysSet ns which f later }
{}
