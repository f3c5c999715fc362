//! Laws of expressions that are built into a sheet. The functions do nothing; their contracts are the laws.
ghost use Rattle.std.specs.Prelude.{◌≡◌, ℕ, ◌<◌, List, length};
ghost use Rattle.std.specs.List.{AllByRecursion};
ghost use Rattle.insn_ops.specs.declared.op.Op.{Op};
ghost use Rattle.insn_semantics.specs.Exprs.{Expr, leaves_of};
ghost use Rattle.insn_semantics.specs.Formed.{IsFormed};
ghost use Rattle.insn_semantics.specs.FormedRows.{HasRowWidth, row_widths};
ghost use Rattle.insn_semantics.specs.Rows.{row_expr};
ghost use Rattle.node_values.specs.Sheets.{IsSheet, width_at};
ghost use Rattle.node_values.specs.declared.node.Node.{Node};
ghost use Rattle.node_values.specs.declared.node.NodeId.{NodeId};
ghost use Rattle.terms.specs.Building.{HasValue, built};

/// An expression whose widths agree, built into a sheet over nodes of the sheet, has its value there in
/// every environment; the older nodes stay.
pub fn expressions_have_their_values()
    ensures { (ns : List Node) (leaves : ℕ → NodeId) (x : Expr) → IsSheet ns
        → ((i : ℕ) → (leaves i).0 < length ns) → IsFormed (λ i. width_at ns (leaves i).0) x
        → HasValue ns leaves x (built ns leaves x) }
{}

/// So has the row of each general operation, over nodes that have the widths of the leaves that it names.
pub fn rows_have_their_values()
    ensures { (ns : List Node) (leaves : ℕ → NodeId) (op : Op) (w k : ℕ) → IsSheet ns
        → ((i : ℕ) → (leaves i).0 < length ns) → HasRowWidth op w k
        → AllByRecursion (λ i. width_at ns (leaves i).0 ≡ row_widths op w i) (leaves_of (row_expr op w k))
        → HasValue ns leaves (row_expr op w k) (built ns leaves (row_expr op w k)) }
{}
