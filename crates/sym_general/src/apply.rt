//! A general instruction over the nodes of its operands.
ghost use Rattle.std.specs.Prelude.{◌≡◌, ◌<◌, ◌≤◌, true, false, IfOk, IsErrOf, [], ◌∷◌, length, if◌then◌else◌};
ghost use Rattle.std.specs.List.{AllByRecursion};
ghost use Rattle.machine.specs.Access as access;
ghost use Rattle.machine.specs.Family as families;
ghost use Rattle.machine.specs.Runnable.{HasRowOf, HasWidth};
ghost use Rattle.node_values.specs.Sheets.{Extends};
ghost use Rattle.address_nodes.specs.Multiples.{IsOfWidth};
ghost use Rattle.sym_general.specs.Applied.{general_applied, listed};
ghost use Rattle.sym_general.specs.Operands.{AreOperands};
ghost use Rattle.sym_general.specs.PathFlags.{AreFlags, flags_read_by, some_unset};
ghost use Rattle.sym_general.specs.Results.{HaveFlags, HaveWords, IsCondition, IsGeneral, IsGeneralMade};
ghost use Rattle.sym_general.specs.Results as results;
ghost use Rattle.sym_general.specs.declared.types.SymRefusal.TheVariants as refusals;

use crate::conditions::{build_condition, condition_of, reads_unset};
use crate::effects::flags_after;
use crate::operands::row_nodes;
use crate::rows::{build_row, computes_word, writes};
use crate::types::{SymArgs, SymRefusal, SymResult};
use insn_ops::Op;
use insn_table::Insn;
use outcomes::Memory;
use std::alloc::Global;
use sym_rows::lazy_flags::{SymFlag, shift_count};
use terms::{NodeId, Sheet, SheetFull};

/// What a general instruction makes of a sheet, with the one node that it writes, if it does.
#[derive(Clone, Copy, Debug)]
struct Built {
    result: Option<NodeId>,
    flags: [SymFlag; 5],
    cond: Option<NodeId>,
}

/// Whether an operation is PUSH or POP.
fn is_stack_op(op: Op) -> bool
    ensures { result ≡ results.is_stack_op op }
{
    matches!(op, Op::Push | Op::Pop)
}

/// The node that an operation writes: its result's, but of comparisons none.
fn written(op: Op, node: NodeId) -> Option<NodeId>
    ensures { listed result ≡ (if access.writes op then node ∷ [] else []) }
{
    if writes(op) { Some(node) } else { None }
}

/// A node as a list, where there is one.
fn listed(alloc: Global, node: Option<NodeId>) -> Result<Vec<NodeId>, Memory>
    ensures { IfOk result (λ values. values.items ≡ listed node) }
{
    let mut values = Vec::new(alloc);
    if let Some(id) = node {
        values.push(id)?;
    }
    Ok(values)
}

/// Builds what a general instruction makes of its operands.
fn build_general(
    sheet: &mut Sheet,
    insn: &Insn,
    values: &[NodeId],
    flags: [SymFlag; 5],
) -> Result<Built, SheetFull>
    requires general { IsGeneral insn.now.op }
    requires width { HasWidth (families.family_of insn.now.op) insn.now.w }
    requires row { HasRowOf insn.now.op insn.now }
    requires operands { AreOperands sheet.old insn.now values.now }
    requires flags { AreFlags sheet.old flags }
    requires five { length flags ≡ 5 }
    requires set { some_unset flags (flags_read_by (families.condition_of insn.now.op)) ≡ false }
    ensures made { IfOk result (λ b. general_applied insn.now.op insn.now.w values.now flags sheet.old
        ≡ record { nodes = sheet.new; values = listed b.result; flags = b.flags; cond = b.cond }) }
    ensures has { IfOk result (λ b. IsGeneralMade sheet.old insn.now values.now flags
        (record { nodes = sheet.new; values = listed b.result; flags = b.flags; cond = b.cond })) }
    ensures full { IsErrOf result SheetFull.Full
        → 65536 < length (general_applied insn.now.op insn.now.w values.now flags sheet.old).nodes }
    ensures extends { Extends sheet.old sheet.new }
{
    sheet.in_order();
    let op = insn.op;
    let mut flags = flags;
    let cond = build_condition(sheet, condition_of(op), &mut flags)?;
    if !computes_word(op) {
        return Ok(Built {
            result: None,
            flags,
            cond,
        });
    }
    let over = row_nodes(op, values, cond);
    let k = shift_count(sheet, op, over.source) as u32;
    let nodes = build_row(sheet, op, insn.w, k, over)?;
    let new = SymFlag::From {
        op,
        w: insn.w,
        over: nodes,
    };
    let flags = flags_after(op, k, flags, new);
    Ok(Built {
        result: written(op, nodes.result),
        flags,
        cond,
    })
}

/// Builds what a general instruction makes of the nodes of its operands: the word that it writes, its condition where it
/// reads one, and the flags that it leaves, which are built where a condition reads them.
///
/// A flag that a condition reads and that is unset, and PUSH and POP, are refused before anything is built. After
/// another refusal the sheet may have more nodes.
pub fn apply_general(
    alloc: Global,
    sheet: &mut Sheet,
    insn: &Insn,
    args: &SymArgs,
) -> Result<SymResult, SymRefusal>
    requires general { IsGeneral insn.now.op }
    requires width { HasWidth (families.family_of insn.now.op) insn.now.w }
    requires row { HasRowOf insn.now.op insn.now }
    requires operands { AreOperands sheet.old insn.now args.now.values.items }
    requires flags { AreFlags sheet.old args.now.flags }
    ensures made { IfOk result (λ r. general_applied insn.now.op insn.now.w args.now.values.items args.now.flags sheet.old
        ≡ record { nodes = sheet.new; values = r.values.items; flags = r.flags; cond = r.cond }) }
    ensures words { IfOk result (λ r.
        HaveWords insn.now.op insn.now.w args.now.values.items args.now.flags sheet.old sheet.new r.values.items) }
    ensures widths { IfOk result (λ r. AllByRecursion (IsOfWidth sheet.new insn.now.w) r.values.items) }
    ensures cond { IfOk result (λ r.
        IsCondition (families.condition_of insn.now.op) args.now.flags sheet.old sheet.new r.cond) }
    ensures flags { IfOk result (λ r. AreFlags sheet.new r.flags) }
    ensures left { IfOk result (λ r.
        HaveFlags insn.now.op insn.now.w args.now.values.items args.now.flags sheet.old sheet.new r.flags) }
    ensures stack { results.is_stack_op insn.now.op ≡ true → IsErrOf result refusals.StackInsn }
    ensures stack_only { IsErrOf result refusals.StackInsn → results.is_stack_op insn.now.op ≡ true }
    ensures unset { results.is_stack_op insn.now.op ≡ false
        → some_unset args.now.flags (flags_read_by (families.condition_of insn.now.op)) ≡ true
        → IsErrOf result refusals.UnsetFlag }
    ensures unset_only { IsErrOf result refusals.UnsetFlag
        → some_unset args.now.flags (flags_read_by (families.condition_of insn.now.op)) ≡ true }
    ensures full { IsErrOf result refusals.SheetFull
        → 65536 < length (general_applied insn.now.op insn.now.w args.now.values.items args.now.flags sheet.old).nodes }
    ensures extends { Extends sheet.old sheet.new }
    ensures room { length sheet.new ≤ 65536 }
{
    sheet.in_order();
    if is_stack_op(insn.op) {
        return Err(SymRefusal::StackInsn);
    }
    if reads_unset(condition_of(insn.op), &args.flags) {
        return Err(SymRefusal::UnsetFlag);
    }
    let flags = args.flags;
    let built = build_general(sheet, insn, args.values.as_slice(), flags);
    sheet.in_order();
    let built = built?;
    let values = listed(alloc, built.result)?;
    let flags = built.flags;
    Ok(SymResult {
        values,
        flags,
        cond: built.cond,
    })
}
