//! The condition that an operation reads, and the flags that it is over.
ghost use Rattle.std.specs.Prelude.{◌≡◌, ◌<◌, false, IfOk, IsErrOf, OnOk, Some, length, slice_index_or};
ghost use Rattle.std.specs.List.{AllByRecursion};
ghost use Rattle.insn_semantics.specs.Conditions.{cond_reads};
ghost use Rattle.machine.specs.Family as families;
ghost use Rattle.node_values.specs.Sheets.{Extends};
ghost use Rattle.sym_general.specs.PathFlags.{AreFlags, condition_made, condition_over, flags_read, flags_read_by};
ghost use Rattle.sym_general.specs.PathFlags as flags;

use insn_ops::{Cond, Op};
use sym_rows::conditions::condition;
use sym_rows::lazy_flags::{SymFlag, read_flag};
use sym_rows::operands::{ConditionNodes, Flag};
use terms::{NodeId, Sheet, SheetFull};

/// The condition that an operation reads.
pub fn condition_of(op: Op) -> Option<Cond>
    ensures { result ≡ families.condition_of op }
{
    match op {
        Op::Cmov(cond) => Some(cond),
        Op::Set(cond) => Some(cond),
        Op::Jump(cond) => Some(cond),
        _ => None,
    }
}

/// The numbers of the flags that a condition reads, in its order.
fn reads(cond: Cond) -> &'static [usize]
    ensures { result.now ≡ cond_reads cond }
{
    match cond {
        Cond::E | Cond::Ne => &[2],
        Cond::B | Cond::Ae => &[0],
        Cond::Be | Cond::A => &[0, 2],
        Cond::L | Cond::Ge => &[3, 4],
        Cond::Le | Cond::G => &[2, 3, 4],
        Cond::S | Cond::Ns => &[3],
        Cond::O | Cond::No => &[4],
        Cond::P | Cond::Np => &[1],
    }
}

/// The flag of a number.
fn numbered(i: usize) -> Flag
    ensures { result ≡ flags.numbered i }
{
    match i {
        0 => Flag::Carry,
        1 => Flag::Parity,
        2 => Flag::Zero,
        3 => Flag::Sign,
        _ => Flag::Overflow,
    }
}

/// Flag i of a path.
pub fn flag_of(path: &[SymFlag], i: usize) -> SymFlag
    ensures { result ≡ flags.flag_of path.now i }
{
    match path.get(i) {
        Some(flag) => *flag,
        None => SymFlag::Unset,
    }
}

/// Whether a flag may have any value.
fn is_unset(flag: SymFlag) -> bool
    ensures { result ≡ flags.is_unset flag }
{
    matches!(flag, SymFlag::Unset)
}

/// Whether some flag of these numbers is unset.
fn some_unset(path: &[SymFlag], numbers: &[usize]) -> bool
    ensures { result ≡ flags.some_unset path.now numbers.now }
{
    numbers.iter().any(|i| is_unset(flag_of(path, *i)))
}

/// Whether a condition reads a flag that is unset.
pub fn reads_unset(cond: Option<Cond>, path: &[SymFlag]) -> bool
    ensures { result ≡ flags.some_unset path.now (flags_read_by cond) }
{
    match cond {
        None => false,
        Some(cond) => some_unset(path, reads(cond)),
    }
}

/// Builds flags that are set, in turn; each is its node from then on.
fn read_flags(
    sheet: &mut Sheet,
    path: &mut [SymFlag; 5],
    numbers: &[usize],
) -> Result<(), SheetFull>
    requires flags { AreFlags sheet.old path.old }
    requires five { length path.old ≡ 5 }
    requires numbers { AllByRecursion (λ i. i < 5) numbers.now }
    requires set { flags.some_unset path.old numbers.now ≡ false }
    ensures made { OnOk result (flags_read sheet.old path.old numbers.now ≡ record { nodes = sheet.new; flags = path.new }) }
    ensures full { IsErrOf result SheetFull.Full → 65536 < length (flags_read sheet.old path.old numbers.now).nodes }
    ensures extends { Extends sheet.old sheet.new }
{
    sheet.in_order();
    for i in numbers {
        let flag = flag_of(path, *i);
        let id = read_flag(sheet, numbered(*i), flag)?;
        sheet.in_order();
        path[*i] = SymFlag::Built(id);
    }
    Ok(())
}

/// A flag's node, where it is one.
fn node_of_flag(flag: SymFlag, other: NodeId) -> NodeId
    ensures { result ≡ flags.node_of_flag flag other }
{
    match flag {
        SymFlag::Built(id) => id,
        SymFlag::Unset | SymFlag::From { .. } => other,
    }
}

/// The nodes of the flags, of those that are none the node of the first one that is read.
fn condition_nodes(path: &[SymFlag], first: usize) -> ConditionNodes
    ensures { result ≡ flags.condition_nodes path.now first }
{
    let read = node_of_flag(flag_of(path, first), NodeId(0));
    ConditionNodes {
        carry: node_of_flag(flag_of(path, 0), read),
        parity: node_of_flag(flag_of(path, 1), read),
        zero: node_of_flag(flag_of(path, 2), read),
        sign: node_of_flag(flag_of(path, 3), read),
        overflow: node_of_flag(flag_of(path, 4), read),
    }
}

/// The number of the first flag that a condition reads.
fn first_read(cond: Cond) -> usize
    ensures { result ≡ slice_index_or (cond_reads cond) 0 0 }
{
    match reads(cond).get(0) {
        Some(i) => *i,
        None => 0,
    }
}

/// Builds a condition after the flags that it reads.
fn build_read_condition(
    sheet: &mut Sheet,
    cond: Cond,
    path: &mut [SymFlag; 5],
) -> Result<NodeId, SheetFull>
    requires flags { AreFlags sheet.old path.old }
    requires five { length path.old ≡ 5 }
    requires set { flags.some_unset path.old (cond_reads cond) ≡ false }
    ensures made { IfOk result (λ id. condition_over cond (flags_read sheet.old path.old (cond_reads cond))
        ≡ record { nodes = sheet.new; flags = path.new; cond = Some id }) }
    ensures full { IsErrOf result SheetFull.Full
        → 65536 < length (condition_over cond (flags_read sheet.old path.old (cond_reads cond))).nodes }
    ensures extends { Extends sheet.old sheet.new }
{
    sheet.in_order();
    read_flags(sheet, path, reads(cond))?;
    let over = condition_nodes(path, first_read(cond));
    let id = condition(sheet, cond, over)?;
    Ok(id)
}

/// Builds the condition of an operation, where it reads one.
pub fn build_condition(
    sheet: &mut Sheet,
    cond: Option<Cond>,
    path: &mut [SymFlag; 5],
) -> Result<Option<NodeId>, SheetFull>
    requires flags { AreFlags sheet.old path.old }
    requires five { length path.old ≡ 5 }
    requires set { flags.some_unset path.old (flags_read_by cond) ≡ false }
    ensures made { IfOk result (λ id. condition_made cond path.old sheet.old
        ≡ record { nodes = sheet.new; flags = path.new; cond = id }) }
    ensures full { IsErrOf result SheetFull.Full → 65536 < length (condition_made cond path.old sheet.old).nodes }
    ensures extends { Extends sheet.old sheet.new }
{
    match cond {
        None => Ok(None),
        Some(cond) => {
            let id = build_read_condition(sheet, cond, path)?;
            Ok(Some(id))
        }
    }
}
