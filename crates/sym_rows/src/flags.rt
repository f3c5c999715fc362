//! The nodes of flags.
ghost use Rattle.std.specs.Prelude.{◌≡◌, ℕ, ◌+◌, ◌-◌, ◌<◌, ◌≤◌, IfOk, IsErrOf, length, if◌then◌else◌};
ghost use Rattle.insn_ops.specs.declared.op.Op.TheVariants as ops;
ghost use Rattle.insn_semantics.specs.Exprs.{Expr};
ghost use Rattle.insn_semantics.specs.Exprs as exprs;
ghost use Rattle.insn_semantics.specs.FlagRules.{carry_rule, difference_overflow, is_even, is_negative, is_zero, overflow_rule, parity_bit, result_rule, sum_overflow};
ghost use Rattle.insn_semantics.specs.FormedRows.{HasRowWidth};
ghost use Rattle.node_values.specs.Sheets.{Extends, width_at};
ghost use Rattle.node_values.specs.declared.node.Node.TheVariants as nodes_of;
ghost use Rattle.terms.specs.Building.{HasValue, built};
ghost use Rattle.terms.specs.Made.{made};
ghost use Rattle.sym_rows.specs.FlagExprs.{flag_expr, result_test, set_to};
ghost use Rattle.sym_rows.specs.Leaves.{AreLeaves, flag_leaf};

use crate::building::{constant, node};
use crate::operands::{Flag, FlagNodes};
use insn_ops::Op;
use terms::{Node, NodeId, Sheet, SheetFull};

/// Builds a flag that an operation at `w` bits sets, a shift by `k`, over the nodes of the result and the operands. In
/// every environment the node has the flag's value. It is the result's where the operation does not set the flag.
pub fn flag(
    sheet: &mut Sheet,
    flag: Flag,
    op: Op,
    w: u32,
    k: u32,
    over: FlagNodes,
) -> Result<NodeId, SheetFull>
    requires leaves { AreLeaves w sheet.old (flag_leaf over) }
    requires row { HasRowWidth op w k }
    requires byte { 8 ≤ w }
    requires word { w ≤ 64 }
    ensures built { IfOk result (λ id.
        built sheet.old (flag_leaf over) (flag_expr flag op w k) ≡ record { nodes = sheet.new; id = id }) }
    ensures value { IfOk result (λ id.
        HasValue sheet.old (flag_leaf over) (flag_expr flag op w k) (record { nodes = sheet.new; id = id })) }
    ensures full { IsErrOf result SheetFull.Full
        → 65536 < length (built sheet.old (flag_leaf over) (flag_expr flag op w k)).nodes }
    ensures extends { Extends sheet.old sheet.new }
    ensures room { length sheet.new ≤ 65536 }
{
    sheet.in_order();
    let built = built_flag(sheet, flag, op, w, k, over);
    sheet.in_order();
    built
}

/// Whether a signed sum overflows.
#[tactic(auto, unfolding(terms::specs::Building::built), using(crate::proofs::Past::still_over, crate::proofs::Widths::extends_through))]
fn built_sum_overflow(sheet: &mut Sheet, w: u32, over: FlagNodes) -> Result<NodeId, SheetFull>
    requires leaves { AreLeaves w sheet.old (flag_leaf over) }
    requires some { 0 < w }
    ensures built { IfOk result (λ id. built sheet.old (flag_leaf over) (sum_overflow w) ≡ record { nodes = sheet.new; id = id }) }
    ensures full { IsErrOf result SheetFull.Full → 65536 < length (built sheet.old (flag_leaf over) (sum_overflow w)).nodes }
    ensures extends { Extends sheet.old sheet.new }
{
    let FlagNodes {
        result: r,
        left: a,
        right: b,
    } = over;
    let left_differs = node(sheet, Node::Xor(a, r))?;
    let right_differs = node(sheet, Node::Xor(b, r))?;
    let differ = node(sheet, Node::And(left_differs, right_differs))?;
    node(sheet, Node::Cut(differ, w - 1, 1))
}

/// Whether a signed difference overflows.
#[tactic(auto, unfolding(terms::specs::Building::built), using(crate::proofs::Past::still_over, crate::proofs::Widths::extends_through))]
fn built_difference_overflow(
    sheet: &mut Sheet,
    w: u32,
    over: FlagNodes,
) -> Result<NodeId, SheetFull>
    requires leaves { AreLeaves w sheet.old (flag_leaf over) }
    requires some { 0 < w }
    ensures built { IfOk result (λ id. built sheet.old (flag_leaf over) (difference_overflow w) ≡ record { nodes = sheet.new; id = id }) }
    ensures full { IsErrOf result SheetFull.Full → 65536 < length (built sheet.old (flag_leaf over) (difference_overflow w)).nodes }
    ensures extends { Extends sheet.old sheet.new }
{
    let FlagNodes {
        result: r,
        left: a,
        right: b,
    } = over;
    let operands_differ = node(sheet, Node::Xor(a, b))?;
    let result_differs = node(sheet, Node::Xor(a, r))?;
    let differ = node(sheet, Node::And(operands_differ, result_differs))?;
    node(sheet, Node::Cut(differ, w - 1, 1))
}

/// The carry flag; the result where the operation sets none.
#[tactic(auto, unfolding(terms::specs::Building::built), using(crate::proofs::Past::still_over))]
fn built_carry(
    sheet: &mut Sheet,
    op: Op,
    w: u32,
    k: u32,
    over: FlagNodes,
) -> Result<NodeId, SheetFull>
    requires leaves { AreLeaves w sheet.old (flag_leaf over) }
    requires row { HasRowWidth op w k }
    ensures built { IfOk result (λ id.
        built sheet.old (flag_leaf over) (set_to (carry_rule op w k)) ≡ record { nodes = sheet.new; id = id }) }
    ensures full { IsErrOf result SheetFull.Full
        → 65536 < length (built sheet.old (flag_leaf over) (set_to (carry_rule op w k))).nodes }
    ensures extends { Extends sheet.old sheet.new }
{
    let FlagNodes {
        result: r,
        left: a,
        right: b,
    } = over;
    match op {
        Op::Add => node(sheet, Node::Ult(r, a)),
        Op::Sub | Op::Cmp | Op::Neg => node(sheet, Node::Ult(a, b)),
        Op::Test | Op::And | Op::Or | Op::Xor => constant(sheet, 1, 0),
        Op::Shl => node(sheet, Node::Cut(a, w - k, 1)),
        Op::Shr => node(sheet, Node::Cut(a, k - 1, 1)),
        Op::Sar => node(sheet, Node::Cut(a, k - 1, 1)),
        Op::Mov
        | Op::Movabs
        | Op::Inc
        | Op::Dec
        | Op::Not
        | Op::Imul
        | Op::Lea
        | Op::Movzx(_)
        | Op::Movsx(_)
        | Op::Cltq
        | Op::Cmov(_)
        | Op::Set(_)
        | Op::Jump(_)
        | Op::Jmp
        | Op::Push
        | Op::Pop
        | Op::Ret
        | Op::Nop
        | Op::Endbr64
        | Op::Vector(_) => Ok(r),
    }
}

/// Whether the sign of a shift by one differs from what it puts out.
#[tactic(auto, unfolding(terms::specs::Building::built), using(crate::proofs::Past::still_over, crate::proofs::Widths::extends_through))]
fn built_shift_overflow(sheet: &mut Sheet, w: u32, over: FlagNodes) -> Result<NodeId, SheetFull>
    requires leaves { AreLeaves w sheet.old (flag_leaf over) }
    requires some { 0 < w }
    ensures built { IfOk result (λ id.
        built sheet.old (flag_leaf over) (set_to (overflow_rule ops.Shl w 1)) ≡ record { nodes = sheet.new; id = id }) }
    ensures full { IsErrOf result SheetFull.Full
        → 65536 < length (built sheet.old (flag_leaf over) (set_to (overflow_rule ops.Shl w 1))).nodes }
    ensures extends { Extends sheet.old sheet.new }
{
    let FlagNodes {
        result: r,
        left: a,
        ..
    } = over;
    let sign = node(sheet, Node::Cut(r, w - 1, 1))?;
    let carry = node(sheet, Node::Cut(a, w - 1, 1))?;
    node(sheet, Node::Xor(sign, carry))
}

/// The overflow flag; the result where the operation sets none.
#[tactic(auto, unfolding(terms::specs::Building::built))]
fn built_overflow(
    sheet: &mut Sheet,
    op: Op,
    w: u32,
    k: u32,
    over: FlagNodes,
) -> Result<NodeId, SheetFull>
    requires leaves { AreLeaves w sheet.old (flag_leaf over) }
    requires some { 0 < w }
    ensures built { IfOk result (λ id.
        built sheet.old (flag_leaf over) (set_to (overflow_rule op w k)) ≡ record { nodes = sheet.new; id = id }) }
    ensures full { IsErrOf result SheetFull.Full
        → 65536 < length (built sheet.old (flag_leaf over) (set_to (overflow_rule op w k))).nodes }
    ensures extends { Extends sheet.old sheet.new }
{
    let r = over.result;
    match op {
        Op::Add | Op::Inc => built_sum_overflow(sheet, w, over),
        Op::Sub | Op::Cmp | Op::Dec | Op::Neg => built_difference_overflow(sheet, w, over),
        Op::Test | Op::And | Op::Or | Op::Xor => constant(sheet, 1, 0),
        Op::Shl if k == 1 => built_shift_overflow(sheet, w, over),
        Op::Shr if k == 1 => node(sheet, Node::Cut(over.left, w - 1, 1)),
        Op::Sar if k == 1 => constant(sheet, 1, 0),
        Op::Shl
        | Op::Shr
        | Op::Sar
        | Op::Mov
        | Op::Movabs
        | Op::Not
        | Op::Imul
        | Op::Lea
        | Op::Movzx(_)
        | Op::Movsx(_)
        | Op::Cltq
        | Op::Cmov(_)
        | Op::Set(_)
        | Op::Jump(_)
        | Op::Jmp
        | Op::Push
        | Op::Pop
        | Op::Ret
        | Op::Nop
        | Op::Endbr64
        | Op::Vector(_) => Ok(r),
    }
}

/// Builds bit `k` of a node, and its exclusive or with the parity of lower bits.
#[tactic(auto, using(crate::proofs::Past::still_over, crate::proofs::Widths::extends_through))]
fn with_bit(sheet: &mut Sheet, parity: NodeId, r: NodeId, k: u32) -> Result<NodeId, SheetFull>
    requires parity { (parity.0 < length sheet.old) × (width_at sheet.old parity.0 ≡ 1) }
    requires node { (r.0 < length sheet.old) × (k < width_at sheet.old r.0) }
    requires byte { k < 8 }
    ensures made { IfOk result (λ id. let bit = made sheet.old (nodes_of.Cut r k 1) in
        made bit.nodes (nodes_of.Xor parity bit.id) ≡ record { nodes = sheet.new; id = id }) }
    ensures full { IsErrOf result SheetFull.Full → (let bit = made sheet.old (nodes_of.Cut r k 1) in
        65536 < length (made bit.nodes (nodes_of.Xor parity bit.id)).nodes) }
    ensures inside { IfOk result (λ id. id.0 < length sheet.new) }
    ensures width { IfOk result (λ id. width_at sheet.new id.0 ≡ 1) }
    ensures extends { Extends sheet.old sheet.new }
    ensures longer { length sheet.old ≤ length sheet.new }
    ensures kept { (i : ℕ) → i < length sheet.old → width_at sheet.new i ≡ width_at sheet.old i }
{
    let bit = node(sheet, Node::Cut(r, k, 1))?;
    node(sheet, Node::Xor(parity, bit))
}

/// Whether the low eight bits of the result have an even number of ones.
#[tactic(auto, unfolding(terms::specs::Building::built), using(crate::proofs::Past::still_over, crate::proofs::Widths::extends_through))]
fn built_parity(sheet: &mut Sheet, w: u32, over: FlagNodes) -> Result<NodeId, SheetFull>
    requires leaves { AreLeaves w sheet.old (flag_leaf over) }
    requires byte { 8 ≤ w }
    ensures built { IfOk result (λ id. built sheet.old (flag_leaf over) is_even ≡ record { nodes = sheet.new; id = id }) }
    ensures full { IsErrOf result SheetFull.Full → 65536 < length (built sheet.old (flag_leaf over) is_even).nodes }
    ensures extends { Extends sheet.old sheet.new }
{
    let r = over.result;
    let p0 = node(sheet, Node::Cut(r, 0, 1))?;
    let p1 = with_bit(sheet, p0, r, 1)?;
    let p2 = with_bit(sheet, p1, r, 2)?;
    let p3 = with_bit(sheet, p2, r, 3)?;
    let p4 = with_bit(sheet, p3, r, 4)?;
    let p5 = with_bit(sheet, p4, r, 5)?;
    let p6 = with_bit(sheet, p5, r, 6)?;
    let p7 = with_bit(sheet, p6, r, 7)?;
    node(sheet, Node::Not(p7))
}

/// Whether the result is 0.
#[tactic(auto, unfolding(terms::specs::Building::built), using(crate::proofs::Past::still_over, crate::proofs::Widths::extends_through))]
fn built_zero(sheet: &mut Sheet, w: u32, over: FlagNodes) -> Result<NodeId, SheetFull>
    requires leaves { AreLeaves w sheet.old (flag_leaf over) }
    requires some { 0 < w }
    requires word { w ≤ 64 }
    ensures built { IfOk result (λ id. built sheet.old (flag_leaf over) (is_zero w) ≡ record { nodes = sheet.new; id = id }) }
    ensures full { IsErrOf result SheetFull.Full → 65536 < length (built sheet.old (flag_leaf over) (is_zero w)).nodes }
    ensures extends { Extends sheet.old sheet.new }
{
    let zero = constant(sheet, w, 0)?;
    node(sheet, Node::Eq(over.result, zero))
}

/// Whether an operation sets the flags that are read off the result.
fn reads_result(op: Op) -> bool
    ensures { (x : Expr) → set_to (result_rule op x) ≡ (if result then x else exprs.Leaf 0) }
{
    matches!(
        op,
        Op::Add
            | Op::Sub
            | Op::Cmp
            | Op::Test
            | Op::And
            | Op::Or
            | Op::Xor
            | Op::Inc
            | Op::Dec
            | Op::Neg
            | Op::Shl
            | Op::Shr
            | Op::Sar
    )
}

/// A flag that is read off the result; the result where the operation does not set the flag.
#[tactic(auto, unfolding(terms::specs::Building::built))]
fn built_result_flag(
    sheet: &mut Sheet,
    flag: Flag,
    op: Op,
    w: u32,
    over: FlagNodes,
) -> Result<NodeId, SheetFull>
    requires leaves { AreLeaves w sheet.old (flag_leaf over) }
    requires byte { 8 ≤ w }
    requires word { w ≤ 64 }
    ensures built { IfOk result (λ id.
        built sheet.old (flag_leaf over) (set_to (result_rule op (result_test w flag))) ≡ record { nodes = sheet.new; id = id }) }
    ensures full { IsErrOf result SheetFull.Full
        → 65536 < length (built sheet.old (flag_leaf over) (set_to (result_rule op (result_test w flag)))).nodes }
    ensures extends { Extends sheet.old sheet.new }
{
    if reads_result(op) {
        built_result_test(sheet, flag, w, over)
    } else {
        Ok(over.result)
    }
}

/// The test of the result that a flag is, of the zero, sign and parity flags.
#[tactic(auto, unfolding(terms::specs::Building::built))]
fn built_result_test(
    sheet: &mut Sheet,
    flag: Flag,
    w: u32,
    over: FlagNodes,
) -> Result<NodeId, SheetFull>
    requires leaves { AreLeaves w sheet.old (flag_leaf over) }
    requires byte { 8 ≤ w }
    requires word { w ≤ 64 }
    ensures built { IfOk result (λ id.
        built sheet.old (flag_leaf over) (result_test w flag) ≡ record { nodes = sheet.new; id = id }) }
    ensures full { IsErrOf result SheetFull.Full
        → 65536 < length (built sheet.old (flag_leaf over) (result_test w flag)).nodes }
    ensures extends { Extends sheet.old sheet.new }
{
    match flag {
        Flag::Parity => built_parity(sheet, w, over),
        Flag::Zero => built_zero(sheet, w, over),
        Flag::Sign => node(sheet, Node::Cut(over.result, w - 1, 1)),
        Flag::Carry | Flag::Overflow => Ok(over.result),
    }
}

/// The node of a flag; the result where the operation does not set the flag.
fn built_flag(
    sheet: &mut Sheet,
    flag: Flag,
    op: Op,
    w: u32,
    k: u32,
    over: FlagNodes,
) -> Result<NodeId, SheetFull>
    requires leaves { AreLeaves w sheet.old (flag_leaf over) }
    requires row { HasRowWidth op w k }
    requires byte { 8 ≤ w }
    requires word { w ≤ 64 }
    ensures built { IfOk result (λ id.
        built sheet.old (flag_leaf over) (flag_expr flag op w k) ≡ record { nodes = sheet.new; id = id }) }
    ensures full { IsErrOf result SheetFull.Full
        → 65536 < length (built sheet.old (flag_leaf over) (flag_expr flag op w k)).nodes }
    ensures extends { Extends sheet.old sheet.new }
{
    match flag {
        Flag::Carry => built_carry(sheet, op, w, k, over),
        Flag::Overflow => built_overflow(sheet, op, w, k, over),
        Flag::Parity => built_result_flag(sheet, flag, op, w, over),
        Flag::Zero => built_result_flag(sheet, flag, op, w, over),
        Flag::Sign => built_result_flag(sheet, flag, op, w, over),
    }
}
