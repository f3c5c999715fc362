//! The node of a tree.
ghost use Rattle.std.specs.Prelude.{◌≡◌, ℕ, ◌<◌, ◌≤◌, IfOk, IsErrOf, length, slice_set};
ghost use Rattle.insn_semantics.specs.Formed.{IsFormed};
ghost use Rattle.node_values.specs.Sheets.{Extends, width_at};
ghost use Rattle.terms.specs.Building.{HasValue, built};
ghost use Rattle.terms.specs.Building as building;
ghost use Rattle.sym_exprs.specs.Trees.{NamesBelow, expr_of, leaf_node, operator_of, shift_of};

use crate::tree::{ExprTree, Operator, Shift};
use outcomes::Memory;
use std::alloc::Global;
use terms::{Node, NodeId, Sheet, SheetFull};

/// The node of an operator.
fn operator_node(operator: Operator, a: NodeId, b: NodeId) -> Node
    ensures { result ≡ building.operator_node (operator_of operator) a b }
{
    match operator {
        Operator::Plus => Node::Add(a, b),
        Operator::Minus => Node::Sub(a, b),
        Operator::Times => Node::Mul(a, b),
        Operator::And => Node::And(a, b),
        Operator::Or => Node::Or(a, b),
        Operator::Xor => Node::Xor(a, b),
        Operator::Equal => Node::Eq(a, b),
        Operator::Below => Node::Ult(a, b),
        Operator::SignedBelow => Node::Slt(a, b),
    }
}

/// A shift of a node by k bits.
fn shift_node(shift: Shift, a: NodeId, k: u32) -> Node
    ensures { result ≡ building.shift_node (shift_of shift) a k }
{
    match shift {
        Shift::Left => Node::Shl(a, k),
        Shift::Right => Node::Shr(a, k),
        Shift::Signed => Node::Sar(a, k),
    }
}

/// Builds a tree over nodes of the sheet, leaf i being `leaves[i]`. In every environment the node has the expression's
/// value. The slice of leaves has room for each name that the tree gives to a part.
pub fn build_expr(
    alloc: Global,
    sheet: &mut Sheet,
    leaves: &[NodeId],
    tree: &ExprTree,
) -> Result<NodeId, SheetFull>
    requires inside { (i : ℕ) → (leaf_node leaves.now i).0 < length sheet.old }
    requires formed { IsFormed (λ i. width_at sheet.old (leaf_node leaves.now i).0) (expr_of tree.now) }
    requires names { NamesBelow (length leaves.now) (expr_of tree.now) }
    ensures built { IfOk result (λ id. built sheet.old (leaf_node leaves.now) (expr_of tree.now)
        ≡ record { nodes = sheet.new; id = id }) }
    ensures value { IfOk result (λ id.
        HasValue sheet.old (leaf_node leaves.now) (expr_of tree.now) (record { nodes = sheet.new; id = id })) }
    ensures full { IsErrOf result SheetFull.Full
        → 65536 < length (built sheet.old (leaf_node leaves.now) (expr_of tree.now)).nodes }
    ensures extends { Extends sheet.old sheet.new }
{
    sheet.in_order();
    build_tree(alloc, sheet, leaves, tree)
}

/// Builds a tree.
#[tactic(auto, unfolding(terms::specs::Building::built), using(crate::proofs::Building::built_still, crate::proofs::Building::made_still))]
fn build_tree(
    alloc: Global,
    sheet: &mut Sheet,
    leaves: &[NodeId],
    tree: &ExprTree,
) -> Result<NodeId, SheetFull>
    requires inside { (i : ℕ) → (leaf_node leaves.now i).0 < length sheet.old }
    requires formed { IsFormed (λ i. width_at sheet.old (leaf_node leaves.now i).0) (expr_of tree.now) }
    requires names { NamesBelow (length leaves.now) (expr_of tree.now) }
    ensures built { IfOk result (λ id. built sheet.old (leaf_node leaves.now) (expr_of tree.now)
        ≡ record { nodes = sheet.new; id = id }) }
    ensures full { IsErrOf result SheetFull.Full
        → 65536 < length (built sheet.old (leaf_node leaves.now) (expr_of tree.now)).nodes }
    ensures extends { Extends sheet.old sheet.new }
{
    sheet.in_order();
    match tree {
        ExprTree::Leaf(i) => Ok(leaf(leaves, *i)),
        ExprTree::Number(w, v) => sheet.build(Node::Const { w: *w, v: *v }),
        ExprTree::Two(operator, _, x, y) => {
            let a = build_tree(alloc, sheet, leaves, x)?;
            still_fits(sheet, leaves, y);
            let b = build_tree(alloc, sheet, leaves, y)?;
            sheet.build(operator_node(*operator, a, b))
        }
        ExprTree::Not(_, x) => {
            let a = build_tree(alloc, sheet, leaves, x)?;
            sheet.build(Node::Not(a))
        }
        ExprTree::Shifted(shift, _, x, k) => {
            let a = build_tree(alloc, sheet, leaves, x)?;
            sheet.build(shift_node(*shift, a, *k))
        }
        ExprTree::Joined(_, x, y) => {
            let a = build_tree(alloc, sheet, leaves, x)?;
            still_fits(sheet, leaves, y);
            let b = build_tree(alloc, sheet, leaves, y)?;
            sheet.build(Node::Cat(a, b))
        }
        ExprTree::Cut(x, k, n) => {
            let a = build_tree(alloc, sheet, leaves, x)?;
            sheet.build(Node::Cut(a, *k, *n))
        }
        ExprTree::Extended(_, n, x) => {
            let a = build_tree(alloc, sheet, leaves, x)?;
            sheet.build(Node::Sx(*n, a))
        }
        ExprTree::Choice(c, x, y) => {
            let test = build_tree(alloc, sheet, leaves, c)?;
            still_fits(sheet, leaves, x);
            let a = build_tree(alloc, sheet, leaves, x)?;
            still_fits(sheet, leaves, y);
            let b = build_tree(alloc, sheet, leaves, y)?;
            sheet.build(Node::If(test, a, b))
        }
        ExprTree::Let(i, x, y) => {
            let a = build_tree(alloc, sheet, leaves, x)?;
            let named = with_name(alloc, leaves, *i, a)?;
            let named = named.as_slice();
            still_fits(sheet, named, y);
            build_tree(alloc, sheet, named, y)
        }
    }
}

/// That a tree can be built over these leaves in the sheet as it is now. It does nothing.
fn still_fits(sheet: &Sheet, leaves: &[NodeId], tree: &ExprTree)
    requires inside { (i : ℕ) → (leaf_node leaves.now i).0 < length sheet.now }
    requires formed { IsFormed (λ i. width_at sheet.now (leaf_node leaves.now i).0) (expr_of tree.now) }
    requires names { NamesBelow (length leaves.now) (expr_of tree.now) }
    ensures inside { (i : ℕ) → (leaf_node leaves.now i).0 < length sheet.now }
    ensures formed { IsFormed (λ i. width_at sheet.now (leaf_node leaves.now i).0) (expr_of tree.now) }
    ensures names { NamesBelow (length leaves.now) (expr_of tree.now) }
{
    let _ = sheet;
    let _ = leaves;
    let _ = tree;
}

/// The leaves with leaf i being the node a.
fn with_name(alloc: Global, leaves: &[NodeId], i: u32, a: NodeId) -> Result<Vec<NodeId>, Memory>
    requires { i < length leaves.now }
    ensures { IfOk result (λ named. named.items ≡ slice_set leaves.now i a) }
{
    let mut named = Vec::new(alloc);
    named.extend_from_slice(leaves)?;
    named[i as usize] = a;
    Ok(named)
}

/// The node of a leaf; node 0 past the end.
fn leaf(leaves: &[NodeId], i: u32) -> NodeId
    ensures { result ≡ leaf_node leaves.now i }
{
    match leaves.get(i as usize) {
        Some(id) => *id,
        None => NodeId(0),
    }
}
