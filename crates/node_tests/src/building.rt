//! The rules by which nodes are built, each alone and against those before it.

use crate::trial::Trial;
use node_values::{Node, NodeId};
use std::test::Fail;
use terms::SheetFull;

const fn n(number: u32) -> NodeId {
    NodeId(number)
}

#[test]
fn numbers_and_equal_arguments_fold(rt: HostRuntime) -> Result<(), Fail> {
    let rows = [
        (Node::Entry { n: 0 }, 0),
        (Node::Entry { n: 1 }, 1),
        (Node::Entry { n: 0 }, 0),
        (Node::Const { w: 64, v: 0 }, 2),
        (Node::Const { w: 64, v: u64::MAX }, 3),
        (Node::Const { w: 64, v: 5 }, 4),
        (Node::Add(n(4), n(4)), 5),
        (Node::Const { w: 64, v: 10 }, 5),
        (Node::Add(n(0), n(2)), 0),
        (Node::Add(n(2), n(0)), 0),
        (Node::Or(n(0), n(2)), 0),
        (Node::Or(n(2), n(0)), 0),
        (Node::Xor(n(0), n(2)), 0),
        (Node::Xor(n(2), n(0)), 0),
        (Node::Sub(n(0), n(2)), 0),
        (Node::And(n(0), n(3)), 0),
        (Node::And(n(3), n(0)), 0),
        (Node::And(n(0), n(2)), 2),
        (Node::And(n(2), n(0)), 2),
        (Node::Xor(n(0), n(0)), 2),
        (Node::Sub(n(0), n(0)), 2),
        (Node::And(n(0), n(0)), 0),
        (Node::Or(n(0), n(0)), 0),
        (Node::Ult(n(0), n(0)), 6),
        (Node::Const { w: 1, v: 0 }, 6),
        (Node::Slt(n(0), n(0)), 6),
        (Node::Ult(n(0), n(2)), 6),
        (Node::If(n(6), n(0), n(1)), 1),
        (Node::Eq(n(4), n(4)), 7),
        (Node::Const { w: 1, v: 1 }, 7),
        (Node::If(n(7), n(0), n(1)), 0),
    ];
    Trial::new(rt.alloc()).build_all(&rt, rows.as_slice())
}

#[test]
fn other_nodes_stay_in_order(rt: HostRuntime) -> Result<(), Fail> {
    let rows = [
        (Node::Entry { n: 0 }, 0),
        (Node::Const { w: 64, v: 0 }, 1),
        (Node::Const { w: 64, v: u64::MAX }, 2),
        (Node::Sub(n(1), n(0)), 3),
        (Node::Ult(n(1), n(0)), 4),
        (Node::Mul(n(1), n(0)), 5),
        (Node::Mul(n(0), n(1)), 5),
        (Node::Or(n(2), n(0)), 6),
        (Node::Or(n(0), n(2)), 6),
        (Node::Not(n(0)), 7),
        (Node::Not(n(7)), 8),
        (Node::Entry { n: 1 }, 9),
        (Node::Add(n(9), n(0)), 10),
        (Node::Add(n(0), n(9)), 10),
        (Node::Sub(n(9), n(0)), 11),
        (Node::Sub(n(0), n(9)), 12),
        (Node::Slt(n(9), n(0)), 13),
        (Node::Slt(n(0), n(9)), 14),
        (Node::If(n(4), n(0), n(0)), 0),
        (Node::If(n(4), n(0), n(9)), 15),
        (Node::If(n(4), n(9), n(0)), 16),
    ];
    Trial::new(rt.alloc()).build_all(&rt, rows.as_slice())
}

#[test]
fn cuts_and_joins_go_together(rt: HostRuntime) -> Result<(), Fail> {
    let rows = [
        (Node::Entry { n: 0 }, 0),
        (Node::Cut(n(0), 0, 64), 0),
        (Node::Cut(n(0), 8, 32), 1),
        (Node::Cut(n(1), 4, 8), 2),
        (Node::Cut(n(0), 12, 8), 2),
        (Node::Cut(n(1), 0, 32), 1),
        (Node::Entry { n: 1 }, 3),
        (Node::Cut(n(3), 0, 16), 4),
        (Node::Cat(n(1), n(4)), 5),
        (Node::Cut(n(5), 0, 16), 4),
        (Node::Cut(n(5), 0, 8), 6),
        (Node::Cut(n(3), 0, 8), 6),
        (Node::Cut(n(5), 16, 32), 1),
        (Node::Cut(n(5), 20, 8), 2),
        (Node::Cut(n(5), 8, 16), 7),
        (Node::Cut(n(0), 40, 24), 8),
        (Node::Cat(n(8), n(1)), 9),
        (Node::Cut(n(0), 8, 56), 9),
        (Node::Cut(n(0), 0, 8), 10),
        (Node::Cat(n(9), n(10)), 0),
        (Node::Cat(n(10), n(9)), 11),
        (Node::Cut(n(0), 48, 16), 12),
        (Node::Cat(n(12), n(1)), 13),
        (Node::Const { w: 64, v: 0x1234 }, 14),
        (Node::Cut(n(14), 4, 8), 15),
        (Node::Const { w: 8, v: 0x23 }, 15),
    ];
    Trial::new(rt.alloc()).build_all(&rt, rows.as_slice())
}

#[test]
fn forms_that_differ_by_a_number_tell_equality(rt: HostRuntime) -> Result<(), Fail> {
    let rows = [
        (Node::Entry { n: 0 }, 0),
        (Node::Entry { n: 1 }, 1),
        (Node::Const { w: 64, v: 1 }, 2),
        (Node::Add(n(0), n(2)), 3),
        (Node::Eq(n(0), n(3)), 4),
        (Node::Const { w: 1, v: 0 }, 4),
        (Node::Eq(n(3), n(0)), 4),
        (Node::Add(n(0), n(1)), 5),
        (Node::Sub(n(5), n(1)), 6),
        (Node::Eq(n(6), n(0)), 7),
        (Node::Const { w: 1, v: 1 }, 7),
        (Node::Const { w: 64, v: 2 }, 8),
        (Node::Mul(n(0), n(8)), 9),
        (Node::Add(n(0), n(0)), 10),
        (Node::Eq(n(9), n(10)), 7),
        (Node::Shl(n(0), 1), 11),
        (Node::Eq(n(11), n(9)), 7),
        (Node::Cut(n(0), 0, 32), 12),
        (Node::Cut(n(3), 0, 32), 13),
        (Node::Eq(n(12), n(13)), 4),
        (Node::Eq(n(1), n(0)), 14),
        (Node::Eq(n(0), n(1)), 14),
        (Node::Eq(n(0), n(9)), 15),
    ];
    Trial::new(rt.alloc()).build_all(&rt, rows.as_slice())
}

#[test]
fn a_full_sheet_gives_old_nodes_and_refuses_new_ones(rt: HostRuntime) -> Result<(), Fail> {
    let mut trial = Trial::new(rt.alloc());
    for v in 0..65_536 {
        let id = trial.build(&rt, Node::Const { w: 64, v })?;
        assert_eq!(rt; id.0 as u64, v);
    }
    let refused = trial.build(&rt, Node::Const { w: 64, v: 65_536 });
    assert_eq!(rt; refused, Err(SheetFull::Full));
    let refused = trial.build(&rt, Node::Not(NodeId(0)));
    assert_eq!(rt; refused, Err(SheetFull::Full));
    let old = trial.build(&rt, Node::Add(NodeId(3), NodeId(4)))?;
    assert_eq!(rt; old, NodeId(7));
    Ok(())
}
