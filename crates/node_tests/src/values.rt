//! The values of operators, as constants at several widths.

use crate::trial::Trial;
use node_values::{Node, NodeId};
use std::test::Fail;

const X: NodeId = NodeId(0);

const Y: NodeId = NodeId(1);

const TOP_63: u64 = 0x7fff_ffff_ffff_ffff;

/// Nodes over the constants `x` and `y` of w bits are these constants.
#[test]
fn constants_fold_at_their_width(rt: HostRuntime) -> Result<(), Fail> {
    let rows = [
        (1, 1, 0, Node::Add(X, X), 1, 0),
        (1, 1, 0, Node::Sub(Y, X), 1, 1),
        (1, 1, 0, Node::Slt(X, Y), 1, 1),
        (1, 1, 0, Node::Ult(X, Y), 1, 0),
        (1, 1, 0, Node::Not(X), 1, 0),
        (1, 1, 0, Node::Sx(8, X), 8, 255),
        (8, 200, 100, Node::Add(X, Y), 8, 44),
        (8, 200, 100, Node::Sub(Y, X), 8, 156),
        (8, 200, 100, Node::Mul(X, Y), 8, 32),
        (8, 200, 100, Node::And(X, Y), 8, 64),
        (8, 200, 100, Node::Or(X, Y), 8, 236),
        (8, 200, 100, Node::Xor(X, Y), 8, 172),
        (8, 200, 100, Node::Not(X), 8, 55),
        (8, 200, 100, Node::Shl(X, 3), 8, 64),
        (8, 200, 100, Node::Shr(X, 3), 8, 25),
        (8, 200, 100, Node::Sar(X, 3), 8, 249),
        (8, 200, 100, Node::Sar(Y, 3), 8, 12),
        (8, 200, 100, Node::Cat(X, Y), 16, 0xc864),
        (8, 200, 100, Node::Cut(X, 4, 4), 4, 12),
        (8, 200, 100, Node::Sx(16, X), 16, 0xffc8),
        (8, 200, 100, Node::Sx(16, Y), 16, 100),
        (8, 200, 100, Node::Eq(X, Y), 1, 0),
        (8, 200, 100, Node::Ult(X, Y), 1, 0),
        (8, 200, 100, Node::Slt(X, Y), 1, 1),
        (32, 0xffff_ffff, 2, Node::Add(X, Y), 32, 1),
        (32, 0xffff_ffff, 2, Node::Sub(Y, X), 32, 3),
        (32, 0xffff_ffff, 2, Node::Mul(X, Y), 32, 0xffff_fffe),
        (32, 0xffff_ffff, 2, Node::Shl(X, 31), 32, 0x8000_0000),
        (32, 0xffff_ffff, 2, Node::Sar(X, 31), 32, 0xffff_ffff),
        (32, 0xffff_ffff, 2, Node::Sx(64, X), 64, u64::MAX),
        (
            32,
            0xffff_ffff,
            2,
            Node::Cat(X, Y),
            64,
            0xffff_ffff_0000_0002,
        ),
        (63, TOP_63, 1, Node::Add(X, Y), 63, 0),
        (63, TOP_63, 1, Node::Sar(X, 62), 63, TOP_63),
        (63, TOP_63, 1, Node::Sx(64, X), 64, u64::MAX),
        (63, TOP_63, 1, Node::Not(Y), 63, 0x7fff_ffff_ffff_fffe),
        (63, TOP_63, 1, Node::Slt(X, Y), 1, 1),
        (64, u64::MAX, 1, Node::Add(X, Y), 64, 0),
        (64, u64::MAX, 1, Node::Sub(Y, X), 64, 2),
        (64, u64::MAX, 1, Node::Mul(X, X), 64, 1),
        (64, u64::MAX, 1, Node::Shr(X, 63), 64, 1),
        (64, u64::MAX, 1, Node::Slt(X, Y), 1, 1),
        (64, u64::MAX, 1, Node::Ult(X, Y), 1, 0),
    ];
    for (w, x, y, node, width, v) in rows {
        let mut trial = Trial::new(rt.alloc());
        trial.build(&rt, Node::Const { w, v: x })?;
        trial.build(&rt, Node::Const { w, v: y })?;
        let id = trial.build(&rt, node)?;
        let number = trial.build(&rt, Node::Const { w: width, v })?;
        assert_eq!(rt; id, number, "{node:?} of {x} and {y} at {w} bits");
    }
    Ok(())
}
