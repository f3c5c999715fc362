//! The value of each node in an environment whose sides differ.

use crate::trial::Trial;
use insn_ops::Side::{Left, Right};
use lane_views::Bytes32;
use node_values::{Both, Env, Node, NodeId};
use sqlite_items::Items;
use std::alloc::{AllocError, Global};
use std::test::Fail;

const TOP: u64 = 0x8000_0000_0000_0000;

const fn n(number: u32) -> NodeId {
    NodeId(number)
}

/// Register 1, a byte of vector 3 and the byte at address 16 on each side, register 2 at the entry, and the probe.
fn environment(alloc: Global) -> Result<Env, AllocError> {
    let mut env = Env {
        regs: Both {
            left: [0; 16],
            right: [0; 16],
        },
        entry: [0; 16],
        vecs: Both {
            left: [Bytes32 { bytes: [0; 32] }; 16],
            right: [Bytes32 { bytes: [0; 32] }; 16],
        },
        mem: Both {
            left: Items::new(alloc),
            right: Items::new(alloc),
        },
        probe: TOP,
    };
    env.regs.left[1] = 5;
    env.regs.right[1] = 7;
    env.entry[2] = 9;
    env.vecs.left[3].bytes[4] = 0x80;
    env.vecs.right[3].bytes[31] = 0x7f;
    env.mem.left.push((16, 0xaa))?;
    env.mem.right.push((8, 0xcc))?;
    env.mem.right.push((16, 0xbb))?;
    Ok(env)
}

#[test]
fn each_node_has_its_value(rt: HostRuntime) -> Result<(), Fail> {
    let rows = [
        (Node::Reg { side: Left, n: 1 }, 5),
        (Node::Reg { side: Right, n: 1 }, 7),
        (Node::Entry { n: 2 }, 9),
        (
            Node::VecByte {
                side: Left,
                n: 3,
                i: 4,
            },
            0x80,
        ),
        (
            Node::VecByte {
                side: Right,
                n: 3,
                i: 31,
            },
            0x7f,
        ),
        (Node::Const { w: 64, v: 16 }, 16),
        (
            Node::Start {
                side: Left,
                at: n(5),
            },
            0xaa,
        ),
        (
            Node::Start {
                side: Right,
                at: n(5),
            },
            0xbb,
        ),
        (
            Node::Start {
                side: Left,
                at: n(2),
            },
            0,
        ),
        (Node::Probe, TOP),
        (Node::Add(n(0), n(1)), 12),
        (Node::Sub(n(0), n(1)), 0xffff_ffff_ffff_fffe),
        (Node::Mul(n(1), n(2)), 63),
        (Node::And(n(0), n(1)), 5),
        (Node::Or(n(0), n(2)), 13),
        (Node::Xor(n(1), n(2)), 14),
        (Node::Not(n(0)), 0xffff_ffff_ffff_fffa),
        (Node::Shl(n(2), 3), 72),
        (Node::Shr(n(9), 60), 8),
        (Node::Sar(n(9), 60), 0xffff_ffff_ffff_fff8),
        (Node::Cat(n(3), n(4)), 0x807f),
        (Node::Cut(n(10), 2, 8), 3),
        (Node::Sx(64, n(3)), 0xffff_ffff_ffff_ff80),
        (Node::Eq(n(0), n(1)), 0),
        (Node::Ult(n(0), n(1)), 1),
        (Node::Slt(n(0), n(9)), 0),
        (Node::If(n(24), n(0), n(1)), 5),
        (Node::If(n(25), n(0), n(1)), 7),
    ];
    let env = environment(rt.alloc())?;
    let mut trial = Trial::new(rt.alloc());
    for (at, (node, value)) in rows.into_iter().enumerate() {
        let id = trial.build(&rt, node)?;
        assert_eq!(rt; id.0 as usize, at, "{node:?}");
        assert!(rt; trial.has(id), "{node:?} was not seen");
        assert_eq!(rt; trial.sheet.eval(id, &env)?, value, "{node:?}");
    }
    Ok(())
}
