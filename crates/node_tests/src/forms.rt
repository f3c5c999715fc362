//! Linear forms of built nodes.

use crate::trial::Trial;
use node_values::{Node, NodeId};
use std::process::Abort;
use std::test::Fail;

/// Less 1 and less 6 at 64 bits, and less 1 at 32.
const LESS: u64 = u64::MAX;

const LESS_6: u64 = u64::MAX - 5;

const LESS_32: u64 = 0xffff_ffff;

const fn n(number: u32) -> NodeId {
    NodeId(number)
}

/// Whether a node has this form at `w`.
fn has_form(
    rt: &impl Abort,
    trial: &Trial,
    id: NodeId,
    w: u32,
    atoms: &[(NodeId, u64)],
    c: u64,
) -> Result<bool, Fail> {
    assert!(rt; 0 < w && trial.has_bits(id, w));
    let form = trial.sheet.form(id, w)?;
    Ok(form.w == w && form.c == c && form.atoms.as_slice() == atoms)
}

#[test]
fn forms_pass_through_what_keeps_the_low_bits(rt: HostRuntime) -> Result<(), Fail> {
    let rows = [
        (Node::Entry { n: 0 }, 0),
        (Node::Entry { n: 1 }, 1),
        (Node::Shl(n(0), 3), 2),
        (Node::Const { w: 64, v: 5 }, 3),
        (Node::Add(n(2), n(3)), 4),
        (Node::Sub(n(4), n(1)), 5),
        (Node::Cut(n(5), 0, 32), 6),
        (Node::Sx(64, n(6)), 7),
        (Node::Cut(n(0), 0, 8), 8),
        (Node::Cat(n(8), n(6)), 9),
        (Node::Cut(n(0), 8, 8), 10),
        (Node::Const { w: 64, v: 6 }, 11),
        (Node::Mul(n(5), n(11)), 12),
        (Node::Mul(n(0), n(1)), 13),
        (Node::Sub(n(4), n(2)), 14),
    ];
    let mut trial = Trial::new(rt.alloc());
    trial.build_all(&rt, rows.as_slice())?;
    let wanted = [
        (0, 64, [(NodeId(0), 1)].as_slice(), 0),
        (3, 64, [].as_slice(), 5),
        (4, 64, [(NodeId(0), 8)].as_slice(), 5),
        (5, 64, [(NodeId(1), LESS), (NodeId(0), 8)].as_slice(), 5),
        (5, 32, [(NodeId(1), LESS_32), (NodeId(0), 8)].as_slice(), 5),
        (5, 3, [(NodeId(1), 7)].as_slice(), 5),
        (6, 32, [(NodeId(1), LESS_32), (NodeId(0), 8)].as_slice(), 5),
        (7, 32, [(NodeId(1), LESS_32), (NodeId(0), 8)].as_slice(), 5),
        (7, 64, [(NodeId(7), 1)].as_slice(), 0),
        (8, 8, [(NodeId(0), 1)].as_slice(), 0),
        (9, 32, [(NodeId(1), LESS_32), (NodeId(0), 8)].as_slice(), 5),
        (9, 40, [(NodeId(9), 1)].as_slice(), 0),
        (10, 8, [(NodeId(10), 1)].as_slice(), 0),
        (
            12,
            64,
            [(NodeId(1), LESS_6), (NodeId(0), 48)].as_slice(),
            30,
        ),
        (13, 64, [(NodeId(13), 1)].as_slice(), 0),
        (14, 64, [].as_slice(), 5),
    ];
    for (id, w, atoms, c) in wanted {
        let right = has_form(&rt, &trial, NodeId(id), w, atoms, c)?;
        assert!(rt; right, "node {id} at {w} bits");
    }
    Ok(())
}
