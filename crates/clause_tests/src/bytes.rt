//! Bytes of memory, and where they are equal.
use crate::trial::{goal, has_clauses, has_variables, n};
use duty_trials::Trial;
use insn_ops::Side;
use node_values::{Node, NodeId};
use std::test::Fail;

/// The byte of a side's memory at an address.
const fn start(side: Side, at: NodeId) -> Node {
    Node::Start { side, at }
}

#[test]
fn bytes_of_one_side_are_equal_where_their_addresses_are(rt: HostRuntime) -> Result<(), Fail> {
    // The row of the equality of the addresses, of 64 bits, has 321 clauses.
    let nodes = [
        Node::Entry { n: 7 },
        Node::Entry { n: 6 },
        start(Side::Left, n(0)),
        start(Side::Left, n(1)),
        Node::Cut(n(2), 0, 1),
        Node::Cut(n(3), 0, 1),
        Node::Eq(n(4), n(5)),
    ];
    let trial = Trial::of(rt.alloc(), &nodes, &[])?;
    let first = "\
        129 -145\n-129 145\n137 -146\n-137 146\n\
        145 146 148\n-145 146 -148\n145 -146 -148\n-145 -146 148\n\
        -147 148\n147 -148\n\
        ";
    let last = "\
        -129 137 -149\n129 -137 -149\n-130 138 -149\n130 -138 -149\n\
        -131 139 -149\n131 -139 -149\n-132 140 -149\n132 -140 -149\n\
        -133 141 -149\n133 -141 -149\n-134 142 -149\n134 -142 -149\n\
        -135 143 -149\n135 -143 -149\n-136 144 -149\n136 -144 -149\n\
        -147\n\
        ";
    has_clauses(&rt, &trial, goal(6), first, 321, last)
}

#[test]
fn bytes_of_two_sides_have_the_scratch_node(rt: HostRuntime) -> Result<(), Fail> {
    let nodes = [
        Node::Probe,
        start(Side::Left, n(0)),
        start(Side::Right, n(0)),
        Node::Cut(n(1), 0, 1),
        Node::Cut(n(2), 0, 1),
        Node::Eq(n(3), n(4)),
    ];
    let trial = Trial::of(rt.alloc(), &nodes, &[])?;
    let first = "\
        65 -81\n-65 81\n73 -82\n-73 82\n\
        81 82 84\n-81 82 -84\n81 -82 -84\n-81 -82 84\n\
        -83 84\n83 -84\n85\n-86\n\
        ";
    let last = "\
        -65 73 -85 86\n65 -73 -85 86\n-66 74 -85 86\n66 -74 -85 86\n\
        -67 75 -85 86\n67 -75 -85 86\n-68 76 -85 86\n68 -76 -85 86\n\
        -69 77 -85 86\n69 -77 -85 86\n-70 78 -85 86\n70 -78 -85 86\n\
        -71 79 -85 86\n71 -79 -85 86\n-72 80 -85 86\n72 -80 -85 86\n\
        -83\n\
        ";
    has_clauses(&rt, &trial, goal(5), first, 0, last)
}

#[test]
fn bytes_in_a_scratch_line_may_differ(rt: HostRuntime) -> Result<(), Fail> {
    // The difference of the address and the base has 883 clauses, and its order with the length 381.
    let nodes = [
        Node::Probe,
        Node::Entry { n: 7 },
        Node::Entry { n: 6 },
        start(Side::Left, n(0)),
        start(Side::Right, n(0)),
        Node::Cut(n(3), 0, 1),
        Node::Cut(n(4), 0, 1),
        Node::Eq(n(5), n(6)),
    ];
    let trial = Trial::of(rt.alloc(), &nodes, &[(n(1), n(2))])?;
    let first = "\
        193 -209\n-193 209\n201 -210\n-201 210\n\
        209 210 212\n-209 210 -212\n209 -210 -212\n-209 -210 212\n\
        -211 212\n211 -212\n213\n\
        ";
    let last = "\
        -193 201 -213 341\n193 -201 -213 341\n-194 202 -213 341\n194 -202 -213 341\n\
        -195 203 -213 341\n195 -203 -213 341\n-196 204 -213 341\n196 -204 -213 341\n\
        -197 205 -213 341\n197 -205 -213 341\n-198 206 -213 341\n198 -206 -213 341\n\
        -199 207 -213 341\n199 -207 -213 341\n-200 208 -213 341\n200 -208 -213 341\n\
        -211\n\
        ";
    has_clauses(&rt, &trial, goal(7), first, 1264, last)
}

#[test]
fn bytes_that_nothing_needs_have_no_row(rt: HostRuntime) -> Result<(), Fail> {
    let nodes = [
        Node::Probe,
        start(Side::Left, n(0)),
        start(Side::Right, n(0)),
        Node::Cut(n(1), 0, 1),
    ];
    let trial = Trial::of(rt.alloc(), &nodes, &[])?;
    has_clauses(&rt, &trial, goal(3), "65 -73\n-65 73\n-73\n", 0, "")?;
    let reach = [true, true, false, true];
    has_variables(&rt, &trial, goal(3), &[1, 65, 73, 73], &reach)
}
