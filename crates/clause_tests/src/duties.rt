//! Hypotheses, goals, the reach, and the numbers of variables.
use crate::trial::{Named, goal, has_clauses, has_variables, n};
use duty_trials::Trial;
use insn_ops::Side;
use node_values::Node;
use std::test::Fail;

/// Byte `i` of a vector register.
const fn byte(i: u8) -> Node {
    Node::VecByte {
        side: Side::Left,
        n: 0,
        i,
    }
}

#[test]
fn constants_are_units(rt: HostRuntime) -> Result<(), Fail> {
    let nodes = [Node::Const { w: 1, v: 1 }, Node::Const { w: 1, v: 0 }];
    let trial = Trial::of(rt.alloc(), &nodes, &[])?;
    has_clauses(&rt, &trial, goal(0), "1\n-1\n", 0, "")?;
    has_clauses(&rt, &trial, goal(1), "-1\n-1\n", 0, "")?;
    let both = Named {
        hyps: &[n(0)],
        goal: n(1),
        more: &[],
    };
    has_clauses(&rt, &trial, both, "1\n-2\n1\n-2\n", 0, "")
}

#[test]
fn further_goals_are_negated_behind_the_goal(rt: HostRuntime) -> Result<(), Fail> {
    let nodes = [
        byte(0),
        Node::Cut(n(0), 0, 1),
        Node::Cut(n(0), 1, 1),
        Node::Cut(n(0), 7, 1),
        Node::Not(n(1)),
    ];
    let trial = Trial::of(rt.alloc(), &nodes, &[])?;
    let named = Named {
        hyps: &[n(3), n(4)],
        goal: n(2),
        more: &[n(1), n(2)],
    };
    let text = "1 -9\n-1 9\n2 -10\n-2 10\n8 -11\n-8 11\n-9 -12\n9 12\n11\n12\n-10\n-9\n-10\n";
    has_clauses(&rt, &trial, named, text, 0, "")
}

#[test]
fn nodes_that_nothing_needs_have_no_variables(rt: HostRuntime) -> Result<(), Fail> {
    let nodes = [
        byte(0),
        Node::Probe,
        Node::Cut(n(0), 0, 1),
        Node::Cut(n(0), 1, 1),
        Node::Not(n(2)),
    ];
    let trial = Trial::of(rt.alloc(), &nodes, &[])?;
    has_clauses(&rt, &trial, goal(3), "2 -9\n-2 9\n-9\n", 0, "")?;
    let reach = [true, false, false, true];
    has_variables(&rt, &trial, goal(3), &[1, 9, 9, 9], &reach)
}

#[test]
fn helpers_stand_behind_the_bits_of_their_node(rt: HostRuntime) -> Result<(), Fail> {
    let nodes = [
        byte(0),
        byte(1),
        Node::Add(n(0), n(1)),
        Node::Mul(n(0), n(1)),
        Node::Eq(n(2), n(3)),
        Node::Ult(n(2), n(3)),
        Node::And(n(4), n(5)),
    ];
    let trial = Trial::of(rt.alloc(), &nodes, &[])?;
    let firsts = [1, 9, 17, 32, 125, 134, 142];
    has_variables(&rt, &trial, goal(6), &firsts, &[true; 7])
}
