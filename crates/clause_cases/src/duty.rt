//! Duties of one goal over a few nodes.
use crate::case::Numbers;
use clause_rows::{Numbering, clauses, number_variables};
use clauses::Clause;
use duty_trials::Trial;
use insn_ops::Side;
use node_values::{Node, NodeId};
use std::alloc::Global;

/// The clauses and the variables of the duty whose goal is the last node of a sheet.
#[derive(Drop)]
pub struct GoalDuty {
    pub clauses: Vec<Clause>,
    /// The greatest variable.
    pub variables: u32,
    numbering: Numbering,
}

impl GoalDuty {
    /// The duty over a sheet; None where it is not whole.
    pub fn of(alloc: Global, trial: &Trial) -> Option<GoalDuty> {
        let last = trial.built.nodes.len().checked_sub(1)?;
        let goal = NodeId(u32::try_from(last).ok()?);
        let duty = trial.duty(alloc, &[], goal, &[]).ok()??;
        let clauses = clauses(alloc, &duty).ok()?;
        let numbering = number_variables(alloc, &duty).ok()?;
        let variables = greatest(clauses.as_slice());
        Some(GoalDuty {
            clauses,
            variables,
            numbering,
        })
    }

    /// The variable of the lowest bit of a node.
    pub fn first(&self, node: NodeId) -> Option<u32> {
        self.numbering.firsts.get(node.0 as usize).copied()
    }

    /// The clauses without the last, that the goal is 0.
    pub fn without_goal(&self) -> &[Clause] {
        let all = self.clauses.as_slice();
        match all.split_last() {
            Some((_, front)) => front,
            None => all,
        }
    }
}

/// The greatest variable of clauses.
fn greatest(clauses: &[Clause]) -> u32 {
    let mut most = 0;
    for clause in clauses {
        for lit in clause.lits() {
            most = u32::max(most, lit.var);
        }
    }
    most
}

/// The sheet of the nodes that a line names; None where they make none.
pub fn trial_of(alloc: Global, numbers: &mut Numbers) -> Option<Trial> {
    let count = numbers.next()?;
    let mut nodes = Vec::new(alloc);
    for _ in 0..count {
        let operator = numbers.next()?;
        let (x, y, z) = (numbers.next()?, numbers.next()?, numbers.next()?);
        nodes.push(node_of(operator, x, y, z)?).ok()?;
    }
    Trial::of(alloc, nodes.as_slice(), &[]).ok()
}

/// A node, as the table has it.
fn node_of(operator: u32, x: u32, y: u32, z: u32) -> Option<Node> {
    let (a, b, c) = (NodeId(x), NodeId(y), NodeId(z));
    Some(match operator {
        0 => Node::VecByte {
            side: Side::Left,
            n: u8::try_from(x).ok()?,
            i: u8::try_from(y).ok()?,
        },
        1 => Node::Const { w: x, v: y as u64 },
        2 => Node::Add(a, b),
        3 => Node::Sub(a, b),
        4 => Node::Mul(a, b),
        5 => Node::And(a, b),
        6 => Node::Or(a, b),
        7 => Node::Xor(a, b),
        8 => Node::Not(a),
        9 => Node::Shl(a, y),
        10 => Node::Shr(a, y),
        11 => Node::Sar(a, y),
        12 => Node::Cat(a, b),
        13 => Node::Cut(a, y, z),
        14 => Node::Sx(x, b),
        15 => Node::Eq(a, b),
        16 => Node::Ult(a, b),
        17 => Node::Slt(a, b),
        18 => Node::If(a, b, c),
        _ => return None,
    })
}
