//! Duties whose bytes of memory have their pairs.
ghost use Rattle.std.specs.Prelude.{IfOk, IfSome};
ghost use Rattle.duty_claims.specs.Whole.{IsWhole};

use crate::building::{Built, TrialFault};
use crate::bytes::{bytes_of, each_two};
use crate::whole::{address_of, is_same_side, is_whole, side_of};
use duty_claims::{Duty, DutyName, Kind, Spot, StartPair};
use node_values::{Node, NodeId};
use outcomes::Memory;
use std::alloc::Global;

/// A sheet with the pairs of its bytes of memory.
#[derive(Drop)]
pub struct Trial {
    pub built: Built,
    pub pairs: Vec<StartPair>,
    pub scratch: Vec<(NodeId, NodeId)>,
}

impl Trial {
    /// The sheet of these nodes, each of which has the next number; then, for each two of its bytes of memory in order, the
    /// node that their addresses are equal, and where their sides differ the node that the first address lies in a
    /// scratch line.
    pub fn of(
        alloc: Global,
        nodes: &[Node],
        lines: &[(NodeId, NodeId)],
    ) -> Result<Trial, TrialFault> {
        let mut built = Built::new(alloc);
        for (at, node) in nodes.iter().enumerate() {
            let (next, id) = built.with(*node)?;
            if id.0 as usize != at {
                return Err(TrialFault::NoNode);
            }
            built = next;
        }
        let mut scratch = Vec::new(alloc);
        scratch.extend_from_slice(lines)?;
        let bytes = bytes_of(alloc, &built)?;
        let two = each_two(alloc, bytes.as_slice())?;
        let mut pairs = Vec::new(alloc);
        for (m, n) in two.as_slice() {
            let (next, pair) = with_pair(built, lines, NodeId(*m), NodeId(*n))?;
            built = next;
            pairs.push(pair)?;
        }
        Ok(Trial {
            built,
            pairs,
            scratch,
        })
    }

    /// A duty over the sheet; None where it is not known to be whole.
    pub fn duty<'a>(
        &'a self,
        alloc: Global,
        hyps: &'a [NodeId],
        goal: NodeId,
        more: &'a [NodeId],
    ) -> Result<Option<Duty<'a>>, Memory>
        ensures { IfOk result (λ duty. IfSome duty IsWhole) }
    {
        let duty = Duty {
            sheet: &self.built.sheet,
            hyps,
            goal,
            name: DutyName {
                spot: Spot::Node(0),
                kind: Kind::Lemma,
            },
            more,
            pairs: self.pairs.as_slice(),
            scratch: self.scratch.as_slice(),
        };
        if is_whole(alloc, &self.built, &duty)? {
            Ok(Some(duty))
        } else {
            Ok(None)
        }
    }
}

/// Builds the nodes of a pair.
fn with_pair(
    built: Built,
    lines: &[(NodeId, NodeId)],
    m: NodeId,
    n: NodeId,
) -> Result<(Built, StartPair), TrialFault> {
    let (Some(a), Some(b)) = (address_of(&built, m), address_of(&built, n)) else {
        return Err(TrialFault::NoNode);
    };
    let one_side = is_same_side(side_of(&built, m), side_of(&built, n));
    let (built, same_at) = built.with(Node::Eq(a, b))?;
    let (built, scratch) = if one_side {
        (built, None)
    } else {
        let (built, node) = with_line_test(built, lines, a)?;
        (built, Some(node))
    };
    let pair = StartPair {
        m,
        n,
        same_at,
        scratch,
    };
    Ok((built, pair))
}

/// Builds the node that an address lies in a scratch line.
fn with_line_test(
    built: Built,
    lines: &[(NodeId, NodeId)],
    address: NodeId,
) -> Result<(Built, NodeId), TrialFault> {
    match lines {
        [] => built.with(Node::Const { w: 1, v: 0 }),
        [(base, len)] => {
            let (built, behind) = built.with(Node::Sub(address, *base))?;
            built.with(Node::Ult(behind, *len))
        }
        _ => Err(TrialFault::NoNode),
    }
}
