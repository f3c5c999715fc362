//! Duties over a few nodes, and their clauses as text.
use clause_rows::{clauses, number_variables};
use clauses::{Clause, Lit};
use duty_trials::Trial;
use node_values::NodeId;
use std::alloc::{AllocError, Global};
use std::process::Abort;
use std::test::Fail;

/// What a duty says something of.
#[derive(Clone, Copy)]
pub struct Named<'a> {
    pub hyps: &'a [NodeId],
    pub goal: NodeId,
    pub more: &'a [NodeId],
}

pub const fn n(number: u32) -> NodeId {
    NodeId(number)
}

/// A duty that says something of its goal alone.
pub const fn goal(number: u32) -> Named<'static> {
    Named {
        hyps: &[],
        goal: n(number),
        more: &[],
    }
}

/// That the clauses of a duty are those of a text, but for so many behind the first ones.
pub fn has_clauses(
    rt: &(impl Abort + AllocGlobal),
    trial: &Trial,
    named: Named,
    first: &str,
    left_out: usize,
    last: &str,
) -> Result<(), Fail> {
    let alloc = rt.alloc();
    let Some(duty) = trial.duty(alloc, named.hyps, named.goal, named.more)? else {
        panic!(rt; "the duty is not whole");
    };
    let clauses = clauses(alloc, &duty)?;
    let count = first.lines().count();
    let all = clauses.as_slice();
    assert!(rt;
        count <= all.len() && left_out <= all.len() - count,
        "there are too few clauses"
    );
    assert_eq!(rt; text_of(alloc, &all[..count])?.as_str(), first);
    assert_eq!(rt; text_of(alloc, &all[count + left_out..])?.as_str(), last);
    Ok(())
}

/// That the nodes of a duty have these lowest variables, and these are in its reach.
pub fn has_variables(
    rt: &(impl Abort + AllocGlobal),
    trial: &Trial,
    named: Named,
    firsts: &[u32],
    reach: &[bool],
) -> Result<(), Fail> {
    let alloc = rt.alloc();
    let Some(duty) = trial.duty(alloc, named.hyps, named.goal, named.more)? else {
        panic!(rt; "the duty is not whole");
    };
    let numbering = number_variables(alloc, &duty)?;
    assert_eq!(rt; numbering.firsts.as_slice(), firsts);
    assert_eq!(rt; numbering.reach.as_slice(), reach);
    Ok(())
}

/// Clauses as text: one a line, negated variables behind a minus.
fn text_of(alloc: Global, clauses: &[Clause]) -> Result<String, AllocError> {
    let mut text = String::new(alloc);
    for clause in clauses {
        for (at, Lit { var, neg }) in clause.lits().iter().enumerate() {
            let blank = if at == 0 { "" } else { " " };
            let sign = if *neg { "-" } else { "" };
            write!(text, "{blank}{sign}{var}")?;
        }
        text.push_str("\n")?;
    }
    Ok(text)
}
