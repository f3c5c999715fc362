//! Traces.
ghost use Rattle.std.specs.Prelude.{◌<◌};

use crate::starts::start;
use crate::texts::{SUM, function};
use flow_graph::graph;
use machine::RunEnd;
use std::alloc::Global;
use std::test::Fail;
use tracer::{Trace, TraceRefusal, Visit, trace};

/// The trace of the function `f` of a text within `n` steps.
fn traced(alloc: Global, text: &str, n: u64) -> Result<Result<Trace, TraceRefusal>, Fail> {
    let f = function(alloc, text)?;
    let g = graph(alloc, &f)?;
    let start = start(alloc)?;
    Ok(trace(alloc, &f, &g, &start, n))
}

/// Why there is no trace.
fn refusal(alloc: Global, text: &str, n: u64) -> Result<Option<TraceRefusal>, Fail> {
    match traced(alloc, text, n)? {
        Ok(_) => Ok(None),
        Err(refusal) => Ok(Some(refusal)),
    }
}

#[test]
fn a_trace_takes_the_steps_of_the_run(rt: HostRuntime) -> Result<(), Fail> {
    let alloc = rt.alloc();
    assert_eq!(rt; refusal(alloc, SUM, 0)?, Some(TraceRefusal::TooLong));
    assert_eq!(rt; refusal(alloc, SUM, 36)?, Some(TraceRefusal::TooLong));
    assert_eq!(rt; refusal(alloc, SUM, 37)?, None);
    Ok(())
}

#[test]
fn an_unset_flag_refuses_the_trace(rt: HostRuntime) -> Result<(), Fail> {
    let text = "f:\n imull %esi,%edi\n jo .L1\n.L1: ret";
    let alloc = rt.alloc();
    assert_eq!(rt; refusal(alloc, text, 1)?, Some(TraceRefusal::TooLong));
    assert_eq!(rt; refusal(alloc, text, 2)?, Some(TraceRefusal::Unset(1)));
    assert_eq!(rt; refusal(alloc, text, 9)?, Some(TraceRefusal::Unset(1)));
    Ok(())
}

#[test]
fn a_trace_ends_as_the_run_does(rt: HostRuntime) -> Result<(), Fail> {
    let alloc = rt.alloc();
    let fault = traced(alloc, "f:\n nop\n movl %eax,(%rdi)\n ret", 9)??;
    assert_eq!(rt; fault.end, RunEnd::Faulted(2));
    assert_eq!(rt; fault.places.as_slice(), [0, 1].as_slice());
    assert!(rt; fault.visits.is_empty());
    let sum = traced(alloc, SUM, 100)??;
    assert_eq!(rt; sum.end, RunEnd::Returned(37));
    assert_eq!(rt; sum.places.len(), 37);
    assert_eq!(rt; sum.entry[7], 8192);
    Ok(())
}

/// Whether it is this visit of the sum's head, counted from 0: four steps a turn behind the first four,
/// with the sum of the words before it in `%eax` and their number in `%rcx`.
fn is_turn(visit: &Visit, turn: u64) -> bool
    requires { turn < 8 }
{
    visit.place == 4
        && visit.step == 4 + 4 * turn
        && visit.regs[0] == turn * (turn + 1) / 2
        && visit.regs[1] == turn
        && visit.regs[7] == 8192
        && visit.vecs[15].bytes[31] == 31
}

#[test]
fn visits_show_the_state_before_the_step(rt: HostRuntime) -> Result<(), Fail> {
    let sum = traced(rt.alloc(), SUM, 37)??;
    assert_eq!(rt; sum.visits.len(), 8);
    for (turn, visit) in sum.visits.iter().enumerate() {
        if turn < 8 {
            assert!(rt; is_turn(visit, turn as u64), "turn {turn}");
        }
    }
    Ok(())
}
