//! Single steps, copies of a state, and constants of a pool.

use crate::statements::{AT_RCX, NO_MORE, RAX, RCX, RSP, none, one, register, two};
use crate::states::start;
use crate::trials::function;
use insn_table::{Bytes, Function, Operand, Statement};
use lane_views::Bytes32;
use machine::{RunEnd, StepEnd};
use std::alloc::Global;
use std::test::Fail;

/// The end and `%rax` after a load of four bytes of the pool 1, 2, 3, 4, 5, 6 from a place on.
fn constant(alloc: Global, at: u32) -> Result<(RunEnd, u64), Fail> {
    let load = two(b"movl", Operand::Pool(at), register(RAX, 32));
    let f = Function {
        pool: Bytes::from_vec(Vec::from_slice(alloc, &[1, 2, 3, 4, 5, 6])?),
        ..function(alloc, [load, NO_MORE, NO_MORE])?
    };
    let mut state = start(alloc, 0xFFFF_FFFF_FFFF_FFFF, 0)?;
    let end = state.run(&f, 9);
    Ok((end, state.reg(RAX)))
}

#[test]
fn a_constant_is_no_access(rt: HostRuntime) -> Result<(), Fail> {
    // bytes past the end of the pool are 0
    for (at, rax) in [(0, 0x0403_0201), (2, 0x0605_0403), (4, 0x0605), (7, 0)] {
        let seen = constant(rt.alloc(), at)?;
        assert_eq!(rt; seen, (RunEnd::Returned(2), rax));
    }
    Ok(())
}

/// Three single steps and then a run, from the start state with 3 in `%rax`, and the place and `%rax`
/// then.
fn repeated(
    alloc: Global,
    statement: Statement<'static>,
) -> Result<([StepEnd; 3], RunEnd, u32, u64), Fail> {
    let f = function(alloc, [statement, NO_MORE, NO_MORE])?;
    let mut state = start(alloc, 3, 0)?;
    let steps = [state.step(&f), state.step(&f), state.step(&f)];
    let end = state.run(&f, 9);
    Ok((steps, end, state.place(), state.reg(RAX)))
}

#[test]
fn a_step_that_ends_the_run_repeats(rt: HostRuntime) -> Result<(), Fail> {
    let pop = one(b"popq", register(RAX, 64));
    let jump = one(b"jo", Operand::Target(1));
    for (statement, step, run) in [
        (none(b"ret"), StepEnd::Return, RunEnd::Returned(1)),
        (pop, StepEnd::Fault, RunEnd::Faulted(1)),
        (jump, StepEnd::Unset, RunEnd::Unset(1)),
    ] {
        let seen = repeated(rt.alloc(), statement)?;
        assert_eq!(rt; seen, ([step; 3], run, 0, 3));
    }
    Ok(())
}

#[test]
fn a_copy_goes_on_by_itself(rt: HostRuntime) -> Result<(), Fail> {
    // incb (%rcx); je to the first; jne to the first
    let equal = one(b"je", Operand::Target(0));
    let differ = one(b"jne", Operand::Target(0));
    let f = function(rt.alloc(), [one(b"incb", AT_RCX), equal, differ])?;
    let mut state = start(rt.alloc(), 3, 4096)?;
    assert_eq!(rt; state.step(&f), StepEnd::Next);
    let mut copy = state.copy(rt.alloc())?;
    let regs = (copy.reg(RAX), copy.reg(RCX), copy.reg(RSP), copy.entry(RCX));
    assert_eq!(rt; regs, (3, 4096, 8192, 4096));
    let seen = (copy.place(), copy.byte(4096), copy.byte(4111));
    assert_eq!(rt;
        (seen, *copy.vec(15)),
        ((1, 0x12, 0x11), Bytes32 { bytes: [0; 32] })
    );
    assert_eq!(rt; copy.run(&f, 3), RunEnd::Running);
    let seen = (
        copy.place(),
        copy.byte(4096),
        state.place(),
        state.byte(4096),
    );
    assert_eq!(rt; seen, (1, 0x13, 1, 0x12));
    Ok(())
}
