//! Runs a loop of four instructions, two of which access memory, for as many steps as its argument says,
//! and prints how the run ended and what the loop has summed up; with the further argument `vectors` it
//! runs one that adds vectors up. `bench/steps.sh` times both.
#![tactic(auto)]

ghost use Rattle.std.specs.Prelude.{IfOk};
ghost use Rattle.insn_table.specs.Closed.{IsClosed};

mod looping;
mod start;

use insn_table::{BuildError, Function};
use looping::{endless_loop, vector_loop};
use machine::RunEnd;
use start::start_state;
use std::alloc::Global;
use std::process::ExitCode;
use std::rt::Env;
use std::{env, io};

/// How many steps the first argument asks for.
fn steps<R: Env + AllocGlobal>(rt: &R) -> Option<u64> {
    let mut arguments = env::args(rt).ok()?.skip(1);
    arguments.next()?.as_str().parse::<u64>().ok()
}

/// Whether the second argument is `vectors`.
fn wants_vectors<R: Env + AllocGlobal>(rt: &R) -> bool {
    match env::args(rt) {
        Ok(arguments) => arguments
            .skip(2)
            .any(|argument| argument.as_str() == "vectors"),
        Err(_) => false,
    }
}

/// The loop that is asked for.
fn asked_loop(alloc: Global, vectors: bool) -> Result<Function, BuildError>
    ensures { IfOk result (λ f. IsClosed f.insns) }
{
    if vectors {
        vector_loop(alloc)
    } else {
        endless_loop(alloc)
    }
}

/// The exit code after a line was printed, 1 where it could not be.
fn told(printed: io::Result<()>, code: u8) -> ExitCode {
    match printed {
        Ok(()) => ExitCode::from(code),
        Err(_) => ExitCode::from(1),
    }
}

fn main(rt: HostRuntime) -> ExitCode {
    let Some(n) = steps(&rt) else {
        return told(println!(rt; "usage: step_bench STEPS [vectors]"), 2);
    };
    let function = match asked_loop(rt.alloc(), wants_vectors(&rt)) {
        Ok(function) => function,
        Err(error) => return told(println!(rt; "step_bench: {error}"), 1),
    };
    let Ok(mut state) = start_state(rt.alloc()) else {
        return told(println!(rt; "step_bench: out of memory"), 1);
    };
    let end = match state.run(&function, n) {
        RunEnd::Returned(at) => println!(rt; "returned at {at}"),
        RunEnd::Faulted(at) => println!(rt; "faulted at {at}"),
        RunEnd::Unset(at) => println!(rt; "met an unset flag at {at}"),
        RunEnd::Running => println!(rt; "running after {n}"),
    };
    if end.is_err() {
        return ExitCode::from(1);
    }
    let sum = state.reg(0);
    let index = state.reg(1);
    told(println!(rt; "rax {sum}, rcx {index}"), 0)
}
