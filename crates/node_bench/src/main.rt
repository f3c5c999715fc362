//! Builds full sheets of nodes, evaluates the last node of one, and solves a system of forms, as often as its three
//! arguments say, and prints what came of it. `bench/nodes.sh` times it.
#![tactic(auto)]

mod chain;
mod environment;
mod system;

use chain::full_sheet;
use environment::environment;
use linear_forms::solve;
use outcomes::Memory;
use std::alloc::Global;
use std::process::ExitCode;
use std::rt::Env;
use std::{env, io};
use system::{parts, target};
use terms::SheetFull;

/// How often each thing is done.
#[derive(Clone, Copy, Drop)]
struct Counts {
    builds: u32,
    evals: u32,
    solves: u32,
}

/// How often the arguments ask for each.
fn counts_of<R: Env + AllocGlobal>(rt: &R) -> Option<Counts> {
    let mut arguments = env::args(rt).ok()?.skip(1);
    let builds = arguments.next()?.as_str().parse::<u32>().ok()?;
    let evals = arguments.next()?.as_str().parse::<u32>().ok()?;
    let solves = arguments.next()?.as_str().parse::<u32>().ok()?;
    Some(Counts {
        builds,
        evals,
        solves,
    })
}

/// How many weights the system is solved by, 0 where it is not, so often.
fn solved(alloc: Global, solves: u32) -> Result<usize, Memory> {
    let parts = parts(alloc)?;
    let target = target(alloc)?;
    let mut count = 0;
    for _ in 0..solves {
        if let Some(weights) = solve(alloc, &target, parts.as_slice())? {
            count = weights.len();
        }
    }
    Ok(count)
}

/// The number of the last node of a full sheet, which is built so often.
fn built(alloc: Global, builds: u32) -> Result<u32, SheetFull> {
    let mut number = 0;
    for _ in 0..builds {
        let (_, last) = full_sheet(alloc)?;
        number = last.0;
    }
    Ok(number)
}

/// The value of the last node of a full sheet, 0 where it is not evaluated, so often.
fn evaluated(alloc: Global, evals: u32) -> Result<u64, SheetFull> {
    let env = environment(alloc);
    let (sheet, last) = full_sheet(alloc)?;
    let mut value = 0;
    for _ in 0..evals {
        value = sheet.eval(last, &env)?;
    }
    Ok(value)
}

/// The exit code after a line was printed, 1 where it could not be.
fn told(printed: io::Result<()>, code: u8) -> ExitCode {
    match printed {
        Ok(()) => ExitCode::from(code),
        Err(_) => ExitCode::from(1),
    }
}

fn main(rt: HostRuntime) -> ExitCode {
    let Some(counts) = counts_of(&rt) else {
        return told(println!(rt; "usage: node_bench BUILDS EVALS SOLVES"), 2);
    };
    let Ok(last) = built(rt.alloc(), counts.builds) else {
        return told(println!(rt; "node_bench: no sheet"), 1);
    };
    let Ok(value) = evaluated(rt.alloc(), counts.evals) else {
        return told(println!(rt; "node_bench: no value"), 1);
    };
    let Ok(weights) = solved(rt.alloc(), counts.solves) else {
        return told(println!(rt; "node_bench: out of memory"), 1);
    };
    told(
        println!(rt; "last node {last}, value {value}, weights {weights}"),
        0,
    )
}
