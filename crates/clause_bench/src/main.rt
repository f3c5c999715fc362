//! Makes the clauses of a duty with 100 products of 64 bits, as often as its argument says, and prints how many there are
//! and how many literals they have. `bench/clauses.sh` times it.
#![tactic(auto)]

mod products;

use products::{Made, clauses_of_products};
use std::process::ExitCode;
use std::rt::Env;
use std::{env, io};

/// How often the argument asks for the clauses.
fn times_of<R: Env + AllocGlobal>(rt: &R) -> Option<u32> {
    let mut arguments = env::args(rt).ok()?.skip(1);
    arguments.next()?.as_str().parse::<u32>().ok()
}

/// The exit code after a line was printed, 1 where it could not be.
fn told(printed: io::Result<()>, code: u8) -> ExitCode {
    match printed {
        Ok(()) => ExitCode::from(code),
        Err(_) => ExitCode::from(1),
    }
}

fn main(rt: HostRuntime) -> ExitCode {
    let Some(times) = times_of(&rt) else {
        return told(println!(rt; "usage: clause_bench TIMES"), 2);
    };
    match clauses_of_products(rt.alloc(), times) {
        Some(Made { clauses, literals }) => {
            told(println!(rt; "{clauses} clauses, {literals} literals"), 0)
        }
        None => told(println!(rt; "no clauses"), 1),
    }
}
