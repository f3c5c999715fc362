//! Reads certificates and writes them again. Without an argument it goes over the cases of standard input, which
//! `tests/certificate_cases.py` made (what a line holds is said in `cases.rt`), and prints how many texts were
//! answered in each way and how many of them otherwise than they have to be. With the argument `read`, standard
//! input is one text, and its answer is printed; with `again` it is written again too. `bench/certificates.sh`
//! times these. Where memory runs out the status is 7, and nothing is printed.
#![tactic(auto)]

mod answer;
mod cases;

use answer::{Answer, answer_again, answer_of};
use cases::{Counts, counted};
use std::io::{Input, Read};
use std::process::ExitCode;
use std::rt::Env;
use std::{env, io};

/// What the program is to do.
#[derive(Clone, Copy)]
enum Task {
    Cases,
    Read,
    Again,
    Unknown,
}

/// What the arguments ask for.
fn task_of<R: Env + AllocGlobal>(rt: &R) -> io::Result<Task> {
    let mut arguments = env::args(rt)?.skip(1);
    let Some(word) = arguments.next() else {
        return Ok(Task::Cases);
    };
    match word.as_str() {
        "read" => Ok(Task::Read),
        "again" => Ok(Task::Again),
        _ => Ok(Task::Unknown),
    }
}

/// All bytes of standard input.
fn input<R: Input + AllocGlobal>(rt: &R) -> io::Result<Vec<u8>> {
    let mut text = Vec::new(rt.alloc());
    rt.reader().read_to_end(&mut text)?;
    Ok(text)
}

/// Prints what came of the cases.
fn print_counts<R: Print>(rt: &R, counts: Counts) -> io::Result<()> {
    let Counts {
        ok,
        version,
        truncated,
        bad_line,
        wrong,
    } = counts;
    println!(rt; "ok {ok}")?;
    println!(rt; "version {version}")?;
    println!(rt; "truncated {truncated}")?;
    println!(rt; "bad line {bad_line}")?;
    println!(rt; "wrong {wrong}")
}

/// Prints what a text is answered.
fn print_answer<R: Print>(rt: &R, answer: Answer) -> io::Result<()> {
    match answer {
        Answer::Ok => println!(rt; "ok"),
        Answer::Otherwise => println!(rt; "written as another text"),
        Answer::Refused(refusal) => println!(rt; "{refusal}"),
    }
}

/// Does what the arguments ask for.
fn run<R: Env + Input + Print + AllocGlobal>(rt: &R) -> io::Result<()> {
    match task_of(rt)? {
        Task::Cases => {
            let text = io::read_to_string(rt.alloc(), rt.reader())?;
            print_counts(rt, counted(rt.alloc(), text.as_str())?)
        }
        Task::Read => print_answer(rt, answer_of(rt.alloc(), input(rt)?.as_slice())?),
        Task::Again => print_answer(rt, answer_again(rt.alloc(), input(rt)?.as_slice())?),
        Task::Unknown => println!(rt; "usage: certificate_cases [read | again]"),
    }
}

fn main(rt: HostRuntime) -> ExitCode {
    match run(&rt) {
        Ok(()) => ExitCode::from(0),
        Err(error) => match error.kind() {
            io::ErrorKind::OutOfMemory => ExitCode::from(7),
            _ => ExitCode::from(1),
        },
    }
}
