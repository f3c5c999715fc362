//! Runs `align_main` on the cases of standard input, one a line, and prints of each whether it ended
//! as it has to. What a line holds is said in `case.rt`; the cases stand in the file `stdin` of this
//! crate, with their expected statuses and reports.
#![tactic(auto)]

mod case;
mod fields;

use case::Outcome;
use outcomes::Memory;
use std::io;
use std::io::{BufRead, BufReader};

/// How a case ended, as it is printed.
fn shown(outcome: Result<Outcome, Memory>) -> &'static str {
    match outcome {
        Ok(Outcome::Right) => "ok",
        Ok(Outcome::WrongStatus) => "WRONG STATUS",
        Ok(Outcome::WrongReport) => "WRONG REPORT",
        Ok(Outcome::Unreadable) => "UNREADABLE",
        Err(Memory) => "OUT OF MEMORY",
    }
}

fn main(rt: HostRuntime) -> io::Result<()> {
    for line in BufReader::new(rt.alloc(), rt.reader())?.lines(rt.alloc()) {
        let line = line?;
        let text = line.as_str();
        if text.is_empty() || text.starts_with('#') {
            continue;
        }
        let name = text.split('\t').next().unwrap_or("");
        let word = shown(case::outcome_of(&rt, rt.alloc(), text));
        println!(rt; "{word} {name}")?;
    }
    Ok(())
}
