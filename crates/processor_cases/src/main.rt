//! Compares what `scalar_ops` and `lane_ops` compute with what a processor computed: a table of cases on
//! standard input, which `tests/processor_cases.py` and `tests/vector_rows.py` made. It prints how many cases each operation has, and how many lines
//! are wrong: those that spell no case, and those whose case does not agree with the definitions.
#![tactic(auto)]

mod case;
mod numbers;
mod table;
mod tally;
mod vector_rows;

use std::io;
use table::operations;
use tally::tally;
use vector_rows::{lane_rows, other_rows};

fn main(rt: HostRuntime) -> io::Result<()> {
    let text = io::read_to_string(rt.alloc(), rt.reader())?;
    let counts = tally(rt.alloc(), text.as_str())?;
    for (op, cases) in operations().iter().zip(counts.of_operations.iter()) {
        println!(rt; "{op:?} {cases}")?;
    }
    let moves = counts.moves;
    let settings = counts.settings;
    let conditions = counts.conditions;
    let wrong = counts.wrong;
    println!(rt; "Cmov {moves}")?;
    println!(rt; "Set {settings}")?;
    println!(rt; "conditions {conditions}")?;
    for (op, cases) in lane_rows().iter().zip(counts.of_lane_rows.iter()) {
        println!(rt; "{op:?} {cases}")?;
    }
    for (op, cases) in other_rows().iter().zip(counts.of_other_rows.iter()) {
        println!(rt; "{op:?} {cases}")?;
    }
    println!(rt; "wrong {wrong}")
}
