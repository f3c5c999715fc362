//! Compares the clauses of small duties with a table on standard input, which `tests/clause_cases.py` made: for each
//! operator at the widths 1, 2 and 3 the list of clauses, and at width 4 its value for all values of its arguments. There
//! the bits of the arguments, as units, have to leave one assignment of all other variables, by unit resolution alone.
//! It prints, for each operator, how many lists and clauses and how many values agree, and how many lines do not.
#![tactic(auto)]

mod case;
mod duty;
mod signs;

use case::{Agreed, Numbers, agreement};
use std::io;

/// The operators by number, as the table has them.
const OPERATORS: [&str; 19] = [
    "vec", "const", "add", "sub", "mul", "and", "or", "xor", "not", "shl", "shr", "sar", "cat",
    "cut", "sx", "eq", "ult", "slt", "if",
];

/// What agrees of an operator.
#[derive(Clone, Copy)]
struct Tally {
    lists: u64,
    clauses: u64,
    values: u64,
}

fn main(rt: HostRuntime) -> io::Result<()> {
    let text = io::read_to_string(rt.alloc(), rt.reader())?;
    let none = Tally {
        lists: 0,
        clauses: 0,
        values: 0,
    };
    let mut tallies = [none; 19];
    let mut wrong = 0u64;
    for line in text.as_str().lines() {
        let mut numbers = Numbers::of(rt.alloc(), line)?;
        let op = numbers.operator();
        match agreement(rt.alloc(), &mut numbers) {
            Some(agreed) if op < 19 => add(&mut tallies[op], agreed),
            _ => wrong = wrong.saturating_add(1),
        }
    }
    for (op, tally) in OPERATORS.iter().zip(tallies.iter()).skip(2) {
        let Tally {
            lists,
            clauses,
            values,
        } = tally;
        println!(rt; "{op}: {lists} lists of {clauses} clauses, {values} values")?;
    }
    println!(rt; "wrong {wrong}")
}

/// Adds what agrees of a line.
fn add(tally: &mut Tally, agreed: Agreed) {
    match agreed {
        Agreed::Clauses(count) => {
            tally.lists = tally.lists.saturating_add(1);
            tally.clauses = tally.clauses.saturating_add(count);
        }
        Agreed::Values(count) => tally.values = tally.values.saturating_add(count),
    }
}
