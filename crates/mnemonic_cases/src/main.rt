//! Prints instructions and reads them back: lines of GNU AT&T text on standard input, each printed as
//! `insn_text` has it. At the end it prints how many lines were read and printed, and how many of them
//! are wrong: what was printed is not read as the same instruction. The text of a jump names a place in
//! place of a label, and is not read back. `tests/mnemonic_cases.py` made the lines and what is printed.
#![tactic(auto)]

mod rows;

use rows::{Row, printed_row};
use std::io;

fn main(rt: HostRuntime) -> io::Result<()> {
    let text = io::read_to_string(rt.alloc(), rt.reader())?;
    let mut rows = 0u64;
    let mut wrong = 0u64;
    for line in text.as_str().lines() {
        match printed_row(rt.alloc(), line) {
            Ok(Row { printed, returns }) => {
                println!(rt; "{printed}")?;
                if !returns {
                    wrong = wrong.saturating_add(1);
                }
            }
            Err(fault) => {
                println!(rt; "{fault}")?;
                wrong = wrong.saturating_add(1);
            }
        }
        rows = rows.saturating_add(1);
    }
    println!(rt; "rows {rows}")?;
    println!(rt; "wrong {wrong}")
}
