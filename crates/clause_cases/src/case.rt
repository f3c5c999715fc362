//! The lines of the table.
use crate::duty::{GoalDuty, trial_of};
use crate::signs::Signs;
use clauses::{Clause, Lit};
use duty_trials::Trial;
use node_values::NodeId;
use std::alloc::{AllocError, Global};

/// How much of a line agrees.
#[derive(Clone, Copy, Debug)]
pub enum Agreed {
    /// So many clauses, all of the list.
    Clauses(u64),
    /// So many values, all that there are.
    Values(u64),
}

/// The numbers of a line, one after another.
#[derive(Drop)]
pub struct Numbers {
    numbers: Vec<u32>,
    at: usize,
}

impl Numbers {
    /// The numbers of a line, up to the first word that is none.
    pub fn of(alloc: Global, line: &str) -> Result<Numbers, AllocError> {
        let mut numbers = Vec::new(alloc);
        for word in line.split(' ') {
            match word.parse::<u32>() {
                Ok(n) => numbers.push(n)?,
                Err(_) => break,
            }
        }
        Ok(Numbers { numbers, at: 0 })
    }

    /// The number of the operator that the line tries.
    pub fn operator(&self) -> usize {
        self.numbers.get(1).copied().unwrap_or(0) as usize
    }

    /// The next number.
    pub fn next(&mut self) -> Option<u32> {
        let n = self.numbers.get(self.at).copied()?;
        self.at += 1;
        Some(n)
    }
}

/// An input of the values: how many of its bits count, and the variable of its lowest bit.
#[derive(Clone, Copy)]
struct Input {
    bits: u32,
    first: u32,
}

/// How much of a line agrees; None where something does not.
pub fn agreement(alloc: Global, numbers: &mut Numbers) -> Option<Agreed> {
    let kind = numbers.next()?;
    let _operator = numbers.next()?;
    let _width = numbers.next()?;
    let trial = trial_of(alloc, numbers)?;
    let duty = GoalDuty::of(alloc, &trial)?;
    if kind == 0 {
        agreed_clauses(numbers, duty.clauses.as_slice())
    } else {
        agreed_values(alloc, numbers, &trial, &duty)
    }
}

/// How many clauses there are, if they are those of the line.
fn agreed_clauses(numbers: &mut Numbers, clauses: &[Clause]) -> Option<Agreed> {
    let count = numbers.next()?;
    if count as usize != clauses.len() {
        return None;
    }
    for clause in clauses {
        let lits = clause.lits();
        if numbers.next()? as usize != lits.len() {
            return None;
        }
        for lit in lits {
            if numbers.next()? as u64 != number_of(*lit) {
                return None;
            }
        }
    }
    Some(Agreed::Clauses(count as u64))
}

/// The number of a literal in the table.
fn number_of(lit: Lit) -> u64 {
    2 * lit.var as u64 + if lit.neg { 1 } else { 0 }
}

/// How many values there are, if the clauses leave each that the line has.
fn agreed_values(
    alloc: Global,
    numbers: &mut Numbers,
    trial: &Trial,
    duty: &GoalDuty,
) -> Option<Agreed> {
    let result = NodeId(numbers.next()?);
    let inputs = inputs_of(alloc, numbers, duty)?;
    let mut bits = 0u32;
    for input in inputs.as_slice() {
        bits = bits.saturating_add(input.bits);
    }
    if bits > 16 {
        return None;
    }
    let width = trial.built.widths.get(result.0 as usize).copied()?;
    let first = duty.first(result)?;
    for number in 0..1u32 << bits {
        let signs = left_by(alloc, duty, inputs.as_slice(), number)?;
        if signs.word(first, width)? != numbers.next()? as u64 {
            return None;
        }
    }
    Some(Agreed::Values(1 << bits))
}

/// The inputs that a line names.
fn inputs_of(alloc: Global, numbers: &mut Numbers, duty: &GoalDuty) -> Option<Vec<Input>> {
    let count = numbers.next()?;
    let mut inputs = Vec::new(alloc);
    for _ in 0..count {
        let node = NodeId(numbers.next()?);
        let bits = numbers.next()?;
        let first = duty.first(node)?;
        inputs.push(Input { bits, first }).ok()?;
    }
    Some(inputs)
}

/// The one assignment that the clauses leave where the inputs have the bits of a number; None where they leave none, or
/// unit resolution leaves a variable open.
fn left_by(alloc: Global, duty: &GoalDuty, inputs: &[Input], number: u32) -> Option<Signs> {
    let mut signs = Signs::of(alloc, duty.variables).ok()?;
    let mut rest = number;
    for input in inputs {
        for k in 0..8 {
            let bit = k < input.bits && (rest >> k) % 2 == 1;
            signs.set(input.first.checked_add(k)?, bit)?;
        }
        rest = if input.bits < 32 {
            rest >> input.bits
        } else {
            0
        };
    }
    signs.resolve(duty.without_goal())?;
    if signs.are_all_set() {
        Some(signs)
    } else {
        None
    }
}
