//! One case: a command over files in memory, and how it has to end.
use crate::fields::spelled;
use align_base::{MemShelf, MemSink, OpenGate, Word};
use align_cli::align_main;
use outcomes::Memory;
use std::alloc::Global;
use std::thread::Threads;

/// How a case ended.
#[derive(Clone, Copy)]
pub(crate) enum Outcome {
    Right,
    WrongStatus,
    WrongReport,
    Unreadable,
}

/// The arguments of a line, with one space between them.
fn arguments_of(alloc: Global, line: &[u8]) -> Result<Vec<Word>, Memory> {
    let mut arguments = Vec::new(alloc);
    if line.is_empty() {
        return Ok(arguments);
    }
    for argument in line.split(|byte| *byte == b' ') {
        arguments.push(Word::new(alloc, argument)?)?;
    }
    Ok(arguments)
}

/// The files of the fields behind the first six, which are names and texts in turn.
fn files_of(alloc: Global, line: &str) -> Result<Vec<(Word, Vec<u8>)>, Memory> {
    let mut files = Vec::new(alloc);
    let mut name: Option<&str> = None;
    for field in line.split('\t').skip(6) {
        match name {
            None => name = Some(field),
            Some(known) => {
                files.push((Word::new(alloc, known.as_bytes())?, spelled(alloc, field)?))?;
                name = None;
            }
        }
    }
    Ok(files)
}

/// The numbers of a field, with one comma between them; `-` for none.
fn numbers_of(alloc: Global, field: &str) -> Result<Vec<u64>, Memory> {
    let mut numbers = Vec::new(alloc);
    for word in field.split(',') {
        if let Ok(number) = word.parse::<u64>() {
            numbers.push(number)?;
        }
    }
    Ok(numbers)
}

/// How the case of a line ended. Its fields, with a tabulator between them, are: a name, the
/// arguments, the numbers of the calls of the shelf that fail, those of the sink, the status, the
/// report, and then the name and the text of each file.
pub(crate) fn outcome_of<R: Threads + Sync>(
    rt: &R,
    alloc: Global,
    line: &str,
) -> Result<Outcome, Memory> {
    let mut fields = line.split('\t').skip(1);
    let (Some(arguments), Some(shelf_fails), Some(sink_fails)) = (
        fields.next(),
        fields.next(),
        fields.next(),
    ) else {
        return Ok(Outcome::Unreadable);
    };
    let (Some(status), Some(report)) = (fields.next(), fields.next()) else {
        return Ok(Outcome::Unreadable);
    };
    let arguments = arguments_of(alloc, spelled(alloc, arguments)?.as_slice())?;
    let mut shelf = MemShelf::new(files_of(alloc, line)?, numbers_of(alloc, shelf_fails)?);
    let mut sink = MemSink::new(alloc, numbers_of(alloc, sink_fails)?);
    let ended = align_main(
        rt,
        alloc,
        arguments.as_slice(),
        &OpenGate,
        &mut shelf,
        &mut sink,
    );
    if status.parse::<u8>() != Ok(ended.code()) {
        return Ok(Outcome::WrongStatus);
    }
    if sink.written() == spelled(alloc, report)?.as_slice() {
        Ok(Outcome::Right)
    } else {
        Ok(Outcome::WrongReport)
    }
}
