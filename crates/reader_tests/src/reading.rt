//! Reads the function `f` of a text.
use align_base::Word;
use att_reader::{ReadKind, ReadRefusal, read_function};
use std::alloc::Global;

/// How many instructions the function `f` of the text has, or why the text is refused.
pub(crate) fn count_in(alloc: Global, text: &[u8]) -> Result<usize, ReadRefusal> {
    let name = Word::new(alloc, b"f")?;
    let f = read_function(alloc, text, &name)?;
    Ok(f.insns.len())
}

/// A text that is refused at this line.
#[derive(Clone, Copy)]
pub(crate) struct Wrong {
    pub text: &'static [u8],
    pub line: u32,
    pub kind: ReadKind,
}

/// A text that is refused at this line.
pub(crate) fn refused_at(text: &'static [u8], line: u32, kind: ReadKind) -> Wrong {
    Wrong { text, line, kind }
}

/// The first of these texts that is not refused as it says: how many there are, if none.
pub(crate) fn first_other(alloc: Global, cases: &[Wrong]) -> usize {
    for (k, case) in cases.iter().enumerate() {
        let told = ReadRefusal {
            line: case.line,
            kind: case.kind,
        };
        if count_in(alloc, case.text) != Err(told) {
            return k;
        }
    }
    cases.len()
}

/// The first of these texts that has not so many instructions: how many there are, if none.
pub(crate) fn first_other_count(alloc: Global, cases: &[(&'static [u8], usize)]) -> usize {
    for (k, (text, count)) in cases.iter().enumerate() {
        if count_in(alloc, *text) != Ok(*count) {
            return k;
        }
    }
    cases.len()
}
