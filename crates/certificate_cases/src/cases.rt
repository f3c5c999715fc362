//! The cases, and how many of them are answered in each way.
//!
//! Fields of a line are separated by tabulators. A line `base TEXT` gives a text, and a line `ANSWER BEGIN END BYTES`
//! behind it a case: this text with BYTES in place of its bytes from BEGIN to END. ANSWER is `ok`, `version`,
//! `truncated` or the number of the line that is wrong.
use crate::answer::{Answer, answer_again};
use certificate_file::CertRefusal;
use std::alloc::{AllocError, Global};

/// How many texts were answered in each way, and how many otherwise than they have to be.
#[derive(Clone, Copy, Debug, Default)]
pub(crate) struct Counts {
    pub ok: u64,
    pub version: u64,
    pub truncated: u64,
    pub bad_line: u64,
    pub wrong: u64,
}

/// The byte that a byte of a field spells.
fn spelled(byte: u8) -> u8 {
    match byte {
        b'/' => b'\n',
        b'~' => b'\r',
        b'%' => b'\t',
        b'^' => 255,
        _ => byte,
    }
}

/// Appends what a field spells.
fn push_field(text: &mut Vec<u8>, field: &str) -> Result<(), AllocError> {
    for byte in field.as_bytes() {
        text.push(spelled(*byte))?;
    }
    Ok(())
}

/// The answer that this word asks for.
fn asked(word: &str) -> Option<Answer> {
    match word {
        "ok" => Some(Answer::Ok),
        "version" => Some(Answer::Refused(CertRefusal::Version)),
        "truncated" => Some(Answer::Refused(CertRefusal::Truncated)),
        _ => match word.parse::<u32>() {
            Ok(line) => Some(Answer::Refused(CertRefusal::BadLine(line))),
            Err(_) => None,
        },
    }
}

/// A case: its text, and what it has to be answered.
#[derive(Drop)]
struct Case {
    text: Vec<u8>,
    asked: Answer,
}

/// The case of a line over this base, where the line spells one.
fn case_of(alloc: Global, base: &[u8], line: &str) -> Result<Option<Case>, AllocError> {
    let mut fields = line.split('\t');
    let (Some(word), Some(begin), Some(end), Some(change)) = (
        fields.next(),
        fields.next(),
        fields.next(),
        fields.next(),
    ) else {
        return Ok(None);
    };
    let (Some(asked), Ok(begin), Ok(end)) = (
        asked(word),
        begin.parse::<usize>(),
        end.parse::<usize>(),
    ) else {
        return Ok(None);
    };
    if begin > end || end > base.len() {
        return Ok(None);
    }
    let mut text = Vec::from_slice(alloc, &base[..begin])?;
    push_field(&mut text, change)?;
    text.extend_from_slice(&base[end..])?;
    Ok(Some(Case { text, asked }))
}

/// Counts an answer.
fn count(counts: &mut Counts, answer: Answer) {
    match answer {
        Answer::Ok => counts.ok = counts.ok.saturating_add(1),
        Answer::Refused(CertRefusal::Version) => counts.version = counts.version.saturating_add(1),
        Answer::Refused(CertRefusal::Truncated) => {
            counts.truncated = counts.truncated.saturating_add(1);
        }
        Answer::Refused(CertRefusal::BadLine(_)) => {
            counts.bad_line = counts.bad_line.saturating_add(1);
        }
        Answer::Refused(CertRefusal::Memory) | Answer::Otherwise => {}
    }
}

/// How many of the cases of these lines are answered in each way. A line that spells none is wrong.
pub(crate) fn counted(alloc: Global, lines: &str) -> Result<Counts, AllocError> {
    let mut counts = Counts::default();
    let mut base = Vec::new(alloc);
    for line in lines.lines() {
        if let Some(text) = line.strip_prefix("base\t") {
            base.clear();
            push_field(&mut base, text)?;
            continue;
        }
        let mut right = false;
        if let Some(case) = case_of(alloc, base.as_slice(), line)? {
            let answer = answer_again(alloc, case.text.as_slice())?;
            count(&mut counts, answer);
            right = answer == case.asked;
        }
        if !right {
            counts.wrong = counts.wrong.saturating_add(1);
        }
    }
    Ok(counts)
}
