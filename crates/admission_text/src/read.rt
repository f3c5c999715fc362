//! Reads whole texts.
ghost use Rattle.std.specs.Prelude.{◌≡◌, ◌≤◌, length, IfOk};
ghost use Rattle.outcomes.specs.Answering.{Answers, Gives};
ghost use Rattle.text_parts.specs.Cuts.{parts};
ghost use Rattle.admission_text.specs.Grammar.{is_skipped};
ghost use Rattle.admission_text.specs.ReadingLines as lines;
ghost use Rattle.admission_text.specs.Refusals.{IsAdmissionRefusal};
ghost use Rattle.admission_text.specs.Entries.{IsAdmissionText};
ghost use Rattle.admission.specs.declared.refusal.AdmitRefusal.{AdmitRefusal};
ghost use Rattle.admission.specs.declared.admission.Admission.{Admission};
ghost use Rattle.admission.specs.WellFormed.{IsWellFormed};

use crate::entry::{Draft, Entry};
use crate::line::entry_of;
use admission::{Admission, AdmitRefusal};
use std::alloc::Global;
use text_parts::first_part;

// Whether a line is empty or a comment.
fn is_skipped(line: &[u8]) -> bool
    ensures { result ≡ is_skipped line.now }
{
    match line {
        [] => true,
        [first, ..] => *first == b'#',
    }
}

// The draft behind a line of this number, which spells this.
fn judged(line: u32, draft: Draft, entry: Option<Entry>) -> Result<Draft, AdmitRefusal>
    requires { length draft.admission.regions ≤ 8 }
    ensures gives { Gives AdmitRefusal.Memory result (lines.judged line draft entry) }
    ensures few { IfOk result (λ d. length d.admission.regions ≤ 8) }
{
    let Some(entry) = entry else {
        return Err(AdmitRefusal::BadLine(line));
    };
    if draft.is_over(&entry) {
        return Err(AdmitRefusal::TooMany(line));
    }
    let draft = draft.with_entry(entry)?;
    Ok(draft)
}

// The draft behind a line of this number.
#[tactic(auto, unfolding(crate::specs::ReadingLines::behind_line))]
fn behind_line(alloc: Global, line: u32, draft: Draft, text: &[u8]) -> Result<Draft, AdmitRefusal>
    requires { length draft.admission.regions ≤ 8 }
    ensures gives { Gives AdmitRefusal.Memory result (lines.behind_line line draft text.now) }
    ensures few { IfOk result (λ d. length d.admission.regions ≤ 8) }
{
    if is_skipped(text) {
        return Ok(draft);
    }
    let entry = entry_of(alloc, &draft, text)?;
    judged(line, draft, entry)
}

// The draft behind all lines of a text.
fn behind_lines(alloc: Global, text: &[u8]) -> Result<Draft, AdmitRefusal>
    ensures { Gives AdmitRefusal.Memory result (lines.behind_lines 0 lines.no_draft (parts 10 text.now)) }
{
    let mut draft = Draft::new(alloc);
    let mut number = 0u32;
    let mut left = Some(text);
    while let Some(rest) = left {
        let (line, more) = first_part(rest, b'\n');
        number = number.saturating_add(1);
        draft = behind_line(alloc, number, draft, line)?;
        left = more;
    }
    Ok(draft)
}

// The admission that a text spells, or its first fault.
#[tactic(auto, unfolding(crate::specs::ReadingLines::admission_of))]
fn admission_of(alloc: Global, text: &[u8]) -> Result<Admission, AdmitRefusal>
    ensures { Gives AdmitRefusal.Memory result (lines.admission_of text.now) }
{
    let draft = behind_lines(alloc, text)?;
    if !draft.lived {
        return Err(AdmitRefusal::NoLive);
    }
    Ok(draft.admission)
}

/// The admission that a text spells, or its first fault.
///
/// The text is lines of words, which single spaces separate; empty lines and lines that begin with `#`
/// are skipped. The first line is `admit 1`, and one of those behind it is `live`. Where memory is
/// wanted and not found, that is the refusal.
pub fn read_admission(alloc: Global, text: &[u8]) -> Result<Admission, AdmitRefusal>
    // What is answered is so ..
    ensures exact { Answers AdmitRefusal.Memory (IsAdmissionText text.now) (IsAdmissionRefusal text.now) result }

    // .. and what is so is answered.
    ensures only { (a : Admission) → IsAdmissionText text.now a → Gives AdmitRefusal.Memory result (Ok a) }
    ensures refused { (e : AdmitRefusal) → IsAdmissionRefusal text.now e → Gives AdmitRefusal.Memory result (Err e) }

    ensures formed { IfOk result IsWellFormed }
{
    admission_of(alloc, text)
}
