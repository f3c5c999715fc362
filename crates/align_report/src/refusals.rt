//! The refusals of files and of what they hold.
ghost use Rattle.std.specs.Prelude.{◌≡◌, string_bytes, IfOk};
ghost use Rattle.align_report.specs.Refusals.{admission_refusal, kind_name, large_refusal, line_refusal, lone_file, named_refusal, test_named, tests_named, tests_refusal, unplain_refusal};

use admission::AdmitRefusal;
use std::alloc::{AllocError, Global};
use tests_text::TestRefusal;
use text_lines::{ReadKind, ReadRefusal};

/// What refusals call a fault of a text.
fn kind_name(kind: ReadKind) -> &'static str
    ensures { result.now ≡ kind_name kind }
{
    match kind {
        ReadKind::Memory => "memory",
        ReadKind::NotUtf8 => "not-utf8",
        ReadKind::LineLong => "line-long",
        ReadKind::NoFunction => "no-function",
        ReadKind::TwiceLabel => "twice-label",
        ReadKind::DataInBody => "data-in-body",
        ReadKind::UnknownInstruction => "unknown-instruction",
        ReadKind::PoolRefused => "pool-refused",
        ReadKind::BadOperand => "bad-operand",
        ReadKind::BadNumber => "bad-number",
        ReadKind::UnknownLabel => "unknown-label",
        ReadKind::TooManyInsns => "too-many-insns",
        ReadKind::FallsOff => "falls-off",
    }
}

/// What reports call the file of a command that takes one function.
pub fn lone_file() -> &'static str
    ensures { result.now ≡ lone_file }
{
    "left"
}

/// A refusal at a line, by what the file and the fault are called.
#[tactic(auto, unfolding(crate::specs::Refusals::named_refusal))]
fn named_refusal(alloc: Global, file: &str, line: u32, name: &str) -> Result<String, AllocError>
    ensures { IfOk result (λ text. string_bytes text ≡ named_refusal file.now line name.now) }
{
    let mut text = String::from_str(alloc, "refused ")?;
    text.push_str(file)?;
    write!(text, " line {line} ")?;
    text.push_str(name)?;
    text.push_str("\n")?;
    Ok(text)
}

/// The refusal of a function's text, by what its file is called, at the line of its first fault.
pub fn line_refusal(alloc: Global, file: &str, refusal: ReadRefusal) -> Result<String, AllocError>
    ensures { IfOk result (λ text. string_bytes text ≡ line_refusal file.now refusal.line refusal.kind) }
{
    named_refusal(alloc, file, refusal.line, kind_name(refusal.kind))
}

/// The refusal of a function that is not plain, by what its file is called, at the line of its first
/// instruction that is not.
pub fn unplain_refusal(alloc: Global, file: &str, line: u32) -> Result<String, AllocError>
    ensures { IfOk result (λ text. string_bytes text ≡ unplain_refusal file.now line) }
{
    named_refusal(alloc, file, line, "not-plain")
}

/// The refusal of an admission.
pub fn admission_refusal(alloc: Global, refusal: AdmitRefusal) -> Result<String, AllocError>
    ensures { IfOk result (λ text. string_bytes text ≡ admission_refusal refusal) }
{
    match refusal {
        AdmitRefusal::BadLine(line) => named_refusal(alloc, "admit", line, "bad-line"),
        AdmitRefusal::TooMany(line) => named_refusal(alloc, "admit", line, "too-many"),
        AdmitRefusal::NoLive => named_refusal(alloc, "admit", 0, "no-live"),
        AdmitRefusal::Memory => named_refusal(alloc, "admit", 0, "memory"),
    }
}

/// The refusal of all tests, by what the fault is called.
#[tactic(auto, unfolding(crate::specs::Refusals::tests_named))]
fn tests_named(alloc: Global, name: &str) -> Result<String, AllocError>
    ensures { IfOk result (λ text. string_bytes text ≡ tests_named name.now) }
{
    let mut text = String::from_str(alloc, "refused tests ")?;
    text.push_str(name)?;
    text.push_str("\n")?;
    Ok(text)
}

/// The refusal of a test, by its number and what the fault is called.
#[tactic(auto, unfolding(crate::specs::Refusals::test_named))]
fn test_named(alloc: Global, number: u32, name: &str) -> Result<String, AllocError>
    ensures { IfOk result (λ text. string_bytes text ≡ test_named number name.now) }
{
    let mut text = format!(in alloc; "refused tests test {number} ")?;
    text.push_str(name)?;
    text.push_str("\n")?;
    Ok(text)
}

/// The refusal of tests.
pub fn tests_refusal(alloc: Global, refusal: TestRefusal) -> Result<String, AllocError>
    ensures { IfOk result (λ text. string_bytes text ≡ tests_refusal refusal) }
{
    match refusal {
        TestRefusal::NotJson => tests_named(alloc, "not-json"),
        TestRefusal::BadShape(number) => test_named(alloc, number, "bad-shape"),
        TestRefusal::TooMany => tests_named(alloc, "too-many"),
        TestRefusal::TooManyBytes(number) => test_named(alloc, number, "too-many-bytes"),
        TestRefusal::Memory => tests_named(alloc, "memory"),
    }
}

/// The refusal of a file of more bytes than the limit, of which so many were read, by what the file is
/// called.
#[tactic(auto, unfolding(crate::specs::Refusals::large_refusal))]
pub fn large_refusal(alloc: Global, file: &str, seen: u64) -> Result<String, AllocError>
    ensures { IfOk result (λ text. string_bytes text ≡ large_refusal file.now seen) }
{
    let mut text = String::from_str(alloc, "refused ")?;
    text.push_str(file)?;
    write!(text, " large {seen}\n")?;
    Ok(text)
}
