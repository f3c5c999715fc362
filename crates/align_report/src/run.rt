//! The report of runs.
ghost use Rattle.std.specs.Prelude.{◌≡◌, ◌++◌, IfOk, OnOk, string_bytes};
ghost use Rattle.insn_table.specs.Closed.{IsClosed};
ghost use Rattle.machine.specs.Kept.{pure_of};
ghost use Rattle.admission.specs.WellFormed.{IsWellFormed};
ghost use Rattle.test_states.specs.Starts.{IsLoadable, start_of};
ghost use Rattle.align_report.specs.RunReport as report;
ghost use Rattle.align_report.specs.RunReport.{IsRunReport, test_line};
ghost use Rattle.align_report.specs.Telling.{AppendsTest};

use crate::changes::push_changes;
use crate::outputs::push_outputs;
use admission::Admission;
use insn_table::Function;
use machine::{RunEnd, State, step_frame_law};
use outcomes::Memory;
use std::alloc::{AllocError, Global};
use test_states::{LoadRefusal, Test, Tests, address_ranges, load};

// Appends what the line of a test says of its run.
fn push_end(out: &mut String, end: RunEnd) -> Result<(), AllocError>
    ensures { OnOk result (string_bytes out.new ≡ string_bytes out.old ++ report.end_name end) }
{
    match end {
        RunEnd::Returned(n) => write!(out, "returned {n}"),
        RunEnd::Faulted(n) => write!(out, "faulted {n}"),
        RunEnd::Unset(n) => write!(out, "unset {n}"),
        RunEnd::Running => out.push_str("running"),
    }
}

// Appends the line of a test that was run.
#[tactic(auto, unfolding(crate::specs::RunReport::test_line))]
fn push_ended(out: &mut String, k: u64, end: RunEnd) -> Result<(), AllocError>
    ensures { OnOk result (string_bytes out.new ≡ string_bytes out.old ++ test_line k (report.end_name end)) }
{
    write!(out, "test {k} ")?;
    push_end(out, end)?;
    out.push_str("\n")?;
    Ok(())
}

// Appends the line of a test that has no start state.
#[tactic(auto, unfolding(crate::specs::RunReport::test_line))]
fn push_refused(out: &mut String, k: u64, name: &str) -> Result<(), Memory>
    ensures { OnOk result (string_bytes out.new ≡ string_bytes out.old ++ test_line k name.now) }
{
    write!(out, "test {k} ")?;
    out.push_str(name)?;
    out.push_str("\n")?;
    Ok(())
}

// Appends the report of a test that is run from its start state.
fn push_run(
    alloc: Global,
    out: &mut String,
    f: &Function,
    admission: &Admission,
    test: &Test,
    k: u64,
    start: &State,
    steps: u64,
) -> Result<(), Memory>
    requires closed { IsClosed f.now.insns }
    requires formed { IsWellFormed admission.now }
    requires loadable { IsLoadable admission.now test.now }
    requires start { pure_of start.now ≡ start_of admission.now test.now }
    ensures { OnOk result (AppendsTest f.now admission.now steps k test.now (string_bytes out.old) (string_bytes out.new)) }
{
    let mut state = start.copy(alloc)?;
    let end = state.run(f, steps);
    push_ended(out, k, end)?;
    if let RunEnd::Returned(_) = end {
        push_outputs(out, &state, admission.live.as_slice())?;
        let ranges = address_ranges(alloc, admission, test)?;
        step_frame_law();
        push_changes(out, start, &state, &ranges)?;
    }
    Ok(())
}

// Appends the report of test `k`.
fn push_test(
    alloc: Global,
    out: &mut String,
    f: &Function,
    admission: &Admission,
    test: &Test,
    k: u64,
    steps: u64,
) -> Result<(), Memory>
    requires closed { IsClosed f.now.insns }
    requires formed { IsWellFormed admission.now }
    ensures { OnOk result (AppendsTest f.now admission.now steps k test.now (string_bytes out.old) (string_bytes out.new)) }
{
    match load(alloc, admission, test) {
        Ok(start) => push_run(alloc, out, f, admission, test, k, &start, steps),
        Err(LoadRefusal::NotAdmitted) => push_refused(out, k, "not-admitted"),
        Err(LoadRefusal::RegionsLarge) => push_refused(out, k, "large"),
        Err(LoadRefusal::ByteOutside(_)) => push_refused(out, k, "byte-outside"),
        Err(LoadRefusal::Memory) => Err(Memory),
    }
}

/// The report of a run of at most `steps` steps of a function under each test.
pub fn run_text(
    alloc: Global,
    f: &Function,
    admission: &Admission,
    tests: &Tests,
    steps: u64,
) -> Result<String, Memory>
    requires closed { IsClosed f.now.insns }
    requires formed { IsWellFormed admission.now }
    ensures { IfOk result (λ report. IsRunReport f.now admission.now tests.now steps (string_bytes report)) }
{
    let mut out = String::new(alloc);
    let mut k = 0u64;
    for test in tests.tests.as_slice() {
        k += 1;
        push_test(alloc, &mut out, f, admission, test, k, steps)?;
    }
    Ok(out)
}
