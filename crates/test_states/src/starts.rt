//! Start states of tests.
ghost use Rattle.std.specs.Prelude.{◌≡◌, ◌+◌, ◌^◌, ◌<◌, ◌≤◌, ℕ, Err, IfErr, IfOk, slice_index};
ghost use Rattle.outcomes.specs.Answering.{Answers, Gives};
ghost use Rattle.machine.specs.Kept.{pure_of};
ghost use Rattle.machine.specs.Machine.{IsStart};
ghost use Rattle.admission.specs.Admitted.{IsAdmitted, regions_of};
ghost use Rattle.admission.specs.WellFormed.{IsWellFormed};
ghost use Rattle.admitted_starts.specs.AdmittedStarts.{IsAdmittedStart};
ghost use Rattle.test_states.specs.Loads.{IsRefused, LoadsAs};
ghost use Rattle.test_states.specs.Ranges.{AreApart, in_either, is_covered};
ghost use Rattle.test_states.specs.Starts.{IsInRegion, IsLoadable, IsNamed, start_of};
ghost use Rattle.test_states.specs.declared.refusal.LoadRefusal.{LoadRefusal};

use crate::choosing::{is_large, least_outside};
use crate::range::Range;
use crate::ranges::ranges_of;
use crate::refusal::LoadRefusal;
use crate::spans::spans_of;
use admission::Admission;
use machine::{Region, State};
use outcomes::Memory;
use std::alloc::Global;
use tests_text::Test;

// The number of rsp.
const STACK_POINTER: usize = 4;

// The regions of an admission at entry registers.
fn regions_at(alloc: Global, admission: &Admission, regs: &[u64; 16]) -> Result<Vec<Region>, Memory>
    requires { IsWellFormed admission.now }
    ensures { IfOk result (λ regions. regions.items ≡ regions_of regs.now admission.now) }
{
    let mut regions = Vec::new(alloc);
    for i in 0..admission.regions.len() {
        let region = admission.region_at(regs, i as u32);
        regions.push(region)?;
    }
    Ok(regions)
}

/// The ranges, in order and apart, of the addresses of the regions of a test's start state and of its
/// stack range.
pub fn address_ranges(
    alloc: Global,
    admission: &Admission,
    test: &Test,
) -> Result<Vec<Range>, Memory>
    requires { IsWellFormed admission.now }
    ensures apart { IfOk result (λ ranges. AreApart 0 ranges.items (2 ^ 64 + 1)) }
    ensures covered { IfOk result (λ ranges. (x : ℕ) → x < 2 ^ 64 → is_covered ranges.items x
        ≡ in_either (slice_index test.now.regs 4) admission.now.stack (regions_of test.now.regs admission.now) x) }
{
    let regions = regions_at(alloc, admission, &test.regs)?;
    let base = test.regs[STACK_POINTER].wrapping_sub(admission.stack);
    ranges_of(alloc, &regions, base, admission.stack + 8)
}

// The start state of a test whose registers are admitted and whose named bytes lie in regions.
fn start_state(
    alloc: Global,
    admission: &Admission,
    test: &Test,
    regions: Vec<Region>,
) -> Result<State, Memory>
    requires formed { IsWellFormed admission.now }
    requires admitted { IsAdmitted admission.now test.now.regs }
    requires inside { (at : ℕ) → IsNamed test.now at → IsInRegion admission.now test.now at }
    requires regions { regions.items ≡ regions_of test.now.regs admission.now }
    ensures pure { IfOk result (λ state. pure_of state ≡ start_of admission.now test.now) }
    ensures start { IfOk result (λ state. IsStart (pure_of state)) }
{
    let stack = admission.stack;
    let base = test.regs[STACK_POINTER].wrapping_sub(stack);
    let ranges = ranges_of(alloc, &regions, base, stack + 8)?;
    let spans = spans_of(alloc, &ranges, test.bytes.as_slice())?;
    Ok(State::new(test.regs, test.vecs, spans, regions, stack))
}

// The start state of a test, or the first reason for which it has none.
fn loaded(alloc: Global, admission: &Admission, test: &Test) -> Result<State, LoadRefusal>
    requires { IsWellFormed admission.now }
    ensures exact { Answers LoadRefusal.Memory (LoadsAs admission.now test.now)
        (IsRefused admission.now test.now) result }
    ensures start { IfOk result (λ state. IsStart (pure_of state)) }
    ensures not_admitted { IsRefused admission.now test.now LoadRefusal.NotAdmitted
        → result ≡ Err LoadRefusal.NotAdmitted }
{
    if !admission.admits(&test.regs) {
        return Err(LoadRefusal::NotAdmitted);
    }
    let regions = regions_at(alloc, admission, &test.regs)?;
    if is_large(&regions, admission.stack) {
        return Err(LoadRefusal::RegionsLarge);
    }
    if let Some(at) = least_outside(&regions, test.bytes.as_slice()) {
        return Err(LoadRefusal::ByteOutside(at));
    }
    let state = start_state(alloc, admission, test, regions)?;
    Ok(state)
}

/// The start state of a test under an admission, or the first reason for which it has none.
///
/// Out of memory is a refusal of its own, once the registers are admitted.
pub fn load(alloc: Global, admission: &Admission, test: &Test) -> Result<State, LoadRefusal>
    requires { IsWellFormed admission.now }

    // What is answered is so ..
    ensures exact { Answers LoadRefusal.Memory (LoadsAs admission.now test.now)
        (IsRefused admission.now test.now) result }
    ensures admitted { IfOk result (λ state. IsAdmittedStart admission.now (pure_of state)) }

    // .. and what is so is answered.
    ensures loaded { IsLoadable admission.now test.now → IfErr result (λ e. e ≡ LoadRefusal.Memory) }
    ensures refused { (e : LoadRefusal) → IsRefused admission.now test.now e
        → Gives LoadRefusal.Memory result (Err e) }

    // Registers that are not admitted are refused before any memory is wanted.
    ensures not_admitted { IsRefused admission.now test.now LoadRefusal.NotAdmitted
        → result ≡ Err LoadRefusal.NotAdmitted }
{
    loaded(alloc, admission, test)
}
