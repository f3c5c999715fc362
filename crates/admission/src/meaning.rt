//! What an admission says at entry registers.
ghost use Rattle.std.specs.Prelude.{◌≡◌, ◌%◌, ◌<◌, ◌≤◌, ◌↔◌, ◌^◌, ◌+◌, length, map, slice_get, slice_index, Some, IsTrue};
ghost use Rattle.std.specs.List.{AllByRecursion, list_all};
ghost use Rattle.admission.specs.Admitted as spec;
ghost use Rattle.admission.specs.Tests as tests;
ghost use Rattle.admission.specs.declared.admission.RegionLine.{RegionLine};
ghost use Rattle.admission.specs.WellFormed.{AreBounds, IsNeed, IsWellFormed};

use crate::admission::{Admission, Need, RegionLine, Rel};
use memory_spans::Region;

// 2^63: what turns the signed order into the unsigned one.
const HALF: u64 = 1 << 63;

// The number of rsp.
const STACK_POINTER: usize = 4;

// Whether two numbers stand in a relation.
fn are_related(rel: Rel, a: u64, b: u64) -> bool
    ensures { result ≡ tests.are_related rel a b }
{
    match rel {
        Rel::Eq => a == b,
        Rel::Ne => a != b,
        Rel::Lt => a < b,
        Rel::Le => a <= b,
        Rel::Slt => a.wrapping_add(HALF) < b.wrapping_add(HALF),
        Rel::Sle => a.wrapping_add(HALF) <= b.wrapping_add(HALF),
    }
}

// Whether a need is met.
fn is_met(need: &Need, regs: &[u64; 16]) -> bool
    requires { IsNeed need.now }
    ensures { result ≡ tests.is_met regs.now need.now }
{
    match need {
        Need::Compare { a, rel, b } => are_related(*rel, a.value(regs), b.value(regs)),
        Need::Modulo { a, m, r } => a.value(regs) % *m == *r,
    }
}

// The region of a line.
fn region_of(line: &RegionLine, regs: &[u64; 16]) -> Region
    requires { AreBounds line.now.base line.now.len }
    ensures { result ≡ spec.region_of regs.now line.now }
{
    Region {
        base: line.base.value(regs),
        len: line.len.value(regs),
        write: line.write,
    }
}

// Whether a region ends at 2^64 at most.
fn fits(region: &Region) -> bool
    ensures { result ≡ tests.fits region.now }
{
    region.len == 0 || region.base <= u64::MAX - (region.len - 1)
}

// Whether the first `len` addresses from `base` on and the first `other_len` from `other` on share none.
fn is_clear(base: u64, len: u64, other: u64, other_len: u64) -> bool
    ensures { result ≡ tests.is_clear base len other other_len }
{
    len == 0
        || other_len == 0
        || other.wrapping_sub(base) >= len && base.wrapping_sub(other) >= other_len
}

// Whether a region ends at 2^64 at most, and shares no byte with the stack range.
fn is_placed(region: &Region, pointer: u64, stack: u64) -> bool
    requires { stack ≤ 4096 }
    ensures { result ≡ tests.is_placed pointer stack region.now }
{
    fits(region)
        && is_clear(
            region.base,
            region.len,
            pointer.wrapping_sub(stack),
            stack + 8,
        )
}

// Whether the regions of two numbers share no byte.
fn is_pair_apart(regions: &[RegionLine], pair: (u32, u32), regs: &[u64; 16]) -> bool
    requires lines { AllByRecursion (λ (r : RegionLine). AreBounds r.base r.len) regions.now }
    requires first { pair.0 < length regions.now }
    requires second { pair.1 < length regions.now }
    ensures { result ≡ tests.is_pair_apart (map (spec.region_of regs.now) regions.now) pair }
{
    let left = region_of(&regions[pair.0 as usize], regs);
    let right = region_of(&regions[pair.1 as usize], regs);
    is_clear(left.base, left.len, right.base, right.len)
}

// Whether each region is placed.
fn are_placed(regions: &[RegionLine], stack: u64, regs: &[u64; 16]) -> bool
    requires lines { AllByRecursion (λ (r : RegionLine). AreBounds r.base r.len) regions.now }
    requires small { stack ≤ 4096 }
    ensures { result ≡ list_all (tests.is_placed (slice_index regs.now 4) stack) (map (spec.region_of regs.now) regions.now) }
{
    for line in regions {
        if !is_placed(&region_of(line, regs), regs[STACK_POINTER], stack) {
            return false;
        }
    }
    true
}

// Whether each need is met.
fn are_met(needs: &[Need], regs: &[u64; 16]) -> bool
    requires { AllByRecursion IsNeed needs.now }
    ensures { result ≡ list_all (tests.is_met regs.now) needs.now }
{
    for need in needs {
        if !is_met(need, regs) {
            return false;
        }
    }
    true
}

// Whether each pair of regions shares no byte.
fn are_apart(admission: &Admission, regs: &[u64; 16]) -> bool
    requires { IsWellFormed admission.now }
    ensures { result ≡ list_all (tests.is_pair_apart (spec.regions_of regs.now admission.now)) admission.now.aparts }
{
    for pair in admission.aparts.as_slice() {
        if !is_pair_apart(admission.regions.as_slice(), *pair, regs) {
            return false;
        }
    }
    true
}

// Whether entry registers pass each test of an admission.
fn passes(admission: &Admission, regs: &[u64; 16]) -> bool
    requires { IsWellFormed admission.now }
    ensures { result ≡ tests.is_admitted admission.now regs.now }
{
    are_placed(admission.regions.as_slice(), admission.stack, regs)
        && are_met(admission.needs.as_slice(), regs)
        && are_apart(admission, regs)
}

impl Admission {
    /// Whether a start state with these entry registers is admitted: each region ends at 2^64 at most
    /// and shares no byte with the stack range, each need is met, and each pair of regions that must be
    /// apart is.
    pub fn admits(&self, regs: &[u64; 16]) -> bool
        requires { IsWellFormed self.now }
        ensures { IsTrue result ↔ spec.IsAdmitted self.now regs.now }
    {
        passes(self, regs)
    }

    /// Region `i` at these entry registers.
    pub fn region_at(&self, regs: &[u64; 16], i: u32) -> Region
        requires formed { IsWellFormed self.now }
        requires inside { i < length self.now.regions }
        ensures { slice_get (spec.regions_of regs.now self.now) i ≡ Some result }
    {
        region_of(&self.regions.as_slice()[i as usize], regs)
    }

    /// The base and the length of scratch line `i` at these entry registers.
    pub fn scratch_at(&self, regs: &[u64; 16], i: u32) -> (u64, u64)
        requires formed { IsWellFormed self.now }
        requires inside { i < length self.now.scratch }
        ensures { slice_get (spec.all_scratch regs.now self.now) i ≡ Some result }
    {
        let (base, len) = &self.scratch.as_slice()[i as usize];
        (base.value(regs), len.value(regs))
    }
}
