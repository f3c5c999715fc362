//! Reads tests, and files of them.
ghost use Rattle.std.specs.Prelude.{◌≡◌, ◌≤◌, ◌↔◌, IfOk, length, option_map};
ghost use Rattle.outcomes.specs.Answering.{Answers, Gives};
ghost use Rattle.serde_json.specs.Errors.{IsMemory};
ghost use Rattle.serde_json.specs.View.{items_view, view};
ghost use Rattle.tests_text.specs.Reading as reading;
ghost use Rattle.tests_text.specs.ReadingTests as tests;
ghost use Rattle.tests_text.specs.TestFiles.{IsTestsRefusal, IsTestsText};
ghost use Rattle.tests_text.specs.declared.refusal.TestRefusal.{TestRefusal};
ghost use Rattle.tests_text.specs.declared.test.Tests.{Tests};

use crate::memory::{bytes_of, pieces_of, size_of};
use crate::refusal::TestRefusal;
use crate::register::registers_of;
use crate::shape::{Kind, is_object};
use crate::test::{Test, Tests};
use crate::vector::vectors_of;
use serde_json::{Error, Value};
use sqlite_items::Items;
use std::alloc::Global;

// How many bytes a test may name, and how many tests a file may have.
const MOST_BYTES: u64 = 65536;

const MOST_TESTS: usize = 64;

// The pieces of a test, and how many bytes they have.
fn sized_pieces(value: &Value) -> Option<(&[Value], u64)>
    ensures { option_map (λ p. (items_view p.0.now, p.1)) result ≡ reading.sized_pieces (view value.now) }
{
    let pieces = pieces_of(value.get("mem"))?;
    let size = size_of(pieces)?;
    Some((pieces, size))
}

// Test `k`.
#[tactic(auto, unfolding(crate::specs::ReadingTests::test_of, crate::specs::Reading::parts_of))]
fn test_of(alloc: Global, k: u32, value: &Value) -> Result<Test, TestRefusal>
    requires { k ≤ 64 }
    ensures { Gives TestRefusal.Memory result (tests.test_of k (view value.now)) }
{
    let bad = TestRefusal::BadShape(k);
    if !is_object(Kind::Test, value) {
        return Err(bad);
    }
    let Some(regs) = registers_of(u64::from(k), value.get("regs")) else {
        return Err(bad);
    };
    let Some(vecs) = vectors_of(u64::from(k), value.get("ymm")) else {
        return Err(bad);
    };
    let Some((pieces, size)) = sized_pieces(value) else {
        return Err(bad);
    };
    if size > MOST_BYTES {
        return Err(TestRefusal::TooManyBytes(k));
    }
    let Some(bytes) = bytes_of(alloc, pieces)? else {
        return Err(bad);
    };
    Ok(Test { regs, vecs, bytes })
}

// Tests, numbered from 1.
fn tests_of(alloc: Global, values: &[Value]) -> Result<Items<Test>, TestRefusal>
    requires { length values.now ≤ 64 }
    ensures { Gives TestRefusal.Memory result (tests.tests_from 1 (items_view values.now)) }
{
    let mut tests = Items::new(alloc);
    let mut k = 0u32;
    for value in values {
        k += 1;
        let test = test_of(alloc, k, value)?;
        tests.push(test)?;
    }
    Ok(tests)
}

// The list that is the member `tests` of an outer value.
#[tactic(auto, unfolding(crate::specs::Reading::outer_of))]
fn outer_of(value: &Value) -> Option<&[Value]>
    ensures { option_map (λ v. items_view v.now) result ≡ reading.outer_of (view value.now) }
{
    if !is_object(Kind::File, value) {
        return None;
    }
    Some(value.get("tests")?.as_array()?.as_slice())
}

// The tests of a JSON value.
#[tactic(auto, unfolding(crate::specs::ReadingTests::file_of))]
fn file_of(alloc: Global, value: &Value) -> Result<Tests, TestRefusal>
    ensures { Gives TestRefusal.Memory result (tests.file_of (view value.now)) }
{
    let Some(values) = outer_of(value) else {
        return Err(TestRefusal::BadShape(0));
    };
    if values.len() > MOST_TESTS {
        return Err(TestRefusal::TooMany);
    }
    let tests = tests_of(alloc, values)?;
    Ok(Tests { tests })
}

/// The tests that a file spells, or its first fault.
///
/// The file is JSON: an object with exactly the member `tests`, a list of at most 64 tests. Where
/// memory is wanted and not found, that is the refusal.
pub fn read_tests(alloc: Global, bytes: &[u8]) -> Result<Tests, TestRefusal>
    // What is answered is so ..
    ensures exact { Answers TestRefusal.Memory (IsTestsText bytes.now) (IsTestsRefusal bytes.now) result }

    // .. and what is so is answered.
    ensures only { (tests : Tests) → IsTestsText bytes.now tests → Gives TestRefusal.Memory result (Ok tests) }
    ensures refused { (e : TestRefusal) → IsTestsRefusal bytes.now e → Gives TestRefusal.Memory result (Err e) }
{
    match Value::from_slice(alloc, bytes) {
        Ok(value) => file_of(alloc, &value),
        Err(failed) => Err(unread(&failed)),
    }
}

// Why a text was not read as JSON.
fn unread(failed: &Error) -> TestRefusal
    ensures memory { (result ≡ TestRefusal.Memory) ↔ IsMemory failed.now }
    ensures not_json { (result ≡ TestRefusal.NotJson) ↔ (IsMemory failed.now → ⊥) }
{
    if failed.is_memory() {
        TestRefusal::Memory
    } else {
        TestRefusal::NotJson
    }
}
