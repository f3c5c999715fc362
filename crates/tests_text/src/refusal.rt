//! Why a file is no file of tests.
ghost use Rattle.std.specs.Prelude.{◌≡◌};

use outcomes::Memory;
use std::alloc::AllocError;
use thiserror::Error;

/// The first fault of a file of tests. Tests are counted from 1.
#[derive(Clone, Copy, Debug, PartialEq, Eq, Error)]
pub enum TestRefusal {
    /// The file is no JSON.
    #[error("the tests are no JSON")]
    NotJson,
    /// The value of this test is not as it should be; 0 is the outer object.
    #[error("number {0} of the tests has another shape")]
    BadShape(u32),
    /// There are more than 64 tests.
    #[error("there are more than 64 tests")]
    TooMany,
    /// This test names more than 65,536 bytes of memory.
    #[error("number {0} of the tests names more than 65,536 bytes of memory")]
    TooManyBytes(u32),
    /// Out of memory.
    #[error("out of memory")]
    Memory,
}

impl From<Memory> for TestRefusal {
    ghost use Rattle.tests_text.specs.declared.refusal.TestRefusal.TheVariants as refusals;

    ghost from_gives = { λ _ e. e ≡ refusals.Memory };

    fn from(_failed: Memory) -> TestRefusal {
        TestRefusal::Memory
    }
}

impl From<AllocError> for TestRefusal {
    ghost use Rattle.tests_text.specs.declared.refusal.TestRefusal.TheVariants as refusals;

    ghost from_gives = { λ _ e. e ≡ refusals.Memory };

    fn from(_failed: AllocError) -> TestRefusal {
        TestRefusal::Memory
    }
}
