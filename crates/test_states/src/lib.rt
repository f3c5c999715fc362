//! Start states of tests.
//!
//! `load` makes the start state of a test under an admission: the test's registers and vectors, the
//! bytes that it names, every other byte 0, and the regions and stack bytes that the admission gives
//! at these registers. It is refused where the registers are not admitted, where regions and stack
//! bytes are more than 65,536, or where the test names a byte of no region.
//!
//! ```text
//! let mut state = load(alloc, &admission, &test)?;
//! match state.run(&function, 20_000) { .. }
//! ```
#![tactic(auto)]

mod choosing;
mod range;
mod ranges;
mod refusal;
mod spans;
mod starts;

pub use range::Range;
pub use refusal::LoadRefusal;
pub use starts::{address_ranges, load};
pub use tests_text::{Test, TestRefusal, Tests, read_tests};
