//! The texts that the commands give: reports, refusals and the usage.
//!
//! `run_text` runs a function under each of some tests and tells how each run ended, the live outputs
//! of those that returned, and the bytes of memory that they changed.
//!
//! ```text
//! let report = run_text(alloc, &function, &admission, &tests, 20_000)?;
//! ```
//!
//! gives, of a function that sums four words,
//!
//! ```text
//! test 1 returned 21
//! %eax 0xa
//! ```
#![tactic(auto)]

mod changes;
mod law;
mod outputs;
mod plain_report;
mod refusals;
mod run;
mod usage;

pub use law::run_report_law;
pub use plain_report::{different_text, equivalent_text, side_name};
pub use refusals::{
    admission_refusal, large_refusal, line_refusal, lone_file, tests_refusal, unplain_refusal,
};
pub use run::run_text;
pub use usage::usage_text;
