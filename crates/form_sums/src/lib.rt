//! Weighted sums of the forms of nodes: what is left of one whose atoms cancel (`specs/Sums.antt`). A sum costs what
//! its forms cost, and each form is made once. No command uses it yet.
//!
//! For example at 8 bits the form of `a + 3`, and 255 times the form of `a`, leave 3.
#![tactic(auto)]

mod forms;
pub mod laws;
mod sums;
mod totals;

pub use forms::Forms;
pub use sums::left_of_sum;
pub use totals::Totals;
