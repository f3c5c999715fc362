//! Linear forms of nodes: the low w bits of a node as a sum of coefficient times atom and a constant,
//! modulo 2^w.
//!
//! `form_of` gives exactly the form that `specs/Forms.antt` defines, and a node's value modulo 2^w is the
//! value of its form in every environment. `constant_difference` tells exactly whether the forms of two
//! nodes differ by a constant. For example the form of `a + 3 * (a - b)` at 64 bits has the
//! coefficients 4 at a and 2^64 - 3 at b.
#![tactic(auto)]

mod form;
mod linear;

pub use form::{Form, constant_difference, form_of};
pub use linear::{Linear, linearity_of, number};
