//! The mnemonics that `align` reads, and the shapes that they name.
//!
//! The table has a row for each mnemonic, in byte order: its operation, the width of its form, and whether
//! the form is a VEX one. `look_up` finds a mnemonic's row. `is_shape` says which shapes operations have at
//! all, and each row has one of these. The laws say that no mnemonic stands twice and that a row's
//! mnemonic names the row.
//!
//!     look_up(b"addl") == Some(Shape { op: Op::Add, w: 32, vex: false })
//!     look_up(b"addps") == None
//!
//! The operations and their widths are those of Intel's "Software Developer's Manual", volume 2; the
//! suffixes are those of GNU AT&T text.
#![tactic(auto)]

mod finding;
mod legacy_rows;
mod shape;
mod spellings;
mod vex_rows;
mod widths;

pub use shape::Shape;
pub use spellings::{look_up, mnemonics_stand_once, rows_are_named, rows_have_shapes};
pub use widths::{is_shape, is_wide};
