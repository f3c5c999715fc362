//! The instructions that `align` reads and runs, and functions made of them.
//!
//! Each operation has its forms, which say by a class for each operand what the operation takes. `fits`
//! makes an instruction of a shape, which a mnemonic names (`look_up` of `insn_spellings`), and of
//! operands; `assemble` does both. What they answer is exactly what `specs/` says, with the reason of each
//! refusal: an instruction that was made is one of the table (`IsTableInsn`).
//!
//! A `FunctionBuilder` makes closed functions: each instruction is one of the table, each jump goes to
//! one of them, and the last one returns or jumps (`IsClosed`).
//!
//!     let mut builder = FunctionBuilder::new(alloc);
//!     builder.push(b"decl", &[eax])?;
//!     builder.push(b"jne", &[Operand::Target(0)])?;
//!     builder.push(b"ret", &[])?;
//!     let function = builder.finish(name)?;
//!
//! Operands stand in the order of GNU AT&T text: sources first, the destination last. The operations,
//! their operands and ranges are those of Intel's "Software Developer's Manual", volume 2.
#![tactic(auto)]

mod assembling;
mod build_error;
mod builder;
mod classes;
mod fitting;
mod form;
mod forms;
mod insn;
mod table;
mod vector_forms;

pub use assembling::{Statement, assemble};
pub use build_error::BuildError;
pub use builder::{FunctionBuilder, assemble_function};
pub use fitting::{Misfit, fits};
pub use insn::{Bytes, Function, Insn, Insns, Operand};
pub use insn_ops::{Cond, Flags, Op};
pub use insn_spellings::{Shape, look_up, mnemonics_stand_once, rows_are_named, rows_have_shapes};
pub use table::{fitted_insns_are_of_the_table, forms_are_apart, table_insns_have_mnemonics};
