//! The text of a certificate: a product with its invariants, and for each of its duties a tree of splits
//! with refutations at its leaves. specs/Texts.antt has the whole form, and specs/Products.antt,
//! specs/Steps.antt and specs/Trees.antt its lines, each beside the ranges of what stands in it.
//!
//! ```text
//! let certificate = read_certificate(alloc, text)?;
//! let text = write_certificate(alloc, &certificate)?;       // the same text again
//! ```
//!
//! `read_certificate` answers with the certificate exactly where the text is that of one, and with each
//! refusal exactly where specs/Texts.antt says so. `write_certificate` gives the text of its
//! certificate, and by `read_back` what was written is read as the certificate.
#![tactic(auto)]

mod certificate;
mod fields;
mod judging;
mod listed;
mod product_lines;
mod refusal;
mod step_lines;
mod tree_lines;
mod writing;
mod written_lines;
mod written_trees;

pub use certificate::Certificate;
pub use judging::{read_back, read_certificate};
pub use refusal::CertRefusal;
pub use written_trees::write_certificate;
