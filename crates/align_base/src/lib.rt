//! The outside of `align`: words of the command line and names of files, the statuses that a call ends
//! with, a shelf of files, a sink for the report, and a gate for parallel work. It knows no instruction.
//!
//! Code that is generic over `Shelf` and `Sink` knows of each call what was read or written, where
//! the shelf or the sink tells, and that a failure raised the count of faults:
//!
//!     let text = shelf.take(alloc, &name, 16_777_216)?;
//!     out.give(text.as_slice())?;
#![tactic(auto)]

mod files;
mod folder_shelf;
mod gate;
mod mem_shelf;
mod mem_sink;
mod out_sink;
mod shelf;
mod sink;
mod status;
mod sure_shelf;
mod sure_sink;
mod whole;
mod word;

pub use folder_shelf::FolderShelf;
pub use gate::{Gate, OpenGate};
pub use mem_shelf::MemShelf;
pub use mem_sink::MemSink;
pub use out_sink::OutSink;
pub use shelf::{Call, PutFault, Shelf, TakeFault};
pub use sink::{GiveFault, Sink};
pub use status::Status;
pub use sure_shelf::SureShelf;
pub use sure_sink::SureSink;
pub use word::Word;
