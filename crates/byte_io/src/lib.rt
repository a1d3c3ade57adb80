//! What a program reads from and writes to: a source and a sink of bytes, each with a count of faults,
//! those in memory and those of the process, and a loop over each that reads or writes the whole.
#![tactic(auto)]

mod memory;
mod standard;
mod traits;
mod whole;
mod written;

pub use memory::{MemSink, MemSource};
pub use standard::{StdSink, StdSource};
use thiserror::Error;
pub use traits::{Sink, Source};
pub use whole::{ReadAllError, read_all};
pub use written::{say, write_all};

/// A read or a write failed. The count of faults of its source or sink tells that it did.
#[derive(Clone, Copy, Debug, PartialEq, Eq, Error)]
#[error("a read or a write failed")]
pub struct Failed;
