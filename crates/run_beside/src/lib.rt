//! A job runs beside the calling thread, in a thread of its own.
#![tactic(auto)]

pub mod beside;
pub mod threads;

pub use beside::{Beside, Job, pair};
pub use threads::{FewThreads, Threads};
