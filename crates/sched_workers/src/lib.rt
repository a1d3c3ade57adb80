//! The calls of a node's callers in threads, each of whom holds a seat of a cell over a node with a journal; and the names of those who
//! run such a node.
#![tactic(auto)]

pub mod callers;
pub mod deadlines;
pub mod laws;

pub use callers::Caller;
pub use deadlines::Deadline;
pub use run_beside::{Beside, FewThreads, Job, Threads, pair};
pub use turn_looks::ServeEnd;
pub use workload_runners::{Back, RunError, Stop, Worker, WorkerJob, run_node};
pub use workload_runs::Wanted;
