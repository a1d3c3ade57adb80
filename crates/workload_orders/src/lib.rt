//! The reports that the schedules of a workload give, each with the journal of a run that has it, and the deadlocks that they meet.
#![tactic(auto)]

mod by_line;
mod counted;
mod edges;
mod graph;
mod judged;
mod listed;
mod needed;
mod told;
mod ways;
mod whole;

pub use by_line::find_lines;
pub use listed::{Deadlock, Lines, Orders, Report};
pub use told::orders;
