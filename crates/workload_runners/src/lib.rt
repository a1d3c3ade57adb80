//! The run of a workload on a node: the threads of its workers and callers, each of which holds a seat of the node's cell, and what each
//! does there.
#![tactic(auto)]

pub mod crew;
pub mod laws;
pub mod looks;
pub mod parts;
pub mod run;
pub mod statements;
pub mod tallies;
pub mod workers;

pub use crew::holder::{Held, Holder};
pub use crew::jobs::WorkerJob;
pub use crew::run::{RanNode, run_crew};
pub use crew::serving::{Acting, Serve, ServeSource, Served};
pub use looks::look;
pub use parts::Back;
pub use run::{NoRun, RunError, run_node, without_seat};
pub use statements::{Affected, Stop, affected_by, wake};
pub use workers::Worker;
