//! The node with the handles of its pools: one value that executes each op as the one-thread machine in layout one says.
//!
//! `specs/Stands.antt` says what it means that a node stands for a history; every op is a step of the machine.
#![tactic(auto)]

mod action_ops;
mod follow;
mod group_ops;
pub mod node;
mod phase_ops;
mod queue_ops;
mod resource_ops;
mod running;
mod steps;
mod tally_ops;
mod task_ops;
mod work_ops;

pub use mtapi_machine::{Op, Reply};
pub use node::PoolNode;
