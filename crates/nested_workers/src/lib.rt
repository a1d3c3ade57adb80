//! Workers whose tasks start tasks: between taking a task and ending it a worker may start others, by its own seat.
#![tactic(auto)]

pub mod held;
pub mod starter;
pub mod worker;

pub use held::Began;
pub use starter::Starter;
pub use worker::{Nesting, RunTasks};
