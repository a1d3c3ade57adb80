//! Semaphores, and locks for many readers or one writer.
//!
//! Each has an id that no other live one of its kind has. A call looks once and answers at once: what waits is above this crate.
#![tactic(auto)]

mod marks;
mod rwl_state;
mod rwlocks;
mod sem_state;
mod semaphores;

pub use rwlocks::Rwls;
pub use semaphores::Sems;
