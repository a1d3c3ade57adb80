//! The calls of a node for C: each makes one call of the node that a handle holds, and waits for nothing.
//!
//! Nothing checks a C caller against these contracts. `c/mtapi_c.h` says what it owes.
#![tactic(auto)]

pub mod actions;
mod asking;
pub mod groups;
pub mod journals;
mod kinds;
pub mod mutexes;
pub mod nodes;
mod ops;
pub mod phases;
pub mod picked;
pub mod queues;
pub mod reader_writer_locks;
mod replies;
pub mod segments;
pub mod semaphores;
pub mod settings;
pub mod tasks;
pub mod worked;
pub mod workers;
