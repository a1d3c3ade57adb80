//! A node with workers in threads of their own, and a program that calls it, all in one call.
//!
//! [`with_workers`] makes the node, starts its workers, opens it, has a [`Client`] call it, ends it, and gives back what the client was told,
//! the journal and the workers' sets of actions. [`with_callers`] does so with up to eight further clients, each in a thread of its own, and
//! [`with_callers_beside`] with threads that whoever is handed in starts or refuses. [`with_servers`] and its like have workers that serve in a way
//! of their own (`workload_runners::Serve`).
#![tactic(auto)]

pub mod client;
pub mod failure;
pub mod laws;
pub mod outcome;
pub mod refusals;
pub mod run;

pub use client::Client;
pub use failure::{Failure, NodeFailure};
pub use refusals::NoThread;
pub use run::{
    AllDone, Done, with_callers, with_callers_beside, with_servers, with_servers_alone,
    with_servers_beside, with_workers,
};
