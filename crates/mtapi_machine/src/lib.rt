//! The one-thread machine: what a node is asked, what it may answer, and which lists of entries are legal.
//!
//! The definitions stand in `specs/`, and nothing here runs. The functions of `laws` have no body: each contract is a law that follows
//! from the definitions alone.
#![tactic(auto)]

pub mod laws;
pub mod ops;
pub mod replies;
pub mod tables;
pub mod terms;

pub use ops::Op;
pub use replies::Reply;
pub use terms::{Phase, Terms};

/// One entry of a history of a node: which seat asked what, and the reply.
pub type Entry = history::Entry<Op, Reply>;
