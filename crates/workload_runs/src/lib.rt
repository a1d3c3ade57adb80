//! What a run of a workload is: the call that each statement makes, the entries of each seat, and what a journal shows of them.
//!
//! The definitions stand in `specs/`. The functions of `laws` have no body: each contract is a law that follows from the definitions.
#![tactic(auto)]

mod calls;
pub mod laws;
mod statements;

pub use calls::{Call, Wanted, call_of};
pub use statements::has_begin;
