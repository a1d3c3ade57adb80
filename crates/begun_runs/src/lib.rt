//! What a run of a workload is before its end: which entries may come next, and when nothing may, which is a deadlock.
//!
//! The definitions stand in `specs/`. The functions of `laws` have no body: each contract is a law that follows from the definitions.
#![tactic(auto)]

mod begun;
mod completing;
mod halting;
mod laws;
mod probing;

pub use begun::is_begun;
pub use halting::{Probes, halts};
pub use laws::{law_deadlock, law_fronts, law_halts, law_next, worked_asks, worked_complete};
pub use probing::{add_waits, probes_of};
