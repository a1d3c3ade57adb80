//! Judges a kept journal by itself: whether it is a legal history of the one-thread machine, and a run of a workload.
#![tactic(auto)]

mod check;
mod following;
mod judged;
mod laws;
mod made;
mod room;
mod verdicts;

pub use check::check_run;
pub use verdicts::Verdict;
