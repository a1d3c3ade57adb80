//! Decides whether a journal is a run of a workload: each seat's lines are read from the front, statement by statement.
#![tactic(auto)]

mod asked;
mod lines;
mod made;
mod parts;
mod whole;

pub use whole::is_run;
