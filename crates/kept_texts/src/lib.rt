//! What is read of a kept run: a text in which the journal stands behind the workload, or one that a number cuts into the workload and
//! what was kept of its run.
#![tactic(auto)]

mod joining;
mod streams;

pub use joining::joined;
pub use streams::{input_of, program, words_of};
