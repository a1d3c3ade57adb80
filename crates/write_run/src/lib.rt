//! Writes what a run of a node was, for `mtapi check`, `mtapi picture` and `mtapi trace`.
#![tactic(auto)]

mod writing;

pub use writing::{Unwritten, write_run};
