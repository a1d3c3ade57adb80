//! Judges a kept journal by itself, without a workload, and tells the first entry that the machine doesn't allow, what it would have
//! allowed there, and why.
#![tactic(auto)]

mod case;
mod conditions;
mod free_slots;
mod handles;
mod instead;
mod judging;
mod naming;
mod page;
mod picks;
mod proposing;
mod reading;
mod reasons;
mod replay;
mod run_reading;
mod runs;
mod traces;

pub use judging::{Judgement, judge};
pub use page::page_of;
pub use reading::{JudgeEnd, judge_input, tell};
pub use run_reading::tell_run;
