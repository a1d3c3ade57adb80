//! The report of a run of a workload: what became of each task, and what the calls answered.
#![tactic(auto)]

mod actions;
mod call_lines;
mod changes;
mod deciding;
mod ends;
mod laws;
mod page;
mod places;
mod short_ends;
mod sorts;
mod standings;
mod summary;
mod task_lines;
mod text;
mod totals;
mod whole;
mod worked;

pub use changes::{EndEffect, LiveAction, LiveQueue, Unstarted};
pub use laws::law_report_reads_the_run;
pub use short_ends::ShortEnd;
pub use sorts::Shown;
pub use standings::{Passing, Standings, follow_entry, no_standings};
pub use summary::{line_of, summary_of};
pub use totals::{Totals, no_totals, with_tasks};
pub use whole::{report_of, report_of_entries};
pub use worked::worked_reports;
