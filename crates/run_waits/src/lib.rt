//! Of a run in which each wait without end had so many looks: which of these waits ran out, what each waited for, who held that, and
//! for what those waited.
#![tactic(auto)]

mod looks;
mod page;
mod progress;
mod run;

use node_journals::Journal;
use std::alloc::{AllocError, Global};
use workload_file::Workload;

/// A line for each wait of a run that ran out though its statement says `inf`; `text` is the text of its workload, and `looks` what
/// stood for `inf` in the run.
///
/// # Errors
///
/// - `AllocError`: memory ran out.
pub fn waits_in(
    alloc: Global,
    text: &[u8],
    load: &Workload,
    journal: &Journal,
    looks: u64,
) -> Result<String, AllocError> {
    let text = String::from_utf8_lossy(alloc, text)?;
    let workers = journal.settings.workers();
    let all = journal.entries.in_full(alloc)?;
    let run = run::run_of(alloc, text.as_str(), load, workers, &all)?;
    page::waits_of(alloc, &run, looks)
}
