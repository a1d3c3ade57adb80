//! What is told of the schedules of a workload.

use node_journals::Journal;

/// A report, with the journal of a run that has it.
#[derive(Drop)]
pub struct Report {
    pub text: Vec<u8>,
    pub journal: Journal,
}

/// A moment from which no step leads on, though the run isn't over: a line for each that waits, and the history that leads there.
#[derive(Drop)]
pub struct Deadlock {
    pub waits: Vec<u8>,
    pub journal: Journal,
}

/// The reports and the deadlocks that were found.
#[derive(Drop)]
pub struct Orders {
    /// How many states were visited.
    pub states: usize,
    /// Whether there were more states than may be kept: then there may be more reports and deadlocks.
    pub cut: bool,
    /// Whether these reports are known to be all: the workload is settled, so that no order matters to its report.
    pub all: bool,
    /// Each report once, in the order in which they were found.
    pub reports: Vec<Report>,
    /// Each deadlock once, by its words.
    pub deadlocks: Vec<Deadlock>,
    /// Moments from which the search knows no step, though it isn't shown that nothing goes on: none, unless the search is at fault.
    pub stops: Vec<Deadlock>,
    /// How many journals were judged to be no runs, or no legal histories: 0, unless the search is at fault.
    pub refused: u64,
}

/// What was found by line.
#[derive(Drop)]
pub struct Lines {
    /// Runs, each with another report, that together have each text that was found for some line; and the deadlocks.
    pub runs: Orders,
    /// How many reports there are; none if that was too much to count, or the search was cut.
    pub count: Option<usize>,
}
