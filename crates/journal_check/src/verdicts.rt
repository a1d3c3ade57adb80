//! What a journal is judged to be.

/// What a journal is judged to be, of a workload.
#[derive(Clone, Copy, Drop)]
pub enum Verdict {
    /// A legal history of the one-thread machine, with the workload's settings and callers, and a run of it.
    Yes,
    /// No legal history by its own layout, settings and callers: this is the least number, from 1,
    /// such that so many first entries aren't legal. With no caller or more than nine it is 1, even
    /// of an empty journal, as no node has such terms.
    Illegal {
        /// The number of the entry.
        entry: u64,
    },
    /// A legal history, but of other settings or callers than the workload's, or no run of it.
    NotRun,
}
