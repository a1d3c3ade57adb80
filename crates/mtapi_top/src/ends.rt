//! How the command ends.

use journal_check::Verdict;
use node_core::RunJournal;
use turn_cell::Spent;
use workload_file::Cause;

/// How the command ends.
#[derive(Drop)]
pub enum End {
    /// The output was written.
    Done(RunJournal),
    /// The words are none that the command takes.
    Usage,
    /// The bytes are no workload: this is the first faulty line, and its first cause.
    Refused(u64, Cause),
    /// There are more bytes than a workload may have.
    TooLong,
    /// A read failed.
    ReadFault,
    /// A write of the output failed.
    WriteFault(RunJournal),
    /// There was no memory.
    Memory,
    /// A thread was refused.
    NoThread,
    /// The turns of the run are used up.
    Spent(Spent),
    /// A journal was judged, and the verdict was written.
    Judged(Verdict),
    /// A journal was judged, and a write of the verdict failed.
    VerdictFault(Verdict),
    /// There are more bytes than a workload and a journal to be judged may have.
    InputTooLong,
    /// The bytes behind the workload are no journal: this is the first line outside the grammar, counted from 1 at the journal's first.
    JournalLine(u64),
    /// The bytes behind the workload are no journal: its last line has no line feed.
    JournalCut,
}

/// What the command answers: the status of the process, and what shows it.
#[derive(Drop)]
pub struct Outcome {
    /// 0, or 2 to 9.
    pub status: u8,
    /// Some exactly with the status 0 or 5 of words other than `check`.
    pub journal: Option<RunJournal>,
    /// Some exactly with the status 8.
    pub spent: Option<Spent>,
}
