//! What a state keeps.

use mtapi_machine::Phase;
use mtapi_values::{Kind, MrapiStatus, MtapiStatus};

/// How many callers a node may have.
pub(crate) const CALLERS: usize = 9;

/// What the call of a statement came to, as far as the report or a later step tells it.
#[derive(Clone, Copy, Drop, PartialEq, Eq)]
#[derive_where(Hash)]
pub(crate) enum Outcome {
    /// The call isn't made yet.
    Open,
    /// It was executed.
    Done,
    /// The statement's name is bound to this object, by its number among those of its kind.
    Names(u16),
    /// A mutex was locked, with this key.
    Key(u8),
    /// A number, which stands among those of the state.
    Number,
    /// This task of a group was given.
    Given(u16),
    /// It answered a status of MTAPI.
    Mtapi(#[derive_where(skip(Hash))] MtapiStatus),
    /// It answered a status of MRAPI.
    Mrapi(#[derive_where(skip(Hash))] MrapiStatus),
}

/// Whether an action is live, and whether it may be taken.
#[derive(Clone, Copy, Drop, PartialEq, Eq, Hash)]
pub(crate) enum Ability {
    /// Not made yet, or deleted.
    Gone,
    Enabled,
    Disabled,
}

/// How a task ended. What it answered follows from the kind and its arguments; that of a tally stands among the numbers of the state.
#[derive(Clone, Copy, Drop, PartialEq, Eq)]
#[derive_where(Hash)]
pub(crate) enum End {
    Completed(#[derive_where(skip(Hash))] Kind),
    Cancelled,
    Failed(#[derive_where(skip(Hash))] MtapiStatus),
}

/// How far a task has come.
#[derive(Clone, Copy, Drop, PartialEq, Eq)]
#[derive_where(Hash)]
pub(crate) enum Progress {
    /// Not started, or refused.
    Absent,
    Scheduled,
    /// It runs on a worker of this class, with this kind.
    Running {
        class: u8,
        #[derive_where(skip(Hash))]
        kind: Kind,
    },
    Ended(End),
}

/// Whom the end of a task is for.
#[derive(Clone, Copy, Drop, PartialEq, Eq, Hash)]
pub(crate) enum Bond {
    Alone,
    Member,
    Detached,
}

/// What a running watch has been told.
#[derive(Clone, Copy, Drop, PartialEq, Eq, Hash)]
pub(crate) enum Told {
    Nothing,
    /// Cancelling was requested, and the watch hasn't asked since.
    Requested,
    /// It asked, and was told so.
    Seen,
    /// It asked as often as it may, and was told each time that it wasn't.
    Never,
}

/// What a running tally has done.
#[derive(Clone, Copy, Drop, PartialEq, Eq)]
#[derive_where(Hash)]
pub(crate) enum Stage {
    Begun,
    /// It has its mutex and its segment.
    Holds,
    /// It has read its cell.
    Read,
    /// It has written its cell.
    Written,
    /// It has failed, and will end with this status.
    Failed(#[derive_where(skip(Hash))] MtapiStatus),
}

/// What a state keeps of a task.
#[derive(Clone, Copy, Drop, PartialEq, Eq, Hash)]
pub(crate) struct Task {
    pub(crate) progress: Progress,
    pub(crate) live: bool,
    pub(crate) bond: Bond,
    pub(crate) told: Told,
    pub(crate) stage: Stage,
    /// In an ordered queue: its place among the tasks that haven't ended, from 1 on; else 0.
    pub(crate) turn: u16,
    /// In a group that may still give a task: its place among the members that have ended, from 1 on; else 0.
    pub(crate) rank: u16,
}

/// What a state keeps of a group.
#[derive(Clone, Copy, Drop, PartialEq, Eq)]
#[derive_where(Hash)]
pub(crate) struct Group {
    pub(crate) live: bool,
    /// Once no task can be given any more: the first fault among the members that have ended.
    #[derive_where(skip(Hash))]
    pub(crate) fault: Option<MtapiStatus>,
}

/// What a state keeps of a queue.
#[derive(Clone, Copy, Drop, PartialEq, Eq, Hash)]
pub(crate) struct Queue {
    pub(crate) live: bool,
    pub(crate) enabled: bool,
}

/// Who owns a mutex.
#[derive(Clone, Copy, Drop, PartialEq, Eq, Hash)]
pub(crate) enum Owner {
    Nobody,
    /// The caller of this part.
    Part(u8),
    /// The worker that runs this tally.
    Tally(u16),
}

/// What a state keeps of a mutex.
#[derive(Clone, Copy, Drop, PartialEq, Eq, Hash)]
pub(crate) struct Mutex {
    pub(crate) live: bool,
    pub(crate) owner: Owner,
    pub(crate) depth: u8,
}

/// What a state keeps of a semaphore: how often each caller holds it.
#[derive(Clone, Copy, Drop, PartialEq, Eq, Hash)]
pub(crate) struct Sem {
    pub(crate) live: bool,
    pub(crate) holdings: [u16; CALLERS],
}

/// What a state keeps of a reader-writer lock: which callers read, and which one writes.
#[derive(Clone, Copy, Drop, PartialEq, Eq, Hash)]
pub(crate) struct Rwl {
    pub(crate) live: bool,
    pub(crate) readers: [bool; CALLERS],
    pub(crate) writer: Option<u8>,
}

/// What a state keeps of a segment: which callers are attached, and how many tallies. Its cells stand among the numbers of the state.
#[derive(Clone, Copy, Drop, PartialEq, Eq, Hash)]
pub(crate) struct Segment {
    pub(crate) live: bool,
    pub(crate) attached: [bool; CALLERS],
    pub(crate) tallies: u16,
}

/// Where a workload stands.
#[derive(Clone, Drop, PartialEq, Eq)]
#[derive_where(Hash)]
pub struct State {
    #[derive_where(skip(Hash))]
    pub(crate) phase: Phase,
    pub(crate) released: bool,
    /// Of each part: 0 before its caller has begun, and then one more than the statements that it has made.
    pub(crate) places: Vec<u16>,
    /// Of each statement, over all parts in order.
    pub(crate) outcomes: Vec<Outcome>,
    /// The cells of the segments, what was read, and what the tallies read and wrote.
    pub(crate) numbers: Vec<i64>,
    pub(crate) actions: Vec<Ability>,
    pub(crate) tasks: Vec<Task>,
    pub(crate) groups: Vec<Group>,
    pub(crate) queues: Vec<Queue>,
    pub(crate) mutexes: Vec<Mutex>,
    pub(crate) sems: Vec<Sem>,
    pub(crate) rwls: Vec<Rwl>,
    pub(crate) segments: Vec<Segment>,
}

/// A task before its statement.
pub(crate) const NO_TASK: Task = Task {
    progress: Progress::Absent,
    live: false,
    bond: Bond::Alone,
    told: Told::Nothing,
    stage: Stage::Begun,
    turn: 0,
    rank: 0,
};

impl Task {
    /// It hasn't begun.
    pub(crate) fn is_scheduled(&self) -> bool {
        matches!(self.progress, Progress::Scheduled)
    }

    /// It was started, and hasn't ended.
    pub(crate) fn is_unended(&self) -> bool {
        matches!(
            self.progress,
            Progress::Scheduled | Progress::Running { .. }
        )
    }

    /// It runs on a worker of this class.
    pub(crate) fn runs_in(&self, wanted: u8) -> bool {
        match self.progress {
            Progress::Running { class, .. } => class == wanted,
            _ => false,
        }
    }

    /// Its end, once it has ended.
    pub(crate) fn end(&self) -> Option<End> {
        match self.progress {
            Progress::Ended(end) => Some(end),
            _ => None,
        }
    }
}

impl End {
    /// What the end counts as where it isn't completed.
    pub(crate) fn fault(self) -> Option<MtapiStatus> {
        match self {
            End::Completed(_) => None,
            End::Cancelled => Some(MtapiStatus::ErrTaskCancelled),
            End::Failed(status) => Some(status),
        }
    }
}

/// The sum of these numbers.
pub(crate) fn sum_of(numbers: &[u16]) -> u32 {
    let mut sum = 0u32;
    for number in numbers {
        sum = sum.saturating_add(u32::from(*number));
    }
    sum
}

/// How many of these marks are set.
pub(crate) fn marks_of(marks: &[bool]) -> u32 {
    let mut count = 0u32;
    for mark in marks {
        if *mark {
            count = count.saturating_add(1);
        }
    }
    count
}
