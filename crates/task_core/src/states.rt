//! What callers see of a task, and what they ask for.

use mtapi_values::{Args, GroupHandle, Kind, Mask, MtapiStatus, QueueHandle, TaskEnd};

/// How far a task has come.
#[derive(Clone, Copy, Debug, Drop, PartialEq, Eq)]
pub enum TaskState {
    /// It hasn't begun.
    Scheduled,
    /// It runs on this worker, by an action of this kind.
    Running { worker: u32, kind: Kind },
    /// It has its end.
    Ended,
}

/// What a start or an enqueue asks for.
#[derive(Drop)]
pub struct NewTask {
    /// The job whose actions may run it.
    pub job: u32,
    /// The arguments of the action.
    pub args: Args,
    /// The priority; 0 is the highest.
    pub priority: u32,
    /// The cores that may run it.
    pub cores: Mask,
    /// Whether it stops being live as soon as it ends.
    pub detached: bool,
    /// The group that it is a member of.
    pub group: Option<GroupHandle>,
    /// The queue that it was put into.
    pub queue: Option<QueueHandle>,
}

/// What one look at a task answers.
#[derive(Drop)]
pub enum TaskLook {
    /// The task had ended so, and is live no more.
    Ended(TaskEnd),
    /// The task hasn't ended, and the seat stands as its waiter.
    Pending,
    /// The look was refused, or it was the last one and the task hasn't ended.
    Refused(MtapiStatus),
}
