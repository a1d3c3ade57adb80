//! What a node answers.

use mtapi_values::{ActionHandle, Args, Kind, MrapiStatus, MtapiStatus, TaskEnd, TaskHandle};

/// The reply to an op.
#[derive(Drop, PartialEq, Eq)]
pub enum Reply {
    /// The op was executed.
    Ok,
    /// The handle of a new object, or of one that was asked for.
    Handle(u64),
    /// A number that was asked for.
    Number(i64),
    /// The end of a task.
    Ended(TaskEnd),
    /// A task of a group, and its end.
    Given(TaskHandle, TaskEnd),
    /// Not yet.
    Pending,
    /// The task that the worker runs, the action by which it runs it, and what it needs for that.
    Picked {
        task: TaskHandle,
        action: ActionHandle,
        kind: Kind,
        args: Args,
    },
    /// The worker finds no task to run.
    Idle,
    /// The worker will find none any more.
    Stop,
    /// Whether a watch was asked to stop.
    Asked(bool),
    /// Refused, or out of looks, with a status of MTAPI.
    Mtapi(MtapiStatus),
    /// Refused, or out of looks, with a status of MRAPI.
    Mrapi(MrapiStatus),
}

impl Reply {
    ghost use Rattle.std.specs.Prelude.{◌≡◌};

    /// An equal reply. It takes no memory.
    pub fn again(&self) -> Reply
        ensures { result ≡ self.now }
    {
        match self {
            Reply::Ok => Reply::Ok,
            Reply::Handle(handle) => Reply::Handle(*handle),
            Reply::Number(number) => Reply::Number(*number),
            Reply::Ended(end) => Reply::Ended(end.again()),
            Reply::Given(task, end) => Reply::Given(*task, end.again()),
            Reply::Pending => Reply::Pending,
            Reply::Picked {
                task,
                action,
                kind,
                args,
            } => Reply::Picked {
                task: *task,
                action: *action,
                kind: *kind,
                args: args.again(),
            },
            Reply::Idle => Reply::Idle,
            Reply::Stop => Reply::Stop,
            Reply::Asked(requested) => Reply::Asked(*requested),
            Reply::Mtapi(status) => Reply::Mtapi(*status),
            Reply::Mrapi(status) => Reply::Mrapi(*status),
        }
    }
}
