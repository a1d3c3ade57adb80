//! Replies without a list of arguments, in little room.

ghost use Rattle.std.specs.Prelude.{◌≡◌, IfSome};
ghost use Rattle.mtapi_machine.specs.Kept.{is_pending};
ghost use Rattle.node_journals.specs.ShortCalls.{task_end_in_full, reply_in_full};

use mtapi_machine::Reply;
use mtapi_values::{Args, MrapiStatus, MtapiStatus, TaskEnd, TaskHandle};

/// How a task ended that answered one number, or wasn't completed.
#[derive(Clone, Copy, Drop)]
pub enum ShortTaskEnd {
    Number(i64),
    Cancelled,
    Failed(MtapiStatus),
}

impl ShortTaskEnd {
    /// The same end. None where another count of numbers than one was answered.
    pub fn of(end: &TaskEnd) -> Option<ShortTaskEnd>
        ensures { IfSome result (λ short. task_end_in_full short ≡ end.now) }
    {
        match end {
            TaskEnd::Completed(numbers) => match numbers.as_slice() {
                [number] => Some(ShortTaskEnd::Number(*number)),
                _ => None,
            },
            TaskEnd::Cancelled => Some(ShortTaskEnd::Cancelled),
            TaskEnd::Failed(status) => Some(ShortTaskEnd::Failed(*status)),
        }
    }

    /// The end that it stands for. It takes no memory.
    pub fn full(&self) -> TaskEnd
        ensures { result ≡ task_end_in_full self.now }
    {
        match self {
            ShortTaskEnd::Number(number) => {
                let mut numbers = Args::new();
                numbers.push(*number);
                TaskEnd::Completed(numbers)
            }
            ShortTaskEnd::Cancelled => TaskEnd::Cancelled,
            ShortTaskEnd::Failed(status) => TaskEnd::Failed(*status),
        }
    }
}

/// A reply that has no list of arguments, and no end of a task that answered another count of numbers than one.
#[derive(Clone, Copy, Drop)]
pub enum ShortReply {
    Ok,
    Handle(u64),
    Number(i64),
    Ended(ShortTaskEnd),
    Given(TaskHandle, ShortTaskEnd),
    Pending,
    Idle,
    Stop,
    Asked(bool),
    Mtapi(MtapiStatus),
    Mrapi(MrapiStatus),
}

impl ShortReply {
    /// The same reply. None where it is another.
    pub fn of(reply: &Reply) -> Option<ShortReply>
        ensures { IfSome result (λ short. reply_in_full short ≡ reply.now) }
    {
        match reply {
            Reply::Ok => Some(ShortReply::Ok),
            Reply::Handle(handle) => Some(ShortReply::Handle(*handle)),
            Reply::Number(number) => Some(ShortReply::Number(*number)),
            Reply::Ended(end) => match ShortTaskEnd::of(end) {
                Some(end) => Some(ShortReply::Ended(end)),
                None => None,
            },
            Reply::Given(task, end) => match ShortTaskEnd::of(end) {
                Some(end) => Some(ShortReply::Given(*task, end)),
                None => None,
            },
            Reply::Pending => Some(ShortReply::Pending),
            Reply::Picked { .. } => None,
            Reply::Idle => Some(ShortReply::Idle),
            Reply::Stop => Some(ShortReply::Stop),
            Reply::Asked(requested) => Some(ShortReply::Asked(*requested)),
            Reply::Mtapi(status) => Some(ShortReply::Mtapi(*status)),
            Reply::Mrapi(status) => Some(ShortReply::Mrapi(*status)),
        }
    }

    /// The reply that it stands for. It takes no memory.
    pub fn full(&self) -> Reply
        ensures { result ≡ reply_in_full self.now }
    {
        match self {
            ShortReply::Ok => Reply::Ok,
            ShortReply::Handle(handle) => Reply::Handle(*handle),
            ShortReply::Number(number) => Reply::Number(*number),
            ShortReply::Ended(end) => Reply::Ended(end.full()),
            ShortReply::Given(task, end) => Reply::Given(*task, end.full()),
            ShortReply::Pending => Reply::Pending,
            ShortReply::Idle => Reply::Idle,
            ShortReply::Stop => Reply::Stop,
            ShortReply::Asked(requested) => Reply::Asked(*requested),
            ShortReply::Mtapi(status) => Reply::Mtapi(*status),
            ShortReply::Mrapi(status) => Reply::Mrapi(*status),
        }
    }

    /// Whether it is `Pending`.
    pub fn is_pending(&self) -> bool
        ensures { result ≡ is_pending (reply_in_full self.now) }
    {
        match self {
            ShortReply::Pending => true,
            _ => false,
        }
    }
}
