//! Entries in little room.

ghost use Rattle.std.specs.Prelude.{◌≡◌, IfOk};
ghost use Rattle.history.specs.Histories.{entry};
ghost use Rattle.node_journals.specs.Shorts.{entry_of};

use crate::few::{FewArgs, FewFinished};
use crate::short_ops::ShortOp;
use crate::short_replies::ShortReply;
use mtapi_machine::{Entry, Op, Reply};
use mtapi_values::{ActionHandle, GroupHandle, Kind, Mask, QueueHandle, TaskHandle};
use std::alloc::{AllocError, Global};

/// An entry in little room.
#[derive(Drop)]
pub enum ShortEntry {
    /// A start with two arguments at most.
    Start {
        who: u32,
        job: u32,
        priority: u32,
        detached: bool,
        cores: Mask,
        group: Option<GroupHandle>,
        args: FewArgs,
        handle: u64,
    },
    /// The same by a queue.
    Enqueue {
        who: u32,
        detached: bool,
        queue: QueueHandle,
        cores: Mask,
        group: Option<GroupHandle>,
        args: FewArgs,
        handle: u64,
    },
    /// A pick of a task with two arguments at most.
    Pick {
        who: u32,
        task: TaskHandle,
        action: ActionHandle,
        kind: Kind,
        args: FewArgs,
    },
    /// The end of such a task.
    Finish {
        who: u32,
        task: TaskHandle,
        done: FewFinished,
    },
    /// A call without a list of arguments, whose reply has none either.
    Call {
        who: u32,
        op: ShortOp,
        reply: ShortReply,
    },
    /// Any other.
    Full(Box<Entry>),
}

/// The entry of this seat, op and reply in little room.
///
/// # Errors
///
/// - `AllocError`: memory ran out. No form but the last takes any.
pub fn short_of(alloc: Global, who: u32, op: &Op, reply: &Reply) -> Result<ShortEntry, AllocError>
    ensures { IfOk result (λ short. entry_of short ≡ entry who op.now reply.now) }
{
    match (op, reply) {
        (
            Op::Pick,
            Reply::Picked {
                task,
                action,
                kind,
                args,
            },
        ) => {
            if let Some(few) = FewArgs::of(args) {
                return Ok(ShortEntry::Pick {
                    who,
                    task: *task,
                    action: *action,
                    kind: *kind,
                    args: few,
                });
            }
        }
        (Op::Finish { task, done }, Reply::Ok) => {
            if let Some(few) = FewFinished::of(done) {
                return Ok(ShortEntry::Finish {
                    who,
                    task: *task,
                    done: few,
                });
            }
        }
        _ => {}
    }
    made_of(alloc, who, op, reply)
}

// The same, where a task was made.
fn made_of(alloc: Global, who: u32, op: &Op, reply: &Reply) -> Result<ShortEntry, AllocError>
    ensures { IfOk result (λ short. entry_of short ≡ entry who op.now reply.now) }
{
    match (op, reply) {
        (
            Op::TaskStart {
                job,
                args,
                priority,
                cores,
                detached,
                group,
            },
            Reply::Handle(handle),
        ) => {
            if let Some(few) = FewArgs::of(args) {
                return Ok(ShortEntry::Start {
                    who,
                    job: *job,
                    priority: *priority,
                    detached: *detached,
                    cores: *cores,
                    group: *group,
                    args: few,
                    handle: *handle,
                });
            }
        }
        (
            Op::TaskEnqueue {
                queue,
                args,
                cores,
                detached,
                group,
            },
            Reply::Handle(handle),
        ) => {
            if let Some(few) = FewArgs::of(args) {
                return Ok(ShortEntry::Enqueue {
                    who,
                    detached: *detached,
                    queue: *queue,
                    cores: *cores,
                    group: *group,
                    args: few,
                    handle: *handle,
                });
            }
        }
        _ => {}
    }
    call_of(alloc, who, op, reply)
}

// The same without a list of arguments.
fn call_of(alloc: Global, who: u32, op: &Op, reply: &Reply) -> Result<ShortEntry, AllocError>
    ensures { IfOk result (λ short. entry_of short ≡ entry who op.now reply.now) }
{
    if let (Some(op), Some(reply)) = (ShortOp::of(op), ShortReply::of(reply)) {
        return Ok(ShortEntry::Call { who, op, reply });
    }
    full_of(alloc, who, op, reply)
}

// The same in full.
fn full_of(alloc: Global, who: u32, op: &Op, reply: &Reply) -> Result<ShortEntry, AllocError>
    ensures { IfOk result (λ short. entry_of short ≡ entry who op.now reply.now) }
{
    let entry = Entry {
        who,
        op: op.again(),
        reply: reply.again(),
    };
    Ok(ShortEntry::Full(Box::new(alloc, entry)?))
}

impl ShortEntry {
    /// The entry in full. It takes no memory.
    pub fn full(&self) -> Entry
        ensures { result ≡ entry_of self.now }
    {
        match self {
            ShortEntry::Start {
                who,
                job,
                args,
                priority,
                cores,
                detached,
                group,
                handle,
            } => Entry {
                who: *who,
                op: Op::TaskStart {
                    job: *job,
                    args: args.full(),
                    priority: *priority,
                    cores: *cores,
                    detached: *detached,
                    group: *group,
                },
                reply: Reply::Handle(*handle),
            },
            ShortEntry::Enqueue {
                who,
                queue,
                args,
                cores,
                detached,
                group,
                handle,
            } => Entry {
                who: *who,
                op: Op::TaskEnqueue {
                    queue: *queue,
                    args: args.full(),
                    cores: *cores,
                    detached: *detached,
                    group: *group,
                },
                reply: Reply::Handle(*handle),
            },
            ShortEntry::Pick {
                who,
                task,
                action,
                kind,
                args,
            } => Entry {
                who: *who,
                op: Op::Pick,
                reply: Reply::Picked {
                    task: *task,
                    action: *action,
                    kind: *kind,
                    args: args.full(),
                },
            },
            ShortEntry::Finish { who, task, done } => Entry {
                who: *who,
                op: Op::Finish {
                    task: *task,
                    done: done.full(),
                },
                reply: Reply::Ok,
            },
            ShortEntry::Call { who, op, reply } => Entry {
                who: *who,
                op: op.full(),
                reply: reply.full(),
            },
            ShortEntry::Full(entry) => Entry {
                who: entry.who,
                op: entry.op.again(),
                reply: entry.reply.again(),
            },
        }
    }
}
