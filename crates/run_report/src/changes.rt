//! What an entry of a journal changes in what decides how tasks end.
ghost use Rattle.std.specs.Prelude.{◌≡◌};
ghost use Rattle.mtapi_machine.specs.WorkRows.{task_end};
ghost use Rattle.run_report.specs.Changes.{effect_of, action_made, queue_made, change_by_queue, change_by_work};

use action_fn::ActEnd;
use mtapi_machine::{Entry, Op, Reply};
use mtapi_values::{Kind, Mask, TaskEnd};

/// A task that hasn't begun: its job, the cores that may run it, and its queue.
#[derive(Clone, Copy, Drop)]
pub struct Unstarted {
    pub job: u32,
    pub cores: Mask,
    pub queue: Option<u64>,
}

/// A live action, with its handle.
#[derive(Clone, Copy, Drop)]
pub struct LiveAction {
    pub handle: u64,
    pub job: u32,
    pub kind: Kind,
    pub cores: Mask,
    pub enabled: bool,
}

/// A live queue: the job of its tasks, whether it keeps them while it is disabled, and whether it is enabled.
#[derive(Clone, Copy, Drop)]
pub struct LiveQueue {
    pub job: u32,
    pub retain: bool,
    pub enabled: bool,
}

/// What an entry changes. The numbers are handles.
#[derive(Drop)]
pub enum EndEffect {
    /// Nothing that decides how a task ends.
    Nothing,
    /// There is a new action.
    MakesAction(LiveAction),
    /// An action may be taken again.
    EnablesAction(u64),
    /// An action may no longer be taken.
    DisablesAction(u64),
    /// An action stops being live.
    DeletesAction(u64),
    /// There is a new task.
    StartsTask(u64, Unstarted),
    /// There is a new task, of a queue, that may run on these cores.
    EnqueuesTask(u64, u64, Mask),
    /// A worker takes a task.
    BeginsTask(u64),
    /// A task ends so.
    EndsTask(u64, TaskEnd),
    /// A task is asked to stop: it ends cancelled where it hasn't begun.
    CancelsTask(u64),
    /// There is a new queue.
    MakesQueue(u64, LiveQueue),
    /// The tasks of a queue may begin again.
    EnablesQueue(u64),
    /// The tasks of a queue don't begin any more.
    DisablesQueue(u64),
    /// A queue stops being live.
    DeletesQueue(u64),
    /// The node takes no new objects any more.
    Closes,
}

fn task_end(end: &ActEnd) -> TaskEnd
    ensures { result ≡ task_end end.now }
{
    match end {
        ActEnd::Done(numbers) => TaskEnd::Completed(numbers.again()),
        ActEnd::Fails(status) => TaskEnd::Failed(*status),
    }
}

fn action_made(handle: u64, job: u32, kind: Kind, cores: Mask) -> EndEffect
    ensures { result ≡ action_made handle job kind cores }
{
    EndEffect::MakesAction(LiveAction {
        handle,
        job,
        kind,
        cores,
        enabled: true,
    })
}

fn queue_made(handle: u64, job: u32, retain: bool) -> EndEffect
    ensures { result ≡ queue_made handle job retain }
{
    EndEffect::MakesQueue(
        handle,
        LiveQueue {
            job,
            retain,
            enabled: true,
        },
    )
}

// What an op on a queue changes, or one of a worker.
fn change_by_queue(op: &Op, reply: &Reply) -> EndEffect
    ensures { result ≡ change_by_queue op.now reply.now }
{
    match (op, reply) {
        (Op::QueueCreate { job, retain, .. }, Reply::Handle(handle)) => {
            queue_made(*handle, *job, *retain)
        }
        (Op::QueueEnable { queue }, Reply::Ok) => EndEffect::EnablesQueue(queue.0),
        (Op::QueueDisable { queue }, Reply::Ok) => EndEffect::DisablesQueue(queue.0),
        (Op::QueueDelete { queue }, Reply::Ok) => EndEffect::DeletesQueue(queue.0),
        _ => change_by_work(op, reply),
    }
}

fn change_by_work(op: &Op, reply: &Reply) -> EndEffect
    ensures { result ≡ change_by_work op.now reply.now }
{
    match (op, reply) {
        (Op::Pick, Reply::Picked { task, .. }) => EndEffect::BeginsTask(task.0),
        (Op::Finish { task, done }, Reply::Ok) => EndEffect::EndsTask(
            task.0,
            task_end(&done.end()),
        ),
        (Op::WatchEnd { task }, Reply::Ended(end)) => EndEffect::EndsTask(task.0, end.again()),
        (Op::TallyEnd { task }, Reply::Ended(end)) => EndEffect::EndsTask(task.0, end.again()),
        _ => EndEffect::Nothing,
    }
}

/// What an entry changes.
pub fn change_of(entry: &Entry) -> EndEffect
    ensures { result ≡ effect_of entry.now.op entry.now.reply }
{
    match (&entry.op, &entry.reply) {
        (Op::Close, Reply::Ok) => EndEffect::Closes,
        (Op::ActionCreate { job, kind, cores }, Reply::Handle(handle)) => {
            action_made(*handle, *job, *kind, *cores)
        }
        (Op::ActionEnable { action }, Reply::Ok) => EndEffect::EnablesAction(action.0),
        (Op::ActionDisable { action }, Reply::Ok) => EndEffect::DisablesAction(action.0),
        (Op::ActionDelete { action }, Reply::Ok) => EndEffect::DeletesAction(action.0),
        (Op::TaskStart { job, cores, .. }, Reply::Handle(handle)) => EndEffect::StartsTask(
            *handle,
            Unstarted {
                job: *job,
                cores: *cores,
                queue: None,
            },
        ),
        (Op::TaskEnqueue { queue, cores, .. }, Reply::Handle(handle)) => {
            EndEffect::EnqueuesTask(*handle, queue.0, *cores)
        }
        (Op::TaskCancel { task }, Reply::Ok) => EndEffect::CancelsTask(task.0),
        (op, reply) => change_by_queue(op, reply),
    }
}
