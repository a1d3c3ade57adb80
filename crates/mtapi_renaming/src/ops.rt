//! Ops and replies with other handles.

ghost use Rattle.std.specs.Prelude.{◌≡◌, option_map, ℕ};
ghost use Rattle.mtapi_renaming.specs.Renaming.{Renaming};
ghost use Rattle.mtapi_renaming.specs.Ops.{other_action, other_task, other_group, other_queue, other_mutex, other_sem, other_rwl, other_shmem, renamed_op, other_of, renamed_answer};

use mtapi_machine::{Op, Reply};
use mtapi_values::{
    ActionHandle, GroupHandle, MutexHandle, ObjectKind, QueueHandle, RwlHandle, SemHandle,
    ShmemHandle, TaskHandle,
};

/// What knows another handle for each handle of each kind.
pub trait Rename {
    ghost use Rattle.std.specs.Prelude.{◌≡◌};
    ghost use Rattle.mtapi_renaming.specs.Renaming.{Renaming};

    /// The other handles.
    ghost renaming: { Self → Renaming };

    /// The other handle of an object of this kind, and 0 where there is none.
    fn other(&self, kind: ObjectKind, handle: u64) -> u64
        ensures { result ≡ renaming self.now kind handle };
}

/// The other handle of an action.
pub fn other_action<R: Rename>(names: &R, action: ActionHandle) -> ActionHandle
    ensures { result ≡ other_action (R.renaming names.now) action }
{
    ActionHandle(names.other(ObjectKind::Action, action.0))
}

/// The other handle of a task.
pub fn other_task<R: Rename>(names: &R, task: TaskHandle) -> TaskHandle
    ensures { result ≡ other_task (R.renaming names.now) task }
{
    TaskHandle(names.other(ObjectKind::Task, task.0))
}

/// The other handle of a group.
pub fn other_group<R: Rename>(names: &R, group: GroupHandle) -> GroupHandle
    ensures { result ≡ other_group (R.renaming names.now) group }
{
    GroupHandle(names.other(ObjectKind::Group, group.0))
}

/// The other handle of a queue.
pub fn other_queue<R: Rename>(names: &R, queue: QueueHandle) -> QueueHandle
    ensures { result ≡ other_queue (R.renaming names.now) queue }
{
    QueueHandle(names.other(ObjectKind::Queue, queue.0))
}

/// The other handle of a mutex.
pub fn other_mutex<R: Rename>(names: &R, mutex: MutexHandle) -> MutexHandle
    ensures { result ≡ other_mutex (R.renaming names.now) mutex }
{
    MutexHandle(names.other(ObjectKind::Mutex, mutex.0))
}

/// The other handle of a semaphore.
pub fn other_sem<R: Rename>(names: &R, sem: SemHandle) -> SemHandle
    ensures { result ≡ other_sem (R.renaming names.now) sem }
{
    SemHandle(names.other(ObjectKind::Sem, sem.0))
}

/// The other handle of a reader-writer lock.
pub fn other_rwl<R: Rename>(names: &R, rwl: RwlHandle) -> RwlHandle
    ensures { result ≡ other_rwl (R.renaming names.now) rwl }
{
    RwlHandle(names.other(ObjectKind::Rwl, rwl.0))
}

/// The other handle of a segment.
pub fn other_shmem<R: Rename>(names: &R, shmem: ShmemHandle) -> ShmemHandle
    ensures { result ≡ other_shmem (R.renaming names.now) shmem }
{
    ShmemHandle(names.other(ObjectKind::Shmem, shmem.0))
}

/// The other handle of a group, where there is one.
pub fn other_member<R: Rename>(names: &R, group: Option<GroupHandle>) -> Option<GroupHandle>
    ensures { result ≡ option_map (other_group (R.renaming names.now)) group }
{
    match group {
        Some(group) => Some(other_group(names, group)),
        None => None,
    }
}

/// The op with the other handle of each object that it names: 0, which names nothing, where there is none.
pub fn renamed_op<R: Rename>(names: &R, op: Op) -> Op
    ensures { result ≡ renamed_op (R.renaming names.now) op }
{
    match op {
        Op::ActionDelete { action } => Op::ActionDelete {
            action: other_action(names, action),
        },
        Op::ActionDisable { action } => Op::ActionDisable {
            action: other_action(names, action),
        },
        Op::ActionEnable { action } => Op::ActionEnable {
            action: other_action(names, action),
        },
        Op::TaskStart {
            job,
            args,
            priority,
            cores,
            detached,
            group,
        } => Op::TaskStart {
            job,
            args,
            priority,
            cores,
            detached,
            group: other_member(names, group),
        },
        Op::TaskEnqueue {
            queue,
            args,
            cores,
            detached,
            group,
        } => Op::TaskEnqueue {
            queue: other_queue(names, queue),
            args,
            cores,
            detached,
            group: other_member(names, group),
        },
        Op::TaskLook { task, last } => Op::TaskLook {
            task: other_task(names, task),
            last,
        },
        Op::TaskCancel { task } => Op::TaskCancel {
            task: other_task(names, task),
        },
        Op::GroupDelete { group } => Op::GroupDelete {
            group: other_group(names, group),
        },
        Op::AllLook { group, last } => Op::AllLook {
            group: other_group(names, group),
            last,
        },
        Op::AnyLook { group, last } => Op::AnyLook {
            group: other_group(names, group),
            last,
        },
        Op::QueueEnable { queue } => Op::QueueEnable {
            queue: other_queue(names, queue),
        },
        Op::QueueDisable { queue } => Op::QueueDisable {
            queue: other_queue(names, queue),
        },
        Op::QueueDelete { queue } => Op::QueueDelete {
            queue: other_queue(names, queue),
        },
        Op::Finish { task, done } => Op::Finish {
            task: other_task(names, task),
            done,
        },
        Op::Asked { task } => Op::Asked {
            task: other_task(names, task),
        },
        Op::WatchEnd { task } => Op::WatchEnd {
            task: other_task(names, task),
        },
        Op::TallyLock { task } => Op::TallyLock {
            task: other_task(names, task),
        },
        Op::TallyRead { task } => Op::TallyRead {
            task: other_task(names, task),
        },
        Op::TallyWrite { task, value } => Op::TallyWrite {
            task: other_task(names, task),
            value,
        },
        Op::TallyEnd { task } => Op::TallyEnd {
            task: other_task(names, task),
        },
        Op::MutexDelete { mutex } => Op::MutexDelete {
            mutex: other_mutex(names, mutex),
        },
        Op::MutexLook { mutex, last } => Op::MutexLook {
            mutex: other_mutex(names, mutex),
            last,
        },
        Op::MutexUnlock { mutex, key } => Op::MutexUnlock {
            mutex: other_mutex(names, mutex),
            key,
        },
        Op::SemDelete { sem } => Op::SemDelete {
            sem: other_sem(names, sem),
        },
        Op::SemLook { sem, last } => Op::SemLook {
            sem: other_sem(names, sem),
            last,
        },
        Op::SemUnlock { sem } => Op::SemUnlock {
            sem: other_sem(names, sem),
        },
        Op::RwlDelete { rwl } => Op::RwlDelete {
            rwl: other_rwl(names, rwl),
        },
        Op::RwlLook { rwl, writer, last } => Op::RwlLook {
            rwl: other_rwl(names, rwl),
            writer,
            last,
        },
        Op::RwlUnlock { rwl, writer } => Op::RwlUnlock {
            rwl: other_rwl(names, rwl),
            writer,
        },
        Op::ShmemDelete { shmem } => Op::ShmemDelete {
            shmem: other_shmem(names, shmem),
        },
        Op::ShmemAttach { shmem } => Op::ShmemAttach {
            shmem: other_shmem(names, shmem),
        },
        Op::ShmemDetach { shmem } => Op::ShmemDetach {
            shmem: other_shmem(names, shmem),
        },
        Op::ShmemRead { shmem, cell } => Op::ShmemRead {
            shmem: other_shmem(names, shmem),
            cell,
        },
        Op::ShmemWrite { shmem, cell, value } => Op::ShmemWrite {
            shmem: other_shmem(names, shmem),
            cell,
            value,
        },
        op => op,
    }
}

// The other handle of an object of this kind, where the reply is to an op that answers one.
fn other_of<R: Rename>(names: &R, kind: Option<ObjectKind>, handle: u64) -> u64
    ensures { result ≡ other_of (R.renaming names.now) kind handle }
{
    match kind {
        Some(kind) => names.other(kind, handle),
        None => handle,
    }
}

/// The reply with the other handle of each object that it names, to an op that answers a handle of this kind.
pub fn renamed_answer<R: Rename>(names: &R, kind: Option<ObjectKind>, reply: Reply) -> Reply
    ensures { result ≡ renamed_answer (R.renaming names.now) kind reply }
{
    match reply {
        Reply::Handle(handle) => Reply::Handle(other_of(names, kind, handle)),
        Reply::Given(task, end) => Reply::Given(other_task(names, task), end),
        Reply::Picked {
            task,
            action,
            kind,
            args,
        } => Reply::Picked {
            task: other_task(names, task),
            action: other_action(names, action),
            kind,
            args,
        },
        reply => reply,
    }
}
