//! What a node is asked.

use action_fn::Finished;
use mtapi_values::{
    ActionHandle, Args, GroupHandle, Kind, Mask, MutexHandle, QueueHandle, RwlHandle, SemHandle,
    ShmemHandle, TaskHandle,
};

/// One op of a node, asked by a seat. The seats below the number of workers are the workers; main and the further callers come
/// behind them.
///
/// The machine says for each op when it is refused, in which order, and what it changes. Any seat may ask for any op: where a seat
/// may not, the answer is a refusal. The replies that stand here come beside the refusals.
#[derive(Drop, PartialEq, Eq)]
pub enum Op {
    /// Opens a new node. Main asks; `Ok`.
    Initialize,
    /// Main lets the further callers enter. `Ok`.
    Release,
    /// A further caller enters. `Ok` once main has released, and `Pending` before.
    Enter,
    /// The node takes no new objects any more. Main asks; `Ok`.
    Close,
    /// The node is finalized, once every worker has stopped. Main asks; `Ok`.
    Final,

    /// Asks for a job that some action has. `Number` of the job.
    JobGet {
        job: u32,
    },
    /// Makes an action of this job that may run on these cores. `Handle`.
    ActionCreate {
        job: u32,
        kind: Kind,
        cores: Mask,
    },
    /// Gives an action up: tasks that no worker can take any more fail. `Ok`.
    ActionDelete {
        action: ActionHandle,
    },
    /// An action isn't taken any more: tasks that no worker can take any more fail. `Ok`.
    ActionDisable {
        action: ActionHandle,
    },
    /// Lets an action be taken again for tasks of its job. `Ok`.
    ActionEnable {
        action: ActionHandle,
    },

    /// Makes a task of this job. A task in a group can't be detached. `Handle`.
    TaskStart {
        job: u32,
        args: Args,
        priority: u32,
        cores: Mask,
        detached: bool,
        group: Option<GroupHandle>,
    },
    /// Makes a task of this queue, with the queue's job and priority. `Handle`.
    TaskEnqueue {
        queue: QueueHandle,
        args: Args,
        cores: Mask,
        detached: bool,
        group: Option<GroupHandle>,
    },
    /// Looks whether a task has ended: `Ended`, and else `Pending`, or the status TIMEOUT with `last`, after which the caller doesn't
    /// look again.
    TaskLook {
        task: TaskHandle,
        last: bool,
    },
    /// Cancels a task that hasn't begun, and asks a running one to stop. `Ok`.
    TaskCancel {
        task: TaskHandle,
    },

    /// Makes a group. `Handle`.
    GroupCreate,
    /// Gives a group up: its members become detached. `Ok`.
    GroupDelete {
        group: GroupHandle,
    },
    /// Looks whether all members of a group have ended, and then frees them: `Ok`, or the status of the first that wasn't completed.
    /// Else `Pending`, or TIMEOUT with `last`.
    AllLook {
        group: GroupHandle,
        last: bool,
    },
    /// Looks for the member of a group that ended first, and hands it out: `Given`. Else `Pending`, or TIMEOUT with `last`.
    AnyLook {
        group: GroupHandle,
        last: bool,
    },

    /// Makes a queue for tasks of this job and priority, which holds at most `limit` of them that haven't ended. `Handle`.
    QueueCreate {
        id: u32,
        job: u32,
        priority: u32,
        limit: u32,
        ordered: bool,
        retain: bool,
    },
    /// Asks for the queue of this id. `Handle`.
    QueueGet {
        id: u32,
    },
    /// Lets the tasks of a queue begin again. `Ok`.
    QueueEnable {
        queue: QueueHandle,
    },
    /// The tasks of a queue don't begin any more; where the queue doesn't retain them they are cancelled. `Ok`.
    QueueDisable {
        queue: QueueHandle,
    },
    /// Gives a queue up: its tasks that haven't begun fail. `Ok`.
    QueueDelete {
        queue: QueueHandle,
    },

    /// A worker asks for a task to run: `Picked`, `Idle`, or `Stop`.
    Pick,
    /// A worker says what the action of its task answered. `Ok`.
    Finish {
        task: TaskHandle,
        done: Finished,
    },
    /// A worker asks whether its watch was asked to stop. `Asked`.
    Asked {
        task: TaskHandle,
    },
    /// A worker ends its watch. `Ended`.
    WatchEnd {
        task: TaskHandle,
    },
    /// A worker takes the mutex and the segment of its tally: `Asked(true)` with both, `Asked(false)` where the tally has failed, and
    /// `Pending` while another seat owns the mutex.
    TallyLock {
        task: TaskHandle,
    },
    /// A worker reads the cell of its tally. `Number`.
    TallyRead {
        task: TaskHandle,
    },
    /// A worker writes the cell of its tally. `Ok`.
    TallyWrite {
        task: TaskHandle,
        value: i64,
    },
    /// A worker gives back what its tally has, and ends it. `Ended`.
    TallyEnd {
        task: TaskHandle,
    },

    /// Makes a mutex. Callers alone ask for this and for what follows. `Handle`.
    MutexCreate {
        id: u32,
        recursive: bool,
    },
    /// Asks for the mutex of this id. `Handle`.
    MutexGet {
        id: u32,
    },
    /// Gives a mutex up that nobody owns. `Ok`.
    MutexDelete {
        mutex: MutexHandle,
    },
    /// Locks a mutex: `Number` of the key, which is the new depth. Else `Pending`, or TIMEOUT with `last`.
    MutexLook {
        mutex: MutexHandle,
        last: bool,
    },
    /// Takes one level of a lock back, by the last key. `Ok`.
    MutexUnlock {
        mutex: MutexHandle,
        key: u32,
    },

    /// Makes a semaphore that may be held `limit` times. `Handle`.
    SemCreate {
        id: u32,
        limit: u32,
    },
    /// Asks for the semaphore of this id. `Handle`.
    SemGet {
        id: u32,
    },
    /// Gives a semaphore up that nobody holds. `Ok`.
    SemDelete {
        sem: SemHandle,
    },
    /// Holds a semaphore once more: `Ok`. Else `Pending`, or TIMEOUT with `last`.
    SemLook {
        sem: SemHandle,
        last: bool,
    },
    /// Holds a semaphore once less. `Ok`.
    SemUnlock {
        sem: SemHandle,
    },

    /// Makes a reader-writer lock for at most `limit` readers. `Handle`.
    RwlCreate {
        id: u32,
        limit: u32,
    },
    /// Asks for the reader-writer lock of this id. `Handle`.
    RwlGet {
        id: u32,
    },
    /// Gives a reader-writer lock up that nobody holds. `Ok`.
    RwlDelete {
        rwl: RwlHandle,
    },
    /// Holds a reader-writer lock in this mode: `Ok`. Else `Pending`, or TIMEOUT with `last`.
    RwlLook {
        rwl: RwlHandle,
        writer: bool,
        last: bool,
    },
    /// Gives back what it holds in this mode. `Ok`.
    RwlUnlock {
        rwl: RwlHandle,
        writer: bool,
    },

    /// Makes a segment of so many cells, each 0. `Handle`.
    ShmemCreate {
        id: u32,
        cells: u32,
    },
    /// Asks for the segment of this id. `Handle`.
    ShmemGet {
        id: u32,
    },
    /// Gives a segment up to which nobody is attached. `Ok`.
    ShmemDelete {
        shmem: ShmemHandle,
    },
    /// Attaches this seat to a segment. `Ok`.
    ShmemAttach {
        shmem: ShmemHandle,
    },
    /// Detaches this seat from a segment. `Ok`.
    ShmemDetach {
        shmem: ShmemHandle,
    },
    /// Reads a cell. `Number`.
    ShmemRead {
        shmem: ShmemHandle,
        cell: u32,
    },
    /// Writes a cell. `Ok`.
    ShmemWrite {
        shmem: ShmemHandle,
        cell: u32,
        value: i64,
    },
}

impl Op {
    ghost use Rattle.std.specs.Prelude.{◌≡◌};

    /// An equal op. It takes no memory.
    pub fn again(&self) -> Op
        ensures { result ≡ self.now }
    {
        match self {
            Op::Initialize => Op::Initialize,
            Op::Release => Op::Release,
            Op::Enter => Op::Enter,
            Op::Close => Op::Close,
            Op::Final => Op::Final,
            Op::JobGet { job } => Op::JobGet { job: *job },
            Op::ActionCreate { job, kind, cores } => Op::ActionCreate {
                job: *job,
                kind: *kind,
                cores: *cores,
            },
            Op::ActionDelete { action } => Op::ActionDelete { action: *action },
            Op::ActionDisable { action } => Op::ActionDisable { action: *action },
            Op::ActionEnable { action } => Op::ActionEnable { action: *action },
            Op::TaskStart {
                job,
                args,
                priority,
                cores,
                detached,
                group,
            } => Op::TaskStart {
                job: *job,
                args: args.again(),
                priority: *priority,
                cores: *cores,
                detached: *detached,
                group: *group,
            },
            Op::TaskEnqueue {
                queue,
                args,
                cores,
                detached,
                group,
            } => Op::TaskEnqueue {
                queue: *queue,
                args: args.again(),
                cores: *cores,
                detached: *detached,
                group: *group,
            },
            Op::TaskLook { task, last } => Op::TaskLook {
                task: *task,
                last: *last,
            },
            Op::TaskCancel { task } => Op::TaskCancel { task: *task },
            Op::GroupCreate => Op::GroupCreate,
            Op::GroupDelete { group } => Op::GroupDelete { group: *group },
            Op::AllLook { group, last } => Op::AllLook {
                group: *group,
                last: *last,
            },
            Op::AnyLook { group, last } => Op::AnyLook {
                group: *group,
                last: *last,
            },
            Op::QueueCreate {
                id,
                job,
                priority,
                limit,
                ordered,
                retain,
            } => Op::QueueCreate {
                id: *id,
                job: *job,
                priority: *priority,
                limit: *limit,
                ordered: *ordered,
                retain: *retain,
            },
            Op::QueueGet { id } => Op::QueueGet { id: *id },
            Op::QueueEnable { queue } => Op::QueueEnable { queue: *queue },
            Op::QueueDisable { queue } => Op::QueueDisable { queue: *queue },
            Op::QueueDelete { queue } => Op::QueueDelete { queue: *queue },
            Op::Pick => Op::Pick,
            Op::Finish { task, done } => Op::Finish {
                task: *task,
                done: done.again(),
            },
            Op::Asked { task } => Op::Asked { task: *task },
            Op::WatchEnd { task } => Op::WatchEnd { task: *task },
            Op::TallyLock { task } => Op::TallyLock { task: *task },
            Op::TallyRead { task } => Op::TallyRead { task: *task },
            Op::TallyWrite { task, value } => Op::TallyWrite {
                task: *task,
                value: *value,
            },
            Op::TallyEnd { task } => Op::TallyEnd { task: *task },
            Op::MutexCreate { id, recursive } => Op::MutexCreate {
                id: *id,
                recursive: *recursive,
            },
            Op::MutexGet { id } => Op::MutexGet { id: *id },
            Op::MutexDelete { mutex } => Op::MutexDelete { mutex: *mutex },
            Op::MutexLook { mutex, last } => Op::MutexLook {
                mutex: *mutex,
                last: *last,
            },
            Op::MutexUnlock { mutex, key } => Op::MutexUnlock {
                mutex: *mutex,
                key: *key,
            },
            Op::SemCreate { id, limit } => Op::SemCreate {
                id: *id,
                limit: *limit,
            },
            Op::SemGet { id } => Op::SemGet { id: *id },
            Op::SemDelete { sem } => Op::SemDelete { sem: *sem },
            Op::SemLook { sem, last } => Op::SemLook {
                sem: *sem,
                last: *last,
            },
            Op::SemUnlock { sem } => Op::SemUnlock { sem: *sem },
            Op::RwlCreate { id, limit } => Op::RwlCreate {
                id: *id,
                limit: *limit,
            },
            Op::RwlGet { id } => Op::RwlGet { id: *id },
            Op::RwlDelete { rwl } => Op::RwlDelete { rwl: *rwl },
            Op::RwlLook { rwl, writer, last } => Op::RwlLook {
                rwl: *rwl,
                writer: *writer,
                last: *last,
            },
            Op::RwlUnlock { rwl, writer } => Op::RwlUnlock {
                rwl: *rwl,
                writer: *writer,
            },
            Op::ShmemCreate { id, cells } => Op::ShmemCreate {
                id: *id,
                cells: *cells,
            },
            Op::ShmemGet { id } => Op::ShmemGet { id: *id },
            Op::ShmemDelete { shmem } => Op::ShmemDelete { shmem: *shmem },
            Op::ShmemAttach { shmem } => Op::ShmemAttach { shmem: *shmem },
            Op::ShmemDetach { shmem } => Op::ShmemDetach { shmem: *shmem },
            Op::ShmemRead { shmem, cell } => Op::ShmemRead {
                shmem: *shmem,
                cell: *cell,
            },
            Op::ShmemWrite { shmem, cell, value } => Op::ShmemWrite {
                shmem: *shmem,
                cell: *cell,
                value: *value,
            },
        }
    }
}
