//! The call that each statement makes.

ghost use Rattle.std.specs.Prelude.{◌≡◌, option_map};
ghost use Rattle.workload_runs.specs.Calls.{call_of, handle_at, group_at};
ghost use Rattle.workload_runs.specs.Wants.{op_of_look, waits, shape, Stated};

use mtapi_machine::Op;
use mtapi_values::{
    ActionHandle, GroupHandle, MutexHandle, QueueHandle, RwlHandle, SemHandle, ShmemHandle,
    TaskHandle, Timeout,
};
use workload_file::Deed;

/// What a call looks for.
#[derive(Clone, Copy, Debug, Drop, PartialEq, Eq)]
pub enum Wanted {
    /// The end of a task.
    Task(TaskHandle),
    /// That main has released.
    Entrance,
    /// That all members of a group have ended.
    AllMembers(GroupHandle),
    /// The member of a group that ended first.
    FirstMember(GroupHandle),
    /// A mutex.
    Mutex(MutexHandle),
    /// A semaphore.
    Sem(SemHandle),
    /// A reader-writer lock, as a reader or as the writer.
    Rwl { rwl: RwlHandle, writer: bool },
}

impl Wanted {
    /// The op of one look, the last one or not.
    pub fn op(self, last: bool) -> Op
        ensures { result ≡ op_of_look self last }
    {
        match self {
            Wanted::Task(task) => Op::TaskLook { task, last },
            Wanted::Entrance => Op::Enter,
            Wanted::AllMembers(group) => Op::AllLook { group, last },
            Wanted::FirstMember(group) => Op::AnyLook { group, last },
            Wanted::Mutex(mutex) => Op::MutexLook { mutex, last },
            Wanted::Sem(sem) => Op::SemLook { sem, last },
            Wanted::Rwl { rwl, writer } => Op::RwlLook { rwl, writer, last },
        }
    }

    /// Whether the caller stands as waiter between its looks.
    pub fn waits(self) -> bool
        ensures { result ≡ waits self }
    {
        matches!(self, Wanted::Task(_))
    }
}

/// A call of a caller: one op, or looks until there is an answer.
#[derive(Drop)]
pub enum Call {
    Once(Op),
    Looking(Wanted, Timeout),
}

fn handle_at(bound: &[u64], place: u32) -> u64
    ensures { result ≡ handle_at bound.now place }
{
    match bound.get(place as usize) {
        Some(handle) => *handle,
        None => 0,
    }
}

fn group_at(bound: &[u64], group: Option<u32>) -> Option<GroupHandle>
    ensures { result ≡ option_map (group_at bound.now) group }
{
    match group {
        Some(place) => Some(GroupHandle(handle_at(bound, place))),
        None => None,
    }
}

/// The call of a statement, where the earlier ones of its part bound these handles: one line a
/// statement. Only its timed looks and the ops of one entry are calls of statements.
pub fn call_of(deed: &Deed, bound: &[u64]) -> Call
    ensures call { shape result ≡ call_of bound.now deed.now }
    ensures stated { Stated result }
{
    match deed {
        Deed::Begin => Call::Once(Op::Release),
        Deed::Action { job, kind, cores } => Call::Once(Op::ActionCreate {
            job: *job,
            kind: *kind,
            cores: *cores,
        }),
        Deed::ActionDelete { place } => Call::Once(Op::ActionDelete {
            action: ActionHandle(handle_at(bound, *place)),
        }),
        Deed::ActionEnable { place } => Call::Once(Op::ActionEnable {
            action: ActionHandle(handle_at(bound, *place)),
        }),
        Deed::ActionDisable { place } => Call::Once(Op::ActionDisable {
            action: ActionHandle(handle_at(bound, *place)),
        }),
        Deed::Start {
            job,
            args,
            priority,
            cores,
            detached,
            group,
        } => Call::Once(Op::TaskStart {
            job: *job,
            args: args.again(),
            priority: *priority,
            cores: *cores,
            detached: *detached,
            group: group_at(bound, *group),
        }),
        Deed::Enqueue {
            queue,
            args,
            cores,
            detached,
            group,
        } => Call::Once(Op::TaskEnqueue {
            queue: QueueHandle(handle_at(bound, *queue)),
            args: args.again(),
            cores: *cores,
            detached: *detached,
            group: group_at(bound, *group),
        }),
        Deed::Wait { place, timeout } => Call::Looking(
            Wanted::Task(TaskHandle(handle_at(bound, *place))),
            *timeout,
        ),
        Deed::Cancel { place } => Call::Once(Op::TaskCancel {
            task: TaskHandle(handle_at(bound, *place)),
        }),
        Deed::Group => Call::Once(Op::GroupCreate),
        Deed::WaitAll { place, timeout } => Call::Looking(
            Wanted::AllMembers(GroupHandle(handle_at(bound, *place))),
            *timeout,
        ),
        Deed::WaitAny { place, timeout } => Call::Looking(
            Wanted::FirstMember(GroupHandle(handle_at(bound, *place))),
            *timeout,
        ),
        Deed::GroupDelete { place } => Call::Once(Op::GroupDelete {
            group: GroupHandle(handle_at(bound, *place)),
        }),
        Deed::Queue {
            id,
            job,
            priority,
            limit,
            ordered,
            retain,
        } => Call::Once(Op::QueueCreate {
            id: *id,
            job: *job,
            priority: *priority,
            limit: *limit,
            ordered: *ordered,
            retain: *retain,
        }),
        Deed::QueueGet { id } => Call::Once(Op::QueueGet { id: *id }),
        Deed::QueueEnable { place } => Call::Once(Op::QueueEnable {
            queue: QueueHandle(handle_at(bound, *place)),
        }),
        Deed::QueueDisable { place } => Call::Once(Op::QueueDisable {
            queue: QueueHandle(handle_at(bound, *place)),
        }),
        Deed::QueueDelete { place } => Call::Once(Op::QueueDelete {
            queue: QueueHandle(handle_at(bound, *place)),
        }),
        Deed::Mutex { id, recursive } => Call::Once(Op::MutexCreate {
            id: *id,
            recursive: *recursive,
        }),
        Deed::MutexGet { id } => Call::Once(Op::MutexGet { id: *id }),
        Deed::MutexDelete { place } => Call::Once(Op::MutexDelete {
            mutex: MutexHandle(handle_at(bound, *place)),
        }),
        Deed::Lock { place, timeout } => Call::Looking(
            Wanted::Mutex(MutexHandle(handle_at(bound, *place))),
            *timeout,
        ),
        Deed::Unlock { place, key } => Call::Once(Op::MutexUnlock {
            mutex: MutexHandle(handle_at(bound, *place)),
            key: *key,
        }),
        Deed::Sem { id, limit } => Call::Once(Op::SemCreate {
            id: *id,
            limit: *limit,
        }),
        Deed::SemGet { id } => Call::Once(Op::SemGet { id: *id }),
        Deed::SemDelete { place } => Call::Once(Op::SemDelete {
            sem: SemHandle(handle_at(bound, *place)),
        }),
        Deed::SemLock { place, timeout } => Call::Looking(
            Wanted::Sem(SemHandle(handle_at(bound, *place))),
            *timeout,
        ),
        Deed::SemUnlock { place } => Call::Once(Op::SemUnlock {
            sem: SemHandle(handle_at(bound, *place)),
        }),
        Deed::Rwl { id, limit } => Call::Once(Op::RwlCreate {
            id: *id,
            limit: *limit,
        }),
        Deed::RwlGet { id } => Call::Once(Op::RwlGet { id: *id }),
        Deed::RwlDelete { place } => Call::Once(Op::RwlDelete {
            rwl: RwlHandle(handle_at(bound, *place)),
        }),
        Deed::RwlLock {
            place,
            writer,
            timeout,
        } => Call::Looking(
            Wanted::Rwl {
                rwl: RwlHandle(handle_at(bound, *place)),
                writer: *writer,
            },
            *timeout,
        ),
        Deed::RwlUnlock { place, writer } => Call::Once(Op::RwlUnlock {
            rwl: RwlHandle(handle_at(bound, *place)),
            writer: *writer,
        }),
        Deed::Shmem { id, cells } => Call::Once(Op::ShmemCreate {
            id: *id,
            cells: *cells,
        }),
        Deed::ShmemGet { id } => Call::Once(Op::ShmemGet { id: *id }),
        Deed::ShmemDelete { place } => Call::Once(Op::ShmemDelete {
            shmem: ShmemHandle(handle_at(bound, *place)),
        }),
        Deed::Attach { place } => Call::Once(Op::ShmemAttach {
            shmem: ShmemHandle(handle_at(bound, *place)),
        }),
        Deed::Detach { place } => Call::Once(Op::ShmemDetach {
            shmem: ShmemHandle(handle_at(bound, *place)),
        }),
        Deed::Read { place, cell } => Call::Once(Op::ShmemRead {
            shmem: ShmemHandle(handle_at(bound, *place)),
            cell: *cell,
        }),
        Deed::Write { place, cell, value } => Call::Once(Op::ShmemWrite {
            shmem: ShmemHandle(handle_at(bound, *place)),
            cell: *cell,
            value: *value,
        }),
    }
}
