//! Ops without a list of arguments, in little room.

ghost use Rattle.std.specs.Prelude.{◌≡◌, IfSome};
ghost use Rattle.node_journals.specs.ShortCalls.{op_in_full};

use mtapi_machine::Op;
use mtapi_values::{GroupHandle, MutexHandle, RwlHandle, SemHandle, ShmemHandle, TaskHandle};

/// What is asked often without a list of arguments: looks, cancels, a worker's calls, and what takes, gives back, reads or writes a
/// resource.
#[derive(Clone, Copy, Drop)]
pub enum ShortOp {
    Pick,
    TaskLook {
        task: TaskHandle,
        last: bool,
    },
    TaskCancel {
        task: TaskHandle,
    },
    AllLook {
        group: GroupHandle,
        last: bool,
    },
    AnyLook {
        group: GroupHandle,
        last: bool,
    },
    Asked {
        task: TaskHandle,
    },
    WatchEnd {
        task: TaskHandle,
    },
    TallyLock {
        task: TaskHandle,
    },
    TallyRead {
        task: TaskHandle,
    },
    TallyWrite {
        task: TaskHandle,
        value: i64,
    },
    TallyEnd {
        task: TaskHandle,
    },
    MutexLook {
        mutex: MutexHandle,
        last: bool,
    },
    MutexUnlock {
        mutex: MutexHandle,
        key: u32,
    },
    SemLook {
        sem: SemHandle,
        last: bool,
    },
    SemUnlock {
        sem: SemHandle,
    },
    RwlLook {
        rwl: RwlHandle,
        writer: bool,
        last: bool,
    },
    RwlUnlock {
        rwl: RwlHandle,
        writer: bool,
    },
    ShmemRead {
        shmem: ShmemHandle,
        cell: u32,
    },
    ShmemWrite {
        shmem: ShmemHandle,
        cell: u32,
        value: i64,
    },
}

impl ShortOp {
    /// The same op. None where it is another.
    pub fn of(op: &Op) -> Option<ShortOp>
        ensures { IfSome result (λ short. op_in_full short ≡ op.now) }
    {
        match op {
            Op::Pick => Some(ShortOp::Pick),
            Op::TaskLook { task, last } => Some(ShortOp::TaskLook {
                task: *task,
                last: *last,
            }),
            Op::TaskCancel { task } => Some(ShortOp::TaskCancel { task: *task }),
            Op::AllLook { group, last } => Some(ShortOp::AllLook {
                group: *group,
                last: *last,
            }),
            Op::AnyLook { group, last } => Some(ShortOp::AnyLook {
                group: *group,
                last: *last,
            }),
            Op::Asked { task } => Some(ShortOp::Asked { task: *task }),
            Op::WatchEnd { task } => Some(ShortOp::WatchEnd { task: *task }),
            Op::TallyLock { task } => Some(ShortOp::TallyLock { task: *task }),
            Op::TallyRead { task } => Some(ShortOp::TallyRead { task: *task }),
            Op::TallyWrite { task, value } => Some(ShortOp::TallyWrite {
                task: *task,
                value: *value,
            }),
            Op::TallyEnd { task } => Some(ShortOp::TallyEnd { task: *task }),
            Op::MutexLook { mutex, last } => Some(ShortOp::MutexLook {
                mutex: *mutex,
                last: *last,
            }),
            Op::MutexUnlock { mutex, key } => Some(ShortOp::MutexUnlock {
                mutex: *mutex,
                key: *key,
            }),
            Op::SemLook { sem, last } => Some(ShortOp::SemLook {
                sem: *sem,
                last: *last,
            }),
            Op::SemUnlock { sem } => Some(ShortOp::SemUnlock { sem: *sem }),
            Op::RwlLook { rwl, writer, last } => Some(ShortOp::RwlLook {
                rwl: *rwl,
                writer: *writer,
                last: *last,
            }),
            Op::RwlUnlock { rwl, writer } => Some(ShortOp::RwlUnlock {
                rwl: *rwl,
                writer: *writer,
            }),
            Op::ShmemRead { shmem, cell } => Some(ShortOp::ShmemRead {
                shmem: *shmem,
                cell: *cell,
            }),
            Op::ShmemWrite { shmem, cell, value } => Some(ShortOp::ShmemWrite {
                shmem: *shmem,
                cell: *cell,
                value: *value,
            }),
            _ => None,
        }
    }

    /// The op that it stands for.
    pub fn full(&self) -> Op
        ensures { result ≡ op_in_full self.now }
    {
        match *self {
            ShortOp::Pick => Op::Pick,
            ShortOp::TaskLook { task, last } => Op::TaskLook { task, last },
            ShortOp::TaskCancel { task } => Op::TaskCancel { task },
            ShortOp::AllLook { group, last } => Op::AllLook { group, last },
            ShortOp::AnyLook { group, last } => Op::AnyLook { group, last },
            ShortOp::Asked { task } => Op::Asked { task },
            ShortOp::WatchEnd { task } => Op::WatchEnd { task },
            ShortOp::TallyLock { task } => Op::TallyLock { task },
            ShortOp::TallyRead { task } => Op::TallyRead { task },
            ShortOp::TallyWrite { task, value } => Op::TallyWrite { task, value },
            ShortOp::TallyEnd { task } => Op::TallyEnd { task },
            ShortOp::MutexLook { mutex, last } => Op::MutexLook { mutex, last },
            ShortOp::MutexUnlock { mutex, key } => Op::MutexUnlock { mutex, key },
            ShortOp::SemLook { sem, last } => Op::SemLook { sem, last },
            ShortOp::SemUnlock { sem } => Op::SemUnlock { sem },
            ShortOp::RwlLook { rwl, writer, last } => Op::RwlLook { rwl, writer, last },
            ShortOp::RwlUnlock { rwl, writer } => Op::RwlUnlock { rwl, writer },
            ShortOp::ShmemRead { shmem, cell } => Op::ShmemRead { shmem, cell },
            ShortOp::ShmemWrite { shmem, cell, value } => Op::ShmemWrite { shmem, cell, value },
        }
    }
}
