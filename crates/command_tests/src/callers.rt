//! Each call of a caller once, on a node whose worker never comes to its turn: a task ends only where it is cancelled.

ghost use Rattle.std.specs.Prelude.{◌≡◌};
ghost use Rattle.turn_cell.specs.Seats.{fresh_seat, fresh_seats};

use mtapi_values::{
    ActionAttr, Args, JobHandle, Kind, MrapiStatus, MtapiStatus, MutexAttr, NodeAttr, QueueAttr,
    TaskAttr, TaskEnd, Timeout,
};
use node_core::{Journaled, Node};
use sched_workers::Caller;
use std::sync::Wait;
use std::test::Fail;
use turn_cell::{TurnCell, TurnSeat};

// The seats of the two callers.
#[derive(Drop)]
struct Seats {
    caller: TurnSeat<Journaled>,
    other: TurnSeat<Journaled>,
}

// A node with one worker and two callers has three seats.
fn deal(cell: &TurnCell<Journaled>, seats: Vec<TurnSeat<Journaled>>) -> Seats
    requires { seats.items ≡ fresh_seats cell.now.terms cell.now.id 0 3 }
    ensures caller { result.caller ≡ fresh_seat cell.now.terms cell.now.id 1 }
    ensures other { result.other ≡ fresh_seat cell.now.terms cell.now.id 2 }
{
    let _ = cell;
    let mut seats = seats;
    let Some(other) = seats.pop() else {
        unreachable!()
    };
    let Some(caller) = seats.pop() else {
        unreachable!()
    };
    Seats { caller, other }
}

fn is_cancelled(end: &Result<TaskEnd, MtapiStatus>) -> bool {
    matches!(end, Ok(TaskEnd::Cancelled))
}

fn actions_and_tasks<R: Wait>(rt: &R, caller: &mut Caller) -> Result<bool, MtapiStatus> {
    let mut right = caller.job_get(rt, 1) == Err(MtapiStatus::ErrJobInvalid);
    let action = caller.action_create(rt, 1, Kind::Add, ActionAttr::new())?;
    right = right && caller.job_get(rt, 1) == Ok(JobHandle(1));
    caller.action_disable(rt, action)?;
    let refused = caller.task_start(rt, 1, &Args::new(), TaskAttr::new(), None);
    right = right && refused == Err(MtapiStatus::ErrActionDisabled);
    caller.action_enable(rt, action)?;
    let task = caller.task_start(rt, 1, &Args::new(), TaskAttr::new(), None)?;
    let early = caller.task_wait(rt, task, Timeout::Looks(2));
    right = right && matches!(early, Err(MtapiStatus::Timeout));
    caller.task_cancel(rt, task)?;
    right = right && is_cancelled(&caller.task_wait(rt, task, Timeout::Infinite));
    right = right && caller.task_cancel(rt, task) == Err(MtapiStatus::ErrTaskInvalid);
    caller.action_delete(rt, action)?;
    Ok(right && caller.action_delete(rt, action) == Err(MtapiStatus::ErrActionInvalid))
}

fn groups<R: Wait>(rt: &R, caller: &mut Caller) -> Result<bool, MtapiStatus> {
    let action = caller.action_create(rt, 1, Kind::Add, ActionAttr::new())?;
    let group = caller.group_create(rt)?;
    let task = caller.task_start(rt, 1, &Args::new(), TaskAttr::new(), Some(group))?;
    let early = caller.group_wait_all(rt, group, Timeout::NoWait);
    let mut right = early == Err(MtapiStatus::Timeout);
    caller.task_cancel(rt, task)?;
    let first = caller.group_wait_any(rt, group, Timeout::Infinite)?;
    right = right && first.0 == task && matches!(first.1, TaskEnd::Cancelled);
    let none = caller.group_wait_any(rt, group, Timeout::Infinite);
    right = right && matches!(none, Err(MtapiStatus::GroupCompleted));
    caller.group_wait_all(rt, group, Timeout::Infinite)?;
    caller.group_delete(rt, group)?;
    right = right && caller.group_delete(rt, group) == Err(MtapiStatus::ErrGroupInvalid);
    caller.action_delete(rt, action)?;
    Ok(right)
}

fn queues<R: Wait>(rt: &R, caller: &mut Caller) -> Result<bool, MtapiStatus> {
    let action = caller.action_create(rt, 1, Kind::Add, ActionAttr::new())?;
    let queue = caller.queue_create(rt, 7, 1, QueueAttr::new())?;
    let mut right = caller.queue_get(rt, 7) == Ok(queue);
    let task = caller.task_enqueue(rt, queue, &Args::new(), TaskAttr::new(), None)?;
    caller.queue_disable(rt, queue)?;
    right = right && is_cancelled(&caller.task_wait(rt, task, Timeout::NoWait));
    caller.queue_enable(rt, queue)?;
    caller.queue_delete(rt, queue)?;
    right = right && caller.queue_get(rt, 7) == Err(MtapiStatus::ErrQueueInvalid);
    caller.action_delete(rt, action)?;
    Ok(right)
}

fn mutexes<R: Wait>(rt: &R, caller: &mut Caller) -> Result<bool, MrapiStatus> {
    let mutex = caller.mutex_create(rt, 1, MutexAttr::new())?;
    let mut right = caller.mutex_get(rt, 1) == Ok(mutex);
    right = right && caller.mutex_lock(rt, mutex, Timeout::Infinite) == Ok(1);
    right = right && caller.mutex_trylock(rt, mutex) == Err(MrapiStatus::ErrMutexLocked);
    right = right && caller.mutex_unlock(rt, mutex, 2) == Err(MrapiStatus::ErrMutexKey);
    caller.mutex_unlock(rt, mutex, 1)?;
    caller.mutex_delete(rt, mutex)?;
    Ok(right && caller.mutex_get(rt, 1) == Err(MrapiStatus::ErrMutexIdInvalid))
}

fn semaphores_and_locks<R: Wait>(rt: &R, caller: &mut Caller) -> Result<bool, MrapiStatus> {
    let sem = caller.sem_create(rt, 1, 1)?;
    let mut right = caller.sem_get(rt, 1) == Ok(sem);
    caller.sem_lock(rt, sem, Timeout::Infinite)?;
    right = right && caller.sem_trylock(rt, sem) == Err(MrapiStatus::Timeout);
    caller.sem_unlock(rt, sem)?;
    caller.sem_delete(rt, sem)?;
    let rwl = caller.rwl_create(rt, 1, 2)?;
    right = right && caller.rwl_get(rt, 1) == Ok(rwl);
    caller.rwl_lock(rt, rwl, true, Timeout::Infinite)?;
    right = right && caller.rwl_trylock(rt, rwl, false) == Err(MrapiStatus::ErrRwlLocked);
    caller.rwl_unlock(rt, rwl, true)?;
    caller.rwl_delete(rt, rwl)?;
    Ok(right)
}

fn segments<R: Wait>(rt: &R, caller: &mut Caller) -> Result<bool, MrapiStatus> {
    let shmem = caller.shmem_create(rt, 1, 2)?;
    let mut right = caller.shmem_get(rt, 1) == Ok(shmem);
    right = right && caller.shmem_read(rt, shmem, 0) == Err(MrapiStatus::ErrShmNotattached);
    caller.shmem_attach(rt, shmem)?;
    caller.shmem_write(rt, shmem, 1, 5)?;
    right = right && caller.shmem_read(rt, shmem, 1) == Ok(5);
    caller.shmem_detach(rt, shmem)?;
    caller.shmem_delete(rt, shmem)?;
    Ok(right)
}

// What a start or an enqueue asks for beside its arguments: the node has priorities up to 3 and core 0 alone.
fn task_attributes(number: u32, value: u64) -> Result<TaskAttr, MtapiStatus> {
    let mut attr = TaskAttr::new();
    attr.set(number, value)?;
    Ok(attr)
}

// Each attribute that isn't the usual one reaches the node: by it a call is answered otherwise than without it.
fn attributes_of_tasks<R: Wait>(rt: &R, caller: &mut Caller) -> Result<bool, MtapiStatus> {
    let mut away = ActionAttr::new();
    away.set(ActionAttr::AFFINITY, 2)?;
    let action = caller.action_create(rt, 1, Kind::Add, away)?;
    let nowhere = caller.task_start(rt, 1, &Args::new(), TaskAttr::new(), None);
    let mut right = nowhere == Err(MtapiStatus::ErrNoCore);
    caller.action_delete(rt, action)?;
    let action = caller.action_create(rt, 1, Kind::Add, ActionAttr::new())?;
    let elsewhere = task_attributes(TaskAttr::AFFINITY, 2)?;
    let refused = caller.task_start(rt, 1, &Args::new(), elsewhere, None);
    right = right && refused == Err(MtapiStatus::ErrNoCore);
    let late = task_attributes(TaskAttr::PRIORITY, 7)?;
    let refused = caller.task_start(rt, 1, &Args::new(), late, None);
    right = right && refused == Err(MtapiStatus::ErrParameter);
    let alone = task_attributes(TaskAttr::DETACHED, 1)?;
    let task = caller.task_start(rt, 1, &Args::new(), alone, None)?;
    caller.task_cancel(rt, task)?;
    right = right && caller.task_cancel(rt, task) == Err(MtapiStatus::ErrTaskInvalid);
    caller.action_delete(rt, action)?;
    Ok(right)
}

fn attributes_of_queues<R: Wait>(rt: &R, caller: &mut Caller) -> Result<bool, MtapiStatus> {
    let action = caller.action_create(rt, 1, Kind::Add, ActionAttr::new())?;
    let mut late = QueueAttr::new();
    late.set(QueueAttr::PRIORITY, 7)?;
    let refused = caller.queue_create(rt, 7, 1, late);
    let mut right = refused == Err(MtapiStatus::ErrParameter);
    let mut short = QueueAttr::new();
    short.set(QueueAttr::LIMIT, 1)?;
    short.set(QueueAttr::RETAIN, 1)?;
    let queue = caller.queue_create(rt, 7, 1, short)?;
    let elsewhere = task_attributes(TaskAttr::AFFINITY, 2)?;
    let refused = caller.task_enqueue(rt, queue, &Args::new(), elsewhere, None);
    right = right && refused == Err(MtapiStatus::ErrNoCore);
    let alone = task_attributes(TaskAttr::DETACHED, 1)?;
    let task = caller.task_enqueue(rt, queue, &Args::new(), alone, None)?;
    let full = caller.task_enqueue(rt, queue, &Args::new(), alone, None);
    right = right && full == Err(MtapiStatus::ErrQueueLimit);
    // Nobody may wait for a detached task.
    let waited = caller.task_wait(rt, task, Timeout::NoWait);
    right = right && matches!(waited, Err(MtapiStatus::ErrParameter));
    // The queue retains it, and it is gone once it has ended.
    caller.queue_disable(rt, queue)?;
    caller.task_cancel(rt, task)?;
    right = right && caller.task_cancel(rt, task) == Err(MtapiStatus::ErrTaskInvalid);
    caller.queue_delete(rt, queue)?;
    caller.action_delete(rt, action)?;
    Ok(right)
}

fn recursive_mutex<R: Wait>(rt: &R, caller: &mut Caller) -> Result<bool, MrapiStatus> {
    let mut attr = MutexAttr::new();
    let _ = attr.set(MutexAttr::RECURSIVE, 1);
    let mutex = caller.mutex_create(rt, 1, attr)?;
    let mut right = caller.mutex_lock(rt, mutex, Timeout::NoWait) == Ok(1);
    right = right && caller.mutex_trylock(rt, mutex) == Ok(2);
    caller.mutex_unlock(rt, mutex, 2)?;
    caller.mutex_unlock(rt, mutex, 1)?;
    caller.mutex_delete(rt, mutex)?;
    Ok(right)
}

#[test]
fn each_call_of_a_caller(rt: HostRuntime) -> Result<(), Fail> {
    let alloc = rt.alloc();
    let node = Node::init(alloc, NodeAttr::new(), 2)?;
    let (cell, seats) = TurnCell::new(alloc, Journaled::without(node))?;
    let Seats { caller, other } = deal(&cell, seats);
    let mut caller = Caller::new(&cell, caller);
    let mut other = Caller::new(&cell, other);
    assert_eq!(rt; caller.initialize(&rt), Ok(()));
    assert_eq!(rt; caller.release(&rt), Ok(()));
    assert_eq!(rt; other.enter(&rt), Ok(()));
    assert_eq!(rt; actions_and_tasks(&rt, &mut caller), Ok(true));
    assert_eq!(rt; groups(&rt, &mut caller), Ok(true));
    assert_eq!(rt; queues(&rt, &mut caller), Ok(true));
    assert_eq!(rt; mutexes(&rt, &mut caller), Ok(true));
    assert_eq!(rt; semaphores_and_locks(&rt, &mut caller), Ok(true));
    assert_eq!(rt; segments(&rt, &mut caller), Ok(true));
    assert_eq!(rt; attributes_of_tasks(&rt, &mut caller), Ok(true));
    assert_eq!(rt; attributes_of_queues(&rt, &mut caller), Ok(true));
    assert_eq!(rt; recursive_mutex(&rt, &mut caller), Ok(true));
    assert_eq!(rt; caller.finalize_begin(&rt), Ok(()));
    // The worker hasn't stopped.
    assert_eq!(rt;
        caller.finalize_end(&rt),
        Err(MtapiStatus::ErrNodeInitialized)
    );
    assert_eq!(rt; caller.into_seat().number(), 1);
    Ok(())
}
