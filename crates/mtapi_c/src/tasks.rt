//! Tasks.

ghost use Rattle.mtapi_machine.specs.declared.ops.Op.TheVariants as op;
ghost use Rattle.node_handle.specs.Handles.{IsLive};
ghost use Rattle.mtapi_c.specs.Asks.{op_with_numbers, group_by_handle};
ghost use Rattle.mtapi_c.specs.Answers.{GivesStatus, GivesNumbers, TriesForHandle};

use crate::asking::{ask, ask_numbers, try_handle};
use crate::ops::{enqueue_op, start_op};
use mtapi_values::TaskHandle;
use node_core::Op;
use node_handle::NodeHandle;
use std::alloc::Global;

/// Starts a task of this job with at most 16 numbers.
#[unsafe(no_mangle)]
pub extern "C" fn mtapi_c_task_start(
    alloc: Global,
    node: &mut NodeHandle,
    who: u32,
    job: u32,
    numbers: &[i64],
    priority: u32,
    cores: u64,
    detached: bool,
    group: u64,
    task: &mut u64,
) -> u32
    requires live { IsLive node.old }
    ensures live { IsLive node.new }
    ensures called { TriesForHandle node.old who
        (op_with_numbers numbers.now (λ args. op.TaskStart job args priority (record { 0 = cores }) detached (group_by_handle group)))
        result task.new node.new }
{
    try_handle(
        alloc,
        node,
        who,
        start_op(job, numbers, priority, cores, detached, group),
        task,
    )
}

/// Starts a task of this queue with at most 16 numbers.
#[unsafe(no_mangle)]
pub extern "C" fn mtapi_c_task_enqueue(
    alloc: Global,
    node: &mut NodeHandle,
    who: u32,
    queue: u64,
    numbers: &[i64],
    cores: u64,
    detached: bool,
    group: u64,
    task: &mut u64,
) -> u32
    requires live { IsLive node.old }
    ensures live { IsLive node.new }
    ensures called { TriesForHandle node.old who
        (op_with_numbers numbers.now (λ args. op.TaskEnqueue (record { 0 = queue }) args (record { 0 = cores }) detached (group_by_handle group)))
        result task.new node.new }
{
    try_handle(
        alloc,
        node,
        who,
        enqueue_op(queue, numbers, cores, detached, group),
        task,
    )
}

/// Looks whether a task has ended, and hands its results out.
#[unsafe(no_mangle)]
pub extern "C" fn mtapi_c_task_look(
    alloc: Global,
    node: &mut NodeHandle,
    who: u32,
    task: u64,
    last: bool,
    numbers: &mut [i64],
    count: &mut usize,
) -> u32
    requires live { IsLive node.old }
    ensures live { IsLive node.new }
    ensures called { GivesNumbers node.old who
        (op.TaskLook (record { 0 = task }) last)
        result (record { old = numbers.old; new = numbers.new; count = count.new }) node.new }
{
    ask_numbers(
        alloc,
        node,
        who,
        Op::TaskLook {
            task: TaskHandle(task),
            last,
        },
        numbers,
        count,
    )
}

/// Cancels a task that hasn't begun, and asks a running one to stop.
#[unsafe(no_mangle)]
pub extern "C" fn mtapi_c_task_cancel(
    alloc: Global,
    node: &mut NodeHandle,
    who: u32,
    task: u64,
) -> u32
    requires live { IsLive node.old }
    ensures live { IsLive node.new }
    ensures called { GivesStatus node.old who (op.TaskCancel (record { 0 = task })) result node.new }
{
    ask(
        alloc,
        node,
        who,
        Op::TaskCancel {
            task: TaskHandle(task),
        },
    )
}
