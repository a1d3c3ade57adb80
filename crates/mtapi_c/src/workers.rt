//! The calls of workers.

ghost use Rattle.mtapi_machine.specs.declared.ops.Op.TheVariants as op;
ghost use Rattle.node_handle.specs.Handles.{IsLive};
ghost use Rattle.mtapi_c.specs.Asks.{finish_op};
ghost use Rattle.mtapi_c.specs.Kinds.{kind_with_number};
ghost use Rattle.mtapi_c.specs.Answers.{GivesStatus, GivesNumber, GivesFlag, GivesNumbers, TriesForStatus, GivesTask};

use crate::asking::{ask, ask_flag, ask_number, ask_numbers, ask_task, try_status};
use crate::ops::finish_op;
use crate::picked::PickedTask;
use mtapi_values::TaskHandle;
use node_core::Op;
use node_handle::NodeHandle;
use std::alloc::Global;

/// A worker asks for a task to run.
#[unsafe(no_mangle)]
pub extern "C" fn mtapi_c_pick(
    alloc: Global,
    node: &mut NodeHandle,
    who: u32,
    picked: &mut PickedTask,
    numbers: &mut [i64],
) -> u32
    requires live { IsLive node.old }
    ensures live { IsLive node.new }
    ensures called { GivesTask node.old who op.Pick result picked.new numbers.old numbers.new node.new }
{
    ask_task(alloc, node, who, Op::Pick, picked, numbers)
}

/// A worker ends its task, of the kind and with the numbers that the pick gave, by what the kind answers.
#[unsafe(no_mangle)]
pub extern "C" fn mtapi_c_finish(
    alloc: Global,
    node: &mut NodeHandle,
    who: u32,
    task: u64,
    kind: u32,
    numbers: &[i64],
) -> u32
    requires live { IsLive node.old }
    ensures live { IsLive node.new }
    ensures called { TriesForStatus node.old who (finish_op task (kind_with_number kind) numbers.now) result node.new }
{
    try_status(alloc, node, who, finish_op(task, kind, numbers))
}

/// A worker asks whether its watch was asked to stop.
#[unsafe(no_mangle)]
pub extern "C" fn mtapi_c_watch_asked(
    alloc: Global,
    node: &mut NodeHandle,
    who: u32,
    task: u64,
    asked: &mut bool,
) -> u32
    requires live { IsLive node.old }
    ensures live { IsLive node.new }
    ensures called { GivesFlag node.old who (op.Asked (record { 0 = task })) result asked.new node.new }
{
    ask_flag(
        alloc,
        node,
        who,
        Op::Asked {
            task: TaskHandle(task),
        },
        asked,
    )
}

/// A worker ends its watch.
#[unsafe(no_mangle)]
pub extern "C" fn mtapi_c_watch_end(
    alloc: Global,
    node: &mut NodeHandle,
    who: u32,
    task: u64,
    numbers: &mut [i64],
    count: &mut usize,
) -> u32
    requires live { IsLive node.old }
    ensures live { IsLive node.new }
    ensures called { GivesNumbers node.old who
        (op.WatchEnd (record { 0 = task }))
        result (record { old = numbers.old; new = numbers.new; count = count.new }) node.new }
{
    ask_numbers(
        alloc,
        node,
        who,
        Op::WatchEnd {
            task: TaskHandle(task),
        },
        numbers,
        count,
    )
}

/// A worker takes the mutex and the segment of its tally: no where the tally has failed.
#[unsafe(no_mangle)]
pub extern "C" fn mtapi_c_tally_lock(
    alloc: Global,
    node: &mut NodeHandle,
    who: u32,
    task: u64,
    held: &mut bool,
) -> u32
    requires live { IsLive node.old }
    ensures live { IsLive node.new }
    ensures called { GivesFlag node.old who (op.TallyLock (record { 0 = task })) result held.new node.new }
{
    ask_flag(
        alloc,
        node,
        who,
        Op::TallyLock {
            task: TaskHandle(task),
        },
        held,
    )
}

/// A worker reads the cell of its tally.
#[unsafe(no_mangle)]
pub extern "C" fn mtapi_c_tally_read(
    alloc: Global,
    node: &mut NodeHandle,
    who: u32,
    task: u64,
    number: &mut i64,
) -> u32
    requires live { IsLive node.old }
    ensures live { IsLive node.new }
    ensures called { GivesNumber node.old who (op.TallyRead (record { 0 = task })) result number.new node.new }
{
    ask_number(
        alloc,
        node,
        who,
        Op::TallyRead {
            task: TaskHandle(task),
        },
        number,
    )
}

/// A worker writes the cell of its tally.
#[unsafe(no_mangle)]
pub extern "C" fn mtapi_c_tally_write(
    alloc: Global,
    node: &mut NodeHandle,
    who: u32,
    task: u64,
    number: i64,
) -> u32
    requires live { IsLive node.old }
    ensures live { IsLive node.new }
    ensures called { GivesStatus node.old who (op.TallyWrite (record { 0 = task }) number) result node.new }
{
    ask(
        alloc,
        node,
        who,
        Op::TallyWrite {
            task: TaskHandle(task),
            value: number,
        },
    )
}

/// A worker gives back what its tally has, and ends it.
#[unsafe(no_mangle)]
pub extern "C" fn mtapi_c_tally_end(
    alloc: Global,
    node: &mut NodeHandle,
    who: u32,
    task: u64,
    numbers: &mut [i64],
    count: &mut usize,
) -> u32
    requires live { IsLive node.old }
    ensures live { IsLive node.new }
    ensures called { GivesNumbers node.old who
        (op.TallyEnd (record { 0 = task }))
        result (record { old = numbers.old; new = numbers.new; count = count.new }) node.new }
{
    ask_numbers(
        alloc,
        node,
        who,
        Op::TallyEnd {
            task: TaskHandle(task),
        },
        numbers,
        count,
    )
}
