//! Queues.

ghost use Rattle.mtapi_machine.specs.declared.ops.Op.TheVariants as op;
ghost use Rattle.node_handle.specs.Handles.{IsLive};
ghost use Rattle.mtapi_c.specs.Answers.{GivesStatus, GivesHandle};

use crate::asking::{ask, ask_handle};
use mtapi_values::QueueHandle;
use node_core::Op;
use node_handle::NodeHandle;
use std::alloc::Global;

/// Makes a queue for tasks of this job and priority.
#[unsafe(no_mangle)]
pub extern "C" fn mtapi_c_queue_create(
    alloc: Global,
    node: &mut NodeHandle,
    who: u32,
    id: u32,
    job: u32,
    priority: u32,
    limit: u32,
    ordered: bool,
    retain: bool,
    queue: &mut u64,
) -> u32
    requires live { IsLive node.old }
    ensures live { IsLive node.new }
    ensures called { GivesHandle node.old who (op.QueueCreate id job priority limit ordered retain) result queue.new node.new }
{
    ask_handle(
        alloc,
        node,
        who,
        Op::QueueCreate {
            id,
            job,
            priority,
            limit,
            ordered,
            retain,
        },
        queue,
    )
}

/// Asks for the queue of this id.
#[unsafe(no_mangle)]
pub extern "C" fn mtapi_c_queue_get(
    alloc: Global,
    node: &mut NodeHandle,
    who: u32,
    id: u32,
    queue: &mut u64,
) -> u32
    requires live { IsLive node.old }
    ensures live { IsLive node.new }
    ensures called { GivesHandle node.old who (op.QueueGet id) result queue.new node.new }
{
    ask_handle(alloc, node, who, Op::QueueGet { id }, queue)
}

/// Lets the tasks of a queue begin again.
#[unsafe(no_mangle)]
pub extern "C" fn mtapi_c_queue_enable(
    alloc: Global,
    node: &mut NodeHandle,
    who: u32,
    queue: u64,
) -> u32
    requires live { IsLive node.old }
    ensures live { IsLive node.new }
    ensures called { GivesStatus node.old who (op.QueueEnable (record { 0 = queue })) result node.new }
{
    ask(
        alloc,
        node,
        who,
        Op::QueueEnable {
            queue: QueueHandle(queue),
        },
    )
}

/// The tasks of a queue don't begin any more.
#[unsafe(no_mangle)]
pub extern "C" fn mtapi_c_queue_disable(
    alloc: Global,
    node: &mut NodeHandle,
    who: u32,
    queue: u64,
) -> u32
    requires live { IsLive node.old }
    ensures live { IsLive node.new }
    ensures called { GivesStatus node.old who (op.QueueDisable (record { 0 = queue })) result node.new }
{
    ask(
        alloc,
        node,
        who,
        Op::QueueDisable {
            queue: QueueHandle(queue),
        },
    )
}

/// Gives a queue up: its tasks that haven't begun fail.
#[unsafe(no_mangle)]
pub extern "C" fn mtapi_c_queue_delete(
    alloc: Global,
    node: &mut NodeHandle,
    who: u32,
    queue: u64,
) -> u32
    requires live { IsLive node.old }
    ensures live { IsLive node.new }
    ensures called { GivesStatus node.old who (op.QueueDelete (record { 0 = queue })) result node.new }
{
    ask(
        alloc,
        node,
        who,
        Op::QueueDelete {
            queue: QueueHandle(queue),
        },
    )
}
