//! Jobs and actions.

ghost use Rattle.mtapi_machine.specs.declared.ops.Op.TheVariants as op;
ghost use Rattle.node_handle.specs.Handles.{IsLive};
ghost use Rattle.mtapi_c.specs.Asks.{action_op};
ghost use Rattle.mtapi_c.specs.Kinds.{kind_with_number};
ghost use Rattle.mtapi_c.specs.Answers.{GivesStatus, GivesNumber, TriesForHandle};

use crate::asking::{ask, ask_number, try_handle};
use crate::ops::action_op;
use mtapi_values::ActionHandle;
use node_core::Op;
use node_handle::NodeHandle;
use std::alloc::Global;

/// Asks for a job that some action has.
#[unsafe(no_mangle)]
pub extern "C" fn mtapi_c_job_get(
    alloc: Global,
    node: &mut NodeHandle,
    who: u32,
    job: u32,
    number: &mut i64,
) -> u32
    requires live { IsLive node.old }
    ensures live { IsLive node.new }
    ensures called { GivesNumber node.old who (op.JobGet job) result number.new node.new }
{
    ask_number(alloc, node, who, Op::JobGet { job }, number)
}

/// Makes an action of this job, of the kind with this number, that may run on these cores. A function of C runs under `echo`.
#[unsafe(no_mangle)]
pub extern "C" fn mtapi_c_action_create(
    alloc: Global,
    node: &mut NodeHandle,
    who: u32,
    job: u32,
    kind: u32,
    cores: u64,
    action: &mut u64,
) -> u32
    requires live { IsLive node.old }
    ensures live { IsLive node.new }
    ensures called { TriesForHandle node.old who (action_op job (kind_with_number kind) cores) result action.new node.new }
{
    try_handle(alloc, node, who, action_op(job, kind, cores), action)
}

/// Gives an action up.
#[unsafe(no_mangle)]
pub extern "C" fn mtapi_c_action_delete(
    alloc: Global,
    node: &mut NodeHandle,
    who: u32,
    action: u64,
) -> u32
    requires live { IsLive node.old }
    ensures live { IsLive node.new }
    ensures called { GivesStatus node.old who (op.ActionDelete (record { 0 = action })) result node.new }
{
    ask(
        alloc,
        node,
        who,
        Op::ActionDelete {
            action: ActionHandle(action),
        },
    )
}

/// An action isn't taken any more.
#[unsafe(no_mangle)]
pub extern "C" fn mtapi_c_action_disable(
    alloc: Global,
    node: &mut NodeHandle,
    who: u32,
    action: u64,
) -> u32
    requires live { IsLive node.old }
    ensures live { IsLive node.new }
    ensures called { GivesStatus node.old who (op.ActionDisable (record { 0 = action })) result node.new }
{
    ask(
        alloc,
        node,
        who,
        Op::ActionDisable {
            action: ActionHandle(action),
        },
    )
}

/// Lets an action be taken again.
#[unsafe(no_mangle)]
pub extern "C" fn mtapi_c_action_enable(
    alloc: Global,
    node: &mut NodeHandle,
    who: u32,
    action: u64,
) -> u32
    requires live { IsLive node.old }
    ensures live { IsLive node.new }
    ensures called { GivesStatus node.old who (op.ActionEnable (record { 0 = action })) result node.new }
{
    ask(
        alloc,
        node,
        who,
        Op::ActionEnable {
            action: ActionHandle(action),
        },
    )
}
