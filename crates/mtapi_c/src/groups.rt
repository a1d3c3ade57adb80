//! Groups.

ghost use Rattle.mtapi_machine.specs.declared.ops.Op.TheVariants as op;
ghost use Rattle.node_handle.specs.Handles.{IsLive};
ghost use Rattle.mtapi_c.specs.Answers.{GivesStatus, GivesHandle, GivesMember};

use crate::asking::{ask, ask_handle, ask_member};
use mtapi_values::GroupHandle;
use node_core::Op;
use node_handle::NodeHandle;
use std::alloc::Global;

/// Makes a group.
#[unsafe(no_mangle)]
pub extern "C" fn mtapi_c_group_create(
    alloc: Global,
    node: &mut NodeHandle,
    who: u32,
    group: &mut u64,
) -> u32
    requires live { IsLive node.old }
    ensures live { IsLive node.new }
    ensures called { GivesHandle node.old who op.GroupCreate result group.new node.new }
{
    ask_handle(alloc, node, who, Op::GroupCreate, group)
}

/// Gives a group up: its members become detached.
#[unsafe(no_mangle)]
pub extern "C" fn mtapi_c_group_delete(
    alloc: Global,
    node: &mut NodeHandle,
    who: u32,
    group: u64,
) -> u32
    requires live { IsLive node.old }
    ensures live { IsLive node.new }
    ensures called { GivesStatus node.old who (op.GroupDelete (record { 0 = group })) result node.new }
{
    ask(
        alloc,
        node,
        who,
        Op::GroupDelete {
            group: GroupHandle(group),
        },
    )
}

/// Looks whether all members of a group have ended.
#[unsafe(no_mangle)]
pub extern "C" fn mtapi_c_group_all_look(
    alloc: Global,
    node: &mut NodeHandle,
    who: u32,
    group: u64,
    last: bool,
) -> u32
    requires live { IsLive node.old }
    ensures live { IsLive node.new }
    ensures called { GivesStatus node.old who (op.AllLook (record { 0 = group }) last) result node.new }
{
    ask(
        alloc,
        node,
        who,
        Op::AllLook {
            group: GroupHandle(group),
            last,
        },
    )
}

/// Looks for the member of a group that ended first, and hands it out with its results.
#[unsafe(no_mangle)]
pub extern "C" fn mtapi_c_group_any_look(
    alloc: Global,
    node: &mut NodeHandle,
    who: u32,
    group: u64,
    last: bool,
    task: &mut u64,
    numbers: &mut [i64],
    count: &mut usize,
) -> u32
    requires live { IsLive node.old }
    ensures live { IsLive node.new }
    ensures called { GivesMember node.old who
        (op.AnyLook (record { 0 = group }) last)
        result task.new (record { old = numbers.old; new = numbers.new; count = count.new }) node.new }
{
    ask_member(
        alloc,
        node,
        who,
        Op::AnyLook {
            group: GroupHandle(group),
            last,
        },
        task,
        numbers,
        count,
    )
}
