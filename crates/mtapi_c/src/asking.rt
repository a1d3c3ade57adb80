//! One call of a node, and what C is told of the reply.

ghost use Rattle.std.specs.Prelude.{◌≡◌};
ghost use Rattle.node_handle.specs.Handles.{IsLive};
ghost use Rattle.mtapi_c.specs.Answers.{GivesStatus, GivesHandle, GivesNumber, GivesFlag, GivesNumbers, GivesMember, GivesTask, Tried, TriesForStatus, TriesForHandle};

use crate::picked::PickedTask;
use crate::replies::{
    asked_in, handle_in, member_in, number_in, picked_in, status_of, write_numbers,
};
use mtapi_values::MtapiStatus;
use node_core::{Op, Reply};
use node_handle::{NodeHandle, call};
use std::alloc::Global;

/// Asks, for the status.
pub fn ask(alloc: Global, node: &mut NodeHandle, who: u32, op: Op) -> u32
    requires live { IsLive node.old }
    ensures live { IsLive node.new }
    ensures called { GivesStatus node.old who op result node.new }
{
    status_of(&call(node, alloc, who, op))
}

/// Asks, for a handle.
pub fn ask_handle(alloc: Global, node: &mut NodeHandle, who: u32, op: Op, handle: &mut u64) -> u32
    requires live { IsLive node.old }
    ensures live { IsLive node.new }
    ensures called { GivesHandle node.old who op result handle.new node.new }
{
    let reply = call(node, alloc, who, op);
    *handle = handle_in(&reply);
    status_of(&reply)
}

/// Asks, for a number.
pub fn ask_number(alloc: Global, node: &mut NodeHandle, who: u32, op: Op, number: &mut i64) -> u32
    requires live { IsLive node.old }
    ensures live { IsLive node.new }
    ensures called { GivesNumber node.old who op result number.new node.new }
{
    let reply = call(node, alloc, who, op);
    *number = number_in(&reply);
    status_of(&reply)
}

/// Asks, for a yes or no.
pub fn ask_flag(alloc: Global, node: &mut NodeHandle, who: u32, op: Op, flag: &mut bool) -> u32
    requires live { IsLive node.old }
    ensures live { IsLive node.new }
    ensures called { GivesFlag node.old who op result flag.new node.new }
{
    let reply = call(node, alloc, who, op);
    *flag = asked_in(&reply);
    status_of(&reply)
}

/// Asks, for the numbers of the reply.
pub fn ask_numbers(
    alloc: Global,
    node: &mut NodeHandle,
    who: u32,
    op: Op,
    numbers: &mut [i64],
    count: &mut usize,
) -> u32
    requires live { IsLive node.old }
    ensures live { IsLive node.new }
    ensures called { GivesNumbers node.old who
        op
        result (record { old = numbers.old; new = numbers.new; count = count.new }) node.new }
{
    let reply = call(node, alloc, who, op);
    *count = write_numbers(&reply, numbers);
    status_of(&reply)
}

/// Asks, for a member of a group and its results.
pub fn ask_member(
    alloc: Global,
    node: &mut NodeHandle,
    who: u32,
    op: Op,
    member: &mut u64,
    numbers: &mut [i64],
    count: &mut usize,
) -> u32
    requires live { IsLive node.old }
    ensures live { IsLive node.new }
    ensures called { GivesMember node.old who
        op
        result member.new (record { old = numbers.old; new = numbers.new; count = count.new }) node.new }
{
    let reply = call(node, alloc, who, op);
    *member = member_in(&reply);
    *count = write_numbers(&reply, numbers);
    status_of(&reply)
}

/// Asks, for a task to run and its arguments.
pub fn ask_task(
    alloc: Global,
    node: &mut NodeHandle,
    who: u32,
    op: Op,
    picked: &mut PickedTask,
    numbers: &mut [i64],
) -> u32
    requires live { IsLive node.old }
    ensures live { IsLive node.new }
    ensures called { GivesTask node.old who op result picked.new numbers.old numbers.new node.new }
{
    let reply = call(node, alloc, who, op);
    *picked = picked_in(&reply);
    write_numbers(&reply, numbers);
    status_of(&reply)
}

// One call where there is an op, and else a refusal.
fn try_call(alloc: Global, node: &mut NodeHandle, who: u32, op: Option<Op>) -> Reply
    requires live { IsLive node.old }
    ensures live { IsLive node.new }
    ensures called { Tried node.old who op result node.new }
{
    match op {
        Some(op) => call(node, alloc, who, op),
        None => Reply::Mtapi(MtapiStatus::ErrParameter),
    }
}

/// Asks where there is an op, for the status.
pub fn try_status(alloc: Global, node: &mut NodeHandle, who: u32, op: Option<Op>) -> u32
    requires live { IsLive node.old }
    ensures live { IsLive node.new }
    ensures called { TriesForStatus node.old who op result node.new }
{
    status_of(&try_call(alloc, node, who, op))
}

/// Asks where there is an op, for a handle.
pub fn try_handle(
    alloc: Global,
    node: &mut NodeHandle,
    who: u32,
    op: Option<Op>,
    handle: &mut u64,
) -> u32
    requires live { IsLive node.old }
    ensures live { IsLive node.new }
    ensures called { TriesForHandle node.old who op result handle.new node.new }
{
    let reply = try_call(alloc, node, who, op);
    *handle = handle_in(&reply);
    status_of(&reply)
}
