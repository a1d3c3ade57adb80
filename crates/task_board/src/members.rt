//! The groups of tasks that begin and end, and all the members of one.

ghost use Rattle.std.specs.Prelude.{◌≡◌, ◌<◌, true, length, IfSome, IsSome};
ghost use Rattle.std.specs.Option.{option_or};
ghost use Rattle.handle_pool.specs.Slots.{slot_of, slot_value};
ghost use Rattle.handle_pool.specs.Walks.{NoneLive};
ghost use Rattle.mtapi_objects.specs.Groups.{is_member, fault_of};
ghost use Rattle.task_core.specs.Records.{group_number};
ghost use Rattle.group_core.specs.Members.{NoMemberAt, IsUnendedMember, unended_of, ended_of};
ghost use Rattle.task_board.specs.Members.{joined, ended_member, without_members};
ghost use Rattle.task_board.specs.GroupMoves.{is_ended_member, FreesAll, LetsUnendedGo, LetsAllGo};

use crate::scheduler::Scheduler;
use group_core::Groups;
use mtapi_values::{GroupHandle, MtapiStatus, TaskEnd, TaskHandle};

// Has a task enter the group that it names, if it names one.
pub(crate) fn join(groups: &mut Groups, group: Option<GroupHandle>, task: TaskHandle)
    requires live { IfSome group (λ g. IsSome (slot_value groups.old.pool g.0)) }
    requires slot { slot_of task.0 < groups.old.tasks }
    requires alone { NoMemberAt (slot_of task.0) groups.old.pool }
    ensures new { groups.new ≡ joined groups.old (group_number group) task.0 }
    ensures slots { without_members groups.new.pool ≡ without_members groups.old.pool }
{
    if let Some(group) = group {
        groups.is_kept();
        groups.enter(group, task);
    }
}

// Has the end of a task be noted in the group that it names, if it names one.
pub(crate) fn note_end(groups: &mut Groups, group: Option<GroupHandle>, task: TaskHandle)
    requires { IfSome group (λ g. IsUnendedMember task.0 (slot_value groups.old.pool g.0)) }
    ensures new { groups.new ≡ ended_member groups.old (group_number group) task.0 }
    ensures slots { without_members groups.new.pool ≡ without_members groups.old.pool }
{
    if let Some(group) = group {
        groups.is_kept();
        groups.ended(group, task);
    }
}

// What an end counts as where it isn't completed.
fn fault_of(end: &TaskEnd) -> Option<MtapiStatus>
    ensures { result ≡ fault_of end.now }
{
    match end {
        TaskEnd::Completed(_) => None,
        TaskEnd::Cancelled => Some(MtapiStatus::ErrTaskCancelled),
        TaskEnd::Failed(status) => Some(*status),
    }
}

// The fault, or else that of the end.
fn or_fault(fault: Option<MtapiStatus>, end: &TaskEnd) -> Option<MtapiStatus>
    ensures { result ≡ option_or fault (fault_of end.now) }
{
    match fault {
        Some(status) => Some(status),
        None => fault_of(end),
    }
}

// How many members of a live group have ended, and how many haven't.
fn ended_count(scheduler: &Scheduler, g: GroupHandle) -> u32
    requires { IsSome (slot_value scheduler.now.groups.pool g.0) }
    ensures { result ≡ length (ended_of (slot_value scheduler.now.groups.pool g.0)) }
{
    match scheduler.left(g) {
        Some((_, ended)) => ended,
        None => unreachable!(),
    }
}

fn unended_count(scheduler: &Scheduler, g: GroupHandle) -> u32
    requires { IsSome (slot_value scheduler.now.groups.pool g.0) }
    ensures { result ≡ length (unended_of (slot_value scheduler.now.groups.pool g.0)) }
{
    match scheduler.left(g) {
        Some((all, ended)) => all - ended,
        None => unreachable!(),
    }
}

/// Frees the members of a live group that have ended, in the order of their ends, and gives the
/// status of the first that wasn't completed, if there is one.
pub fn free_members(scheduler: &mut Scheduler, g: GroupHandle) -> Option<MtapiStatus>
    requires { IsSome (slot_value scheduler.old.groups.pool g.0) }
    ensures freed { FreesAll scheduler.old scheduler.new g.0 result }
    ensures none { NoneLive (slot_value scheduler.new.tasks.pool) (λ t. is_ended_member g.0 t ≡ true) }
{
    let mut fault = None;
    for _index in 0..ended_count(scheduler, g) {
        let Some((_, end)) = scheduler.take_first(g) else {
            unreachable!()
        };
        fault = or_fault(fault, &end);
    }
    scheduler.is_kept();
    fault
}

// Has the members of a live group that haven't ended leave it; they become detached.
fn let_unended_go(scheduler: &mut Scheduler, g: GroupHandle)
    requires { IsSome (slot_value scheduler.old.groups.pool g.0) }
    ensures { LetsUnendedGo scheduler.old scheduler.new g.0 }
{
    for _index in 0..unended_count(scheduler, g) {
        let Some(_) = scheduler.leave_first(g) else {
            unreachable!()
        };
    }
}

/// Has all members of a live group leave it: they become detached, and one that has ended is freed.
pub fn let_members_go(scheduler: &mut Scheduler, g: GroupHandle)
    requires { IsSome (slot_value scheduler.old.groups.pool g.0) }
    ensures gone { LetsAllGo scheduler.old scheduler.new g.0 }
    ensures none { NoneLive (slot_value scheduler.new.tasks.pool) (λ t. is_member g.0 t ≡ true) }
{
    let _ = free_members(scheduler, g);
    let_unended_go(scheduler, g);
    scheduler.is_kept();
}
