//! The calls on groups.

ghost use Rattle.mtapi_values.specs.Timeouts.{looks_of};
ghost use Rattle.workload_runs.specs.declared.calls.Wanted.TheVariants.{AllMembers, FirstMember};
ghost use Rattle.mtapi_machine.specs.declared.ops.Op.TheVariants as op;
ghost use Rattle.workload_runners.specs.Replies.{done, handle_told, given, mtapi_standard};
ghost use Rattle.sched_workers.specs.Answers.{Called, Waited, with_handle_number};

use crate::callers::Caller;
use crate::callers::answers::{done, given};
use mtapi_values::{GroupHandle, MtapiStatus, TaskEnd, TaskHandle, Timeout};
use node_core::Op;
use std::sync::Wait;
use workload_runs::Wanted;

impl<'a> Caller<'a> {
    /// Makes a group without members.
    ///
    /// Stands for `mtapi_group_create`.
    ///
    /// # Errors
    ///
    /// - `ErrNodeNotinit`: the node isn't open.
    /// - `ErrGroupLimit`: there is no room for a further group.
    pub fn group_create<R: Wait>(&mut self, rt: &R) -> Result<GroupHandle, MtapiStatus>
        ensures { Called mtapi_standard handle_told op.GroupCreate self.old self.new (with_handle_number (λ h. h.0) result) }
    {
        Ok(GroupHandle(self.mtapi_handle(rt, Op::GroupCreate)?))
    }

    /// Gives a group up. Its members that haven't ended become detached, and the others stop being
    /// live.
    ///
    /// Stands for `mtapi_group_delete`.
    ///
    /// # Errors
    ///
    /// - `ErrNodeNotinit`: the node isn't open.
    /// - `ErrGroupInvalid`: the group isn't live.
    pub fn group_delete<R: Wait>(&mut self, rt: &R, group: GroupHandle) -> Result<(), MtapiStatus>
        ensures { Called mtapi_standard done (op.GroupDelete group) self.old self.new result }
    {
        self.mtapi_done(rt, Op::GroupDelete { group })
    }

    /// Waits until all members of a group have ended, and frees them. The group stays live.
    ///
    /// Stands for `mtapi_group_wait_all`.
    ///
    /// # Errors
    ///
    /// - `ErrNodeNotinit`: the node isn't open or closing.
    /// - `ErrGroupInvalid`: the group isn't live.
    /// - `Timeout`: the looks are used up, and a member hasn't ended.
    /// - `ErrTaskCancelled`: the first member that wasn't completed, in the order of ends, was
    ///   cancelled; where it failed, the status with which it did. All are freed nonetheless.
    pub fn group_wait_all<R: Wait>(
        &mut self,
        rt: &R,
        group: GroupHandle,
        timeout: Timeout,
    ) -> Result<(), MtapiStatus>
        ensures { Waited mtapi_standard done (AllMembers group) (looks_of timeout) self.old self.new result }
    {
        done(self.within(rt, Wanted::AllMembers(group), timeout))
    }

    /// Waits for the member of a group that ended first, and hands it out with its end. The member
    /// is no longer live then.
    ///
    /// Stands for `mtapi_group_wait_any`.
    ///
    /// # Errors
    ///
    /// - `ErrNodeNotinit`: the node isn't open or closing.
    /// - `ErrGroupInvalid`: the group isn't live.
    /// - `GroupCompleted`: the group has no member any more.
    /// - `Timeout`: the looks are used up, and no member has ended.
    pub fn group_wait_any<R: Wait>(
        &mut self,
        rt: &R,
        group: GroupHandle,
        timeout: Timeout,
    ) -> Result<(TaskHandle, TaskEnd), MtapiStatus>
        ensures { Waited mtapi_standard given (FirstMember group) (looks_of timeout) self.old self.new result }
    {
        given(self.within(rt, Wanted::FirstMember(group), timeout))
    }
}
