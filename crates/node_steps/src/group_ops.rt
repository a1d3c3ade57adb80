//! The ops on groups.

ghost use Rattle.std.specs.Prelude.{◌≡◌, ℕ, [], if◌then◌else◌};
ghost use Rattle.mtapi_values.specs.Conditions.{first};
ghost use Rattle.node_steps.specs.Refusals.{phase_refusals};
ghost use Rattle.mtapi_values.specs.declared.statuses.MtapiStatus.TheVariants as status;
ghost use Rattle.mtapi_machine.specs.declared.replies.Reply.TheVariants as reply;
ghost use Rattle.mtapi_machine.specs.GroupRows.{verdict};
ghost use Rattle.mtapi_machine.specs.declared.ops.Op.TheVariants as op;
ghost use Rattle.node_steps.specs.Stands.{Lists, Live, PoolNodeSteps};

use crate::node::PoolNode;
use crate::phase_ops::{is_open, is_up};
use mtapi_machine::Reply;
use mtapi_values::{GroupHandle, MtapiStatus};
use task_board::{free_members, let_members_go};

// Ok, or the first fault.
fn verdict(fault: Option<MtapiStatus>) -> Reply
    ensures { result ≡ verdict fault }
{
    match fault {
        None => Reply::Ok,
        Some(status) => Reply::Mtapi(status),
    }
}

// The answer to a look that is too early.
fn early(last: bool) -> Reply
    ensures { result ≡ (if last then reply.Mtapi status.Timeout else reply.Pending) }
{
    if last {
        Reply::Mtapi(MtapiStatus::Timeout)
    } else {
        Reply::Pending
    }
}

impl PoolNode {
    // Why no group is made, whether there is room or not.
    pub(crate) fn group_refusal(&self) -> Option<MtapiStatus>
        ensures { result ≡ first (phase_refusals self.now.core.phase []) }
    {
        if is_open(self.core.phase) {
            None
        } else {
            Some(MtapiStatus::ErrNodeNotinit)
        }
    }

    pub(crate) fn group_create(&mut self) -> Reply
        ensures { (l : Lists) (who : ℕ) → Live self.old l → PoolNodeSteps self.old l who op.GroupCreate result self.new }
    {
        if let Some(status) = self.group_refusal() {
            return Reply::Mtapi(status);
        }
        match self.scheduler.create_group() {
            Ok(group) => Reply::Handle(group.0),
            Err(status) => Reply::Mtapi(status),
        }
    }

    pub(crate) fn group_delete(&mut self, group: GroupHandle) -> Reply
        ensures { (l : Lists) (who : ℕ) → Live self.old l
            → PoolNodeSteps self.old l who (op.GroupDelete group) result self.new }
    {
        if !is_open(self.core.phase) {
            return Reply::Mtapi(MtapiStatus::ErrNodeNotinit);
        }
        let Some(_) = self.scheduler.left(group) else {
            return Reply::Mtapi(MtapiStatus::ErrGroupInvalid);
        };
        let_members_go(&mut self.scheduler, group);
        self.scheduler.delete_group(group);
        Reply::Ok
    }

    pub(crate) fn all_look(&mut self, group: GroupHandle, last: bool) -> Reply
        ensures { (l : Lists) (who : ℕ) → Live self.old l
            → PoolNodeSteps self.old l who (op.AllLook group last) result self.new }
    {
        if !is_up(self.core.phase) {
            return Reply::Mtapi(MtapiStatus::ErrNodeNotinit);
        }
        self.scheduler.is_kept();
        let Some((all, ended)) = self.scheduler.left(group) else {
            return Reply::Mtapi(MtapiStatus::ErrGroupInvalid);
        };
        if all > ended {
            return early(last);
        }
        verdict(free_members(&mut self.scheduler, group))
    }

    pub(crate) fn any_look(&mut self, group: GroupHandle, last: bool) -> Reply
        ensures { (l : Lists) (who : ℕ) → Live self.old l
            → PoolNodeSteps self.old l who (op.AnyLook group last) result self.new }
    {
        if !is_up(self.core.phase) {
            return Reply::Mtapi(MtapiStatus::ErrNodeNotinit);
        }
        self.scheduler.is_kept();
        let Some((all, _)) = self.scheduler.left(group) else {
            return Reply::Mtapi(MtapiStatus::ErrGroupInvalid);
        };
        if all == 0 {
            return Reply::Mtapi(MtapiStatus::GroupCompleted);
        }
        match self.scheduler.take_first(group) {
            Some((task, end)) => Reply::Given(task, end),
            None => early(last),
        }
    }
}
