//! The ops on tasks.

ghost use Rattle.std.specs.Prelude.{◌≡◌, ◌<◌, ◌^◌, ℕ, ℤ, Bool, List, not, nat_lt, ◌||◌, IfNone, false, ◌≤◌, ◌&&◌};
ghost use Rattle.mtapi_values.specs.Conditions.{first};
ghost use Rattle.mtapi_machine.specs.TaskRows.{asked_for, start_refusals, is_detached_member, number_of};
ghost use Rattle.mtapi_values.specs.Masks.{in_mask};
ghost use Rattle.mtapi_objects.specs.Actions.{some_below};
ghost use Rattle.task_board.specs.Members.{names_dead};
ghost use Rattle.mtapi_machine.specs.declared.ops.Op.TheVariants as op;
ghost use Rattle.node_steps.specs.Refusals.{task_refusals};
ghost use Rattle.node_steps.specs.Stands.{Lists, Live, PoolNodeSteps, state_of};

use crate::node::PoolNode;
use crate::phase_ops::{is_open, is_up};
use job_table::Cover;
use mtapi_machine::Reply;
use mtapi_values::{Args, GroupHandle, Mask, MtapiStatus, TaskEnd, TaskHandle};
use task_board::share_core;
use task_core::{NewTask, TaskLook, TaskState};

impl PoolNode {
    // Whether the priority isn't one of the node's, or the task is detached and in a group.
    fn is_wrong(&self, priority: u32, detached: bool, group: Option<GroupHandle>) -> bool
        ensures { result ≡ (not (nat_lt priority self.now.scheduler.settings.priorities) || is_detached_member detached group) }
    {
        priority >= self.scheduler.priorities() || (detached && group.is_some())
    }

    // Whether a group is named that isn't live.
    fn names_dead(&self, group: Option<GroupHandle>) -> bool
        ensures { result ≡ names_dead self.now.scheduler.groups.pool (number_of group) }
    {
        match group {
            Some(group) => self.scheduler.left(group).is_none(),
            None => false,
        }
    }

    // Why a new task is refused, but for its priority and for want of room.
    pub(crate) fn start_refusal(
        &self,
        job: u32,
        cores: Mask,
        group: Option<GroupHandle>,
    ) -> Option<MtapiStatus>
        ensures first { (l : Lists) (args : List ℤ) (priority : ℕ) (detached : Bool) → Live self.now l
            → first (start_refusals (state_of self.now l) (asked_for job args priority cores detached group)) ≡ result }
        ensures group { IfNone result (names_dead self.now.scheduler.groups.pool (number_of group) ≡ false) }
    {
        let dead = self.names_dead(group);
        match self.scheduler.cover(job) {
            Cover::NoAction => Some(MtapiStatus::ErrJobInvalid),
            Cover::AllDisabled => Some(if dead {
                MtapiStatus::ErrGroupInvalid
            } else {
                MtapiStatus::ErrActionDisabled
            }),
            Cover::Cores(mask) => {
                if dead {
                    Some(MtapiStatus::ErrGroupInvalid)
                } else if share_core(self.scheduler.workers(), mask, cores) {
                    None
                } else {
                    Some(MtapiStatus::ErrNoCore)
                }
            }
        }
    }

    // Why such a task isn't started, whether there is room or not.
    pub(crate) fn task_refusal(
        &self,
        job: u32,
        priority: u32,
        cores: Mask,
        detached: bool,
        group: Option<GroupHandle>,
    ) -> Option<MtapiStatus>
        ensures first { (l : Lists) (args : List ℤ) → Live self.now l
            → first (task_refusals (state_of self.now l) job args priority cores detached group) ≡ result }
        ensures right { IfNone result ((not (nat_lt priority self.now.scheduler.settings.priorities) || is_detached_member detached group) ≡ false) }
        ensures group { IfNone result (names_dead self.now.scheduler.groups.pool (number_of group) ≡ false) }
    {
        if !is_open(self.core.phase) {
            return Some(MtapiStatus::ErrNodeNotinit);
        }
        if self.is_wrong(priority, detached, group) {
            return Some(MtapiStatus::ErrParameter);
        }
        self.start_refusal(job, cores, group)
    }

    pub(crate) fn task_start(
        &mut self,
        job: u32,
        args: &Args,
        priority: u32,
        cores: Mask,
        detached: bool,
        group: Option<GroupHandle>,
    ) -> Reply
        requires { self.old.scheduler.tasks.starts < 2 ^ 63 }
        ensures { (l : Lists) (who : ℕ) → Live self.old l
            → PoolNodeSteps self.old l who (op.TaskStart job args.now priority cores detached group) result self.new }
    {
        if let Some(status) = self.task_refusal(job, priority, cores, detached, group) {
            return Reply::Mtapi(status);
        }
        let task = NewTask {
            job,
            args: args.again(),
            priority,
            cores,
            detached,
            group,
            queue: None,
        };
        match self.scheduler.add(task) {
            Ok(task) => Reply::Handle(task.0),
            Err(status) => Reply::Mtapi(status),
        }
    }

    pub(crate) fn task_look(&mut self, who: u32, task: TaskHandle, last: bool) -> Reply
        ensures { (l : Lists) → Live self.old l → PoolNodeSteps self.old l who (op.TaskLook task last) result self.new }
    {
        if !is_up(self.core.phase) {
            return Reply::Mtapi(MtapiStatus::ErrNodeNotinit);
        }
        match self.scheduler.look(task, who, last) {
            TaskLook::Ended(end) => Reply::Ended(end),
            TaskLook::Pending => Reply::Pending,
            TaskLook::Refused(status) => Reply::Mtapi(status),
        }
    }

    pub(crate) fn task_cancel(&mut self, task: TaskHandle) -> Reply
        ensures { (l : Lists) (who : ℕ) → Live self.old l → PoolNodeSteps self.old l who (op.TaskCancel task) result self.new }
    {
        if !is_up(self.core.phase) {
            return Reply::Mtapi(MtapiStatus::ErrNodeNotinit);
        }
        match self.scheduler.state(task) {
            None => Reply::Mtapi(MtapiStatus::ErrTaskInvalid),
            Some(TaskState::Scheduled) => {
                self.scheduler.end_with(task, TaskEnd::Cancelled);
                Reply::Ok
            }
            Some(TaskState::Running { .. }) => {
                self.scheduler.request(task);
                Reply::Ok
            }
            Some(TaskState::Ended) => Reply::Ok,
        }
    }
}
