//! The ops on actions.

ghost use Rattle.std.specs.Prelude.{◌≡◌, ℕ};
ghost use Rattle.handle_pool.specs.Issued.{any_listed};
ghost use Rattle.mtapi_objects.specs.Actions.{has_job, action_create_refusals};
ghost use Rattle.mtapi_values.specs.Conditions.{first};
ghost use Rattle.node_steps.specs.Refusals.{phase_refusals};
ghost use Rattle.mtapi_machine.specs.declared.ops.Op.TheVariants as op;
ghost use Rattle.node_steps.specs.Stands.{Lists, Live, PoolNodeSteps, state_of};
ghost use Rattle.node_steps.specs.Sound.{Sound};

use crate::node::PoolNode;
use crate::phase_ops::{is_open, is_up};
use job_table::{Actions, Cover};
use mtapi_machine::Reply;
use mtapi_values::{ActionHandle, Kind, Mask, MtapiStatus};

impl PoolNode {
    // Whether some live action has the job.
    pub(crate) fn has_job(&self, job: u32) -> bool
        ensures { (l : Lists) → Live self.now l → any_listed (has_job job) l.actions ≡ result }
    {
        match self.scheduler.cover(job) {
            Cover::NoAction => false,
            Cover::AllDisabled | Cover::Cores(_) => true,
        }
    }

    pub(crate) fn job_get(&self, job: u32) -> Reply
        ensures { (l : Lists) (who : ℕ) → Live self.now l → PoolNodeSteps self.now l who (op.JobGet job) result self.now }
    {
        if !is_up(self.core.phase) {
            return Reply::Mtapi(MtapiStatus::ErrNodeNotinit);
        }
        if !self.has_job(job) {
            return Reply::Mtapi(MtapiStatus::ErrJobInvalid);
        }
        Reply::Number(i64::from(job))
    }

    // Why no action of this job is made, whether there is room or not.
    pub(crate) fn action_refusal(&self, job: u32) -> Option<MtapiStatus>
        ensures { result ≡ first (phase_refusals self.now.core.phase (action_create_refusals job)) }
    {
        if !is_open(self.core.phase) {
            return Some(MtapiStatus::ErrNodeNotinit);
        }
        Actions::create_refusal(job)
    }

    pub(crate) fn action_create(&mut self, job: u32, kind: Kind, cores: Mask) -> Reply
        ensures { (l : Lists) (who : ℕ) → Live self.old l
            → PoolNodeSteps self.old l who (op.ActionCreate job kind cores) result self.new }
    {
        if let Some(status) = self.action_refusal(job) {
            return Reply::Mtapi(status);
        }
        match self.scheduler.create_action(job, kind, cores) {
            Ok(action) => Reply::Handle(action.0),
            Err(status) => Reply::Mtapi(status),
        }
    }

    pub(crate) fn action_enable(&mut self, action: ActionHandle) -> Reply
        ensures { (l : Lists) (who : ℕ) → Live self.old l
            → PoolNodeSteps self.old l who (op.ActionEnable action) result self.new }
    {
        if !is_open(self.core.phase) {
            return Reply::Mtapi(MtapiStatus::ErrNodeNotinit);
        }
        match self.scheduler.enable_action(action) {
            Ok(_) => Reply::Ok,
            Err(status) => Reply::Mtapi(status),
        }
    }

    // The action goes on, and the tasks that no worker can take any more fail.
    pub(crate) fn action_disable(&mut self, action: ActionHandle) -> Reply
        ensures { (l : Lists) (who : ℕ) → Live self.old l → Sound (state_of self.old l)
            → PoolNodeSteps self.old l who (op.ActionDisable action) result self.new }
    {
        if !is_open(self.core.phase) {
            return Reply::Mtapi(MtapiStatus::ErrNodeNotinit);
        }
        let before = self.scheduler.covered(action);
        match self.scheduler.disable_action(action) {
            Ok(job) => {
                self.scheduler
                    .end_unserved(job, before, MtapiStatus::ErrActionDisabled);
                Reply::Ok
            }
            Err(status) => Reply::Mtapi(status),
        }
    }

    // The action is given up, and the tasks that no worker can take any more fail.
    pub(crate) fn action_delete(&mut self, action: ActionHandle) -> Reply
        ensures { (l : Lists) (who : ℕ) → Live self.old l → Sound (state_of self.old l)
            → PoolNodeSteps self.old l who (op.ActionDelete action) result self.new }
    {
        if !is_open(self.core.phase) {
            return Reply::Mtapi(MtapiStatus::ErrNodeNotinit);
        }
        let before = self.scheduler.covered(action);
        match self.scheduler.delete_action(action) {
            Ok(job) => {
                self.scheduler
                    .end_unserved(job, before, MtapiStatus::ErrActionDeleted);
                Reply::Ok
            }
            Err(status) => Reply::Mtapi(status),
        }
    }
}
