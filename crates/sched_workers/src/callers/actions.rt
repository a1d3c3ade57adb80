//! The calls on jobs and actions.

ghost use Rattle.std.specs.Prelude.{◌≡◌};
ghost use Rattle.mtapi_machine.specs.declared.ops.Op.TheVariants as op;
ghost use Rattle.workload_runners.specs.Replies.{done, handle_told, the_job, mtapi_standard};
ghost use Rattle.sched_workers.specs.Answers.{Called, with_handle_number};

use crate::callers::Caller;
use mtapi_values::{ActionAttr, ActionHandle, JobHandle, Kind, MtapiStatus};
use node_core::Op;
use std::sync::Wait;

impl<'a> Caller<'a> {
    /// Gives the job, where a live action has it.
    ///
    /// Stands for `mtapi_job_get`.
    ///
    /// # Errors
    ///
    /// - `ErrNodeNotinit`: the node isn't open or closing.
    /// - `ErrJobInvalid`: no live action has the job.
    pub fn job_get<R: Wait>(&mut self, rt: &R, job: u32) -> Result<JobHandle, MtapiStatus>
        ensures { Called mtapi_standard (the_job job) (op.JobGet job) self.old self.new (with_handle_number (λ j. j.0) result) }
    {
        Ok(JobHandle(self.mtapi_job(rt, job)?))
    }

    /// Makes an enabled action of this job, 1 to 65,535, with the affinity of `attr`.
    ///
    /// Stands for `mtapi_action_create`.
    ///
    /// # Errors
    ///
    /// - `ErrNodeNotinit`: the node isn't open.
    /// - `ErrJobInvalid`: the job isn't 1 to 65,535.
    /// - `ErrActionLimit`: there is no room for a further action.
    pub fn action_create<R: Wait>(
        &mut self,
        rt: &R,
        job: u32,
        kind: Kind,
        attr: ActionAttr,
    ) -> Result<ActionHandle, MtapiStatus>
        ensures { Called mtapi_standard handle_told (op.ActionCreate job kind (record { 0 = attr.affinity })) self.old self.new (with_handle_number (λ h. h.0) result) }
    {
        let op = Op::ActionCreate {
            job,
            kind,
            cores: attr.affinity(),
        };
        Ok(ActionHandle(self.mtapi_handle(rt, op)?))
    }

    /// Gives an action up. Tasks that haven't begun and that no worker can take any more fail with
    /// `ErrActionDeleted`.
    ///
    /// Stands for `mtapi_action_delete`.
    ///
    /// # Errors
    ///
    /// - `ErrNodeNotinit`: the node isn't open.
    /// - `ErrActionInvalid`: the action isn't live.
    pub fn action_delete<R: Wait>(
        &mut self,
        rt: &R,
        action: ActionHandle,
    ) -> Result<(), MtapiStatus>
        ensures { Called mtapi_standard done (op.ActionDelete action) self.old self.new result }
    {
        self.mtapi_done(rt, Op::ActionDelete { action })
    }

    /// Lets an action be taken again for tasks of its job. An enabled one stays as it is.
    ///
    /// Stands for `mtapi_action_enable`.
    ///
    /// # Errors
    ///
    /// - `ErrNodeNotinit`: the node isn't open.
    /// - `ErrActionInvalid`: the action isn't live.
    pub fn action_enable<R: Wait>(
        &mut self,
        rt: &R,
        action: ActionHandle,
    ) -> Result<(), MtapiStatus>
        ensures { Called mtapi_standard done (op.ActionEnable action) self.old self.new result }
    {
        self.mtapi_done(rt, Op::ActionEnable { action })
    }

    /// Has an action be taken no more. Tasks that haven't begun and that no worker can take any
    /// more fail with `ErrActionDisabled`.
    ///
    /// Stands for `mtapi_action_disable`.
    ///
    /// # Errors
    ///
    /// - `ErrNodeNotinit`: the node isn't open.
    /// - `ErrActionInvalid`: the action isn't live.
    pub fn action_disable<R: Wait>(
        &mut self,
        rt: &R,
        action: ActionHandle,
    ) -> Result<(), MtapiStatus>
        ensures { Called mtapi_standard done (op.ActionDisable action) self.old self.new result }
    {
        self.mtapi_done(rt, Op::ActionDisable { action })
    }
}
