//! The calls on tasks.

ghost use Rattle.mtapi_values.specs.Timeouts.{looks_of};
ghost use Rattle.workload_runs.specs.declared.calls.Wanted.TheVariants.{Task};
ghost use Rattle.mtapi_machine.specs.declared.ops.Op.TheVariants as op;
ghost use Rattle.workload_runners.specs.Replies.{done, handle_told, end_in_reply, mtapi_standard};
ghost use Rattle.sched_workers.specs.Answers.{Called, Waited, with_handle_number, start_of, enqueue_of};

use crate::callers::Caller;
use crate::callers::answers::ended;
use mtapi_values::{
    Args, GroupHandle, MtapiStatus, QueueHandle, TaskAttr, TaskEnd, TaskHandle, Timeout,
};
use node_core::Op;
use std::sync::Wait;
use workload_runs::Wanted;

impl<'a> Caller<'a> {
    /// Starts a task of a job, with at most 16 arguments. Priority 0 is the highest.
    ///
    /// Stands for `mtapi_task_start`.
    ///
    /// # Errors
    ///
    /// - `ErrNodeNotinit`: the node isn't open.
    /// - `ErrParameter`: the node has no such priority, or the task is detached and in a group.
    /// - `ErrJobInvalid`: no live action has the job.
    /// - `ErrGroupInvalid`: the group isn't live.
    /// - `ErrActionDisabled`: all live actions of the job are disabled.
    /// - `ErrNoCore`: no worker has an action that may run the task.
    /// - `ErrTaskLimit`: there is no room for a further task.
    pub fn task_start<R: Wait>(
        &mut self,
        rt: &R,
        job: u32,
        args: &Args,
        attr: TaskAttr,
        group: Option<GroupHandle>,
    ) -> Result<TaskHandle, MtapiStatus>
        ensures { Called mtapi_standard handle_told (start_of job args.now attr group) self.old self.new (with_handle_number (λ h. h.0) result) }
    {
        let op = Op::TaskStart {
            job,
            args: args.again(),
            priority: attr.priority(),
            cores: attr.affinity(),
            detached: attr.detached(),
            group,
        };
        Ok(TaskHandle(self.mtapi_handle(rt, op)?))
    }

    /// Starts a task of a queue, with the queue's job and priority, behind the queue's other tasks.
    /// Of `attr` the priority isn't read.
    ///
    /// Stands for `mtapi_task_enqueue`.
    ///
    /// # Errors
    ///
    /// - `ErrNodeNotinit`: the node isn't open.
    /// - `ErrParameter`: the task is detached and in a group.
    /// - `ErrQueueInvalid`: the queue isn't live.
    /// - `ErrQueueDisabled`: the queue is disabled, and doesn't retain.
    /// - `ErrJobInvalid`: no live action has the queue's job.
    /// - `ErrGroupInvalid`: the group isn't live.
    /// - `ErrActionDisabled`: all live actions of the job are disabled.
    /// - `ErrNoCore`: no worker has an action that may run the task.
    /// - `ErrQueueLimit`: the queue's unended tasks equal its limit.
    /// - `ErrTaskLimit`: there is no room for a further task.
    pub fn task_enqueue<R: Wait>(
        &mut self,
        rt: &R,
        queue: QueueHandle,
        args: &Args,
        attr: TaskAttr,
        group: Option<GroupHandle>,
    ) -> Result<TaskHandle, MtapiStatus>
        ensures { Called mtapi_standard handle_told (enqueue_of queue args.now attr group) self.old self.new (with_handle_number (λ h. h.0) result) }
    {
        let op = Op::TaskEnqueue {
            queue,
            args: args.again(),
            cores: attr.affinity(),
            detached: attr.detached(),
            group,
        };
        Ok(TaskHandle(self.mtapi_handle(rt, op)?))
    }

    /// Waits until a task has ended, and gives its end. The handle is no longer live then.
    ///
    /// Stands for `mtapi_task_wait`; a timeout is a number of looks.
    ///
    /// # Errors
    ///
    /// - `ErrNodeNotinit`: the node isn't open or closing.
    /// - `ErrTaskInvalid`: the task isn't live.
    /// - `ErrParameter`: it is detached or in a group.
    /// - `ErrWaitPending`: another seat waits for it.
    /// - `Timeout`: the looks are used up, and it hasn't ended.
    pub fn task_wait<R: Wait>(
        &mut self,
        rt: &R,
        task: TaskHandle,
        timeout: Timeout,
    ) -> Result<TaskEnd, MtapiStatus>
        ensures { Waited mtapi_standard end_in_reply (Task task) (looks_of timeout) self.old self.new result }
    {
        ended(self.within(rt, Wanted::Task(task), timeout))
    }

    /// Cancels a task that hasn't begun, asks a running one to stop, and leaves one that has ended.
    ///
    /// Stands for `mtapi_task_cancel`.
    ///
    /// # Errors
    ///
    /// - `ErrNodeNotinit`: the node isn't open or closing.
    /// - `ErrTaskInvalid`: the task isn't live.
    pub fn task_cancel<R: Wait>(&mut self, rt: &R, task: TaskHandle) -> Result<(), MtapiStatus>
        ensures { Called mtapi_standard done (op.TaskCancel task) self.old self.new result }
    {
        self.mtapi_done(rt, Op::TaskCancel { task })
    }
}
