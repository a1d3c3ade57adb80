//! The calls on queues.

ghost use Rattle.mtapi_machine.specs.declared.ops.Op.TheVariants as op;
ghost use Rattle.workload_runners.specs.Replies.{done, handle_told, mtapi_standard};
ghost use Rattle.sched_workers.specs.Answers.{Called, with_handle_number, queue_of};

use crate::callers::Caller;
use mtapi_values::{MtapiStatus, QueueAttr, QueueHandle};
use node_core::Op;
use std::sync::Wait;

impl<'a> Caller<'a> {
    /// Makes an enabled queue, under any id, for tasks of this job.
    ///
    /// Stands for `mtapi_queue_create`.
    ///
    /// # Errors
    ///
    /// - `ErrNodeNotinit`: the node isn't open.
    /// - `ErrParameter`: the node has no such priority, or the limit isn't 1 to 65,536.
    /// - `ErrJobInvalid`: no live action has the job.
    /// - `ErrQueueExists`: a live queue has the id.
    /// - `ErrQueueLimit`: there is no room for a further queue.
    pub fn queue_create<R: Wait>(
        &mut self,
        rt: &R,
        id: u32,
        job: u32,
        attr: QueueAttr,
    ) -> Result<QueueHandle, MtapiStatus>
        ensures { Called mtapi_standard handle_told (queue_of id job attr) self.old self.new (with_handle_number (λ h. h.0) result) }
    {
        let op = Op::QueueCreate {
            id,
            job,
            priority: attr.priority(),
            limit: attr.limit(),
            ordered: attr.ordered(),
            retain: attr.retain(),
        };
        Ok(QueueHandle(self.mtapi_handle(rt, op)?))
    }

    /// Gives the live queue of this id.
    ///
    /// Stands for `mtapi_queue_get`.
    ///
    /// # Errors
    ///
    /// - `ErrNodeNotinit`: the node isn't open or closing.
    /// - `ErrQueueInvalid`: no live queue has the id.
    pub fn queue_get<R: Wait>(&mut self, rt: &R, id: u32) -> Result<QueueHandle, MtapiStatus>
        ensures { Called mtapi_standard handle_told (op.QueueGet id) self.old self.new (with_handle_number (λ h. h.0) result) }
    {
        Ok(QueueHandle(self.mtapi_handle(rt, Op::QueueGet { id })?))
    }

    /// Lets the tasks of a queue begin again. An enabled queue stays as it is.
    ///
    /// Stands for `mtapi_queue_enable`.
    ///
    /// # Errors
    ///
    /// - `ErrNodeNotinit`: the node isn't open.
    /// - `ErrQueueInvalid`: the queue isn't live.
    pub fn queue_enable<R: Wait>(&mut self, rt: &R, queue: QueueHandle) -> Result<(), MtapiStatus>
        ensures { Called mtapi_standard done (op.QueueEnable queue) self.old self.new result }
    {
        self.mtapi_done(rt, Op::QueueEnable { queue })
    }

    /// Has the tasks of a queue begin no more. Where the queue doesn't retain them, those that
    /// haven't begun are cancelled.
    ///
    /// Stands for `mtapi_queue_disable`.
    ///
    /// # Errors
    ///
    /// - `ErrNodeNotinit`: the node isn't open.
    /// - `ErrQueueInvalid`: the queue isn't live.
    pub fn queue_disable<R: Wait>(&mut self, rt: &R, queue: QueueHandle) -> Result<(), MtapiStatus>
        ensures { Called mtapi_standard done (op.QueueDisable queue) self.old self.new result }
    {
        self.mtapi_done(rt, Op::QueueDisable { queue })
    }

    /// Gives a queue up. Its tasks that haven't begun fail with `ErrQueueDeleted`.
    ///
    /// Stands for `mtapi_queue_delete`.
    ///
    /// # Errors
    ///
    /// - `ErrNodeNotinit`: the node isn't open.
    /// - `ErrQueueInvalid`: the queue isn't live.
    pub fn queue_delete<R: Wait>(&mut self, rt: &R, queue: QueueHandle) -> Result<(), MtapiStatus>
        ensures { Called mtapi_standard done (op.QueueDelete queue) self.old self.new result }
    {
        self.mtapi_done(rt, Op::QueueDelete { queue })
    }
}
