//! What a task that runs may call, on the seat of its worker.

use crate::held::{Began, Held};
use mtapi_values::{Args, GroupHandle, MtapiStatus, TaskAttr, TaskHandle};
use node_core::Op;
use std::sync::{Mutex, Wait};

/// The seat of a worker while a task runs on it, by which that task starts others.
#[derive(Drop)]
pub struct Starter<'a, B: Began> {
    pub(crate) held: Mutex<Held<'a, B>>,
}

impl<'a, B: Began> Starter<'a, B> {
    /// Starts a task of a job, as a caller's `task_start` does.
    ///
    /// # Errors
    ///
    /// Those of `task_start` of a caller.
    pub fn start<R: Wait>(
        &self,
        rt: &R,
        job: u32,
        args: Args,
        attr: TaskAttr,
        group: Option<GroupHandle>,
    ) -> Result<TaskHandle, MtapiStatus> {
        let op = Op::TaskStart {
            job,
            args,
            priority: attr.priority(),
            cores: attr.affinity(),
            detached: attr.detached(),
            group,
        };
        Ok(TaskHandle(self.held.lock(rt).start(rt, op)?))
    }
}
