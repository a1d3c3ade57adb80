//! The calls on semaphores.

ghost use Rattle.std.specs.Prelude.{Some};
ghost use Rattle.mtapi_values.specs.Timeouts.{looks_of};
ghost use Rattle.workload_runs.specs.declared.calls.Wanted.TheVariants.{Sem};
ghost use Rattle.mtapi_machine.specs.declared.ops.Op.TheVariants as op;
ghost use Rattle.workload_runners.specs.Replies.{done, handle_told, mrapi_standard};
ghost use Rattle.sched_workers.specs.Answers.{Called, Waited, with_handle_number};

use crate::callers::Caller;
use mtapi_values::{MrapiStatus, SemHandle, Timeout};
use node_core::Op;
use std::sync::Wait;
use workload_runs::Wanted;

impl<'a> Caller<'a> {
    /// Makes a semaphore, under any id, that may be held `limit` times, 1 to 65,535.
    ///
    /// Stands for `mrapi_sem_create`.
    ///
    /// # Errors
    ///
    /// - `ErrNodeNotinit`: the node isn't open.
    /// - `ErrParameter`: the limit is outside its range.
    /// - `ErrSemExists`: a live semaphore has the id.
    /// - `ErrSemLimit`: there is no room for a further semaphore.
    pub fn sem_create<R: Wait>(
        &mut self,
        rt: &R,
        id: u32,
        limit: u32,
    ) -> Result<SemHandle, MrapiStatus>
        ensures { Called mrapi_standard handle_told (op.SemCreate id limit) self.old self.new (with_handle_number (λ h. h.0) result) }
    {
        Ok(SemHandle(self.mrapi_handle(rt, Op::SemCreate { id, limit })?))
    }

    /// Gives the live semaphore of this id.
    ///
    /// Stands for `mrapi_sem_get`.
    ///
    /// # Errors
    ///
    /// - `ErrNodeNotinit`: the node isn't open or closing.
    /// - `ErrSemIdInvalid`: no live semaphore has the id.
    pub fn sem_get<R: Wait>(&mut self, rt: &R, id: u32) -> Result<SemHandle, MrapiStatus>
        ensures { Called mrapi_standard handle_told (op.SemGet id) self.old self.new (with_handle_number (λ h. h.0) result) }
    {
        Ok(SemHandle(self.mrapi_handle(rt, Op::SemGet { id })?))
    }

    /// Gives a semaphore up that nobody holds.
    ///
    /// Stands for `mrapi_sem_delete`.
    ///
    /// # Errors
    ///
    /// - `ErrNodeNotinit`: the node isn't open.
    /// - `ErrSemInvalid`: the semaphore isn't live.
    /// - `ErrSemLocked`: some seat holds it.
    pub fn sem_delete<R: Wait>(&mut self, rt: &R, sem: SemHandle) -> Result<(), MrapiStatus>
        ensures { Called mrapi_standard done (op.SemDelete sem) self.old self.new result }
    {
        self.mrapi_done(rt, Op::SemDelete { sem })
    }

    /// Holds a semaphore once more.
    ///
    /// Stands for `mrapi_sem_lock`; a timeout is a number of looks.
    ///
    /// # Errors
    ///
    /// - `ErrNodeNotinit`: the node isn't open or closing.
    /// - `ErrSemInvalid`: the semaphore isn't live.
    /// - `Timeout`: the looks are used up, and all holds are taken.
    pub fn sem_lock<R: Wait>(
        &mut self,
        rt: &R,
        sem: SemHandle,
        timeout: Timeout,
    ) -> Result<(), MrapiStatus>
        ensures { Waited mrapi_standard done (Sem sem) (looks_of timeout) self.old self.new result }
    {
        self.mrapi_wait(rt, Wanted::Sem(sem), timeout)
    }

    /// Holds a semaphore once more where one look finds that it can.
    ///
    /// Stands for `mrapi_sem_trylock`. It refuses what `sem_lock` does.
    pub fn sem_trylock<R: Wait>(&mut self, rt: &R, sem: SemHandle) -> Result<(), MrapiStatus>
        ensures { Waited mrapi_standard done (Sem sem) (Some 1) self.old self.new result }
    {
        self.mrapi_wait(rt, Wanted::Sem(sem), Timeout::NoWait)
    }

    /// Holds a semaphore once less.
    ///
    /// Stands for `mrapi_sem_unlock`.
    ///
    /// # Errors
    ///
    /// - `ErrNodeNotinit`: the node isn't open or closing.
    /// - `ErrSemInvalid`: the semaphore isn't live.
    /// - `ErrSemNotlocked`: this caller doesn't hold it.
    pub fn sem_unlock<R: Wait>(&mut self, rt: &R, sem: SemHandle) -> Result<(), MrapiStatus>
        ensures { Called mrapi_standard done (op.SemUnlock sem) self.old self.new result }
    {
        self.mrapi_done(rt, Op::SemUnlock { sem })
    }
}
