//! The calls on mutexes.

ghost use Rattle.std.specs.Prelude.{Some};
ghost use Rattle.mtapi_values.specs.Timeouts.{looks_of};
ghost use Rattle.workload_runs.specs.declared.calls.Wanted.TheVariants.{Mutex};
ghost use Rattle.mtapi_machine.specs.declared.ops.Op.TheVariants as op;
ghost use Rattle.workload_runners.specs.Replies.{done, handle_told, key, mrapi_standard};
ghost use Rattle.sched_workers.specs.Answers.{Called, Waited, with_handle_number};

use crate::callers::Caller;
use crate::callers::answers::key;
use mtapi_values::{MrapiStatus, MutexAttr, MutexHandle, Timeout};
use node_core::Op;
use std::sync::Wait;
use workload_runs::Wanted;

impl<'a> Caller<'a> {
    /// Makes a mutex that nobody owns, under any id.
    ///
    /// Stands for `mrapi_mutex_create`.
    ///
    /// # Errors
    ///
    /// - `ErrNodeNotinit`: the node isn't open.
    /// - `ErrMutexExists`: a live mutex has the id.
    /// - `ErrMutexLimit`: there is no room for a further mutex.
    pub fn mutex_create<R: Wait>(
        &mut self,
        rt: &R,
        id: u32,
        attr: MutexAttr,
    ) -> Result<MutexHandle, MrapiStatus>
        ensures { Called mrapi_standard handle_told (op.MutexCreate id attr.recursive) self.old self.new (with_handle_number (λ h. h.0) result) }
    {
        let op = Op::MutexCreate {
            id,
            recursive: attr.recursive(),
        };
        Ok(MutexHandle(self.mrapi_handle(rt, op)?))
    }

    /// Gives the live mutex of this id.
    ///
    /// Stands for `mrapi_mutex_get`.
    ///
    /// # Errors
    ///
    /// - `ErrNodeNotinit`: the node isn't open or closing.
    /// - `ErrMutexIdInvalid`: no live mutex has the id.
    pub fn mutex_get<R: Wait>(&mut self, rt: &R, id: u32) -> Result<MutexHandle, MrapiStatus>
        ensures { Called mrapi_standard handle_told (op.MutexGet id) self.old self.new (with_handle_number (λ h. h.0) result) }
    {
        Ok(MutexHandle(self.mrapi_handle(rt, Op::MutexGet { id })?))
    }

    /// Gives a mutex up that nobody owns.
    ///
    /// Stands for `mrapi_mutex_delete`.
    ///
    /// # Errors
    ///
    /// - `ErrNodeNotinit`: the node isn't open.
    /// - `ErrMutexInvalid`: the mutex isn't live.
    /// - `ErrMutexLocked`: some seat owns it.
    pub fn mutex_delete<R: Wait>(&mut self, rt: &R, mutex: MutexHandle) -> Result<(), MrapiStatus>
        ensures { Called mrapi_standard done (op.MutexDelete mutex) self.old self.new result }
    {
        self.mrapi_done(rt, Op::MutexDelete { mutex })
    }

    /// Locks a mutex once more, and gives the key: how deep it is locked then, 1 to 64.
    ///
    /// Stands for `mrapi_mutex_lock`; a timeout is a number of looks.
    ///
    /// # Errors
    ///
    /// - `ErrNodeNotinit`: the node isn't open or closing.
    /// - `ErrMutexInvalid`: the mutex isn't live.
    /// - `ErrMutexLocked`: this caller owns it, and it isn't recursive or is locked 64 deep.
    /// - `Timeout`: the looks are used up, and another seat owns it.
    pub fn mutex_lock<R: Wait>(
        &mut self,
        rt: &R,
        mutex: MutexHandle,
        timeout: Timeout,
    ) -> Result<u32, MrapiStatus>
        ensures { Waited mrapi_standard key (Mutex mutex) (looks_of timeout) self.old self.new result }
    {
        key(self.within(rt, Wanted::Mutex(mutex), timeout))
    }

    /// Locks a mutex once more where one look finds that it can, and gives the key, 1 to 64.
    ///
    /// Stands for `mrapi_mutex_trylock`. It refuses what `mutex_lock` does.
    pub fn mutex_trylock<R: Wait>(&mut self, rt: &R, mutex: MutexHandle) -> Result<u32, MrapiStatus>
        ensures { Waited mrapi_standard key (Mutex mutex) (Some 1) self.old self.new result }
    {
        self.mutex_lock(rt, mutex, Timeout::NoWait)
    }

    /// Gives the last key back. Without a key that is out nobody owns the mutex.
    ///
    /// Stands for `mrapi_mutex_unlock`.
    ///
    /// # Errors
    ///
    /// - `ErrNodeNotinit`: the node isn't open or closing.
    /// - `ErrMutexInvalid`: the mutex isn't live.
    /// - `ErrMutexNotlocked`: this caller doesn't own it.
    /// - `ErrMutexKey`: the key isn't from 1 to the depth.
    /// - `ErrMutexLockorder`: a later key is still out.
    pub fn mutex_unlock<R: Wait>(
        &mut self,
        rt: &R,
        mutex: MutexHandle,
        key: u32,
    ) -> Result<(), MrapiStatus>
        ensures { Called mrapi_standard done (op.MutexUnlock mutex key) self.old self.new result }
    {
        self.mrapi_done(rt, Op::MutexUnlock { mutex, key })
    }
}
