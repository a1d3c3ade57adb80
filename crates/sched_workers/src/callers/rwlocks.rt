//! The calls on reader-writer locks.

ghost use Rattle.std.specs.Prelude.{Some};
ghost use Rattle.mtapi_values.specs.Timeouts.{looks_of};
ghost use Rattle.workload_runs.specs.declared.calls.Wanted.TheVariants.{Rwl};
ghost use Rattle.mtapi_machine.specs.declared.ops.Op.TheVariants as op;
ghost use Rattle.workload_runners.specs.Replies.{done, handle_told, mrapi_standard};
ghost use Rattle.sched_workers.specs.Answers.{Called, Waited, with_handle_number};

use crate::callers::Caller;
use mtapi_values::{MrapiStatus, RwlHandle, Timeout};
use node_core::Op;
use std::sync::Wait;
use workload_runs::Wanted;

impl<'a> Caller<'a> {
    /// Makes a reader-writer lock, under any id, for one writer or at most `limit` readers, 1 to
    /// 32.
    ///
    /// Stands for `mrapi_rwl_create`.
    ///
    /// # Errors
    ///
    /// - `ErrNodeNotinit`: the node isn't open.
    /// - `ErrParameter`: the limit is outside its range.
    /// - `ErrRwlExists`: a live lock has the id.
    /// - `ErrRwlLimit`: there is no room for a further lock.
    pub fn rwl_create<R: Wait>(
        &mut self,
        rt: &R,
        id: u32,
        limit: u32,
    ) -> Result<RwlHandle, MrapiStatus>
        ensures { Called mrapi_standard handle_told (op.RwlCreate id limit) self.old self.new (with_handle_number (λ h. h.0) result) }
    {
        Ok(RwlHandle(self.mrapi_handle(rt, Op::RwlCreate { id, limit })?))
    }

    /// Gives the live reader-writer lock of this id.
    ///
    /// Stands for `mrapi_rwl_get`.
    ///
    /// # Errors
    ///
    /// - `ErrNodeNotinit`: the node isn't open or closing.
    /// - `ErrRwlIdInvalid`: no live lock has the id.
    pub fn rwl_get<R: Wait>(&mut self, rt: &R, id: u32) -> Result<RwlHandle, MrapiStatus>
        ensures { Called mrapi_standard handle_told (op.RwlGet id) self.old self.new (with_handle_number (λ h. h.0) result) }
    {
        Ok(RwlHandle(self.mrapi_handle(rt, Op::RwlGet { id })?))
    }

    /// Gives a reader-writer lock up that nobody holds.
    ///
    /// Stands for `mrapi_rwl_delete`.
    ///
    /// # Errors
    ///
    /// - `ErrNodeNotinit`: the node isn't open.
    /// - `ErrRwlInvalid`: the lock isn't live.
    /// - `ErrRwlLocked`: some seat holds it, as a reader or as the writer.
    pub fn rwl_delete<R: Wait>(&mut self, rt: &R, rwl: RwlHandle) -> Result<(), MrapiStatus>
        ensures { Called mrapi_standard done (op.RwlDelete rwl) self.old self.new result }
    {
        self.mrapi_done(rt, Op::RwlDelete { rwl })
    }

    /// Holds a reader-writer lock, as the writer or as a reader.
    ///
    /// Stands for `mrapi_rwl_lock`; a timeout is a number of looks.
    ///
    /// # Errors
    ///
    /// - `ErrNodeNotinit`: the node isn't open or closing.
    /// - `ErrRwlInvalid`: the lock isn't live.
    /// - `ErrRwlLocked`: this caller holds it, in either mode.
    /// - `Timeout`: the looks are used up, and the lock can't be had in this mode.
    pub fn rwl_lock<R: Wait>(
        &mut self,
        rt: &R,
        rwl: RwlHandle,
        writer: bool,
        timeout: Timeout,
    ) -> Result<(), MrapiStatus>
        ensures { Waited mrapi_standard done (Rwl rwl writer) (looks_of timeout) self.old self.new result }
    {
        self.mrapi_wait(rt, Wanted::Rwl { rwl, writer }, timeout)
    }

    /// Holds a reader-writer lock, as the writer or as a reader, where one look finds that it can.
    ///
    /// Stands for `mrapi_rwl_trylock`. It refuses what `rwl_lock` does.
    pub fn rwl_trylock<R: Wait>(
        &mut self,
        rt: &R,
        rwl: RwlHandle,
        writer: bool,
    ) -> Result<(), MrapiStatus>
        ensures { Waited mrapi_standard done (Rwl rwl writer) (Some 1) self.old self.new result }
    {
        self.mrapi_wait(rt, Wanted::Rwl { rwl, writer }, Timeout::NoWait)
    }

    /// Gives back what it holds as the writer or as a reader.
    ///
    /// Stands for `mrapi_rwl_unlock`.
    ///
    /// # Errors
    ///
    /// - `ErrNodeNotinit`: the node isn't open or closing.
    /// - `ErrRwlInvalid`: the lock isn't live.
    /// - `ErrRwlNotlocked`: this caller doesn't hold it in this mode.
    pub fn rwl_unlock<R: Wait>(
        &mut self,
        rt: &R,
        rwl: RwlHandle,
        writer: bool,
    ) -> Result<(), MrapiStatus>
        ensures { Called mrapi_standard done (op.RwlUnlock rwl writer) self.old self.new result }
    {
        self.mrapi_done(rt, Op::RwlUnlock { rwl, writer })
    }
}
