//! The calls on shared memory segments.

ghost use Rattle.mtapi_machine.specs.declared.ops.Op.TheVariants as op;
ghost use Rattle.workload_runners.specs.Replies.{done, handle_told, number_in_answer, mrapi_standard};
ghost use Rattle.sched_workers.specs.Answers.{Called, with_handle_number};

use crate::callers::Caller;
use crate::callers::answers::resource_number;
use mtapi_values::{MrapiStatus, ShmemHandle};
use node_core::Op;
use std::sync::Wait;

impl<'a> Caller<'a> {
    /// Makes a segment, under any id, of so many cells, 1 to 4,096, each 0.
    ///
    /// Stands for `mrapi_shmem_create`.
    ///
    /// # Errors
    ///
    /// - `ErrNodeNotinit`: the node isn't open.
    /// - `ErrParameter`: the number of cells is outside its range.
    /// - `ErrShmExists`: a live segment has the id.
    /// - `ErrShmLimit`: there is no room for a further segment.
    pub fn shmem_create<R: Wait>(
        &mut self,
        rt: &R,
        id: u32,
        cells: u32,
    ) -> Result<ShmemHandle, MrapiStatus>
        ensures { Called mrapi_standard handle_told (op.ShmemCreate id cells) self.old self.new (with_handle_number (λ h. h.0) result) }
    {
        Ok(ShmemHandle(self.mrapi_handle(rt, Op::ShmemCreate { id, cells })?))
    }

    /// Gives the live segment of this id.
    ///
    /// Stands for `mrapi_shmem_get`.
    ///
    /// # Errors
    ///
    /// - `ErrNodeNotinit`: the node isn't open or closing.
    /// - `ErrShmIdInvalid`: no live segment has the id.
    pub fn shmem_get<R: Wait>(&mut self, rt: &R, id: u32) -> Result<ShmemHandle, MrapiStatus>
        ensures { Called mrapi_standard handle_told (op.ShmemGet id) self.old self.new (with_handle_number (λ h. h.0) result) }
    {
        Ok(ShmemHandle(self.mrapi_handle(rt, Op::ShmemGet { id })?))
    }

    /// Gives a segment up to which nobody is attached.
    ///
    /// Stands for `mrapi_shmem_delete`.
    ///
    /// # Errors
    ///
    /// - `ErrNodeNotinit`: the node isn't open.
    /// - `ErrShmInvalid`: the segment isn't live.
    /// - `ErrShmAttached`: some seat is attached.
    pub fn shmem_delete<R: Wait>(&mut self, rt: &R, shmem: ShmemHandle) -> Result<(), MrapiStatus>
        ensures { Called mrapi_standard done (op.ShmemDelete shmem) self.old self.new result }
    {
        self.mrapi_done(rt, Op::ShmemDelete { shmem })
    }

    /// Attaches this caller to a segment.
    ///
    /// Stands for `mrapi_shmem_attach`; no address is given.
    ///
    /// # Errors
    ///
    /// - `ErrNodeNotinit`: the node isn't open or closing.
    /// - `ErrShmInvalid`: the segment isn't live.
    /// - `ErrShmAttached`: this caller is attached.
    pub fn shmem_attach<R: Wait>(&mut self, rt: &R, shmem: ShmemHandle) -> Result<(), MrapiStatus>
        ensures { Called mrapi_standard done (op.ShmemAttach shmem) self.old self.new result }
    {
        self.mrapi_done(rt, Op::ShmemAttach { shmem })
    }

    /// Detaches this caller from a segment. The cells stay as they are.
    ///
    /// Stands for `mrapi_shmem_detach`.
    ///
    /// # Errors
    ///
    /// - `ErrNodeNotinit`: the node isn't open or closing.
    /// - `ErrShmInvalid`: the segment isn't live.
    /// - `ErrShmNotattached`: this caller isn't attached.
    pub fn shmem_detach<R: Wait>(&mut self, rt: &R, shmem: ShmemHandle) -> Result<(), MrapiStatus>
        ensures { Called mrapi_standard done (op.ShmemDetach shmem) self.old self.new result }
    {
        self.mrapi_done(rt, Op::ShmemDetach { shmem })
    }

    /// Reads the number in a cell, counted from 0, of a segment to which this caller is attached.
    ///
    /// Stands for a read of attached memory.
    ///
    /// # Errors
    ///
    /// - `ErrNodeNotinit`: the node isn't open or closing.
    /// - `ErrShmInvalid`: the segment isn't live.
    /// - `ErrShmNotattached`: this caller isn't attached.
    /// - `ErrParameter`: the segment has no such cell.
    pub fn shmem_read<R: Wait>(
        &mut self,
        rt: &R,
        shmem: ShmemHandle,
        cell: u32,
    ) -> Result<i64, MrapiStatus>
        ensures { Called mrapi_standard number_in_answer (op.ShmemRead shmem cell) self.old self.new result }
    {
        resource_number(self.once(rt, Op::ShmemRead { shmem, cell }))
    }

    /// Puts a number into a cell, counted from 0, of a segment to which this caller is attached.
    ///
    /// Stands for a write of attached memory.
    ///
    /// # Errors
    ///
    /// - `ErrNodeNotinit`: the node isn't open or closing.
    /// - `ErrShmInvalid`: the segment isn't live.
    /// - `ErrShmNotattached`: this caller isn't attached.
    /// - `ErrParameter`: the segment has no such cell.
    pub fn shmem_write<R: Wait>(
        &mut self,
        rt: &R,
        shmem: ShmemHandle,
        cell: u32,
        value: i64,
    ) -> Result<(), MrapiStatus>
        ensures { Called mrapi_standard done (op.ShmemWrite shmem cell value) self.old self.new result }
    {
        self.mrapi_done(rt, Op::ShmemWrite { shmem, cell, value })
    }
}
