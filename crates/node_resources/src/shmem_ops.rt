//! The ops on segments.

ghost use Rattle.std.specs.Prelude.{◌≡◌, ◌<◌};
ghost use Rattle.mtapi_machine.specs.declared.ops.Op.TheVariants as op;
ghost use Rattle.mtapi_machine.specs.State.{State};
ghost use Rattle.mtapi_values.specs.Conditions.{first};
ghost use Rattle.node_resources.specs.Holds.{ResourcesStand};
ghost use Rattle.node_resources.specs.Refusals.{shmem_refusals};
ghost use Rattle.node_resources.specs.Steps.{ResourceSteps, IsAt};

use crate::Resources;
use crate::gate::Gate;
use crate::replies::{done, number_read};
use mtapi_machine::Reply;
use mtapi_values::{MrapiStatus, ShmemHandle};

impl Resources {
    /// Makes a segment of so many cells, all of them 0: PARAMETER where they aren't 1 to 4,096, SHM_EXISTS where a live one has the id,
    /// and SHM_LIMIT where there is no room.
    pub fn shmem_create(&mut self, gate: Gate, who: u32, id: u32, cells: u32) -> Reply
        ensures { ResourceSteps self.old gate who (op.ShmemCreate id cells) result self.new }
    {
        if let Some(status) = gate.open_refusal(who) {
            return Reply::Mrapi(status);
        }
        match self.segments.create(id, cells) {
            Ok(shmem) => Reply::Handle(shmem.0),
            Err(status) => Reply::Mrapi(status),
        }
    }

    /// Tells why `shmem_create` refuses, whether there is room or not. None where only want of room
    /// can refuse it.
    pub fn shmem_refusal(&self, gate: Gate, who: u32, id: u32, cells: u32) -> Option<MrapiStatus>
        ensures { (s : State) → IsAt s gate → ResourcesStand s self.now → first (shmem_refusals s who id cells) ≡ result }
    {
        if let Some(status) = gate.open_refusal(who) {
            return Some(status);
        }
        self.segments.create_refusal(id, cells)
    }

    /// The handle of the live segment of an id, and SHM_ID_INVALID where there is none.
    pub fn shmem_get(&self, gate: Gate, who: u32, id: u32) -> Reply
        ensures { ResourceSteps self.now gate who (op.ShmemGet id) result self.now }
    {
        if let Some(status) = gate.refusal(who) {
            return Reply::Mrapi(status);
        }
        match self.segments.get(id) {
            Ok(shmem) => Reply::Handle(shmem.0),
            Err(status) => Reply::Mrapi(status),
        }
    }

    /// Gives up a segment: SHM_INVALID where the handle names none, and SHM_ATTACHED while a seat is attached.
    pub fn shmem_delete(&mut self, gate: Gate, who: u32, shmem: ShmemHandle) -> Reply
        ensures { ResourceSteps self.old gate who (op.ShmemDelete shmem) result self.new }
    {
        if let Some(status) = gate.open_refusal(who) {
            return Reply::Mrapi(status);
        }
        done(self.segments.delete(shmem))
    }

    /// Attaches a seat, below 25: SHM_ATTACHED where it is attached.
    pub fn shmem_attach(&mut self, gate: Gate, who: u32, shmem: ShmemHandle) -> Reply
        requires seat { who < 25 }
        ensures { ResourceSteps self.old gate who (op.ShmemAttach shmem) result self.new }
    {
        if let Some(status) = gate.refusal(who) {
            return Reply::Mrapi(status);
        }
        done(self.segments.attach(shmem, who))
    }

    /// Detaches a seat, below 25: SHM_NOTATTACHED where it isn't attached.
    pub fn shmem_detach(&mut self, gate: Gate, who: u32, shmem: ShmemHandle) -> Reply
        requires seat { who < 25 }
        ensures { ResourceSteps self.old gate who (op.ShmemDetach shmem) result self.new }
    {
        if let Some(status) = gate.refusal(who) {
            return Reply::Mrapi(status);
        }
        done(self.segments.detach(shmem, who))
    }

    /// The number in a cell, counted from 0, for a seat, below 25: SHM_NOTATTACHED where it isn't attached, and PARAMETER where there is
    /// no such cell.
    pub fn shmem_read(&self, gate: Gate, who: u32, shmem: ShmemHandle, cell: u32) -> Reply
        requires seat { who < 25 }
        ensures { ResourceSteps self.now gate who (op.ShmemRead shmem cell) result self.now }
    {
        if let Some(status) = gate.refusal(who) {
            return Reply::Mrapi(status);
        }
        number_read(self.segments.read(shmem, who, cell))
    }

    /// Puts a number into a cell, counted from 0, for a seat, below 25: SHM_NOTATTACHED where it isn't attached, and PARAMETER where
    /// there is no such cell.
    pub fn shmem_write(
        &mut self,
        gate: Gate,
        who: u32,
        shmem: ShmemHandle,
        cell: u32,
        value: i64,
    ) -> Reply
        requires seat { who < 25 }
        ensures { ResourceSteps self.old gate who (op.ShmemWrite shmem cell value) result self.new }
    {
        if let Some(status) = gate.refusal(who) {
            return Reply::Mrapi(status);
        }
        done(self.segments.write(shmem, who, cell, value))
    }
}
