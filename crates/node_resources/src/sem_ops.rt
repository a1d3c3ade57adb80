//! The ops on semaphores.

ghost use Rattle.std.specs.Prelude.{◌≡◌, ◌<◌};
ghost use Rattle.mtapi_machine.specs.declared.ops.Op.TheVariants as op;
ghost use Rattle.mtapi_machine.specs.State.{State};
ghost use Rattle.mtapi_values.specs.Conditions.{first};
ghost use Rattle.node_resources.specs.Holds.{ResourcesStand};
ghost use Rattle.node_resources.specs.Refusals.{sem_refusals};
ghost use Rattle.node_resources.specs.Steps.{ResourceSteps, IsAt};

use crate::Resources;
use crate::gate::Gate;
use crate::replies::{done, looked};
use mtapi_machine::Reply;
use mtapi_values::{MrapiStatus, SemHandle};

impl Resources {
    /// Makes a semaphore that may be held `limit` times: PARAMETER where this isn't 1 to 65,535, SEM_EXISTS where a live one has the
    /// id, and SEM_LIMIT where there is no room.
    pub fn sem_create(&mut self, gate: Gate, who: u32, id: u32, limit: u32) -> Reply
        ensures { ResourceSteps self.old gate who (op.SemCreate id limit) result self.new }
    {
        if let Some(status) = gate.open_refusal(who) {
            return Reply::Mrapi(status);
        }
        match self.sems.create(id, limit) {
            Ok(sem) => Reply::Handle(sem.0),
            Err(status) => Reply::Mrapi(status),
        }
    }

    /// Tells why `sem_create` refuses, whether there is room or not. None where only want of room
    /// can refuse it.
    pub fn sem_refusal(&self, gate: Gate, who: u32, id: u32, limit: u32) -> Option<MrapiStatus>
        ensures { (s : State) → IsAt s gate → ResourcesStand s self.now → first (sem_refusals s who id limit) ≡ result }
    {
        if let Some(status) = gate.open_refusal(who) {
            return Some(status);
        }
        self.sems.create_refusal(id, limit)
    }

    /// The handle of the live semaphore of an id, and SEM_ID_INVALID where there is none.
    pub fn sem_get(&self, gate: Gate, who: u32, id: u32) -> Reply
        ensures { ResourceSteps self.now gate who (op.SemGet id) result self.now }
    {
        if let Some(status) = gate.refusal(who) {
            return Reply::Mrapi(status);
        }
        match self.sems.get(id) {
            Ok(sem) => Reply::Handle(sem.0),
            Err(status) => Reply::Mrapi(status),
        }
    }

    /// Gives up a semaphore: SEM_INVALID where the handle names none, and SEM_LOCKED while a seat holds it.
    pub fn sem_delete(&mut self, gate: Gate, who: u32, sem: SemHandle) -> Reply
        ensures { ResourceSteps self.old gate who (op.SemDelete sem) result self.new }
    {
        if let Some(status) = gate.open_refusal(who) {
            return Reply::Mrapi(status);
        }
        done(self.sems.delete(sem))
    }

    /// One look of a seat, below 25, that wants to hold a semaphore once more. While it is held as often as it may be the look is to be
    /// asked again, and `last` tells that it won't be.
    pub fn sem_look(&mut self, gate: Gate, who: u32, sem: SemHandle, last: bool) -> Reply
        requires seat { who < 25 }
        ensures { ResourceSteps self.old gate who (op.SemLook sem last) result self.new }
    {
        if let Some(status) = gate.refusal(who) {
            return Reply::Mrapi(status);
        }
        looked(self.sems.look(sem, who), last)
    }

    /// Gives back one hold of a seat, below 25: SEM_NOTLOCKED where it has none.
    pub fn sem_unlock(&mut self, gate: Gate, who: u32, sem: SemHandle) -> Reply
        requires seat { who < 25 }
        ensures { ResourceSteps self.old gate who (op.SemUnlock sem) result self.new }
    {
        if let Some(status) = gate.refusal(who) {
            return Reply::Mrapi(status);
        }
        done(self.sems.unlock(sem, who))
    }
}
