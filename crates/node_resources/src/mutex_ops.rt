//! The ops on mutexes.

ghost use Rattle.std.specs.Prelude.{◌≡◌};
ghost use Rattle.mtapi_machine.specs.declared.ops.Op.TheVariants as op;
ghost use Rattle.mtapi_machine.specs.State.{State};
ghost use Rattle.mtapi_values.specs.Conditions.{first};
ghost use Rattle.node_resources.specs.Holds.{ResourcesStand};
ghost use Rattle.node_resources.specs.Refusals.{mutex_refusals};
ghost use Rattle.node_resources.specs.Steps.{ResourceSteps, IsAt};

use crate::Resources;
use crate::gate::Gate;
use crate::replies::{done, looked_key};
use mtapi_machine::Reply;
use mtapi_values::{MrapiStatus, MutexHandle};

impl Resources {
    /// Makes a mutex that nobody owns: the handle, MUTEX_EXISTS where a live one has the id, and MUTEX_LIMIT where there is no room.
    pub fn mutex_create(&mut self, gate: Gate, who: u32, id: u32, recursive: bool) -> Reply
        ensures { ResourceSteps self.old gate who (op.MutexCreate id recursive) result self.new }
    {
        if let Some(status) = gate.open_refusal(who) {
            return Reply::Mrapi(status);
        }
        match self.mutexes.create(id, recursive) {
            Ok(mutex) => Reply::Handle(mutex.0),
            Err(status) => Reply::Mrapi(status),
        }
    }

    /// Tells why `mutex_create` refuses, whether there is room or not. None where only want of room
    /// can refuse it.
    pub fn mutex_refusal(&self, gate: Gate, who: u32, id: u32) -> Option<MrapiStatus>
        ensures { (s : State) → IsAt s gate → ResourcesStand s self.now → first (mutex_refusals s who id) ≡ result }
    {
        if let Some(status) = gate.open_refusal(who) {
            return Some(status);
        }
        self.mutexes.create_refusal(id)
    }

    /// The handle of the live mutex of an id, and MUTEX_ID_INVALID where there is none.
    pub fn mutex_get(&self, gate: Gate, who: u32, id: u32) -> Reply
        ensures { ResourceSteps self.now gate who (op.MutexGet id) result self.now }
    {
        if let Some(status) = gate.refusal(who) {
            return Reply::Mrapi(status);
        }
        match self.mutexes.get(id) {
            Ok(mutex) => Reply::Handle(mutex.0),
            Err(status) => Reply::Mrapi(status),
        }
    }

    /// Gives up a mutex: MUTEX_INVALID where the handle names none, and MUTEX_LOCKED while a seat owns it.
    pub fn mutex_delete(&mut self, gate: Gate, who: u32, mutex: MutexHandle) -> Reply
        ensures { ResourceSteps self.old gate who (op.MutexDelete mutex) result self.new }
    {
        if let Some(status) = gate.open_refusal(who) {
            return Reply::Mrapi(status);
        }
        done(self.mutexes.delete(mutex))
    }

    /// One look of a seat that wants a mutex: the key, 1 to 64, where it gets it, and MUTEX_LOCKED where it owns it and may not lock it
    /// once more. While another seat owns it the look is to be asked again, and `last` tells that it won't be.
    pub fn mutex_look(&mut self, gate: Gate, who: u32, mutex: MutexHandle, last: bool) -> Reply
        ensures { ResourceSteps self.old gate who (op.MutexLook mutex last) result self.new }
    {
        if let Some(status) = gate.refusal(who) {
            return Reply::Mrapi(status);
        }
        looked_key(self.mutexes.look(mutex, who), last)
    }

    /// Takes the last key of a mutex back: MUTEX_NOTLOCKED for a seat that doesn't own it, MUTEX_KEY for a key that isn't out, and
    /// MUTEX_LOCKORDER for one that isn't the last.
    pub fn mutex_unlock(&mut self, gate: Gate, who: u32, mutex: MutexHandle, key: u32) -> Reply
        ensures { ResourceSteps self.old gate who (op.MutexUnlock mutex key) result self.new }
    {
        if let Some(status) = gate.refusal(who) {
            return Reply::Mrapi(status);
        }
        done(self.mutexes.unlock(mutex, who, key))
    }
}
