//! The ops on reader-writer locks.

ghost use Rattle.std.specs.Prelude.{◌≡◌, ◌<◌};
ghost use Rattle.mtapi_machine.specs.declared.ops.Op.TheVariants as op;
ghost use Rattle.mtapi_machine.specs.State.{State};
ghost use Rattle.mtapi_values.specs.Conditions.{first};
ghost use Rattle.node_resources.specs.Holds.{ResourcesStand};
ghost use Rattle.node_resources.specs.Refusals.{rwl_refusals};
ghost use Rattle.node_resources.specs.Steps.{ResourceSteps, IsAt};

use crate::Resources;
use crate::gate::Gate;
use crate::replies::{done, looked};
use mtapi_machine::Reply;
use mtapi_values::{MrapiStatus, RwlHandle};

impl Resources {
    /// Makes a lock for at most `limit` readers: PARAMETER where this isn't 1 to 32, RWL_EXISTS where a live one has the id, and
    /// RWL_LIMIT where there is no room.
    pub fn rwl_create(&mut self, gate: Gate, who: u32, id: u32, limit: u32) -> Reply
        ensures { ResourceSteps self.old gate who (op.RwlCreate id limit) result self.new }
    {
        if let Some(status) = gate.open_refusal(who) {
            return Reply::Mrapi(status);
        }
        match self.rwls.create(id, limit) {
            Ok(rwl) => Reply::Handle(rwl.0),
            Err(status) => Reply::Mrapi(status),
        }
    }

    /// Tells why `rwl_create` refuses, whether there is room or not. None where only want of room
    /// can refuse it.
    pub fn rwl_refusal(&self, gate: Gate, who: u32, id: u32, limit: u32) -> Option<MrapiStatus>
        ensures { (s : State) → IsAt s gate → ResourcesStand s self.now → first (rwl_refusals s who id limit) ≡ result }
    {
        if let Some(status) = gate.open_refusal(who) {
            return Some(status);
        }
        self.rwls.create_refusal(id, limit)
    }

    /// The handle of the live lock of an id, and RWL_ID_INVALID where there is none.
    pub fn rwl_get(&self, gate: Gate, who: u32, id: u32) -> Reply
        ensures { ResourceSteps self.now gate who (op.RwlGet id) result self.now }
    {
        if let Some(status) = gate.refusal(who) {
            return Reply::Mrapi(status);
        }
        match self.rwls.get(id) {
            Ok(rwl) => Reply::Handle(rwl.0),
            Err(status) => Reply::Mrapi(status),
        }
    }

    /// Gives up a lock: RWL_INVALID where the handle names none, and RWL_LOCKED while a seat holds it.
    pub fn rwl_delete(&mut self, gate: Gate, who: u32, rwl: RwlHandle) -> Reply
        ensures { ResourceSteps self.old gate who (op.RwlDelete rwl) result self.new }
    {
        if let Some(status) = gate.open_refusal(who) {
            return Reply::Mrapi(status);
        }
        done(self.rwls.delete(rwl))
    }

    /// One look of a seat, below 25, that wants to hold a lock, as the writer or as a reader: RWL_LOCKED where it holds it already.
    /// While others hold it so that it can't, the look is to be asked again, and `last` tells that it won't be.
    pub fn rwl_look(
        &mut self,
        gate: Gate,
        who: u32,
        rwl: RwlHandle,
        writer: bool,
        last: bool,
    ) -> Reply
        requires seat { who < 25 }
        ensures { ResourceSteps self.old gate who (op.RwlLook rwl writer last) result self.new }
    {
        if let Some(status) = gate.refusal(who) {
            return Reply::Mrapi(status);
        }
        looked(self.rwls.look(rwl, who, writer), last)
    }

    /// Gives back the hold of a seat, below 25: RWL_NOTLOCKED where it doesn't hold the lock in this mode.
    pub fn rwl_unlock(&mut self, gate: Gate, who: u32, rwl: RwlHandle, writer: bool) -> Reply
        requires seat { who < 25 }
        ensures { ResourceSteps self.old gate who (op.RwlUnlock rwl writer) result self.new }
    {
        if let Some(status) = gate.refusal(who) {
            return Reply::Mrapi(status);
        }
        done(self.rwls.unlock(rwl, who, writer))
    }
}
