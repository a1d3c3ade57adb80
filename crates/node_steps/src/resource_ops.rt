//! The ops on mutexes, semaphores, reader-writer locks and segments.

ghost use Rattle.std.specs.Prelude.{◌≡◌, ◌<◌, true};
ghost use Rattle.mtapi_machine.specs.Answers.{is_mrapi};
ghost use Rattle.mtapi_renaming.specs.Ops.{renamed_op};
ghost use Rattle.mtapi_values.specs.Conditions.{first};
ghost use Rattle.node_resources.specs.Refusals.{mutex_refusals, sem_refusals, rwl_refusals, shmem_refusals};
ghost use Rattle.node_steps.specs.Stands.{Lists, Live, PoolNodeSteps, state_of};

use crate::node::PoolNode;
use mtapi_machine::{Op, Reply};
use mtapi_renaming::Rename;
use mtapi_values::MrapiStatus;
use node_resources::Gate;

impl PoolNode {
    // What settles whether an op on resources is executed.
    fn gate(&self) -> Gate
        ensures phase { result.phase ≡ self.now.core.phase }
        ensures workers { result.workers ≡ self.now.scheduler.settings.workers }
    {
        Gate {
            phase: self.core.phase,
            workers: self.scheduler.workers(),
        }
    }

    // One op on resources, by a seat below 25. The pools have other handles for those that it names.
    pub(crate) fn resource_op<R: Rename>(&mut self, names: &R, who: u32, op: &Op) -> Reply
        requires seat { who < 25 }
        requires resource { is_mrapi op.now ≡ true }
        ensures { (l : Lists) → Live self.old l
            → PoolNodeSteps self.old l who (renamed_op (R.renaming names.now) op.now) result self.new }
    {
        let gate = self.gate();
        self.resources.execute(names, gate, who, op)
    }

    // Why a create of a resource is refused, whether there is room or not.
    pub(crate) fn mutex_refusal(&self, who: u32, id: u32) -> Option<MrapiStatus>
        ensures { (l : Lists) → Live self.now l → first (mutex_refusals (state_of self.now l) who id) ≡ result }
    {
        self.resources.mutex_refusal(self.gate(), who, id)
    }

    pub(crate) fn sem_refusal(&self, who: u32, id: u32, limit: u32) -> Option<MrapiStatus>
        ensures { (l : Lists) → Live self.now l → first (sem_refusals (state_of self.now l) who id limit) ≡ result }
    {
        self.resources.sem_refusal(self.gate(), who, id, limit)
    }

    pub(crate) fn rwl_refusal(&self, who: u32, id: u32, limit: u32) -> Option<MrapiStatus>
        ensures { (l : Lists) → Live self.now l → first (rwl_refusals (state_of self.now l) who id limit) ≡ result }
    {
        self.resources.rwl_refusal(self.gate(), who, id, limit)
    }

    pub(crate) fn shmem_refusal(&self, who: u32, id: u32, cells: u32) -> Option<MrapiStatus>
        ensures { (l : Lists) → Live self.now l → first (shmem_refusals (state_of self.now l) who id cells) ≡ result }
    {
        self.resources.shmem_refusal(self.gate(), who, id, cells)
    }
}
