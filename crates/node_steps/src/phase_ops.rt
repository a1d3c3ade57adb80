//! The phases of a node, and the ops that lead from one to the next.

ghost use Rattle.std.specs.Prelude.{◌≡◌, ℕ};
ghost use Rattle.mtapi_values.specs.Seats.{all_marked};
ghost use Rattle.mtapi_machine.specs.State.{is_new, is_open, is_up, is_past_open};
ghost use Rattle.mtapi_machine.specs.declared.ops.Op.TheVariants as op;
ghost use Rattle.node_steps.specs.Stands.{Lists, Live, PoolNodeSteps, state_of};
ghost use Rattle.node_steps.specs.Sound.{Sound};

use crate::node::PoolNode;
use mtapi_machine::{Phase, Reply};
use mtapi_values::MtapiStatus;

pub(crate) fn is_new(phase: Phase) -> bool
    ensures { result ≡ is_new phase }
{
    matches!(phase, Phase::New)
}

pub(crate) fn is_open(phase: Phase) -> bool
    ensures { result ≡ is_open phase }
{
    matches!(phase, Phase::Open)
}

// The phase is Open or Closing.
pub(crate) fn is_up(phase: Phase) -> bool
    ensures { result ≡ is_up phase }
{
    matches!(phase, Phase::Open | Phase::Closing)
}

// The phase is Closing or Closed.
pub(crate) fn is_past_open(phase: Phase) -> bool
    ensures { result ≡ is_past_open phase }
{
    matches!(phase, Phase::Closing | Phase::Closed)
}

// Each of the first n is marked.
fn all_marked(n: u32, marks: &[bool]) -> bool
    ensures { result ≡ all_marked n marks.now }
{
    let mut left = n;
    for mark in marks {
        if left == 0 {
            return true;
        }
        if !*mark {
            return false;
        }
        left -= 1;
    }
    left == 0
}

impl PoolNode {
    pub(crate) fn initialize(&mut self) -> Reply
        ensures { (l : Lists) (who : ℕ) → Live self.old l → PoolNodeSteps self.old l who op.Initialize result self.new }
    {
        if !is_new(self.core.phase) {
            return Reply::Mtapi(MtapiStatus::ErrNodeInitialized);
        }
        self.core.phase = Phase::Open;
        Reply::Ok
    }

    pub(crate) fn release(&mut self) -> Reply
        ensures { (l : Lists) (who : ℕ) → Live self.old l → PoolNodeSteps self.old l who op.Release result self.new }
    {
        if !is_open(self.core.phase) {
            return Reply::Mtapi(MtapiStatus::ErrNodeNotinit);
        }
        self.core.released = true;
        Reply::Ok
    }

    pub(crate) fn enter(&self) -> Reply
        ensures { (l : Lists) (who : ℕ) → Live self.now l → PoolNodeSteps self.now l who op.Enter result self.now }
    {
        if is_past_open(self.core.phase) {
            return Reply::Mtapi(MtapiStatus::ErrNodeNotinit);
        }
        if !self.core.released {
            return Reply::Pending;
        }
        Reply::Ok
    }

    // The tasks of disabled queues that haven't begun are cancelled.
    pub(crate) fn close(&mut self) -> Reply
        ensures { (l : Lists) (who : ℕ) → Live self.old l → Sound (state_of self.old l)
            → PoolNodeSteps self.old l who op.Close result self.new }
    {
        if is_past_open(self.core.phase) {
            return Reply::Mtapi(MtapiStatus::ErrNodeNotinit);
        }
        self.core.phase = Phase::Closing;
        self.scheduler.end_shut();
        Reply::Ok
    }

    pub(crate) fn finalize(&mut self) -> Reply
        ensures { (l : Lists) (who : ℕ) → Live self.old l → PoolNodeSteps self.old l who op.Final result self.new }
    {
        if !is_up(self.core.phase) {
            return Reply::Mtapi(MtapiStatus::ErrNodeNotinit);
        }
        let workers = self.scheduler.workers();
        if !is_past_open(self.core.phase) || !all_marked(workers, &self.core.stopped) {
            return Reply::Mtapi(MtapiStatus::ErrNodeInitialized);
        }
        self.core.phase = Phase::Closed;
        Reply::Ok
    }
}
