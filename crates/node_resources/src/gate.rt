//! Who may ask for an op on resources, and when.

ghost use Rattle.std.specs.Prelude.{◌≡◌, true};
ghost use Rattle.mtapi_values.specs.Conditions.{first};
ghost use Rattle.mtapi_machine.specs.State.{is_open, is_up};
ghost use Rattle.node_resources.specs.Steps.{gate_refusals};

use mtapi_machine::Phase;
use mtapi_values::MrapiStatus;

/// What of a node settles whether an op on resources is executed.
#[derive(Clone, Copy, Debug, Drop, PartialEq, Eq)]
pub struct Gate {
    /// The phase of the node.
    pub phase: Phase,
    /// The number of workers: the seats below it may ask for no op on resources.
    pub workers: u32,
}

impl Gate {
    // What an op is refused for in any phase but Open and Closing, and then for a worker.
    pub(crate) fn refusal(self, who: u32) -> Option<MrapiStatus>
        ensures { result ≡ first (gate_refusals (is_up self.phase) who self.workers) }
    {
        match self.phase {
            Phase::Open | Phase::Closing => self.worker_refusal(who),
            Phase::New | Phase::Closed => Some(MrapiStatus::ErrNodeNotinit),
        }
    }

    // The same for an op that is refused in Closing too.
    pub(crate) fn open_refusal(self, who: u32) -> Option<MrapiStatus>
        ensures { result ≡ first (gate_refusals (is_open self.phase) who self.workers) }
    {
        match self.phase {
            Phase::Open => self.worker_refusal(who),
            Phase::New | Phase::Closing | Phase::Closed => Some(MrapiStatus::ErrNodeNotinit),
        }
    }

    fn worker_refusal(self, who: u32) -> Option<MrapiStatus>
        ensures { result ≡ first (gate_refusals true who self.workers) }
    {
        if who < self.workers {
            Some(MrapiStatus::ErrParameter)
        } else {
            None
        }
    }
}
