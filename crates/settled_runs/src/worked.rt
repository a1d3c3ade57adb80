//! Worked workloads. Each function does nothing: its contract is what the definitions say of them, by computing.

ghost use Rattle.settled_runs.specs.Worked.{WorkedSettled, WorkedUnsettled};

/// Workloads that are settled, and their plain reports.
#[tactic(auto, using(crate::proofs::Computed::worked_settled))]
pub fn worked_settled()
    ensures { WorkedSettled }
{}

/// Workloads that aren't settled, one for each condition.
#[tactic(auto, using(crate::proofs::Computed::worked_unsettled))]
pub fn worked_unsettled()
    ensures { WorkedUnsettled }
{}
