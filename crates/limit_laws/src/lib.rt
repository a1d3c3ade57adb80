//! A law on the number of tasks of a node. The function does nothing: its contract is the law.
#![tactic(auto)]

ghost use Rattle.limit_laws.specs.TaskLimit.{LimitIsReached};
ghost use Rattle.limit_laws.specs.Worked.{WorkedLimit};

/// In every legal history ErrTaskLimit answers a start or an enqueue of a task alone, and only where as many tasks were accepted before it as
/// the node may have.
#[tactic(auto, using(crate::proofs::TaskLimit::limit_is_reached))]
pub fn law_task_limit()
    ensures { LimitIsReached }
{}

/// Worked lists: how many tasks each accepted, by starts and enqueues that gave a handle.
pub fn worked_limit()
    ensures { WorkedLimit }
{}
