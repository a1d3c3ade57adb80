//! What the parts of callers and workers come to in a legal history. Each function does nothing: its contract is the law.

ghost use Rattle.workload_runners.specs.Bridges.{MainTurns, CallerTurns, WorkerTurns};

/// Where each of its calls was done, what main executed is main's part of a run.
pub fn law_main_turns()
    ensures { MainTurns }
{}

/// What a further caller that entered executed is its part of a run.
pub fn law_caller_turns()
    ensures { CallerTurns }
{}

/// What a worker served is its part of a run.
pub fn law_worker_turns()
    ensures { WorkerTurns }
{}
