//! Laws that follow from the definitions alone. Each function does nothing: its contract is the law.

ghost use Rattle.node_bridge.specs.Rounds.{UnusedWorkersRest};
ghost use Rattle.node_bridge.specs.Worked.{WorkedBridgeHistories};
ghost use Rattle.node_bridge.specs.WorkedImages.{WorkedImages};

/// A worked history of a served node, its image, and histories that aren't legal; and what each op asks of the node inside, what each
/// reply tells, and which entries a bridge and a worker add.
pub fn worked_histories()
    ensures histories { WorkedBridgeHistories }
    ensures images { WorkedImages }
{}

/// A worker's seat that has made no entry so far, as those of a new cell, has no task.
pub fn law_unused_workers_rest()
    ensures { UnusedWorkersRest }
{}
