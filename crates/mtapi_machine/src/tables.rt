//! Worked histories: tables of what a node is asked and what it answers, each with replies that it doesn't give. Each function does
//! nothing: its contract is its family's tables.

ghost use Rattle.mtapi_machine.specs.Worked.{WorkedHistories};
ghost use Rattle.mtapi_machine.specs.WorkedPhases.{WorkedPhases};
ghost use Rattle.mtapi_machine.specs.WorkedActions.{WorkedActions};
ghost use Rattle.mtapi_machine.specs.WorkedTasks.{WorkedTasks};
ghost use Rattle.mtapi_machine.specs.WorkedGroups.{WorkedGroups};
ghost use Rattle.mtapi_machine.specs.WorkedQueues.{WorkedQueues};
ghost use Rattle.mtapi_machine.specs.WorkedWork.{WorkedWork};
ghost use Rattle.mtapi_machine.specs.WorkedTallies.{WorkedTallies};
ghost use Rattle.mtapi_machine.specs.WorkedResources.{WorkedResources};
ghost use Rattle.mtapi_machine.specs.WorkedLayouts.{WorkedLayouts};
ghost use Rattle.mtapi_machine.specs.WorkedLimits.{WorkedLimits};

/// Two whole runs of a node.
pub fn worked_histories()
    ensures { WorkedHistories }
{}

/// The phases of a node, and what each op answers where its phase refuses it.
pub fn worked_phases()
    ensures { WorkedPhases }
{}

/// Jobs and actions, and the tasks that fail when no worker can take them any more.
pub fn worked_actions()
    ensures { WorkedActions }
{}

/// Starting tasks, looking at them, and cancelling them.
pub fn worked_tasks()
    ensures { WorkedTasks }
{}

/// Groups, the order of the ends of their members, and what becomes of the members.
pub fn worked_groups()
    ensures { WorkedGroups }
{}

/// Queues, what an enqueue is refused for, and what becomes of the tasks of a queue.
pub fn worked_queues()
    ensures { WorkedQueues }
{}

/// The ops by which workers take tasks and end them.
pub fn worked_work()
    ensures { WorkedWork }
{}

/// Tallies, by which workers add numbers to the cells of segments.
pub fn worked_tallies()
    ensures { WorkedTallies }
{}

/// Mutexes, semaphores, reader-writer locks and segments.
pub fn worked_resources()
    ensures { WorkedResources }
{}

/// Layout two, in which a handle names the kind of its object.
pub fn worked_layouts()
    ensures { WorkedLayouts }
{}

/// How many objects of each kind a node may have, where its settings all differ; and the ranges of the settings.
pub fn worked_limits()
    ensures { WorkedLimits }
{}
