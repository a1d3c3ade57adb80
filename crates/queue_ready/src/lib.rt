//! When a task of a queue may begin, as the node will ask its queues: a law on lists of tasks in the order of their starts.
#![tactic(auto)]

ghost use Rattle.queue_ready.specs.Ready.{QueueReady};

/// A queue lets its task begin exactly where it is enabled and, if it is ordered, the task is the first of its unended tasks.
pub fn law_ready()
    ensures { QueueReady }
{}
