//! The lists of tasks that a call walks.

ghost use Rattle.std.specs.Prelude.{◌≡◌, ◌+◌, ℕ, Some, true, length, slice_get};
ghost use Rattle.std.specs.Option.{option_map};
ghost use Rattle.linked_places.specs.Lists.{has_handle};
ghost use Rattle.task_board.specs.Walks.{walked};

use crate::waiting::WaitingTasks;
use mtapi_values::{QueueHandle, TaskHandle};
use queue_core::Queues;

// The tasks that a call walks, in the order of their starts.
#[derive(Clone, Copy, Drop)]
pub(crate) enum Walk {
    // Those that haven't begun.
    Waiting,
    // Those of the jobs whose numbers have the remainder of this one's.
    OfJob(u32),
    // The unended ones of this queue; none where it isn't live.
    Queued(QueueHandle),
}

// The first task of a walk.
pub(crate) fn first_in(waiting: &WaitingTasks, queues: &Queues, walk: Walk) -> Option<u64>
    ensures { result ≡ slice_get (walked walk waiting.now queues.now.pool) 0 }
{
    match walk {
        Walk::Waiting => waiting.first(),
        Walk::OfJob(job) => waiting.first_of_job(job),
        Walk::Queued(queue) => number_of(queues.head(queue)),
    }
}

// The task after this one of a walk.
pub(crate) fn next_in(waiting: &WaitingTasks, queues: &Queues, walk: Walk, task: u64) -> Option<u64>
    requires { has_handle task (walked walk waiting.now queues.now.pool) ≡ true }
    ensures { (i : ℕ) → slice_get (walked walk waiting.now queues.now.pool) i ≡ Some task
        → result ≡ slice_get (walked walk waiting.now queues.now.pool) (i + 1) }
{
    match walk {
        Walk::Waiting => waiting.next(task),
        Walk::OfJob(job) => waiting.next_of_job(job, task),
        Walk::Queued(_) => number_of(queues.next(TaskHandle(task))),
    }
}

// How many tasks a walk has.
pub(crate) fn count_in(waiting: &WaitingTasks, queues: &Queues, walk: Walk) -> u32
    ensures { result ≡ length (walked walk waiting.now queues.now.pool) }
{
    match walk {
        Walk::Waiting => waiting.count(),
        Walk::OfJob(job) => waiting.count_of_job(job),
        Walk::Queued(queue) => match queues.facts(queue) {
            Some(facts) => facts.unended,
            None => 0,
        },
    }
}

// The number of a task's handle.
fn number_of(task: Option<TaskHandle>) -> Option<u64>
    ensures { result ≡ option_map (λ (t : TaskHandle). t.0) task }
{
    match task {
        Some(task) => Some(task.0),
        None => None,
    }
}
