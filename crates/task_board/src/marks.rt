//! The mark of one task.

ghost use Rattle.std.specs.Prelude.{◌≡◌, ◌<◌, ◌==◌, ℕ, Bool, Option, Some, None, IfSome, length, slice_set, true, ◌&&◌, bit_and};
ghost use Rattle.handle_pool.specs.Slots.{Slots, slot_of, slot_value, max_of};
ghost use Rattle.mtapi_objects.specs.Actions.{Action};
ghost use Rattle.job_table.specs.Answers.{Covers};
ghost use Rattle.linked_places.specs.Lists.{has_handle};
ghost use Rattle.mtapi_objects.specs.Tasks.{is_unstarted};
ghost use Rattle.task_core.specs.Records.{queue_number};
ghost use Rattle.queue_core.specs.Held.{HeldQueue, first_task};
ghost use Rattle.mtapi_values.specs.Conditions.{holds};
ghost use Rattle.mtapi_values.specs.Masks.{in_mask};
ghost use Rattle.task_board.specs.Seen.{seen, seen_in};
ghost use Rattle.task_board.specs.Queued.{begins_in, left_queue, head_of_queue};
ghost use Rattle.task_board.specs.Scheduler.{IsMarkOf, AreRanked, IsFresh, IsFreshAt, IsFreshFor, Remarked, RemarkedUnless};
ghost use Rattle.task_board.specs.Walks.{walked, AreSeen};
ghost use Rattle.task_board.specs.Waiting.{job_list};

use crate::cores::has_core;
use crate::covered::CoveredActions;
use crate::ends::covered_cores;
use crate::waiting::WaitingTasks;
use crate::walks::{Walk, count_in, first_in, next_in};
use handle_pool::slot_of;
use job_table::Cover;
use mtapi_values::{Mask, QueueHandle, TaskHandle};
use queue_core::Queues;
use ready_index::{Mark, ReadyIndex};
use task_core::{TaskRecord, TaskState, Tasks};

// Takes the mark of a slot away, if it has one.
pub(crate) fn clear(ready: &mut ReadyIndex, place: u32)
    requires { place < length ready.old.marks }
    ensures { ready.new ≡ record ready.old { marks = slice_set ready.old.marks place None } }
{
    if ready.is_marked(place) {
        ready.unmark(place);
    }
}

// Gives a slot this mark, or none.
pub(crate) fn put_mark(ready: &mut ReadyIndex, place: u32, mark: Option<Mark>)
    requires place { place < length ready.old.marks }
    requires known { IfSome mark (λ m. m.priority < ready.old.priorities) }
    ensures { ready.new ≡ record ready.old { marks = slice_set ready.old.marks place mark } }
{
    clear(ready, place);
    if let Some(mark) = mark {
        ready.mark(place, mark.priority, mark.mask);
    }
}

// Whether the task is the first of a queue.
fn is_head(queues: &Queues, queue: QueueHandle, task: TaskHandle) -> bool
    ensures { result ≡ holds (λ k. k == task.0) (first_task (slot_value queues.now.pool queue.0)) }
{
    match queues.head(queue) {
        Some(head) => head.0 == task.0,
        None => false,
    }
}

// Whether a task that names this queue, or none, may begin.
fn may_begin(queues: &Queues, task: TaskHandle, queue: Option<QueueHandle>) -> bool
    ensures { result ≡ begins_in queues.now.pool task.0 (queue_number queue) }
{
    let Some(queue) = queue else {
        return true;
    };
    let Some(facts) = queues.facts(queue) else {
        return false;
    };
    facts.enabled && (!facts.ordered || is_head(queues, queue, task))
}

// Whether the task hasn't begun, and its queue, if any, lets it.
fn is_ready(queues: &Queues, task: TaskHandle, found: &TaskRecord) -> bool
    ensures { result ≡ (is_unstarted found.now && begins_in queues.now.pool task.0 found.now.queue) }
{
    matches!(found.state(), TaskState::Scheduled) && may_begin(queues, task, found.queue())
}

// Whether the task hasn't begun, its queue, if any, lets it, and it may run on this core.
pub(crate) fn may_run(queues: &Queues, task: TaskHandle, found: &TaskRecord, core: u32) -> bool
    requires { core < 64 }
    ensures { result ≡ ((is_unstarted found.now && begins_in queues.now.pool task.0 found.now.queue) && in_mask core found.now.cores) }
{
    is_ready(queues, task, found) && has_core(found.cores(), core)
}

// The workers in both masks.
fn both(a: Mask, b: Mask) -> Mask
    ensures { result.0 ≡ bit_and a.0 b.0 }
{
    Mask(a.0 & b.0)
}

// The mark of a task that hasn't begun and may, by what the actions of its job cover.
fn mark_of(cover: Cover, found: &TaskRecord) -> Option<Mark>
    ensures right { (actions : Slots Action) (lets : Option ℕ → Bool) → is_unstarted found.now ≡ true
        → lets found.now.queue ≡ true → Covers actions found.now.job cover
        → IsMarkOf actions lets (seen (Some found.now)) result }
    ensures priority { IfSome result (λ m. m.priority ≡ found.now.priority) }
{
    match cover {
        Cover::NoAction | Cover::AllDisabled => None,
        Cover::Cores(mask) => Some(Mark {
            priority: found.priority(),
            mask: both(mask, found.cores()),
        }),
    }
}

// The mark that is right for a task, by what the actions of its job cover.
fn mark_by(cover: Cover, queues: &Queues, task: TaskHandle, found: &TaskRecord) -> Option<Mark>
    ensures right { (actions : Slots Action) → Covers actions found.now.job cover
        → IsMarkOf actions (begins_in queues.now.pool task.0) (seen (Some found.now)) result }
    ensures unstarted { IfSome result (λ m. is_unstarted found.now ≡ true) }
    ensures priority { IfSome result (λ m. m.priority ≡ found.now.priority) }
{
    if !is_ready(queues, task, found) {
        return None;
    }
    mark_of(cover, found)
}

// The mark that is right for a handle, live or not. What the actions of its job cover is asked for only where the task may begin.
fn fresh_mark(
    actions: &CoveredActions,
    tasks: &Tasks,
    queues: &Queues,
    task: TaskHandle,
) -> Option<Mark>
    ensures right { IsMarkOf actions.now (begins_in queues.now.pool task.0) (seen_in tasks.now.pool task.0) result }
    ensures known { (n : ℕ) → AreRanked (seen_in tasks.now.pool) n → IfSome result (λ m. m.priority < n) }
{
    let Some(record) = tasks.get(task) else {
        return None;
    };
    if !is_ready(queues, task, record) {
        return None;
    }
    mark_of(actions.cover(record.job()), record)
}

// Marks the slot of a task anew.
pub(crate) fn refresh(
    ready: &mut ReadyIndex,
    actions: &CoveredActions,
    tasks: &Tasks,
    queues: &Queues,
    task: TaskHandle,
)
    requires place { slot_of task.0 < length ready.old.marks }
    requires ranked { AreRanked (seen_in tasks.now.pool) ready.old.priorities }
    ensures { IsFresh actions.now (begins_in queues.now.pool) (seen_in tasks.now.pool) task.0 ready.old ready.new }
{
    put_mark(
        ready,
        slot_of(task.0),
        fresh_mark(actions, tasks, queues, task),
    );
}

// Takes an ended task out of the queue that it names, if that is live, and marks the first task of this queue anew.
pub(crate) fn leave_queue(
    ready: &mut ReadyIndex,
    actions: &CoveredActions,
    tasks: &Tasks,
    queues: &mut Queues,
    queue: Option<QueueHandle>,
    task: TaskHandle,
)
    requires member { (q : ℕ) (x : HeldQueue) → queue_number queue ≡ Some q → slot_value queues.old.pool q ≡ Some x
        → has_handle task.0 x.tasks ≡ true }
    requires place { (h : ℕ)
        → head_of_queue (left_queue queues.old.pool (queue_number queue) task.0) (queue_number queue) ≡ Some h
        → slot_of h < length ready.old.marks }
    requires ranked { AreRanked (seen_in tasks.now.pool) ready.old.priorities }
    ensures left { queues.new ≡ record queues.old { pool = left_queue queues.old.pool (queue_number queue) task.0 } }
    ensures marks { IsFreshAt actions.now (begins_in queues.new.pool) (seen_in tasks.now.pool) (head_of_queue queues.new.pool (queue_number queue)) ready.old ready.new }
{
    let Some(queue) = queue else {
        return;
    };
    let Some(_) = queues.facts(queue) else {
        return;
    };
    queues.ended(queue, task);
    if let Some(head) = queues.head(queue) {
        refresh(ready, actions, tasks, queues, head);
    }
}

// The mark of the slot of a task, by what the actions of the job cover, where the task has this job.
fn refresh_for(
    ready: &mut ReadyIndex,
    cover: Cover,
    tasks: &Tasks,
    queues: &Queues,
    job: u32,
    task: TaskHandle,
)
    requires place { slot_of task.0 < length ready.old.marks }
    requires ranked { AreRanked (seen_in tasks.now.pool) ready.old.priorities }
    ensures { (actions : Slots Action) → Covers actions job cover
        → IsFreshFor actions (begins_in queues.now.pool) (seen_in tasks.now.pool) job task.0 ready.old ready.new }
{
    match tasks.get(task) {
        Some(record) if record.job() == job => {
            put_mark(ready, slot_of(task.0), mark_by(cover, queues, task, record))
        }
        _ => {}
    }
}

// Marks the slots of the tasks of a job that a walk has anew.
pub(crate) fn remark(
    ready: &mut ReadyIndex,
    waiting: &WaitingTasks,
    tasks: &Tasks,
    queues: &Queues,
    actions: &CoveredActions,
    walk: Walk,
    job: u32,
)
    requires places { length ready.old.marks ≡ max_of tasks.now.pool }
    requires live { AreSeen (seen_in tasks.now.pool) (walked walk waiting.now queues.now.pool) }
    requires ranked { AreRanked (seen_in tasks.now.pool) ready.old.priorities }
    ensures { Remarked actions.now (begins_in queues.now.pool) (seen_in tasks.now.pool) job (walked walk waiting.now queues.now.pool) (length (walked walk waiting.now queues.now.pool)) ready.old ready.new }
{
    let cover = actions.cover(job);
    let mut next = first_in(waiting, queues, walk);
    for _index in 0..count_in(waiting, queues, walk) {
        let Some(task) = next else { unreachable!() };
        refresh_for(ready, cover, tasks, queues, job, TaskHandle(task));
        next = next_in(waiting, queues, walk, task);
    }
}

// Marks the slots of the waiting tasks of a job anew where its actions cover other cores than these, which they covered before. Where
// they cover the same ones, every task has the workers that it had.
pub(crate) fn remark_where_changed(
    ready: &mut ReadyIndex,
    waiting: &WaitingTasks,
    tasks: &Tasks,
    queues: &Queues,
    actions: &CoveredActions,
    job: u32,
    before: Mask,
)
    requires places { length ready.old.marks ≡ max_of tasks.now.pool }
    requires live { AreSeen (seen_in tasks.now.pool) (job_list waiting.now job) }
    requires ranked { AreRanked (seen_in tasks.now.pool) ready.old.priorities }
    ensures { RemarkedUnless actions.now (begins_in queues.now.pool) (seen_in tasks.now.pool) job before.0 (job_list waiting.now job) ready.old ready.new }
{
    if covered_cores(actions.cover(job)).0 == before.0 {
        return;
    }
    remark(
        ready,
        waiting,
        tasks,
        queues,
        actions,
        Walk::OfJob(job),
        job,
    );
}
