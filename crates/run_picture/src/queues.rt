//! The queues of a run, each with the number of tasks that wait in it, whether it has a row or not.

use crate::lanes::{lane_of, set_level};
use crate::lists::{at, put};
use crate::marks::{Chart, Mark, Style, mark_at, push_mark};
use journal_text::NodeObject;
use mtapi_machine::{Entry, Op, Reply};
use mtapi_values::ObjectKind;
use std::alloc::AllocError;

/// A queue.
#[derive(Clone, Copy, Drop)]
pub struct TaskQueue {
    /// The number of its lane, if it has one.
    lane: Option<usize>,
    /// How many tasks wait in it.
    tasks: u64,
}

/// A new queue.
fn add_queue(chart: &mut Chart, handle: u64) -> Result<(), AllocError> {
    let object = NodeObject {
        kind: ObjectKind::Queue,
        handle,
    };
    let number = chart.queues.len();
    chart.queues.push(TaskQueue {
        lane: lane_of(chart.lanes.as_slice(), object),
        tasks: 0,
    })?;
    chart.queue_numbers.insert(handle, number)?;
    Ok(())
}

/// The queue of this handle, and its number.
fn queue_of(chart: &Chart, handle: u64) -> Option<(usize, TaskQueue)> {
    let number = *chart.queue_numbers.get(&handle)?;
    let queue = at(chart.queues.as_slice(), number)?;
    Some((number, queue))
}

/// From this place on so many tasks wait in a queue.
fn set_tasks(
    chart: &mut Chart,
    place: usize,
    number: usize,
    queue: TaskQueue,
    tasks: u64,
) -> Result<(), AllocError> {
    put(&mut chart.queues, number, TaskQueue { tasks, ..queue });
    match queue.lane {
        Some(lane) => set_level(chart, lane, place, tasks),
        None => Ok(()),
    }
}

/// Puts a task into a queue. Gives the queue's number.
pub fn join_queue(
    chart: &mut Chart,
    place: usize,
    handle: u64,
) -> Result<Option<usize>, AllocError> {
    let Some((number, queue)) = queue_of(chart, handle) else {
        return Ok(None);
    };
    set_tasks(chart, place, number, queue, queue.tasks.saturating_add(1))?;
    Ok(Some(number))
}

/// So many tasks wait no longer in a queue.
pub fn lower(chart: &mut Chart, place: usize, number: usize, fewer: u64) -> Result<(), AllocError> {
    match at(chart.queues.as_slice(), number) {
        Some(queue) if fewer > 0 => {
            set_tasks(
                chart,
                place,
                number,
                queue,
                queue.tasks.saturating_sub(fewer),
            )
        }
        _ => Ok(()),
    }
}

/// So many tasks ended together before they began, by this entry.
pub fn push_ended(
    chart: &mut Chart,
    place: usize,
    who: u32,
    style: Style,
    count: u64,
) -> Result<(), AllocError> {
    if count == 0 {
        return Ok(());
    }
    let mark = mark_at(style, who, place);
    push_mark(chart, Mark { count, ..mark })
}

/// Follows the queues at one entry, behind the rows.
pub fn note_queues(chart: &mut Chart, entry: &Entry) -> Result<(), AllocError> {
    match (&entry.op, &entry.reply) {
        (Op::QueueCreate { .. }, Reply::Handle(queue)) => add_queue(chart, *queue),
        _ => Ok(()),
    }
}
