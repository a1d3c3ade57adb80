//! The tasks of a run: made, run, and ended, some of them before they began.

use crate::lists::{at, put};
use crate::marks::{Chart, Mark, Style, mark_at, push_mark};
use crate::queues::{join_queue, lower, push_ended};
use action_fn::ActEnd;
use mtapi_machine::{Entry, Op, Reply};
use mtapi_values::TaskEnd;
use std::alloc::{AllocError, Global};

/// A task.
#[derive(Clone, Copy, Drop)]
pub struct Task {
    /// Where it was made.
    pub made: usize,
    /// Whether it hasn't begun, and no entry of its own said that it ended.
    pub waits: bool,
    /// The number of the queue that it was put into.
    pub queue: Option<usize>,
}

/// A task waits no longer. Gives it, if it did.
fn stop_waiting(chart: &mut Chart, handle: u64) -> Result<Option<Task>, AllocError> {
    let task = match chart.tasks.get(&handle) {
        Some(task) => *task,
        None => return Ok(None),
    };
    let waits = false;
    chart.tasks.insert(handle, Task { waits, ..task })?;
    Ok(if task.waits { Some(task) } else { None })
}

/// A task waits no longer. Whether it did.
fn leave(chart: &mut Chart, place: usize, handle: u64) -> Result<bool, AllocError> {
    let Some(task) = stop_waiting(chart, handle)? else {
        return Ok(false);
    };
    if let Some(queue) = task.queue {
        lower(chart, place, queue, 1)?;
    }
    Ok(true)
}

/// How a task ended that never began.
fn never(end: &TaskEnd) -> Style {
    match end {
        TaskEnd::Failed(_) => Style::NeverFailed,
        _ => Style::NeverCancelled,
    }
}

/// A task ended, and this entry is the first to say so.
fn end_waiting(
    chart: &mut Chart,
    place: usize,
    who: u32,
    task: u64,
    style: Style,
) -> Result<(), AllocError> {
    if leave(chart, place, task)? {
        push_mark(chart, mark_at(style, who, place))?;
    }
    Ok(())
}

/// How the tasks end that an entry ends without naming them.
fn style_of_several(op: &Op) -> Style {
    match op {
        Op::QueueDisable { .. } | Op::Close => Style::NeverCancelled,
        _ => Style::NeverFailed,
    }
}

/// These tasks ended by this entry, which doesn't name them.
pub fn end_several(
    alloc: Global,
    chart: &mut Chart,
    place: usize,
    entry: &Entry,
    tasks: &[u64],
) -> Result<(), AllocError> {
    if tasks.is_empty() {
        return Ok(());
    }
    let mut count = 0u64;
    let mut fewer = vec![in alloc; 0u64; chart.queues.len()]?;
    for handle in tasks {
        if let Some(task) = stop_waiting(chart, *handle)? {
            count = count.saturating_add(1);
            if let Some(queue) = task.queue {
                let more = at(fewer.as_slice(), queue).unwrap_or(0);
                put(&mut fewer, queue, more.saturating_add(1));
            }
        }
    }
    for (number, fewer) in fewer.iter().enumerate() {
        lower(chart, place, number, *fewer)?;
    }
    push_ended(chart, place, entry.who, style_of_several(&entry.op), count)
}

/// How a run ended.
fn ran(end: &TaskEnd) -> Style {
    match end {
        TaskEnd::Completed(_) => Style::Completed,
        TaskEnd::Cancelled => Style::Cancelled,
        TaskEnd::Failed(_) => Style::Failed,
    }
}

/// How the run ended that an entry ends.
fn end_of_run(op: &Op, reply: &Reply) -> Option<Style> {
    match (op, reply) {
        (Op::Finish { done, .. }, Reply::Ok) => match done.end() {
            ActEnd::Done(_) => Some(Style::Completed),
            ActEnd::Fails(_) => Some(Style::Failed),
        },
        (Op::WatchEnd { .. } | Op::TallyEnd { .. }, Reply::Ended(end)) => Some(ran(end)),
        _ => None,
    }
}

/// Ends what a worker runs, if it runs anything.
pub fn end_run(chart: &mut Chart, who: u32, to: usize, style: Style) -> Result<(), AllocError> {
    let Some(seat) = at(chart.seats.as_slice(), who as usize) else {
        return Ok(());
    };
    if let Some(from) = seat.picked {
        let mark = mark_at(style, who, from);
        push_mark(chart, Mark { to, ..mark })?;
        let mut seat = seat;
        seat.picked = None;
        put(&mut chart.seats, who as usize, seat);
    }
    Ok(())
}

/// A worker begins a task.
fn begin_run(chart: &mut Chart, who: u32, place: usize, task: u64) -> Result<(), AllocError> {
    end_run(chart, who, place, Style::Open)?;
    let _ = leave(chart, place, task)?;
    if let Some(seat) = at(chart.seats.as_slice(), who as usize) {
        let mut seat = seat;
        seat.picked = Some(place);
        seat.runs = seat.runs.saturating_add(1);
        put(&mut chart.seats, who as usize, seat);
    }
    Ok(())
}

/// Notes a new task.
fn add_task(
    chart: &mut Chart,
    place: usize,
    handle: u64,
    queue: Option<usize>,
) -> Result<(), AllocError> {
    let task = Task {
        made: place,
        waits: true,
        queue,
    };
    chart.tasks.insert(handle, task)?;
    Ok(())
}

/// Follows the tasks at one entry.
pub fn note_tasks(chart: &mut Chart, place: usize, entry: &Entry) -> Result<(), AllocError> {
    let who = entry.who;
    if let Some(style) = end_of_run(&entry.op, &entry.reply) {
        return end_run(chart, who, place, style);
    }
    match (&entry.op, &entry.reply) {
        (Op::TaskStart { .. }, Reply::Handle(task)) => add_task(chart, place, *task, None),
        (Op::TaskEnqueue { queue, .. }, Reply::Handle(task)) => {
            let queued = join_queue(chart, place, queue.0)?;
            add_task(chart, place, *task, queued)
        }
        (Op::Pick, Reply::Picked { task, .. }) => begin_run(chart, who, place, task.0),
        (Op::TaskCancel { task }, Reply::Ok) => {
            end_waiting(chart, place, who, task.0, Style::NeverCancelled)
        }
        (Op::TaskLook { task, .. }, Reply::Ended(end)) => {
            end_waiting(chart, place, who, task.0, never(end))
        }
        (Op::AnyLook { .. }, Reply::Given(task, end)) => {
            end_waiting(chart, place, who, task.0, never(end))
        }
        _ => Ok(()),
    }
}
