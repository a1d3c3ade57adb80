//! The table that a picture is drawn from: rows, and marks in them. A place is the number of an entry, counted from 0.

use crate::lanes::{Lane, Slot};
use crate::lists::{at, put};
use crate::queues::TaskQueue;
use crate::seats::Seat;
use crate::tasks::Task;
use std::alloc::AllocError;
use std::collections::HashMap;

/// What a mark shows. Marks are drawn in this order, so that what is rare isn't hidden.
#[derive(Clone, Copy, Drop, PartialEq, Eq)]
pub enum Style {
    /// So many tasks wait in a queue.
    Level,
    /// A seat holds an object.
    Held,
    /// A seat reads or writes a segment.
    Access,
    /// A worker ran a task, which was completed.
    Completed,
    /// A worker runs a task, and the journal has no end of it.
    Open,
    /// A worker ran a task, which was cancelled.
    Cancelled,
    /// A worker ran a task, which failed.
    Failed,
    /// A seat waits.
    Wait,
    /// A caller's call that is none of those below.
    Call,
    /// A task was started.
    Start,
    /// A task was put into a queue.
    Enqueue,
    /// A task of a group was given to a caller.
    Give,
    /// A task was asked to end.
    Cancel,
    /// A group answered with a status: it has no member left, or one wasn't completed.
    Told,
    /// A wait ran out of looks.
    Timeout,
    /// A call was refused.
    Refusal,
    /// Tasks were cancelled before they began.
    NeverCancelled,
    /// Tasks failed before they began.
    NeverFailed,
}

/// Every style, in the order in which they are drawn.
pub const STYLES: [Style; 18] = [
    Style::Level,
    Style::Held,
    Style::Access,
    Style::Completed,
    Style::Open,
    Style::Cancelled,
    Style::Failed,
    Style::Wait,
    Style::Call,
    Style::Start,
    Style::Enqueue,
    Style::Give,
    Style::Cancel,
    Style::Told,
    Style::Timeout,
    Style::Refusal,
    Style::NeverCancelled,
    Style::NeverFailed,
];

/// A mark in a row, or several of one style that begin in one cell.
#[derive(Clone, Copy, Drop)]
pub struct Mark {
    pub style: Style,
    /// The number of the row: that of a seat, or behind the seats that of a lane.
    pub row: usize,
    /// The part of the row, if that has several.
    pub slot: u64,
    /// Whose it is.
    pub seat: u32,
    /// The place of the entry that says of what it is.
    pub entry: usize,
    /// The first place.
    pub from: usize,
    /// The last place.
    pub to: usize,
    /// How many tasks or looks it speaks of.
    pub count: u64,
    /// How many marks it stands for.
    pub times: u64,
}

/// All that a picture shows, while the entries are followed and behind them.
#[derive(Drop)]
pub struct Chart {
    /// The number of all entries.
    pub entries: usize,
    /// The workers and callers.
    pub seats: Vec<Seat>,
    /// The objects that have a row, in the order in which they were made.
    pub lanes: Vec<Lane>,
    /// What is held of them.
    pub slots: Vec<Slot>,
    /// The number of the row of the mutex that each tally looks for, by the task's handle.
    pub tallies: HashMap<u64, usize>,
    /// The queues, in the order in which they were made, and the number of each by its handle.
    pub queues: Vec<TaskQueue>,
    pub queue_numbers: HashMap<u64, usize>,
    /// The tasks, by their handles.
    pub tasks: HashMap<u64, Task>,
    /// The places at which actions and groups were made, by their handles.
    pub actions: HashMap<u64, usize>,
    pub groups: HashMap<u64, usize>,
    /// The marks.
    pub marks: Vec<Mark>,
    /// For each style the number of what was marked so.
    pub counts: Vec<u64>,
}

/// The greatest number of entries that have each a cell of their own.
pub const MOST_SINGLE: usize = 600;

/// Into how many cells rows are cut.
pub fn cells(entries: usize) -> u64 {
    if entries <= MOST_SINGLE {
        (entries as u64).max(1)
    } else {
        200
    }
}

/// The cell of an entry.
pub fn cell(entries: usize, place: usize) -> u64 {
    let all = cells(entries);
    ((place as u64).saturating_mul(all) / (entries as u64).max(1)).min(all.saturating_sub(1))
}

/// Whether two marks are drawn as one.
fn is_alike(entries: usize, one: Mark, other: Mark) -> bool {
    one.style == other.style
        && one.row == other.row
        && one.slot == other.slot
        && one.seat == other.seat
        && cell(entries, one.from) == cell(entries, other.from)
}

/// The place of the newest mark, of the last 200, that is drawn together with this one.
fn place_alike(entries: usize, marks: &[Mark], mark: Mark) -> Option<usize> {
    if entries <= MOST_SINGLE {
        return None;
    }
    for back in 1..200usize {
        let place = marks.len().checked_sub(back)?;
        match marks.get(place) {
            Some(other) if is_alike(entries, *other, mark) => return Some(place),
            _ => {}
        }
    }
    None
}

/// One mark for two.
fn joined(one: Mark, other: Mark) -> Mark {
    Mark {
        to: one.to.max(other.to),
        count: one.count.max(other.count),
        times: one.times.saturating_add(1),
        ..one
    }
}

/// How many were marked so.
pub fn counted(counts: &[u64], style: Style) -> u64 {
    match counts.get(style as usize) {
        Some(count) => *count,
        None => 0,
    }
}

/// Counts what a mark shows.
fn count_mark(counts: &mut Vec<u64>, mark: Mark) {
    let more = match mark.style {
        Style::NeverCancelled | Style::NeverFailed => mark.count,
        _ => 1,
    };
    let count = counted(counts.as_slice(), mark.style).saturating_add(more);
    put(counts, mark.style as usize, count);
}

/// Adds a mark.
pub fn push_mark(chart: &mut Chart, mark: Mark) -> Result<(), AllocError> {
    count_mark(&mut chart.counts, mark);
    match place_alike(chart.entries, chart.marks.as_slice(), mark) {
        Some(place) => {
            if let Some(other) = at(chart.marks.as_slice(), place) {
                put(&mut chart.marks, place, joined(other, mark));
            }
        }
        None => chart.marks.push(mark)?,
    }
    Ok(())
}

/// A mark of one entry, in the row of its seat.
pub fn mark_at(style: Style, seat: u32, place: usize) -> Mark {
    Mark {
        style,
        row: seat as usize,
        slot: 0,
        seat,
        entry: place,
        from: place,
        to: place,
        count: 1,
        times: 1,
    }
}
