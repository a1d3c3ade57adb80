//! The rows of workers and callers: for what they wait, and what they ask.

use crate::lists::{at, put};
use crate::marks::{Chart, Mark, Style, mark_at, push_mark};
use mtapi_machine::{Entry, Op, Reply};
use mtapi_values::{MrapiStatus, MtapiStatus};
use std::alloc::AllocError;

/// A worker or a caller.
#[derive(Clone, Copy, Drop)]
pub struct Seat {
    /// How many entries it has.
    pub entries: u64,
    /// How many looks of it were left out.
    pub looks: u64,
    /// How many tasks it ran.
    pub runs: u64,
    /// The place behind its last entry.
    pub behind: usize,
    /// Whether its last entry was answered with 'not yet'.
    pub pending: bool,
    /// Where it picked the task that it runs.
    pub picked: Option<usize>,
}

/// Whether an op may be asked again and again, until there is an answer.
fn is_look(op: &Op) -> bool {
    matches!(
        op,
        Op::Enter
            | Op::TaskLook { .. }
            | Op::AllLook { .. }
            | Op::AnyLook { .. }
            | Op::MutexLook { .. }
            | Op::SemLook { .. }
            | Op::RwlLook { .. }
            | Op::TallyLock { .. }
    )
}

/// Adds the wait that an entry ends.
fn note_wait(
    chart: &mut Chart,
    place: usize,
    entry: &Entry,
    looks: u64,
    seat: Seat,
) -> Result<(), AllocError> {
    if !is_look(&entry.op) || (looks == 0 && !seat.pending) {
        return Ok(());
    }
    let from = if seat.pending {
        seat.behind.saturating_sub(1)
    } else {
        seat.behind
    };
    let mark = Mark {
        entry: place,
        to: place,
        count: looks,
        ..mark_at(Style::Wait, entry.who, from)
    };
    push_mark(chart, mark)
}

/// The tick of an entry.
fn tick_of(op: &Op, reply: &Reply) -> Option<Style> {
    match (op, reply) {
        (Op::TaskStart { .. }, Reply::Handle(_)) => Some(Style::Start),
        (Op::TaskEnqueue { .. }, Reply::Handle(_)) => Some(Style::Enqueue),
        (Op::AnyLook { .. }, Reply::Given(..)) => Some(Style::Give),
        (Op::TaskCancel { .. }, Reply::Ok) => Some(Style::Cancel),
        (_, Reply::Mtapi(MtapiStatus::Timeout)) => Some(Style::Timeout),
        (_, Reply::Mrapi(MrapiStatus::Timeout)) => Some(Style::Timeout),
        (_, Reply::Mtapi(MtapiStatus::ErrGroupInvalid)) => Some(Style::Refusal),
        (Op::AllLook { .. } | Op::AnyLook { .. }, Reply::Mtapi(_)) => Some(Style::Told),
        (_, Reply::Mtapi(_) | Reply::Mrapi(_)) => Some(Style::Refusal),
        (_, Reply::Pending) => None,
        (Op::Pick | Op::Finish { .. } | Op::Asked { .. } | Op::WatchEnd { .. }, _) => None,
        (Op::TallyLock { .. } | Op::TallyRead { .. }, _) => None,
        (Op::TallyWrite { .. } | Op::TallyEnd { .. }, _) => None,
        _ => Some(Style::Call),
    }
}

/// A seat behind an entry.
fn seat_after(seat: Seat, place: usize, reply: &Reply, looks: u64) -> Seat {
    Seat {
        entries: seat.entries.saturating_add(1),
        looks: seat.looks.saturating_add(looks),
        behind: place.saturating_add(1),
        pending: matches!(reply, Reply::Pending),
        ..seat
    }
}

/// Follows the row of a seat at one entry, before which so many looks of it were left out.
pub fn note_seat(
    chart: &mut Chart,
    place: usize,
    entry: &Entry,
    looks: u64,
) -> Result<(), AllocError> {
    if let Some(seat) = at(chart.seats.as_slice(), entry.who as usize) {
        note_wait(chart, place, entry, looks, seat)?;
        let seat = seat_after(seat, place, &entry.reply, looks);
        put(&mut chart.seats, entry.who as usize, seat);
    }
    match tick_of(&entry.op, &entry.reply) {
        Some(style) => push_mark(chart, mark_at(style, entry.who, place)),
        None => Ok(()),
    }
}

/// Adds the wait that a seat is still in behind the last entry.
pub fn end_seat(chart: &mut Chart, who: u32) -> Result<(), AllocError> {
    if let Some(seat) = at(chart.seats.as_slice(), who as usize)
        && seat.pending
    {
        let mark = Mark {
            to: chart.entries.saturating_sub(1),
            count: 0,
            ..mark_at(Style::Wait, who, seat.behind.saturating_sub(1))
        };
        push_mark(chart, mark)?;
    }
    Ok(())
}
