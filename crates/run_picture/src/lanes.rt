//! The rows of objects: how many tasks wait in a queue, and who holds a mutex, a semaphore, a reader-writer lock or a segment.

use crate::lists::{at, put};
use crate::marks::{Chart, Mark, Style, mark_at, push_mark};
use crate::objects::object_of;
use journal_text::NodeObject;
use mtapi_machine::{Entry, Op, Reply};
use mtapi_values::{Kind, ObjectKind};
use std::alloc::AllocError;

/// How many objects have a row: the first ones.
const MOST_LANES: usize = 64;

/// The row of an object, and how the object stands.
#[derive(Clone, Copy, Drop)]
pub struct Lane {
    pub object: NodeObject,
    /// The id of the object.
    pub id: u32,
    /// Whether it wasn't deleted.
    pub live: bool,
    /// Where it was made.
    pub made: usize,
    /// Of a queue: how many tasks wait in it, and from which place on.
    pub count: u64,
    pub since: usize,
    /// The greatest number of tasks that waited in it; or else of seats that held it at a time.
    pub most: u64,
    /// The greatest number of looks that were left out before one call on it.
    pub longest: u64,
}

/// A part of the row of an object that one seat at a time holds.
#[derive(Clone, Copy, Drop)]
pub struct Slot {
    /// The number of the lane.
    pub lane: usize,
    /// The number of the part, counted from 0.
    pub number: u64,
    /// Who holds it.
    pub holder: Option<Holder>,
}

/// A seat that holds an object.
#[derive(Clone, Copy, Drop)]
pub struct Holder {
    pub seat: u32,
    /// How often.
    pub depth: u64,
    /// From which place on.
    pub from: usize,
}

/// What a call does with what it names.
#[derive(Clone, Copy, Drop)]
enum Holding {
    Takes,
    GivesBack,
    Accesses,
    Deletes,
    Nothing,
}

fn holding_of(op: &Op, reply: &Reply) -> Holding {
    match (op, reply) {
        (Op::MutexLook { .. }, Reply::Number(_)) => Holding::Takes,
        (Op::SemLook { .. } | Op::RwlLook { .. } | Op::ShmemAttach { .. }, Reply::Ok) => {
            Holding::Takes
        }
        (Op::MutexUnlock { .. } | Op::SemUnlock { .. }, Reply::Ok) => Holding::GivesBack,
        (Op::RwlUnlock { .. } | Op::ShmemDetach { .. }, Reply::Ok) => Holding::GivesBack,
        (Op::ShmemRead { .. }, Reply::Number(_)) => Holding::Accesses,
        (Op::ShmemWrite { .. }, Reply::Ok) => Holding::Accesses,
        (Op::MutexDelete { .. } | Op::SemDelete { .. }, Reply::Ok) => Holding::Deletes,
        (Op::RwlDelete { .. } | Op::ShmemDelete { .. }, Reply::Ok) => Holding::Deletes,
        _ => Holding::Nothing,
    }
}

/// The id of an object that has a row, where an op makes one.
fn made_by(op: &Op) -> Option<u32> {
    match op {
        Op::QueueCreate { id, .. }
        | Op::MutexCreate { id, .. }
        | Op::SemCreate { id, .. }
        | Op::RwlCreate { id, .. }
        | Op::ShmemCreate { id, .. } => Some(*id),
        _ => None,
    }
}

/// Adds the row of an object that an entry made, if there is room.
fn add_lane(lanes: &mut Vec<Lane>, place: usize, entry: &Entry) -> Result<(), AllocError> {
    match (made_by(&entry.op), &entry.reply, object_of(entry)) {
        (Some(id), Reply::Handle(_), Some(object)) if lanes.len() < MOST_LANES => {
            lanes.push(Lane {
                object,
                id,
                live: true,
                made: place,
                count: 0,
                since: place,
                most: 0,
                longest: 0,
            })?;
        }
        _ => {}
    }
    Ok(())
}

/// The number of the lane of an object.
pub fn lane_of(lanes: &[Lane], object: NodeObject) -> Option<usize> {
    for (number, lane) in lanes.iter().enumerate() {
        if lane.object == object {
            return Some(number);
        }
    }
    None
}

/// The number of the lane of the live object of this kind with this id.
fn lane_named(lanes: &[Lane], kind: ObjectKind, id: i64) -> Option<usize> {
    for (number, lane) in lanes.iter().enumerate() {
        if lane.live && lane.object.kind == kind && i64::from(lane.id) == id {
            return Some(number);
        }
    }
    None
}

/// The place of the first slot of a lane that this seat holds, or that is free.
fn slot_held(slots: &[Slot], lane: usize, seat: Option<u32>) -> Option<usize> {
    for (place, slot) in slots.iter().enumerate() {
        let held = match slot.holder {
            Some(holder) => Some(holder.seat),
            None => None,
        };
        if slot.lane == lane && held == seat {
            return Some(place);
        }
    }
    None
}

/// A slot that this seat takes, or takes once more.
fn taken(slot: Slot, seat: u32, place: usize) -> Slot {
    let holder = match slot.holder {
        Some(holder) => Holder {
            depth: holder.depth.saturating_add(1),
            ..holder
        },
        None => Holder {
            seat,
            depth: 1,
            from: place,
        },
    };
    Slot {
        holder: Some(holder),
        ..slot
    }
}

/// A further slot of a lane.
fn add_slot(chart: &mut Chart, number: usize, lane: Lane) -> Result<usize, AllocError> {
    let place = chart.slots.len();
    chart.slots.push(Slot {
        lane: number,
        number: lane.most,
        holder: None,
    })?;
    let most = lane.most.saturating_add(1);
    put(&mut chart.lanes, number, Lane { most, ..lane });
    Ok(place)
}

/// A seat takes an object.
fn take(chart: &mut Chart, number: usize, seat: u32, place: usize) -> Result<(), AllocError> {
    let Some(lane) = at(chart.lanes.as_slice(), number) else {
        return Ok(());
    };
    let held = slot_held(chart.slots.as_slice(), number, Some(seat));
    let found = match held {
        Some(at) => at,
        None => match slot_held(chart.slots.as_slice(), number, None) {
            Some(at) => at,
            None => add_slot(chart, number, lane)?,
        },
    };
    if let Some(slot) = at(chart.slots.as_slice(), found) {
        put(&mut chart.slots, found, taken(slot, seat, place));
    }
    Ok(())
}

/// What a seat held of an object until this place.
fn push_held(chart: &mut Chart, slot: Slot, holder: Holder, to: usize) -> Result<(), AllocError> {
    let row = chart.seats.len().saturating_add(slot.lane);
    let mark = Mark {
        row,
        slot: slot.number,
        to,
        ..mark_at(Style::Held, holder.seat, holder.from)
    };
    push_mark(chart, mark)
}

/// A seat gives a slot back, once or altogether.
fn give_back(chart: &mut Chart, found: usize, place: usize, whole: bool) -> Result<(), AllocError> {
    let Some(slot) = at(chart.slots.as_slice(), found) else {
        return Ok(());
    };
    let Some(holder) = slot.holder else {
        return Ok(());
    };
    let depth = holder.depth.saturating_sub(1);
    let left = if whole || depth == 0 {
        push_held(chart, slot, holder, place)?;
        None
    } else {
        Some(Holder { depth, ..holder })
    };
    let slot = Slot {
        holder: left,
        ..slot
    };
    put(&mut chart.slots, found, slot);
    Ok(())
}

/// A read or a write of a segment, in the part of its row that the seat holds.
fn push_access(
    chart: &mut Chart,
    number: usize,
    seat: u32,
    place: usize,
) -> Result<(), AllocError> {
    let found = slot_held(chart.slots.as_slice(), number, Some(seat)).unwrap_or(0);
    let slot = match at(chart.slots.as_slice(), found) {
        Some(slot) => slot.number,
        None => 0,
    };
    let mark = Mark {
        row: chart.seats.len().saturating_add(number),
        slot,
        ..mark_at(Style::Access, seat, place)
    };
    push_mark(chart, mark)
}

/// What a call does with the object that it names.
fn hold(chart: &mut Chart, place: usize, entry: &Entry, number: usize) -> Result<(), AllocError> {
    match holding_of(&entry.op, &entry.reply) {
        Holding::Takes => take(chart, number, entry.who, place),
        Holding::GivesBack => {
            match slot_held(chart.slots.as_slice(), number, Some(entry.who)) {
                Some(found) => give_back(chart, found, place, false),
                None => Ok(()),
            }
        }
        Holding::Accesses => push_access(chart, number, entry.who, place),
        Holding::Deletes => {
            if let Some(lane) = at(chart.lanes.as_slice(), number) {
                put(
                    &mut chart.lanes,
                    number,
                    Lane {
                        live: false,
                        ..lane
                    },
                );
            }
            Ok(())
        }
        Holding::Nothing => Ok(()),
    }
}

/// The ids of the mutex and the segment of a tally.
fn tally_ids(entry: &Entry) -> Option<(i64, i64)> {
    match &entry.reply {
        Reply::Picked { kind, args, .. } => match (kind, args.as_slice()) {
            (Kind::Tally, [mutex, segment, ..]) => Some((*mutex, *segment)),
            _ => None,
        },
        _ => None,
    }
}

/// Gives back all that a worker's tally has.
fn end_tally(chart: &mut Chart, who: u32, place: usize) -> Result<(), AllocError> {
    for found in 0..chart.slots.len() {
        if let Some(slot) = at(chart.slots.as_slice(), found)
            && let Some(holder) = slot.holder
            && holder.seat == who
        {
            give_back(chart, found, place, true)?;
        }
    }
    Ok(())
}

/// A tally looks for its mutex, before which so many of its looks were left out.
fn note_tally_look(
    chart: &mut Chart,
    op: &Op,
    mutex: Option<usize>,
    looks: u64,
) -> Result<(), AllocError> {
    if let (Op::TallyLock { task }, Some(mutex)) = (op, mutex) {
        chart.tallies.insert(task.0, mutex)?;
        note_longest(chart, mutex, looks);
    }
    Ok(())
}

/// What a worker's tally, which it picked by this entry, does with its mutex and its segment.
fn note_tally(
    chart: &mut Chart,
    place: usize,
    entry: &Entry,
    looks: u64,
    picked: &Entry,
) -> Result<(), AllocError> {
    let Some((mutex, segment)) = tally_ids(picked) else {
        return Ok(());
    };
    let mutex = lane_named(chart.lanes.as_slice(), ObjectKind::Mutex, mutex);
    let segment = lane_named(chart.lanes.as_slice(), ObjectKind::Shmem, segment);
    note_tally_look(chart, &entry.op, mutex, looks)?;
    match (&entry.op, &entry.reply, mutex, segment) {
        (Op::TallyLock { .. }, Reply::Asked(true), Some(mutex), Some(segment)) => {
            take(chart, mutex, entry.who, place)?;
            take(chart, segment, entry.who, place)
        }
        (Op::TallyRead { .. }, Reply::Number(_), _, Some(segment)) => {
            push_access(chart, segment, entry.who, place)
        }
        (Op::TallyWrite { .. }, Reply::Ok, _, Some(segment)) => {
            push_access(chart, segment, entry.who, place)
        }
        (Op::TallyEnd { .. }, Reply::Ended(_), _, _) => end_tally(chart, entry.who, place),
        _ => Ok(()),
    }
}

/// Notes the looks that were left out before a call on an object.
fn note_longest(chart: &mut Chart, number: usize, looks: u64) {
    if let Some(lane) = at(chart.lanes.as_slice(), number) {
        let longest = lane.longest.max(looks);
        put(&mut chart.lanes, number, Lane { longest, ..lane });
    }
}

/// Follows the rows of objects at one entry; the seat runs what it picked by the other one.
pub fn note_lanes(
    chart: &mut Chart,
    place: usize,
    entry: &Entry,
    looks: u64,
    picked: Option<&Entry>,
) -> Result<(), AllocError> {
    add_lane(&mut chart.lanes, place, entry)?;
    if let Some(object) = object_of(entry)
        && let Some(number) = lane_of(chart.lanes.as_slice(), object)
    {
        note_longest(chart, number, looks);
        hold(chart, place, entry, number)?;
    }
    match picked {
        Some(picked) => note_tally(chart, place, entry, looks, picked),
        None => Ok(()),
    }
}

/// From this place on so many tasks wait in a queue.
pub fn set_level(
    chart: &mut Chart,
    number: usize,
    place: usize,
    count: u64,
) -> Result<(), AllocError> {
    let Some(lane) = at(chart.lanes.as_slice(), number) else {
        return Ok(());
    };
    if lane.count > 0 {
        let mark = Mark {
            row: chart.seats.len().saturating_add(number),
            to: place.saturating_sub(1).max(lane.since),
            count: lane.count,
            ..mark_at(Style::Level, 0, lane.since)
        };
        push_mark(chart, mark)?;
    }
    let lane = Lane {
        count,
        since: place,
        most: lane.most.max(count),
        ..lane
    };
    put(&mut chart.lanes, number, lane);
    Ok(())
}

/// Ends what is held, and the levels, behind the last entry.
pub fn end_lanes(chart: &mut Chart) -> Result<(), AllocError> {
    let end = chart.entries;
    for found in 0..chart.slots.len() {
        give_back(chart, found, end.saturating_sub(1), true)?;
    }
    for number in 0..chart.lanes.len() {
        set_level(chart, number, end, 0)?;
    }
    Ok(())
}
