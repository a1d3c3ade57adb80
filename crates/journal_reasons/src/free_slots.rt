//! Handles that a new object may get. Nothing here is promised.
use crate::case::{Case, entries_before, most_of};
use crate::replay::{Replay, made_kind};
use journal_text::object_made;
use mtapi_machine::{Entry, Reply};
use mtapi_values::{Layout, MrapiStatus, MtapiStatus, ObjectKind};
use std::alloc::AllocError;
use std::collections::HashMap;

/// The slot of a handle.
pub(crate) fn slot_of(layout: Layout, handle: u64) -> u64 {
    match layout {
        Layout::One => handle & 0xffff_ffff,
        Layout::Two => handle & 0xff_ffff,
    }
}

fn handle_in(layout: Layout, kind: ObjectKind, slot: u64, generation: u64) -> Option<u64> {
    let front = generation.checked_mul(1 << 32)?;
    let low = match layout {
        Layout::One => slot,
        Layout::Two => u64::from(kind.number()) * (1 << 24) + slot % (1 << 24),
    };
    front.checked_add(low)
}

/// The last handle that was given of each slot of a kind.
pub(crate) fn last_handles(case: &Case, kind: ObjectKind) -> Result<HashMap<u64, u64>, AllocError> {
    let mut handles = HashMap::new(case.alloc);
    for short in entries_before(case.journal, case.number) {
        note_handle(case, kind, &mut handles, &short.full())?;
    }
    Ok(handles)
}

fn note_handle(
    case: &Case,
    kind: ObjectKind,
    handles: &mut HashMap<u64, u64>,
    entry: &Entry,
) -> Result<(), AllocError> {
    if let Some(handle) = made_of(kind, entry) {
        handles.insert(slot_of(case.journal.layout, handle), handle)?;
    }
    Ok(())
}

/// The handle of the next generation of a slot, if the slot is free.
pub(crate) fn next_of_slot(
    case: &Case,
    replay: &Replay,
    kind: ObjectKind,
    handles: &HashMap<u64, u64>,
    slot: u64,
) -> Option<u64> {
    let Some(last) = handles.get(&slot) else {
        return handle_in(case.journal.layout, kind, slot, 1);
    };
    let generation = (*last >> 32).saturating_add(1);
    if replay.is_live(kind, *last) || generation > u64::from(case.journal.settings.generations()) {
        return None;
    }
    handle_in(case.journal.layout, kind, slot, generation)
}

fn lowest_free(
    case: &Case,
    replay: &Replay,
    kind: ObjectKind,
    handles: &HashMap<u64, u64>,
) -> Option<u64> {
    let most = (handles.len() as u64).saturating_add(1);
    for slot in 0..most {
        if let Some(handle) = next_of_slot(case, replay, kind, handles, slot) {
            return Some(handle);
        }
    }
    None
}

// The slot that the given handle names comes first, and then the lowest one that is free.
fn free_handle(
    case: &Case,
    replay: &Replay,
    kind: ObjectKind,
    handles: &HashMap<u64, u64>,
) -> Option<u64> {
    if let Reply::Handle(given) = &case.given.reply {
        let slot = slot_of(case.journal.layout, *given);
        if let Some(handle) = next_of_slot(case, replay, kind, handles, slot) {
            return Some(handle);
        }
    }
    lowest_free(case, replay, kind, handles)
}

// The reply of a node that has no room for a further object of a kind.
fn limit_of(kind: ObjectKind) -> Reply {
    match kind {
        ObjectKind::Action => Reply::Mtapi(MtapiStatus::ErrActionLimit),
        ObjectKind::Task => Reply::Mtapi(MtapiStatus::ErrTaskLimit),
        ObjectKind::Group => Reply::Mtapi(MtapiStatus::ErrGroupLimit),
        ObjectKind::Queue => Reply::Mtapi(MtapiStatus::ErrQueueLimit),
        ObjectKind::Mutex => Reply::Mrapi(MrapiStatus::ErrMutexLimit),
        ObjectKind::Sem => Reply::Mrapi(MrapiStatus::ErrSemLimit),
        ObjectKind::Rwl => Reply::Mrapi(MrapiStatus::ErrRwlLimit),
        ObjectKind::Shmem => Reply::Mrapi(MrapiStatus::ErrShmLimit),
    }
}

// The handle of the object of a kind that an entry made.
fn made_of(kind: ObjectKind, entry: &Entry) -> Option<u64> {
    let object = object_made(&entry.op, &entry.reply)?;
    if object.kind == kind && made_kind(&entry.op).is_some() {
        Some(object.handle)
    } else {
        None
    }
}

// How many objects of a kind are live, or had the last generation of their slots.
fn used_of(case: &Case, replay: &Replay, kind: ObjectKind) -> u64 {
    let last = u64::from(case.journal.settings.generations());
    let mut used = 0u64;
    for short in entries_before(case.journal, case.number) {
        if let Some(handle) = made_of(kind, &short.full())
            && (handle >> 32 == last || replay.is_live(kind, handle))
        {
            used = used.saturating_add(1);
        }
    }
    used
}

/// A handle that a new object of a kind may get, as a reply; where there is no room for it, that.
pub(crate) fn free_handles(
    case: &Case,
    replay: &Replay,
    kind: ObjectKind,
) -> Result<Vec<Reply>, AllocError> {
    let handles = last_handles(case, kind)?;
    let mut replies = Vec::new(case.alloc);
    if used_of(case, replay, kind) >= u64::from(most_of(case, kind)) {
        replies.push(limit_of(kind))?;
    } else if let Some(handle) = free_handle(case, replay, kind, &handles) {
        replies.push(Reply::Handle(handle))?;
    }
    Ok(replies)
}
