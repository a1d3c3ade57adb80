//! An entry that isn't allowed, and how what it names is written. Nothing here is promised.
use journal_text::{NodeObject, handle_word};
use mtapi_machine::Entry;
use mtapi_values::{Layout, ObjectKind};
use node_journals::{Journal, ShortEntry};
use std::alloc::{AllocError, Global};

/// The entry of a number, from 1, which isn't allowed, in a journal whose entries stand behind so many lines of an input.
#[derive(Drop)]
pub(crate) struct Case<'a> {
    pub(crate) alloc: Global,
    pub(crate) journal: &'a Journal,
    pub(crate) number: u64,
    pub(crate) lines: u64,
    pub(crate) given: &'a Entry,
}

/// The entries before the one of a number, from 1.
pub(crate) fn entries_before(journal: &Journal, number: u64) -> &[ShortEntry] {
    let shorts = journal.entries.shorts();
    let count = (number.saturating_sub(1) as usize).min(shorts.len());
    shorts.split_at(count).0
}

/// The line in the input of the entry of a number.
pub(crate) fn line_of(case: &Case, number: u64) -> u64 {
    case.lines.saturating_add(number)
}

/// Whether a handle of the journal names this kind of object; in layout one it names none, and may be of any.
pub(crate) fn names_kind(case: &Case, object: NodeObject) -> bool {
    match case.journal.layout {
        Layout::One => true,
        Layout::Two => object.handle >> 24 & 255 == u64::from(object.kind.number()),
    }
}

/// An object, as the journal writes its handle; one that is of another kind by its number.
pub(crate) fn object_text(case: &Case, object: NodeObject) -> Result<String, AllocError> {
    match case.journal.layout {
        Layout::Two if names_kind(case, object) => handle_word(case.alloc, object),
        _ => {
            let handle = object.handle;
            format!(in case.alloc; "{handle}")
        }
    }
}

/// A seat, as the journal writes it.
pub(crate) fn seat_text(case: &Case, who: u32) -> Result<String, AllocError> {
    match who.checked_sub(case.journal.settings.workers()) {
        Some(caller) => format!(in case.alloc; "c{caller}"),
        None => format!(in case.alloc; "w{who}"),
    }
}

/// The word for a kind of object.
pub(crate) fn kind_text(kind: ObjectKind) -> &'static str {
    match kind {
        ObjectKind::Action => "action",
        ObjectKind::Task => "task",
        ObjectKind::Group => "group",
        ObjectKind::Queue => "queue",
        ObjectKind::Mutex => "mutex",
        ObjectKind::Sem => "semaphore",
        ObjectKind::Rwl => "reader-writer lock",
        ObjectKind::Shmem => "segment",
    }
}

/// How many objects of a kind the node may have.
pub(crate) fn most_of(case: &Case, kind: ObjectKind) -> u32 {
    let settings = &case.journal.settings;
    match kind {
        ObjectKind::Action => settings.actions(),
        ObjectKind::Task => settings.tasks(),
        ObjectKind::Group => settings.groups(),
        ObjectKind::Queue => settings.queues(),
        _ => settings.objects(),
    }
}
