//! The words of a picture.

use crate::marks::Style;
use journal_text::{end_word, shown_word};
use mtapi_machine::{Entry, Op, Reply};
use mtapi_values::ObjectKind;

/// What a mark says of its object, before the name of its seat.
pub fn told(style: Style) -> &'static str {
    match style {
        Style::Level => "tasks wait",
        Style::Held => "held by",
        Style::Access => "used by",
        Style::Completed => "completed by",
        Style::Open => "without an end, run by",
        Style::Cancelled => "cancelled while run by",
        Style::Failed => "failed when run by",
        Style::Wait => "waited for by",
        Style::Call => "asked by",
        Style::Start => "started by",
        Style::Enqueue => "enqueued by",
        Style::Give => "given to",
        Style::Cancel => "cancel asked by",
        Style::Told => "status told to",
        Style::Timeout => "timeout of",
        Style::Refusal => "refused to",
        Style::NeverCancelled => "cancelled before it began, by a call of",
        Style::NeverFailed => "failed before it began, by a call of",
    }
}

/// The class of a mark.
pub fn class_of(style: Style) -> &'static str {
    match style {
        Style::Level => "level",
        Style::Held => "seat",
        Style::Access => "access",
        Style::Completed => "completed",
        Style::Open => "open",
        Style::Cancelled => "cancelled",
        Style::Failed => "failed",
        Style::Wait => "wait",
        Style::Call => "call",
        Style::Start => "start",
        Style::Enqueue => "enqueue",
        Style::Give => "give",
        Style::Cancel => "cancel",
        Style::Told => "told",
        Style::Timeout => "timeout",
        Style::Refusal => "refusal",
        Style::NeverCancelled => "ring cancelled",
        Style::NeverFailed => "ring failed",
    }
}

/// The word for an object's kind, as the name of its row begins.
pub fn kind_word(kind: ObjectKind) -> &'static str {
    match kind {
        ObjectKind::Action => "action",
        ObjectKind::Task => "task",
        ObjectKind::Group => "group",
        ObjectKind::Queue => "queue",
        ObjectKind::Mutex => "mutex",
        ObjectKind::Sem => "sem",
        ObjectKind::Rwl => "rwl",
        ObjectKind::Shmem => "shmem",
    }
}

/// What an entry answers, or says of how it was asked.
pub fn note_of(entry: &Entry) -> &'static str {
    match (&entry.op, &entry.reply) {
        (_, Reply::Mtapi(status)) => status.name(),
        (_, Reply::Mrapi(status)) => status.name(),
        (_, Reply::Picked { kind, .. }) => kind.word(),
        (_, Reply::Given(_, end)) => end_word(end),
        (_, Reply::Ended(end)) => end_word(end),
        (Op::RwlLook { writer: true, .. }, _) => "writer",
        (Op::RwlLook { writer: false, .. }, _) => "reader",
        (Op::ShmemRead { .. } | Op::TallyRead { .. }, _) => "read",
        (Op::ShmemWrite { .. } | Op::TallyWrite { .. }, _) => "write",
        _ => "",
    }
}

/// The word of a call, as a workload has it, which says `begin` and `finalize`.
pub fn call_word(op: &Op) -> &'static str {
    match op {
        Op::Release | Op::Enter => "begin",
        Op::Final => "finalize",
        _ => shown_word(op),
    }
}
