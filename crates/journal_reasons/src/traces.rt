//! What the entries before one say of an object. Nothing here is promised.
use crate::case::{Case, entries_before};
use crate::replay::Replay;
use journal_text::{NodeObject, object_made, object_named};
use mtapi_machine::{Entry, Op, Reply};
use mtapi_values::ObjectKind;
use std::alloc::AllocError;

/// A seat, and the number of its entry.
#[derive(Clone, Copy, Drop)]
pub(crate) struct Deed {
    pub(crate) who: u32,
    pub(crate) number: u64,
}

/// Which entries made and changed an object.
#[derive(Clone, Copy, Drop)]
pub(crate) struct Trace {
    /// It was made.
    pub(crate) made: Option<u64>,
    /// It stopped being live.
    pub(crate) gone: Option<u64>,
    /// A worker took it, a task.
    pub(crate) begun: Option<Deed>,
    /// A worker ended it.
    pub(crate) ended: Option<u64>,
    /// A seat took it, a lock, or attached itself, at last.
    pub(crate) taken: Option<Deed>,
    /// It was changed or asked for at last, and this wasn't refused.
    pub(crate) named: Option<u64>,
}

fn made_by(entry: &Entry, object: NodeObject) -> bool {
    match object_made(&entry.op, &entry.reply) {
        Some(made) => made == object,
        None => false,
    }
}

fn is_refusal(reply: &Reply) -> bool {
    matches!(reply, Reply::Pending | Reply::Mtapi(_) | Reply::Mrapi(_))
}

fn takes(op: &Op) -> bool {
    matches!(
        op,
        Op::MutexLook { .. } | Op::SemLook { .. } | Op::RwlLook { .. } | Op::ShmemAttach { .. }
    )
}

fn ends(op: &Op) -> bool {
    matches!(
        op,
        Op::Finish { .. } | Op::WatchEnd { .. } | Op::TallyEnd { .. }
    )
}

// What an entry that names the object adds.
fn note_named(trace: &mut Trace, entry: &Entry, number: u64) {
    if is_refusal(&entry.reply) {
        return;
    }
    trace.named = Some(number);
    if takes(&entry.op) {
        trace.taken = Some(Deed {
            who: entry.who,
            number,
        });
    }
    if ends(&entry.op) {
        trace.ended = Some(number);
    }
}

fn is_picked(entry: &Entry, object: NodeObject) -> bool {
    match &entry.reply {
        Reply::Picked { task, .. } => object.kind == ObjectKind::Task && task.0 == object.handle,
        _ => false,
    }
}

// What an entry says of the object.
fn note(trace: &mut Trace, entry: &Entry, object: NodeObject, number: u64) {
    if trace.made.is_none() && made_by(entry, object) {
        trace.made = Some(number);
    }
    if is_picked(entry, object) {
        trace.begun = Some(Deed {
            who: entry.who,
            number,
        });
    }
    if let Some(named) = object_named(&entry.op)
        && named == object
    {
        note_named(trace, entry, number);
    }
}

// The same, and whether it stopped being live.
fn follow(
    trace: &mut Trace,
    replay: &mut Replay,
    entry: &Entry,
    object: NodeObject,
    number: u64,
) -> Result<(), AllocError> {
    note(trace, entry, object, number);
    replay.follow(entry)?;
    if trace.made.is_some() && trace.gone.is_none() && !replay.is_live(object.kind, object.handle) {
        trace.gone = Some(number);
    }
    Ok(())
}

fn follow_all(case: &Case, replay: &mut Replay, object: NodeObject) -> Result<Trace, AllocError> {
    let mut trace = no_trace();
    let mut number = 1u64;
    for short in entries_before(case.journal, case.number) {
        follow(&mut trace, replay, &short.full(), object, number)?;
        number = number.saturating_add(1);
    }
    Ok(trace)
}

fn no_trace() -> Trace {
    Trace {
        made: None,
        gone: None,
        begun: None,
        ended: None,
        taken: None,
        named: None,
    }
}

/// What the entries before that of the case say of an object.
pub(crate) fn trace_of(case: &Case, object: NodeObject) -> Result<Trace, AllocError> {
    match Replay::new(case.alloc, case.journal)? {
        Some(mut replay) => follow_all(case, &mut replay, object),
        None => Ok(no_trace()),
    }
}

/// How many objects of a kind are live before the entry of the case.
pub(crate) fn live_before(case: &Case, kind: ObjectKind) -> Result<u32, AllocError> {
    match Replay::new(case.alloc, case.journal)? {
        Some(mut replay) => {
            replay.follow_all(entries_before(case.journal, case.number))?;
            Ok(replay.live(kind))
        }
        None => Ok(0),
    }
}

/// When the node was initialized, released, closed and finalized.
#[derive(Clone, Copy, Drop)]
pub(crate) struct Phases {
    pub(crate) opened: Option<u64>,
    pub(crate) released: Option<u64>,
    pub(crate) closed: Option<u64>,
    pub(crate) finalized: Option<u64>,
}

fn note_phase(phases: &mut Phases, op: &Op, number: u64) {
    match op {
        Op::Initialize => phases.opened = Some(number),
        Op::Release => phases.released = Some(number),
        Op::Close => phases.closed = Some(number),
        Op::Final => phases.finalized = Some(number),
        _ => {}
    }
}

/// The same, before the entry of the case.
pub(crate) fn phases_before(case: &Case) -> Phases {
    let mut phases = Phases {
        opened: None,
        released: None,
        closed: None,
        finalized: None,
    };
    let mut number = 1u64;
    for short in entries_before(case.journal, case.number) {
        let entry = short.full();
        if matches!(entry.reply, Reply::Ok) {
            note_phase(&mut phases, &entry.op, number);
        }
        number = number.saturating_add(1);
    }
    phases
}
