//! Why a legal journal is no run of a workload: which caller's which statement has no entry, or another one. Nothing here is promised:
//! it is asked where `check` has said that the journal is no run.
use mtapi_machine::{Entry, Op, Reply};
use mtapi_values::{MrapiStatus, MtapiStatus, NodeAttr, Timeout};
use node_journals::{Journal, ShortEntry};
use std::alloc::{AllocError, Global};
use workload_file::{Part, Statement, Workload, has_begin};
use workload_runs::{Call, Wanted, call_of};

/// What differs: in words, at which line of the workload and at which entry, from 1.
#[derive(Drop)]
pub(crate) struct Difference {
    pub(crate) words: String,
    pub(crate) line: Option<u64>,
    pub(crate) entry: Option<u64>,
}

/// A journal, a seat of its node, and how many entries of it were seen to be as they have to be.
#[derive(Drop)]
struct SeatWalk<'a> {
    alloc: Global,
    journal: &'a Journal,
    who: u32,
    seen: usize,
}

fn seat_text(alloc: Global, journal: &Journal, who: u32) -> Result<String, AllocError> {
    match who.checked_sub(journal.settings.workers()) {
        Some(caller) => format!(in alloc; "c{caller}"),
        None => format!(in alloc; "w{who}"),
    }
}

fn differs(
    walk: &SeatWalk,
    words: &str,
    line: Option<u64>,
    entry: Option<u64>,
) -> Result<Option<Difference>, AllocError> {
    let seat = seat_text(walk.alloc, walk.journal, walk.who)?;
    Ok(Some(Difference {
        words: format!(in walk.alloc; "{seat} {words}")?,
        line,
        entry,
    }))
}

fn shorts_from<'a>(journal: &'a Journal, seen: usize) -> &'a [ShortEntry] {
    let shorts = journal.entries.shorts();
    shorts.split_at(seen.min(shorts.len())).1
}

fn number_beside(journal: &Journal, place: usize) -> u64 {
    match journal.entries.skipped().get(place) {
        Some(number) => *number,
        None => 0,
    }
}

// The next entry of the seat, its place, and the number beside it. The walk goes on behind it.
fn next_of(walk: &mut SeatWalk) -> Option<(Entry, usize, u64)> {
    let mut place = walk.seen;
    for short in shorts_from(walk.journal, walk.seen) {
        let entry = short.full();
        let here = place;
        place = place.saturating_add(1);
        if entry.who == walk.who {
            walk.seen = place;
            return Some((entry, here, number_beside(walk.journal, here)));
        }
    }
    walk.seen = place;
    None
}

fn number_of(place: usize) -> Option<u64> {
    Some((place as u64).saturating_add(1))
}

// ---- the calls of statements

fn is_timeout(reply: &Reply) -> bool {
    matches!(
        reply,
        Reply::Mtapi(MtapiStatus::Timeout) | Reply::Mrapi(MrapiStatus::Timeout)
    )
}

fn keeps_timeout(timeout: Timeout, last: bool, looks: u64) -> bool {
    match timeout.looks() {
        None => !last,
        Some(most) => looks <= u64::from(most) && last == (looks == u64::from(most)),
    }
}

// Whether an entry with the number of this look may end a call that looks.
fn ends_look(wanted: Wanted, timeout: Timeout, entry: &Entry, looks: u64) -> bool {
    let last = entry.op == wanted.op(true);
    if !last && entry.op != wanted.op(false) {
        return false;
    }
    !matches!(entry.reply, Reply::Pending)
        && keeps_timeout(timeout, last, looks)
        && (last || !is_timeout(&entry.reply))
}

// The place of the first entry that isn't of the call, or none where its entries are there; then its handle is put into `handle`.
fn once(walk: &mut SeatWalk, op: &Op, handle: &mut u64) -> Missed {
    let Some((entry, place, beside)) = next_of(walk) else {
        return Missed::Nothing;
    };
    if let Reply::Handle(given) = &entry.reply {
        *handle = *given;
    }
    if beside == 0 && !matches!(entry.reply, Reply::Pending) && entry.op == *op {
        return Missed::No;
    }
    Missed::Other(place)
}

fn looking(walk: &mut SeatWalk, wanted: Wanted, timeout: Timeout) -> Missed {
    let Some((entry, place, beside)) = next_of(walk) else {
        return Missed::Nothing;
    };
    let looks = beside.saturating_add(1);
    if ends_look(wanted, timeout, &entry, looks) {
        return Missed::No;
    }
    if !matches!(entry.reply, Reply::Pending) || !wanted.waits() || entry.op != wanted.op(false) {
        return Missed::Other(place);
    }
    looking_on(walk, wanted, timeout, looks)
}

// Behind a look that found nothing, by which the caller waits.
fn looking_on(walk: &mut SeatWalk, wanted: Wanted, timeout: Timeout, before: u64) -> Missed {
    let Some((entry, place, beside)) = next_of(walk) else {
        return Missed::Nothing;
    };
    let looks = before.saturating_add(beside).saturating_add(1);
    if ends_look(wanted, timeout, &entry, looks) {
        return Missed::No;
    }
    Missed::Other(place)
}

/// Whether the entries of a call are there.
#[derive(Clone, Copy, Drop)]
enum Missed {
    /// They are.
    No,
    /// The seat has no entry left.
    Nothing,
    /// The entry at this place is another one.
    Other(usize),
}

fn missed_by(walk: &mut SeatWalk, call: &Call, handle: &mut u64) -> Missed {
    match call {
        Call::Once(op) => once(walk, op, handle),
        Call::Looking(wanted, timeout) => looking(walk, *wanted, *timeout),
    }
}

fn difference_by(
    walk: &SeatWalk,
    missed: Missed,
    what: &str,
    line: Option<u64>,
) -> Result<Option<Difference>, AllocError> {
    let alloc = walk.alloc;
    match missed {
        Missed::No => Ok(None),
        Missed::Nothing => {
            let words = format!(in alloc; "has no entry for {what}")?;
            differs(walk, &words, line, None)
        }
        Missed::Other(place) => {
            let words = format!(in alloc; "has another entry for {what}")?;
            differs(walk, &words, line, number_of(place))
        }
    }
}

fn statements_differ(
    walk: &mut SeatWalk,
    statements: &[Statement],
) -> Result<Option<Difference>, AllocError> {
    let mut bound = Vec::new(walk.alloc);
    for statement in statements {
        let mut handle = 0u64;
        let missed = missed_by(walk, &call_of(&statement.deed, &bound), &mut handle);
        if let Some(found) = difference_by(walk, missed, "this statement", Some(statement.line))? {
            return Ok(Some(found));
        }
        bound.push(handle)?;
    }
    Ok(None)
}

// ---- the parts

fn call_differs(
    walk: &mut SeatWalk,
    op: &Op,
    what: &str,
) -> Result<Option<Difference>, AllocError> {
    let mut handle = 0u64;
    let missed = once(walk, op, &mut handle);
    difference_by(walk, missed, what, None)
}

fn head_differs(walk: &mut SeatWalk, begins: bool) -> Result<Option<Difference>, AllocError> {
    if let Some(found) = call_differs(walk, &Op::Initialize, "the start of the node")? {
        return Ok(Some(found));
    }
    if begins {
        return Ok(None);
    }
    call_differs(walk, &Op::Release, "the release of the callers")
}

fn tail_differs(walk: &mut SeatWalk) -> Result<Option<Difference>, AllocError> {
    if let Some(found) = call_differs(walk, &Op::Close, "the close of the node")? {
        return Ok(Some(found));
    }
    call_differs(walk, &Op::Final, "the end of the node")
}

fn entrance_differs(walk: &mut SeatWalk) -> Result<Option<Difference>, AllocError> {
    match next_of(walk) {
        None => differs(walk, "has no entry for entering", None, None),
        Some((entry, place, _)) => {
            if matches!(entry.op, Op::Enter) && matches!(entry.reply, Reply::Ok) {
                return Ok(None);
            }
            differs(
                walk,
                "begins with an entry that isn't of entering",
                None,
                number_of(place),
            )
        }
    }
}

fn more_than(walk: &mut SeatWalk) -> Result<Option<Difference>, AllocError> {
    match next_of(walk) {
        None => Ok(None),
        Some((_, place, _)) => differs(
            walk,
            "has an entry more than its part",
            None,
            number_of(place),
        ),
    }
}

fn main_differs(walk: &mut SeatWalk, part: &Part) -> Result<Option<Difference>, AllocError> {
    let statements = part.statements.as_slice();
    if let Some(found) = head_differs(walk, has_begin(statements))? {
        return Ok(Some(found));
    }
    if let Some(found) = statements_differ(walk, statements)? {
        return Ok(Some(found));
    }
    if let Some(found) = tail_differs(walk)? {
        return Ok(Some(found));
    }
    more_than(walk)
}

fn caller_differs(walk: &mut SeatWalk, part: &Part) -> Result<Option<Difference>, AllocError> {
    if let Some(found) = entrance_differs(walk)? {
        return Ok(Some(found));
    }
    if let Some(found) = statements_differ(walk, part.statements.as_slice())? {
        return Ok(Some(found));
    }
    more_than(walk)
}

fn parts_differ(
    alloc: Global,
    load: &Workload,
    journal: &Journal,
) -> Result<Option<Difference>, AllocError> {
    let main = journal.settings.workers();
    let mut who = main;
    for part in load.parts.as_slice() {
        let mut walk = SeatWalk {
            alloc,
            journal,
            who,
            seen: 0,
        };
        let found = if who == main {
            main_differs(&mut walk, part)?
        } else {
            caller_differs(&mut walk, part)?
        };
        if found.is_some() {
            return Ok(found);
        }
        who = who.saturating_add(1);
    }
    Ok(None)
}

// ---- workers, settings and the end

fn is_work(entry: &Entry) -> bool {
    match &entry.op {
        Op::Pick => matches!(entry.reply, Reply::Picked { .. } | Reply::Idle),
        Op::Finish { .. } | Op::TallyWrite { .. } => matches!(entry.reply, Reply::Ok),
        Op::Asked { .. } => matches!(entry.reply, Reply::Asked(_)),
        Op::WatchEnd { .. } | Op::TallyEnd { .. } => matches!(entry.reply, Reply::Ended(_)),
        Op::TallyLock { .. } => matches!(entry.reply, Reply::Asked(_) | Reply::Pending),
        Op::TallyRead { .. } => matches!(entry.reply, Reply::Number(_)),
        _ => false,
    }
}

// The entries of a worker: work, and then that it stops. Each round takes one.
fn worker_differs(walk: &mut SeatWalk) -> Result<Option<Difference>, AllocError> {
    for _ in 0..walk.journal.entries.len() {
        let Some((entry, place, _)) = next_of(walk) else {
            return differs(walk, "has no entry that it stops", None, None);
        };
        if matches!(entry.op, Op::Pick) && matches!(entry.reply, Reply::Stop) {
            return more_than(walk);
        }
        if !is_work(&entry) {
            return differs(walk, "has an entry that is no work", None, number_of(place));
        }
    }
    differs(walk, "has no entry that it stops", None, None)
}

fn workers_differ(alloc: Global, journal: &Journal) -> Result<Option<Difference>, AllocError> {
    for who in 0..journal.settings.workers() {
        let mut walk = SeatWalk {
            alloc,
            journal,
            who,
            seen: 0,
        };
        let found = worker_differs(&mut walk)?;
        if found.is_some() {
            return Ok(found);
        }
    }
    Ok(None)
}

// The first setting in which two nodes differ, with both values.
fn setting_that_differs(load: &NodeAttr, journal: &NodeAttr) -> Option<(&'static str, u32, u32)> {
    let all = [
        ("workers", load.workers(), journal.workers()),
        ("tasks", load.tasks(), journal.tasks()),
        ("actions", load.actions(), journal.actions()),
        ("groups", load.groups(), journal.groups()),
        ("queues", load.queues(), journal.queues()),
        ("objects", load.objects(), journal.objects()),
        ("priorities", load.priorities(), journal.priorities()),
        ("generations", load.generations(), journal.generations()),
    ];
    for one in all {
        if one.1 != one.2 {
            return Some(one);
        }
    }
    None
}

fn node_differs(
    alloc: Global,
    load: &Workload,
    journal: &Journal,
) -> Result<Option<Difference>, AllocError> {
    let parts = load.parts.as_slice().len();
    let callers = journal.callers;
    let words = match setting_that_differs(&load.settings, &journal.settings) {
        Some((name, wanted, given)) => {
            format!(in alloc; "the workload has {name}={wanted}, and the journal {name}={given}")?
        }
        None if parts == callers as usize => return Ok(None),
        None => format!(in alloc;
            "the workload has callers={parts}, and the journal callers={callers}"
        )?,
    };
    Ok(Some(Difference {
        words,
        line: None,
        entry: Some(0),
    }))
}

// The last entry is main's, that the node ends; and no further caller has one behind main's close.
fn end_differs(alloc: Global, journal: &Journal) -> Result<Option<Difference>, AllocError> {
    let main = journal.settings.workers();
    let mut closed = false;
    let mut number = 0u64;
    for short in journal.entries.shorts() {
        let entry = short.full();
        number = number.saturating_add(1);
        if closed && entry.who > main {
            return Ok(Some(Difference {
                words: format!(in alloc;
                    "a further caller has an entry behind the close of the node"
                )?,
                line: None,
                entry: Some(number),
            }));
        }
        closed = closed || matches!(entry.op, Op::Close) && matches!(entry.reply, Reply::Ok);
    }
    Ok(Some(Difference {
        words: format!(in alloc; "the last entry isn't the end of the node")?,
        line: None,
        entry: Some(number),
    }))
}

/// What differs first; asked of a legal journal that is no run of the workload.
pub(crate) fn difference_of(
    alloc: Global,
    load: &Workload,
    journal: &Journal,
) -> Result<Option<Difference>, AllocError> {
    if let Some(found) = node_differs(alloc, load, journal)? {
        return Ok(Some(found));
    }
    if let Some(found) = parts_differ(alloc, load, journal)? {
        return Ok(Some(found));
    }
    if let Some(found) = workers_differ(alloc, journal)? {
        return Ok(Some(found));
    }
    end_differs(alloc, journal)
}
