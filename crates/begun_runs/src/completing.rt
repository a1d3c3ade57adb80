//! Entries that would make a run of what has begun. Nothing is claimed of them: `is_begun` asks whether they do.

use mtapi_machine::{Entry, Op, Reply};
use mtapi_values::Timeout;
use node_journals::EntryList;
use std::alloc::{AllocError, Global};
use workload_file::{Deed, Part, Workload};
use workload_runs::{Call, call_of, has_begin};

/// An entry, and the number beside it.
#[derive(Drop)]
pub(crate) struct Added {
    pub(crate) entry: Entry,
    pub(crate) skipped: u64,
}

/// How far a seat has come.
#[derive(Drop)]
struct Progress {
    who: u32,
    /// How many of its calls came to a reply.
    decided: usize,
    /// The handle of each of these replies, 0 where it is none.
    handles: Vec<u64>,
    /// How many looks its call has made that goes on.
    looks: u64,
}

impl Progress {
    /// Follows one entry of the seat.
    fn follow(&mut self, entry: &Entry, skipped: u64) -> Result<(), AllocError> {
        let handle = match &entry.reply {
            Reply::Pending => {
                self.looks = skipped.saturating_add(1);
                return Ok(());
            }
            Reply::Handle(handle) => *handle,
            _ => 0,
        };
        self.looks = 0;
        self.decided = self.decided.saturating_add(1);
        self.handles.push(handle)?;
        Ok(())
    }
}

/// How far a seat has come in these entries.
fn progress_of(alloc: Global, list: &EntryList, who: u32) -> Result<Progress, AllocError> {
    let mut progress = Progress {
        who,
        decided: 0,
        handles: Vec::new(alloc),
        looks: 0,
    };
    for (entry, skipped) in list.as_slice().iter().zip(list.skipped().iter()) {
        if entry.who == who {
            progress.follow(entry, *skipped)?;
        }
    }
    Ok(progress)
}

/// Adds an entry that is answered.
fn add(
    rest: &mut Vec<Added>,
    who: u32,
    op: Op,
    reply: Reply,
    skipped: u64,
) -> Result<(), AllocError> {
    rest.push(Added {
        entry: Entry { who, op, reply },
        skipped,
    })?;
    Ok(())
}

/// Whether the look behind so many is the last one.
fn is_last(timeout: Timeout, looks: u64) -> bool {
    timeout.looks() == Some(looks.saturating_add(1))
}

/// Adds the entry by which a statement's call comes to a reply.
fn add_statement(
    rest: &mut Vec<Added>,
    progress: &Progress,
    bound: &[u64],
    looks: u64,
    deed: &Deed,
) -> Result<(), AllocError> {
    match call_of(deed, bound) {
        Call::Once(op) => add(rest, progress.who, op, Reply::Ok, 0),
        Call::Looking(wanted, timeout) => {
            let op = wanted.op(is_last(timeout, looks));
            add(rest, progress.who, op, Reply::Ok, 0)
        }
    }
}

/// Adds what a seat lacks of its part, where it makes so many calls before those of its statements.
fn add_part(
    alloc: Global,
    rest: &mut Vec<Added>,
    progress: &Progress,
    before: usize,
    part: &Part,
) -> Result<(), AllocError> {
    let mut bound = Vec::new(alloc);
    for handle in progress.handles.iter().skip(before) {
        bound.push(*handle)?;
    }
    let made = bound.len();
    let mut looks = progress.looks;
    for statement in part.statements.as_slice().iter().skip(made) {
        add_statement(rest, progress, &bound, looks, &statement.deed)?;
        looks = 0;
        bound.push(0)?;
    }
    Ok(())
}

/// Adds what the further callers lack.
fn add_callers(
    alloc: Global,
    rest: &mut Vec<Added>,
    list: &EntryList,
    main: u32,
    parts: &[Part],
) -> Result<(), AllocError> {
    let mut who = main;
    for part in parts {
        who = who.saturating_add(1);
        let progress = progress_of(alloc, list, who)?;
        if progress.decided == 0 {
            add(rest, who, Op::Enter, Reply::Ok, 0)?;
        }
        add_part(alloc, rest, &progress, 1, part)?;
    }
    Ok(())
}

/// Adds what main lacks before it finalizes.
fn add_main(
    alloc: Global,
    rest: &mut Vec<Added>,
    list: &EntryList,
    main: u32,
    part: &Part,
) -> Result<(), AllocError> {
    let progress = progress_of(alloc, list, main)?;
    let statements = part.statements.as_slice();
    let before = if has_begin(statements) {
        1usize
    } else {
        2usize
    };
    if progress.decided == 0 {
        add(rest, main, Op::Initialize, Reply::Ok, 0)?;
    }
    if before == 2 && progress.decided < 2 {
        add(rest, main, Op::Release, Reply::Ok, 0)?;
    }
    add_part(alloc, rest, &progress, before, part)?;
    if progress.decided <= before.saturating_add(statements.len()) {
        add(rest, main, Op::Close, Reply::Ok, 0)?;
    }
    Ok(())
}

/// Whether a worker was told to stop.
fn has_stopped(list: &EntryList, who: u32) -> bool {
    for entry in list.as_slice() {
        if entry.who == who && entry.reply == Reply::Stop {
            return true;
        }
    }
    false
}

/// Adds that the workers are told to stop.
fn add_stops(rest: &mut Vec<Added>, list: &EntryList, workers: u32) -> Result<(), AllocError> {
    for who in 0..workers {
        if !has_stopped(list, who) {
            add(rest, who, Op::Pick, Reply::Stop, 0)?;
        }
    }
    Ok(())
}

/// What would make a run of these entries, if anything does.
pub(crate) fn completion_of(
    alloc: Global,
    load: &Workload,
    list: &EntryList,
) -> Result<Vec<Added>, AllocError> {
    let mut rest = Vec::new(alloc);
    let main = load.settings.workers();
    let [first, others @ ..] = load.parts.as_slice() else {
        return Ok(rest);
    };
    add_callers(alloc, &mut rest, list, main, others)?;
    add_main(alloc, &mut rest, list, main, first)?;
    add_stops(&mut rest, list, main)?;
    add(&mut rest, main, Op::Final, Reply::Ok, 0)?;
    Ok(rest)
}
