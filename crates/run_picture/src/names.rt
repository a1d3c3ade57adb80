//! Which statement of a workload made an entry, and the names that statements bind.

use crate::lists::{at, put};
use journal_reading::OwnNames;
use mtapi_machine::{Entry, Op, Reply};
use std::alloc::{AllocError, Global};
use workload_file::{Part, Statement, Workload};
use workload_runs::{Call, call_of};

/// How far a caller has come in its part of the workload.
#[derive(Drop)]
struct PartProgress {
    /// The place of the statement whose call is next.
    next: usize,
    /// The handle that each statement before bound, 0 where it bound none.
    bound: Vec<u64>,
}

/// The workload of a run, and which of its statements made which entry.
#[derive(Drop)]
pub struct Names<'a> {
    /// The workload, if it is known.
    pub load: Option<&'a Workload>,
    /// Names that somebody gave to objects, which count before those of the workload.
    pub own: &'a OwnNames,
    /// The number of workers, whose seats come before those of the callers.
    pub workers: u32,
    /// For each entry the place, in its caller's part, of the statement that made it.
    pub statements: Vec<Option<usize>>,
}

/// Whether an op is of this call.
fn is_of_call(call: &Call, op: &Op) -> bool {
    match call {
        Call::Once(asked) => op == asked,
        Call::Looking(wanted, _) => *op == wanted.op(false) || *op == wanted.op(true),
    }
}

/// Goes on behind a statement that was answered.
fn go_on(progress: &mut PartProgress, reply: &Reply) -> Result<(), AllocError> {
    match reply {
        Reply::Pending => {}
        Reply::Handle(handle) => {
            progress.bound.push(*handle)?;
            progress.next = progress.next.saturating_add(1);
        }
        _ => {
            progress.bound.push(0)?;
            progress.next = progress.next.saturating_add(1);
        }
    }
    Ok(())
}

/// The place of the statement that made an entry, if it is the next one.
fn place_made(
    progress: &mut PartProgress,
    part: &Part,
    entry: &Entry,
) -> Result<Option<usize>, AllocError> {
    let place = progress.next;
    match part.statements.as_slice().get(place) {
        Some(statement) => {
            if is_of_call(&call_of(&statement.deed, &progress.bound), &entry.op) {
                go_on(progress, &entry.reply)?;
                return Ok(Some(place));
            }
            Ok(None)
        }
        None => Ok(None),
    }
}

/// For each entry of this seat the place of the statement that made it.
fn note_part(
    alloc: Global,
    statements: &mut Vec<Option<usize>>,
    who: u32,
    part: &Part,
    entries: &[Entry],
) -> Result<(), AllocError> {
    let mut progress = PartProgress {
        next: 0,
        bound: Vec::new(alloc),
    };
    for (place, entry) in entries.iter().enumerate() {
        if entry.who == who {
            let made = place_made(&mut progress, part, entry)?;
            put(statements, place, made);
        }
    }
    Ok(())
}

/// What is known of the names in a run: each entry's statement is the next of its caller, as far as the calls are the same.
pub fn names_of<'a>(
    alloc: Global,
    load: Option<&'a Workload>,
    own: &'a OwnNames,
    workers: u32,
    entries: &[Entry],
) -> Result<Names<'a>, AllocError> {
    let mut statements = vec![in alloc; None; entries.len()]?;
    let mut who = workers;
    if let Some(load) = load {
        for part in load.parts.as_slice() {
            note_part(alloc, &mut statements, who, part, entries)?;
            who = who.saturating_add(1);
        }
    }
    Ok(Names {
        load,
        own,
        workers,
        statements,
    })
}

/// The part of a caller.
fn part_of<'a>(names: &Names<'a>, who: u32) -> Option<&'a Part> {
    match (names.load, who.checked_sub(names.workers)) {
        (Some(load), Some(caller)) => load.parts.as_slice().get(caller as usize),
        _ => None,
    }
}

/// The statement that made the entry at this place, which a seat made.
pub fn statement_of<'a>(names: &Names<'a>, who: u32, place: usize) -> Option<&'a Statement> {
    match (part_of(names, who), at(&names.statements, place)) {
        (Some(part), Some(Some(made))) => part.statements.as_slice().get(made),
        _ => None,
    }
}

fn text_of(bytes: &[u8]) -> &str {
    match str::from_utf8(bytes) {
        Ok(text) => text,
        Err(_) => "",
    }
}

/// The name of a seat: `w` and the worker's number, or the caller's name, and else `c` and its number.
pub fn seat_name(alloc: Global, names: &Names, seat: u32) -> Result<String, AllocError> {
    match (part_of(names, seat), seat.checked_sub(names.workers)) {
        (Some(part), _) => {
            let name = text_of(part.name.as_slice());
            format!(in alloc; "{name}")
        }
        (None, Some(caller)) => format!(in alloc; "c{caller}"),
        (None, None) => format!(in alloc; "w{seat}"),
    }
}

/// The name that the statement binds which made the entry at this place, behind the name of its caller if that isn't main. It is empty
/// where none is known.
pub fn name_bound(
    alloc: Global,
    names: &Names,
    who: u32,
    place: usize,
) -> Result<String, AllocError> {
    let Some(statement) = statement_of(names, who, place) else {
        return Ok(String::new(alloc));
    };
    let Some(bound) = &statement.name else {
        return Ok(String::new(alloc));
    };
    let name = text_of(bound.as_slice());
    if who == names.workers {
        format!(in alloc; "{name}")
    } else {
        let caller = seat_name(alloc, names, who)?;
        format!(in alloc; "{caller}.{name}")
    }
}
