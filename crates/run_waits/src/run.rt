//! A run with the statements of its workload that made its entries.

use mtapi_machine::{Entry, Op, Reply};
use node_journals::EntryList;
use std::alloc::{AllocError, Global};
use workload_file::{Deed, Part, Statement, Workload};

/// A run, and what of its workload is told.
#[derive(Drop)]
pub struct BoundedRun<'a> {
    /// The lines of the workload, without their ends.
    pub lines: Vec<&'a str>,
    pub load: &'a Workload,
    /// The number of workers, whose seats come before those of the callers.
    pub workers: u32,
    pub entries: &'a [Entry],
    /// For each entry the number of looks of its seat that were left out before.
    pub skipped: &'a [u64],
    /// For each entry the statement that made it.
    pub statements: Vec<Option<&'a Statement>>,
    /// For each entry the place of the next one of its seat.
    pub next: Vec<Option<usize>>,
}

/// Whether a caller's op is the call of a statement: `begin` isn't counted among these.
fn is_call(op: &Op) -> bool {
    !matches!(
        op,
        Op::Initialize | Op::Release | Op::Enter | Op::Close | Op::Final
    )
}

/// The place of a caller's next call, which is this one or stands behind a `begin`.
fn behind_begin(part: &Part, place: usize) -> usize {
    match part.statements.as_slice().get(place) {
        Some(statement) if matches!(statement.deed, Deed::Begin) => place.saturating_add(1),
        _ => place,
    }
}

/// Notes for each entry of a seat the statement of its part that made it: they are its calls in order, each until its answer.
fn note_part<'a>(
    statements: &mut Vec<Option<&'a Statement>>,
    who: u32,
    part: &'a Part,
    entries: &[Entry],
) {
    let mut place = 0usize;
    for (number, entry) in entries.iter().enumerate() {
        if entry.who == who && is_call(&entry.op) {
            place = behind_begin(part, place);
            let made = part.statements.as_slice().get(place);
            if number < statements.len() {
                statements[number] = made;
            }
            if !matches!(entry.reply, Reply::Pending) {
                place = place.saturating_add(1);
            }
        }
    }
}

/// For each entry the statement that made it.
fn statements_of<'a>(
    alloc: Global,
    load: &'a Workload,
    workers: u32,
    entries: &[Entry],
) -> Result<Vec<Option<&'a Statement>>, AllocError> {
    let mut statements = vec![in alloc; None; entries.len()]?;
    let mut who = workers;
    for part in load.parts.as_slice() {
        note_part(&mut statements, who, part, entries);
        who = who.saturating_add(1);
    }
    Ok(statements)
}

/// For each entry the place of the next one of its seat, of so many seats.
fn next_places(
    alloc: Global,
    seats: usize,
    entries: &[Entry],
) -> Result<Vec<Option<usize>>, AllocError> {
    let mut next = vec![in alloc; None; entries.len()]?;
    let mut latest: Vec<Option<usize>> = vec![in alloc; None; seats]?;
    for (place, entry) in entries.iter().enumerate() {
        let who = entry.who as usize;
        if who < latest.len() {
            if let Some(before) = latest[who]
                && before < next.len()
            {
                next[before] = Some(place);
            }
            latest[who] = Some(place);
        }
    }
    Ok(next)
}

/// A run of this workload, whose text this is, with so many workers.
pub fn run_of<'a>(
    alloc: Global,
    text: &'a str,
    load: &'a Workload,
    workers: u32,
    kept: &'a EntryList,
) -> Result<BoundedRun<'a>, AllocError> {
    let entries = kept.as_slice();
    let mut lines = Vec::new(alloc);
    for line in text.lines() {
        lines.push(line)?;
    }
    let seats = (workers as usize).saturating_add(load.parts.as_slice().len());
    Ok(BoundedRun {
        lines,
        load,
        workers,
        entries,
        skipped: kept.skipped(),
        statements: statements_of(alloc, load, workers, entries)?,
        next: next_places(alloc, seats, entries)?,
    })
}

impl<'a> BoundedRun<'a> {
    /// The number of seats: the workers, and behind them the callers.
    pub fn seats(&self) -> usize {
        (self.workers as usize).saturating_add(self.load.parts.as_slice().len())
    }

    /// The part of a caller.
    pub fn part_of(&self, seat: u32) -> Option<&'a Part> {
        let caller = seat.checked_sub(self.workers)?;
        self.load.parts.as_slice().get(caller as usize)
    }

    /// The statement that made the entry at this place.
    pub fn statement_at(&self, place: usize) -> Option<&'a Statement> {
        match self.statements.get(place) {
            Some(Some(statement)) => Some(*statement),
            _ => None,
        }
    }

    /// The text of a line, counted from 1.
    pub fn line_text(&self, line: u64) -> &'a str {
        match line.checked_sub(1) {
            Some(above) if above < self.lines.len() as u64 => self.lines[above as usize],
            _ => "",
        }
    }
}
