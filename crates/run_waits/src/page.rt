//! What is told of the waits that ran out.

use crate::looks::{Looks, is_endless, waits_for_tasks};
use crate::progress::{HeldAs, Progress, progress_of};
use crate::run::BoundedRun;
use mtapi_machine::{Entry, Op, Reply};
use mtapi_values::{MrapiStatus, MtapiStatus};
use std::alloc::{AllocError, Global};
use std::str::from_utf8;
use workload_file::{Deed, Part, Statement};

/// What is told of a wait that ran out.
#[derive(Drop)]
struct ToldWait {
    /// Whose wait it was.
    seat: u32,
    text: String,
}

/// The word of a statement that waits, what it waits for, and the place of the statement that bound that.
#[derive(Clone, Copy, Drop)]
struct Wait {
    word: &'static str,
    object: &'static str,
    place: u32,
}

fn wait_of(deed: &Deed) -> Option<Wait> {
    let (word, object, place) = match deed {
        Deed::Wait { place, .. } => ("wait", "the end of the task", *place),
        Deed::WaitAll { place, .. } => ("wait_all", "the ends of all tasks of the group", *place),
        Deed::WaitAny { place, .. } => {
            ("wait_any", "the end of one more task of the group", *place)
        }
        Deed::Lock { place, .. } => ("lock", "the mutex", *place),
        Deed::SemLock { place, .. } => ("sem_lock", "a free place of the semaphore", *place),
        Deed::RwlLock { place, .. } => ("rwl_lock", "the reader-writer lock", *place),
        _ => return None,
    };
    Some(Wait {
        word,
        object,
        place,
    })
}

/// Whether an entry says that its wait ran out.
fn runs_out(reply: &Reply) -> bool {
    match reply {
        Reply::Mtapi(status) => *status == MtapiStatus::Timeout,
        Reply::Mrapi(status) => *status == MrapiStatus::Timeout,
        _ => false,
    }
}

/// The name of a seat.
fn seat_name(alloc: Global, run: &BoundedRun, seat: u32) -> Result<String, AllocError> {
    match run.part_of(seat) {
        Some(part) => String::from_str(alloc, from_utf8(part.name.as_slice()).unwrap_or("")),
        None => format!(in alloc; "worker {seat}"),
    }
}

/// The name that a statement binds, its line and the text of that.
fn bound_text(alloc: Global, run: &BoundedRun, made: &Statement) -> Result<String, AllocError> {
    let name = match &made.name {
        Some(name) => from_utf8(name.as_slice()).unwrap_or(""),
        None => "",
    };
    let line = made.line;
    let text = run.line_text(line);
    format!(in alloc; "{name} of line {line} ({text})")
}

/// What a statement of a part waits for.
fn object_waited_for(
    alloc: Global,
    run: &BoundedRun,
    part: &Part,
    statement: &Statement,
) -> Result<String, AllocError> {
    let Some(wait) = wait_of(&statement.deed) else {
        return Ok(String::new(alloc));
    };
    let object = wait.object;
    match part.statements.as_slice().get(wait.place as usize) {
        Some(made) => {
            let bound = bound_text(alloc, run, made)?;
            format!(in alloc; "{object} {bound}")
        }
        None => String::from_str(alloc, object),
    }
}

/// What the look of a seat waits for.
fn awaited(alloc: Global, looks: &Looks, look: &Entry, place: usize) -> Result<String, AllocError> {
    let run = looks.run;
    if let Some(mutex) = looks.mutex_looked_for(look) {
        return match run.statement_at(mutex.made) {
            Some(made) => {
                let bound = bound_text(alloc, run, made)?;
                format!(in alloc; "the mutex {bound}")
            }
            None => String::from_str(alloc, "a mutex"),
        };
    }
    match (run.part_of(look.who), run.statement_at(place)) {
        (Some(part), Some(statement)) => object_waited_for(alloc, run, part, statement),
        _ => String::from_str(alloc, "something"),
    }
}

/// What is said of how an object is held.
fn held_words(held_as: HeldAs) -> &'static str {
    match held_as {
        HeldAs::Caller => "",
        HeldAs::Reader => " as reader",
        HeldAs::Writer => " as writer",
        HeldAs::Tally => " for a tally",
    }
}

/// From which line on something is held, where a statement took it.
fn since_words(alloc: Global, run: &BoundedRun, since: usize) -> Result<String, AllocError> {
    match run.statement_at(since) {
        Some(statement) => {
            let line = statement.line;
            let text = run.line_text(line);
            format!(in alloc; " since line {line} ({text})")
        }
        None => Ok(String::new(alloc)),
    }
}

/// Adds those who hold what a look waits for.
fn push_holders(
    alloc: Global,
    told: &mut String,
    looks: &Looks,
    look: &Entry,
) -> Result<(), AllocError> {
    let Some(object) = looks.object_of(look) else {
        return Ok(());
    };
    let mut is_first = true;
    for holder in looks.progress.holders() {
        if holder.object == object {
            let seat = seat_name(alloc, looks.run, holder.seat)?;
            let how = held_words(holder.held_as);
            let since = since_words(alloc, looks.run, holder.since)?;
            let between = if is_first { "; " } else { ", and " };
            is_first = false;
            let text = format!(in alloc; "{between}{seat} has held it{how}{since}")?;
            told.push_str(text.as_str())?;
        }
    }
    Ok(())
}

/// The one of those that a seat needs for which it is told what that waits for: one that is stuck, or any that waits if the seat isn't.
fn next_told(looks: &Looks, needed: &[u32], stuck: bool) -> Option<u32> {
    for seat in needed {
        if looks.entry_of(*seat).is_some() && (looks.is_stuck(*seat) || !stuck) {
            return Some(*seat);
        }
    }
    None
}

/// Adds what a seat that holds or runs something waits for itself.
fn push_link(
    alloc: Global,
    told: &mut String,
    looks: &Looks,
    before: &Entry,
    seat: u32,
) -> Result<(), AllocError> {
    let name = seat_name(alloc, looks.run, seat)?;
    let runs = if waits_for_tasks(&before.op) {
        " runs it and waits for "
    } else {
        " waits for "
    };
    let object = match (looks.looks.get(seat as usize), looks.entry_of(seat)) {
        (Some(Some(place)), Some(look)) => awaited(alloc, looks, look, *place)?,
        _ => String::new(alloc),
    };
    let text = format!(in alloc; "; {name}{runs}{object}")?;
    told.push_str(text.as_str())
}

/// Adds who holds or runs what a seat waits for. Gives the one of them whose own wait is told next.
fn push_step(
    alloc: Global,
    told: &mut String,
    looks: &Looks,
    seat: u32,
    seen: &[bool],
) -> Result<Option<u32>, AllocError> {
    let Some(look) = looks.entry_of(seat) else {
        return Ok(None);
    };
    push_holders(alloc, told, looks, look)?;
    let needed = looks.needed_by(alloc, look)?;
    match next_told(looks, needed.seats.as_slice(), looks.is_stuck(seat)) {
        Some(next) => {
            if seen.get(next as usize) != Some(&false) {
                return Ok(None);
            }
            push_link(alloc, told, looks, look, next)?;
            Ok(Some(next))
        }
        None => {
            if let (Op::TaskLook { .. }, Some(runner)) = (&look.op, needed.seats.first()) {
                let name = seat_name(alloc, looks.run, *runner)?;
                let text = format!(in alloc; "; {name} runs it")?;
                told.push_str(text.as_str())?;
            }
            Ok(None)
        }
    }
}

/// What the wait waits for that an entry of this seat ends, who holds that, for what those wait, and so on.
fn chain_of(
    alloc: Global,
    looks: &Looks,
    place: usize,
    entry: &Entry,
) -> Result<String, AllocError> {
    let first = entry.who;
    let object = awaited(alloc, looks, entry, place)?;
    let mut told = format!(in alloc; "it waits for {object}")?;
    let mut seen = vec![in alloc; false; looks.stuck.len()]?;
    let mut seat = first;
    for _ in 0..looks.stuck.len() {
        if (seat as usize) < seen.len() {
            seen[seat as usize] = true;
        }
        match push_step(alloc, &mut told, looks, seat, seen.as_slice())? {
            Some(next) => seat = next,
            None => break,
        }
    }
    if looks.is_stuck(first) {
        told.push_str(": deadlock")?;
    }
    Ok(told)
}

/// What is told of the entry at this place, if it says that a wait without end ran out.
fn told_at(
    alloc: Global,
    run: &BoundedRun,
    progress: &Progress,
    place: usize,
    entry: &Entry,
    count: u64,
) -> Result<Option<ToldWait>, AllocError> {
    let Some(statement) = run.statement_at(place) else {
        return Ok(None);
    };
    if !runs_out(&entry.reply) || !is_endless(&statement.deed) {
        return Ok(None);
    }
    let Some(wait) = wait_of(&statement.deed) else {
        return Ok(None);
    };
    let looks = Looks::new(alloc, run, progress, place)?;
    let line = statement.line;
    let word = wait.word;
    let seat = seat_name(alloc, run, entry.who)?;
    let chain = chain_of(alloc, &looks, place, entry)?;
    Ok(Some(ToldWait {
        seat: entry.who,
        text: format!(in alloc;
            "mtapi: line {line}: {word} of {seat} ran out of its {count} looks; {chain}\n"
        )?,
    }))
}

/// Follows a run. Gives what is told of its waits that ran out, in the order of its entries.
fn told_waits(alloc: Global, run: &BoundedRun, count: u64) -> Result<Vec<ToldWait>, AllocError> {
    let mut progress = progress_of(alloc, run)?;
    let mut told = Vec::new(alloc);
    for (place, entry) in run.entries.iter().enumerate() {
        if let Some(wait) = told_at(alloc, run, &progress, place, entry, count)? {
            told.push(wait)?;
        }
        progress.note(place, entry)?;
    }
    Ok(told)
}

/// A line for each wait of a run that ran out though its statement has no end, caller by caller.
pub fn waits_of(alloc: Global, run: &BoundedRun, count: u64) -> Result<String, AllocError> {
    let told = told_waits(alloc, run, count)?;
    let mut text = String::new(alloc);
    for seat in 0..run.seats() {
        for wait in told.as_slice() {
            if wait.seat as usize == seat {
                text.push_str(wait.text.as_str())?;
            }
        }
    }
    Ok(text)
}
