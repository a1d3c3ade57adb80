//! Entries that show a deadlock, if a history is one. Nothing is claimed of them: `halts` asks whether no seat goes on if the machine allows
//! them.

use crate::halting::{Probes, calls_ahead, handles_of, wanted_next};
use mtapi_machine::{Entry, Op, Reply};
use mtapi_values::{MtapiStatus, TaskHandle};
use node_journals::ShortList;
use std::alloc::{AllocError, Global};
use workload_file::{Statement, Workload};
use workload_runs::Wanted;

/// The task that a worker runs behind these entries.
fn task_of(entries: &[Entry], who: u32) -> Option<TaskHandle> {
    let mut runs = None;
    for entry in entries {
        if entry.who == who {
            runs = match (&entry.op, &entry.reply) {
                (Op::Pick, Reply::Picked { task, .. }) => Some(*task),
                (Op::Finish { .. }, Reply::Ok) => None,
                (Op::WatchEnd { .. } | Op::TallyEnd { .. }, Reply::Ended(_)) => None,
                _ => runs,
            };
        }
    }
    runs
}

/// The look of a worker.
fn add_worker(probes: &mut Probes, entries: &[Entry], who: u32) -> Result<(), AllocError> {
    let (op, reply) = match task_of(entries, who) {
        Some(task) => (Op::TallyLock { task }, Reply::Pending),
        None => (Op::Pick, Reply::Idle),
    };
    probes.looks.push(Entry { who, op, reply })?;
    Ok(())
}

/// A look of a caller, and where it waits for a task, the first worker's.
fn add_look(probes: &mut Probes, who: u32, wanted: Wanted) -> Result<(), AllocError> {
    if wanted.waits() {
        probes.refused.push(Entry {
            who: 0,
            op: wanted.op(false),
            reply: Reply::Mtapi(MtapiStatus::ErrWaitPending),
        })?;
    }
    probes.looks.push(Entry {
        who,
        op: wanted.op(false),
        reply: Reply::Pending,
    })?;
    Ok(())
}

/// What a caller makes next, that made so many calls before those of its statements.
fn add_caller(
    alloc: Global,
    probes: &mut Probes,
    entries: &[Entry],
    who: u32,
    before: usize,
    statements: &[Statement],
) -> Result<(), AllocError> {
    let handles = handles_of(alloc, who, entries)?;
    if let Some(wanted) = wanted_next(before, statements, &handles) {
        return add_look(probes, who, wanted);
    }
    if handles.is_empty() {
        return add_look(probes, who, Wanted::Entrance);
    }
    Ok(())
}

/// Main's last step, where it comes next.
fn add_final(
    alloc: Global,
    probes: &mut Probes,
    entries: &[Entry],
    main: u32,
    statements: &[Statement],
) -> Result<(), AllocError> {
    let handles = handles_of(alloc, main, entries)?;
    let all = calls_ahead(statements).saturating_add(statements.len());
    if handles.len() > all {
        probes.refused.push(Entry {
            who: main,
            op: Op::Final,
            reply: Reply::Mtapi(MtapiStatus::ErrNodeInitialized),
        })?;
    }
    Ok(())
}

/// The looks that would show a deadlock behind these entries. It fails for want of memory alone.
pub fn probes_of(alloc: Global, load: &Workload, entries: &[Entry]) -> Result<Probes, AllocError> {
    let mut probes = Probes {
        looks: Vec::new(alloc),
        refused: Vec::new(alloc),
    };
    let main = load.settings.workers();
    for who in 0..main {
        add_worker(&mut probes, entries, who)?;
    }
    let [first, others @ ..] = load.parts.as_slice() else {
        return Ok(probes);
    };
    let statements = first.statements.as_slice();
    let ahead = calls_ahead(statements);
    add_caller(alloc, &mut probes, entries, main, ahead, statements)?;
    add_final(alloc, &mut probes, entries, main, statements)?;
    let mut who = main;
    for part in others {
        who = who.saturating_add(1);
        let statements = part.statements.as_slice();
        add_caller(alloc, &mut probes, entries, who, 1, statements)?;
    }
    Ok(probes)
}

/// Whether the last entry of a seat is a look that found nothing.
fn has_looked(entries: &[Entry], who: u32) -> bool {
    let mut looked = false;
    for entry in entries {
        if entry.who == who {
            looked = entry.reply == Reply::Pending;
        }
    }
    looked
}

/// Adds the first look of a caller that waits for a task, unless it is there.
fn add_wait(
    alloc: Global,
    list: &mut ShortList,
    who: u32,
    before: usize,
    statements: &[Statement],
) -> Result<(), AllocError> {
    let full = list.in_full(alloc)?;
    let handles = handles_of(alloc, who, full.as_slice())?;
    if let Some(wanted) = wanted_next(before, statements, &handles) {
        if wanted.waits() && !has_looked(full.as_slice(), who) {
            let op = wanted.op(false);
            let reply = Reply::Pending;
            list.push(Entry { who, op, reply }, 0)?;
        }
    }
    Ok(())
}

/// Adds the first look of each caller that waits for a task without a bound: by it the caller stands as waiter, so that a journal has it.
/// It fails for want of memory alone.
pub fn add_waits(alloc: Global, load: &Workload, list: &mut ShortList) -> Result<(), AllocError> {
    let mut who = load.settings.workers();
    let mut before = match load.parts.as_slice().first() {
        Some(part) => calls_ahead(part.statements.as_slice()),
        None => 1,
    };
    for part in load.parts.as_slice() {
        add_wait(alloc, list, who, before, part.statements.as_slice())?;
        who = who.saturating_add(1);
        before = 1;
    }
    Ok(())
}
