//! How each task ended, by the entries of a journal.
ghost use Rattle.std.specs.Prelude.{◌≡◌, ◌≤◌, ℕ, IsTrue, IfOk, OnOk, Some, None, true, map, nat_eq};
ghost use Rattle.node_journals.specs.Shorts.{entry_of};
ghost use Rattle.std.specs.HashMap.{get};
ghost use Rattle.mtapi_machine.specs.WorkRows.{task_end};
ghost use Rattle.run_report.specs.Changes.{effect_of};
ghost use Rattle.run_report.specs.Seen.{nothing_seen, put_at, seen_from};
ghost use Rattle.run_report.specs.Ends.{names_each_end, with_named_end, AreEnds};

use crate::changes::{EndEffect, change_of};
use crate::short_ends::ShortEnd;
use crate::standings::{Standings, standings_of};
use action_fn::Finished;
use mtapi_machine::{Entry, Op, Reply};
use node_journals::{FewFinished, ShortEntry, ShortList};
use std::alloc::{AllocError, Global};
use std::collections::HashMap;

// Whether the change ends no task but one that it names, where no queue is disabled.
fn names_each_end(change: &EndEffect) -> bool
    ensures { result ≡ names_each_end change.now }
{
    match change {
        EndEffect::CancelsTask(_) | EndEffect::DisablesQueue(_) | EndEffect::DeletesQueue(_) =>
            false,
        EndEffect::DisablesAction(_) | EndEffect::DeletesAction(_) => false,
        EndEffect::MakesQueue(_, queue) => queue.enabled,
        _ => true,
    }
}

fn note_named_end(
    alloc: Global,
    ended: &mut HashMap<u64, ShortEnd>,
    change: EndEffect,
) -> Result<(), AllocError>
    ensures { OnOk result ((h : ℕ) → get nat_eq ended.new h ≡ with_named_end change (get nat_eq ended.old) h) }
{
    if let EndEffect::EndsTask(handle, end) = change {
        ended.insert(handle, ShortEnd::new(alloc, end)?)?;
    }
    Ok(())
}

// Notes how a task ended whose action answered.
fn note_finish(
    alloc: Global,
    ended: &mut HashMap<u64, ShortEnd>,
    task: u64,
    done: &Finished,
) -> Result<(), AllocError>
    ensures { OnOk result ((h : ℕ)
        → get nat_eq ended.new h ≡ put_at task (Some (task_end done.now.end)) (get nat_eq ended.old) h) }
{
    ended.insert(task, ShortEnd::answered(alloc, done.end())?)?;
    Ok(())
}

// Notes the end that an entry names, if it names one. Whether the entry ends no other task. The three entries of a task that ran are looked
// at first: of these the last alone names an end.
#[tactic(auto, unfolding(crate::specs::Changes::effect_of, crate::specs::Ends::names_each_end, crate::specs::Ends::with_named_end))]
fn note_entry(
    alloc: Global,
    ended: &mut HashMap<u64, ShortEnd>,
    entry: &Entry,
) -> Result<bool, AllocError>
    ensures one { IfOk result (λ one. IsTrue one
        → names_each_end (effect_of entry.now.op entry.now.reply) ≡ true) }
    ensures noted { IfOk result (λ one. IsTrue one
        → (h : ℕ) → get nat_eq ended.new h ≡ with_named_end (effect_of entry.now.op entry.now.reply) (get nat_eq ended.old) h) }
{
    match (&entry.op, &entry.reply) {
        (Op::Pick, Reply::Picked { .. }) => Ok(true),
        (Op::TaskStart { .. }, Reply::Handle(_)) => Ok(true),
        (Op::Finish { task, done }, Reply::Ok) => {
            note_finish(alloc, ended, task.0, done)?;
            Ok(true)
        }
        _ => note_change(alloc, ended, entry),
    }
}

// The same for every entry, by what it changes.
fn note_change(
    alloc: Global,
    ended: &mut HashMap<u64, ShortEnd>,
    entry: &Entry,
) -> Result<bool, AllocError>
    ensures one { IfOk result (λ one. IsTrue one
        → names_each_end (effect_of entry.now.op entry.now.reply) ≡ true) }
    ensures noted { IfOk result (λ one. IsTrue one
        → (h : ℕ) → get nat_eq ended.new h ≡ with_named_end (effect_of entry.now.op entry.now.reply) (get nat_eq ended.old) h) }
{
    let change = change_of(entry);
    if !names_each_end(&change) {
        return Ok(false);
    }
    note_named_end(alloc, ended, change)?;
    Ok(true)
}

// The same of an entry in little room.
#[tactic(auto, unfolding(crate::specs::Changes::effect_of, crate::specs::Ends::names_each_end, crate::specs::Ends::with_named_end))]
fn note_short(
    alloc: Global,
    ended: &mut HashMap<u64, ShortEnd>,
    short: &ShortEntry,
) -> Result<bool, AllocError>
    ensures one { IfOk result (λ one. IsTrue one
        → names_each_end (effect_of (entry_of short.now).op (entry_of short.now).reply) ≡ true) }
    ensures noted { IfOk result (λ one. IsTrue one
        → (h : ℕ) → get nat_eq ended.new h ≡ with_named_end (effect_of (entry_of short.now).op (entry_of short.now).reply) (get nat_eq ended.old) h) }
{
    match short {
        ShortEntry::Start { .. } => Ok(true),
        ShortEntry::Pick { .. } => Ok(true),
        ShortEntry::Finish { task, done, .. } => {
            note_few(alloc, ended, task.0, done)?;
            Ok(true)
        }
        ShortEntry::Enqueue { .. } | ShortEntry::Call { .. } => note_change(
            alloc,
            ended,
            &short.full(),
        ),
        ShortEntry::Full(entry) => note_entry(alloc, ended, entry),
    }
}

// Notes how a task ended whose action answered in little room.
fn note_few(
    alloc: Global,
    ended: &mut HashMap<u64, ShortEnd>,
    task: u64,
    done: &FewFinished,
) -> Result<(), AllocError>
    ensures { OnOk result ((h : ℕ)
        → get nat_eq ended.new h ≡ put_at task (Some (task_end done.now.end)) (get nat_eq ended.old) h) }
{
    match done.number() {
        Some(number) => {
            ended.insert(task, ShortEnd::number(number))?;
            Ok(())
        }
        None => note_finish(alloc, ended, task, &done.full()),
    }
}

// Notes each end that an entry names, up to the first entry that may end other tasks. Whether there is none.
#[tactic(auto, using(crate::proofs::NamedEnds::named_none))]
fn note_named_ends(
    alloc: Global,
    ended: &mut HashMap<u64, ShortEnd>,
    shorts: &[ShortEntry],
) -> Result<bool, AllocError>
    requires { (h : ℕ) → get nat_eq ended.old h ≡ None }
    ensures { IfOk result (λ all. IsTrue all → (workers : ℕ)
        → AreEnds (get nat_eq ended.new) (seen_from workers nothing_seen (map entry_of shorts.now))) }
{
    for short in shorts {
        if !note_short(alloc, ended, short)? {
            return Ok(false);
        }
    }
    Ok(true)
}

/// How each task ended, by its handle, after these entries of a node with so many workers. It fails for want of memory alone.
///
/// What hasn't begun is followed only where an entry may end a task that it doesn't name.
pub fn ends_of(
    alloc: Global,
    workers: u32,
    entries: &ShortList,
) -> Result<HashMap<u64, ShortEnd>, AllocError>
    requires { workers ≤ 64 }
    ensures { IfOk result (λ ended. AreEnds (get nat_eq ended) (seen_from workers nothing_seen entries.now.entries)) }
{
    // A task that ran has three entries: its start, its pick and its end. With room for all, the table doesn't move while it fills.
    let mut ended = HashMap::with_capacity(alloc, entries.len() / 3)?;
    if note_named_ends(alloc, &mut ended, entries.shorts())? {
        return Ok(ended);
    }
    let all = entries.in_full(alloc)?;
    let Standings { ended, .. } = standings_of(alloc, workers, all.as_slice())?;
    Ok(ended)
}
