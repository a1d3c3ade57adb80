//! What decides how tasks end, found again from the entries of a journal.
ghost use Rattle.std.specs.Prelude.{◌≡◌, ◌≤◌, not, IfOk, OnOk, is_some, if◌then◌else◌, nat_eq};
ghost use Rattle.std.specs.HashMap.{get, keys};
ghost use Rattle.mtapi_values.specs.Conditions.{holds};
ghost use Rattle.mtapi_values.specs.declared.ends.TaskEnd.TheVariants.{Cancelled, Failed};
ghost use Rattle.mtapi_values.specs.declared.statuses.MtapiStatus.TheVariants.{ErrQueueDeleted};
ghost use Rattle.run_report.specs.Seen.{is_queue_shut, is_of, ends_where, with_end, with_open, enqueued, cancelled, queue_disabled, queue_deleted, withdrawn, with_action, without_action, with_effect, nothing_seen, seen_from};
ghost use Rattle.run_report.specs.Standings.{seen_in_standings, SameAs, passes_unstarted};
ghost use Rattle.run_report.specs.Changes.{effect_of};

use crate::actions::{has_worker, set_enabled, take_out};
use crate::changes::{EndEffect, LiveAction, LiveQueue, Unstarted, change_of};
use crate::short_ends::ShortEnd;
use mtapi_machine::Entry;
use mtapi_values::{Mask, MtapiStatus, TaskEnd};
use std::alloc::{AllocError, Global};
use std::collections::HashMap;

/// How each task ended, and what decides how the others will: the tasks that haven't begun, the live actions in the order in which
/// they were made, and the live queues. A running task stands nowhere.
///
/// The handles are the node's, so that no workload can choose them to have the same hash.
#[derive(Drop)]
pub struct Standings {
    pub ended: HashMap<u64, ShortEnd>,
    pub unstarted: HashMap<u64, Unstarted>,
    pub actions: Vec<LiveAction>,
    pub queues: HashMap<u64, LiveQueue>,
}

/// Which of the tasks that haven't begun end.
#[derive(Drop)]
pub enum Passing {
    /// Those that no worker can take.
    Left,
    /// Those of this queue.
    Of(u64),
    /// Those whose queue is disabled.
    Shut,
}

// Whether the queue is there and disabled.
fn is_disabled(queues: &HashMap<u64, LiveQueue>, queue: u64) -> bool
    ensures { result ≡ holds (λ q. not q.enabled) (get nat_eq queues.now queue) }
{
    match queues.get(&queue) {
        Some(found) => !found.enabled,
        None => false,
    }
}

// Whether the queue is there and doesn't keep its tasks while it is disabled.
fn lets_go(queues: &HashMap<u64, LiveQueue>, queue: u64) -> bool
    ensures { result ≡ holds (λ q. not q.retain) (get nat_eq queues.now queue) }
{
    match queues.get(&queue) {
        Some(found) => !found.retain,
        None => false,
    }
}

fn is_of(queue: u64, task: &Unstarted) -> bool
    ensures { result ≡ is_of queue task.now }
{
    match task.queue {
        Some(own) => own == queue,
        None => false,
    }
}

fn is_shut(queues: &HashMap<u64, LiveQueue>, task: &Unstarted) -> bool
    ensures { result ≡ is_queue_shut (get nat_eq queues.now) task.now }
{
    match task.queue {
        Some(own) => is_disabled(queues, own),
        None => false,
    }
}

fn passes(table: &Standings, workers: u32, which: &Passing, task: &Unstarted) -> bool
    requires { workers ≤ 64 }
    ensures { result ≡ passes_unstarted workers which.now (seen_in_standings table.now) task.now }
{
    match which {
        Passing::Left => !has_worker(workers, task.job, task.cores, &table.actions),
        Passing::Of(queue) => is_of(*queue, task),
        Passing::Shut => is_shut(&table.queues, task),
    }
}

// Whether the task of this handle hasn't begun, and passes.
fn is_passing(table: &Standings, workers: u32, which: &Passing, handle: u64) -> bool
    requires { workers ≤ 64 }
    ensures { result ≡ holds (passes_unstarted workers which.now (seen_in_standings table.now)) (get nat_eq table.now.unstarted handle) }
{
    match table.unstarted.get(&handle) {
        Some(task) => passes(table, workers, which, task),
        None => false,
    }
}

fn end_one(
    alloc: Global,
    table: &mut Standings,
    handle: u64,
    end: TaskEnd,
) -> Result<(), AllocError>
    ensures { OnOk result (SameAs (seen_in_standings table.new) (with_end handle end (seen_in_standings table.old))) }
{
    let end = ShortEnd::new(alloc, end)?;
    table.unstarted.remove(&handle);
    table.ended.insert(handle, end)?;
    Ok(())
}

fn end_if_passing(
    alloc: Global,
    table: &mut Standings,
    workers: u32,
    which: &Passing,
    handle: u64,
    end: &TaskEnd,
) -> Result<(), AllocError>
    requires { workers ≤ 64 }
    ensures { OnOk result (SameAs (seen_in_standings table.new) (if holds (passes_unstarted workers which.now (seen_in_standings table.old)) (get nat_eq table.old.unstarted handle) then with_end handle end.now (seen_in_standings table.old) else seen_in_standings table.old)) }
{
    if is_passing(table, workers, which, handle) {
        return end_one(alloc, table, handle, end.again());
    }
    Ok(())
}

fn handles_of(alloc: Global, unstarted: &HashMap<u64, Unstarted>) -> Result<Vec<u64>, AllocError>
    ensures { IfOk result (λ handles. handles.items ≡ keys unstarted.now) }
{
    unstarted.keys().copied().collect(alloc)
}

// Ends every task that passes. It walks the tasks that haven't begun, and no other.
#[tactic(auto, using(crate::proofs::EndLoop::ends_none, crate::proofs::EndLoop::ends_next))]
fn end_where(
    alloc: Global,
    table: &mut Standings,
    workers: u32,
    which: &Passing,
    end: &TaskEnd,
) -> Result<(), AllocError>
    requires { workers ≤ 64 }
    ensures { OnOk result (SameAs (seen_in_standings table.new) (ends_where (passes_unstarted workers which.now (seen_in_standings table.old)) end.now (seen_in_standings table.old))) }
{
    let handles = handles_of(alloc, &table.unstarted)?;
    for handle in handles.iter() {
        end_if_passing(alloc, table, workers, which, *handle, end)?;
    }
    Ok(())
}

fn cancel(alloc: Global, table: &mut Standings, handle: u64) -> Result<(), AllocError>
    ensures { OnOk result (SameAs (seen_in_standings table.new) (cancelled handle (seen_in_standings table.old))) }
{
    if table.unstarted.contains_key(&handle) {
        return end_one(alloc, table, handle, TaskEnd::Cancelled);
    }
    Ok(())
}

fn enqueue(table: &mut Standings, handle: u64, queue: u64, cores: Mask) -> Result<(), AllocError>
    ensures { OnOk result (SameAs (seen_in_standings table.new) (enqueued handle queue cores (get nat_eq table.old.queues queue) (seen_in_standings table.old))) }
{
    let Some(found) = table.queues.get(&queue) else {
        return Ok(());
    };
    let task = Unstarted {
        job: found.job,
        cores,
        queue: Some(queue),
    };
    table.unstarted.insert(handle, task)?;
    Ok(())
}

fn set_open(table: &mut Standings, queue: u64, enabled: bool) -> Result<(), AllocError>
    ensures { OnOk result (SameAs (seen_in_standings table.new) (with_open queue enabled (seen_in_standings table.old))) }
{
    let Some(found) = table.queues.get(&queue) else {
        return Ok(());
    };
    let changed = LiveQueue {
        job: found.job,
        retain: found.retain,
        enabled,
    };
    table.queues.insert(queue, changed)?;
    Ok(())
}

fn disable_queue(
    alloc: Global,
    table: &mut Standings,
    workers: u32,
    queue: u64,
) -> Result<(), AllocError>
    requires { workers ≤ 64 }
    ensures { OnOk result (SameAs (seen_in_standings table.new) (queue_disabled queue (seen_in_standings table.old))) }
{
    let ends = lets_go(&table.queues, queue);
    set_open(table, queue, false)?;
    if ends {
        return end_where(
            alloc,
            table,
            workers,
            &Passing::Of(queue),
            &TaskEnd::Cancelled,
        );
    }
    Ok(())
}

fn delete_queue(
    alloc: Global,
    table: &mut Standings,
    workers: u32,
    queue: u64,
) -> Result<(), AllocError>
    requires { workers ≤ 64 }
    ensures { OnOk result (SameAs (seen_in_standings table.new) (queue_deleted queue (seen_in_standings table.old))) }
{
    let end = TaskEnd::Failed(MtapiStatus::ErrQueueDeleted);
    end_where(alloc, table, workers, &Passing::Of(queue), &end)?;
    table.queues.remove(&queue);
    Ok(())
}

// An action was taken back: the tasks that no worker can take any more fail with this status.
fn fail_left(
    alloc: Global,
    table: &mut Standings,
    workers: u32,
    status: MtapiStatus,
) -> Result<(), AllocError>
    requires { workers ≤ 64 }
    ensures { OnOk result (SameAs (seen_in_standings table.new) (withdrawn workers (seen_in_standings table.old).actions status (seen_in_standings table.old))) }
{
    end_where(
        alloc,
        table,
        workers,
        &Passing::Left,
        &TaskEnd::Failed(status),
    )
}

// What an entry changes in how far tasks have come.
#[tactic(auto, using(crate::proofs::LiveActions::pairs_more))]
fn note(
    alloc: Global,
    table: &mut Standings,
    workers: u32,
    change: EndEffect,
) -> Result<(), AllocError>
    requires { workers ≤ 64 }
    ensures { OnOk result (SameAs (seen_in_standings table.new) (with_effect workers change (seen_in_standings table.old))) }
{
    match change {
        EndEffect::Nothing => {}
        EndEffect::MakesAction(action) => table.actions.push(action)?,
        EndEffect::EnablesAction(action) => set_enabled(&mut table.actions, action, true),
        EndEffect::DisablesAction(action) => {
            set_enabled(&mut table.actions, action, false);
            fail_left(alloc, table, workers, MtapiStatus::ErrActionDisabled)?;
        }
        EndEffect::DeletesAction(action) => {
            take_out(&mut table.actions, action);
            fail_left(alloc, table, workers, MtapiStatus::ErrActionDeleted)?;
        }
        EndEffect::StartsTask(handle, task) => {
            table.unstarted.insert(handle, task)?;
        }
        EndEffect::EnqueuesTask(handle, queue, cores) => enqueue(table, handle, queue, cores)?,
        EndEffect::BeginsTask(handle) => {
            table.unstarted.remove(&handle);
        }
        EndEffect::EndsTask(handle, end) => end_one(alloc, table, handle, end)?,
        EndEffect::CancelsTask(handle) => cancel(alloc, table, handle)?,
        EndEffect::MakesQueue(handle, queue) => {
            table.queues.insert(handle, queue)?;
        }
        EndEffect::EnablesQueue(queue) => set_open(table, queue, true)?,
        EndEffect::DisablesQueue(queue) => disable_queue(alloc, table, workers, queue)?,
        EndEffect::DeletesQueue(queue) => delete_queue(alloc, table, workers, queue)?,
        EndEffect::Closes => end_where(alloc, table, workers, &Passing::Shut, &TaskEnd::Cancelled)?,
    }
    Ok(())
}

/// No standings, with room for so many tasks that ended, so that the table doesn't move while it fills.
///
/// # Errors
///
/// - `AllocError`: memory ran out.
pub fn no_standings(alloc: Global, tasks: usize) -> Result<Standings, AllocError>
    ensures { IfOk result (λ t. SameAs (seen_in_standings t) nothing_seen) }
{
    Ok(Standings {
        ended: HashMap::with_capacity(alloc, tasks)?,
        unstarted: HashMap::new(alloc),
        actions: Vec::new(alloc),
        queues: HashMap::new(alloc),
    })
}

/// Goes on to what is known after this entry too, as [`standings_of`] does from one to the next.
///
/// # Errors
///
/// - `AllocError`: memory ran out.
pub fn follow_entry(
    alloc: Global,
    table: &mut Standings,
    workers: u32,
    entry: &Entry,
) -> Result<(), AllocError>
    requires { workers ≤ 64 }
    ensures { OnOk result (SameAs (seen_in_standings table.new) (with_effect workers (effect_of entry.now.op entry.now.reply) (seen_in_standings table.old))) }
{
    note(alloc, table, workers, change_of(entry))
}

/// Tells what is known after these entries of a node with so many workers. It fails for want of
/// memory alone.
///
/// An entry that may end many tasks walks those that haven't begun; one that takes an action back
/// looks through the live actions for each of them.
pub fn standings_of(alloc: Global, workers: u32, entries: &[Entry]) -> Result<Standings, AllocError>
    requires { workers ≤ 64 }
    ensures { IfOk result (λ t. SameAs (seen_in_standings t) (seen_from workers nothing_seen entries.now)) }
{
    // A task that ran has three entries: its start, its pick and its end.
    let mut table = no_standings(alloc, entries.len() / 3)?;
    for entry in entries {
        note(alloc, &mut table, workers, change_of(entry))?;
    }
    Ok(table)
}
