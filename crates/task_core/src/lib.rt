//! Task records: their state, their looks and their ends.
#![tactic(auto)]

pub mod record;
pub mod states;
pub mod tallies;

ghost use Rattle.std.specs.Prelude.{◌≡◌, ◌+◌, ◌≤◌, ◌<◌, ◌^◌, replicate, Some, IsSome, IfSome, IfOk, slice_get, is_some, not};
ghost use Rattle.std.specs.Option.{option_copied, option_map};
ghost use Rattle.handle_pool.specs.Slots.{slot_value, free_slot, without, changed, used_at, live_count};
ghost use Rattle.mtapi_objects.specs.Tasks.{Task, is_unstarted, is_unended, with_state, Running, runner, end_of, with_notes, cancel_requested};
ghost use Rattle.task_core.specs.Records.{asked_task, shown_state, end_noted};
ghost use Rattle.task_core.specs.Answers.{task_look_reply, cancel_asked, after_asked, watch_end_of};
ghost use Rattle.task_core.specs.Tallies.{tallied};
ghost use Rattle.task_core.specs.Table.{AddsTask, IsLiveAnd, unended_count, ended_in, detached_in, looked_in};

use handle_pool::Pool;
use mtapi_values::{Args, Kind, MtapiStatus, TaskEnd, TaskHandle};
pub use record::TaskRecord;
pub use states::{NewTask, TaskLook, TaskState};
use std::alloc::{AllocError, Global};
use std::marker::Model;
pub use tallies::{TallyArgs, TallyState};

/// Tasks, each under a handle, and how many were started and have ended.
#[derive(Drop)]
pub struct Tasks {
    pool: Pool<TaskRecord>,
    starts: u64,
    ends: u64,
}

impl Model for Tasks {
    ghost use Rattle.task_core.specs.Table.{TaskTable, AreCounted};

    ghost Value = { TaskTable };

    ghost view = { λ t. record {
      pool = t.pool;
      starts = t.starts;
      ends = t.ends;
    } };

    ghost invariant = { λ t. AreCounted t.pool t.starts t.ends };
}

impl Tasks {
    /// Room for 1 to 65,536 tasks, with all the memory that they will use; a place takes that many handles, one after another.
    pub fn new(alloc: Global, max: u32, generations: u32) -> Result<Tasks, AllocError>
        requires some { 1 ≤ max }
        requires few { max ≤ 65536 }
        requires once { 1 ≤ generations }
        ensures generations { IfOk result (λ t. t.pool.generations ≡ generations) }
        ensures slots { IfOk result (λ t. t.pool.slots ≡ replicate max (free_slot 1)) }
        ensures starts { IfOk result (λ t. t.starts ≡ 0) }
        ensures ends { IfOk result (λ t. t.ends ≡ 0) }
    {
        Ok(Tasks {
            pool: Pool::new(alloc, max, generations)?,
            starts: 0,
            ends: 0,
        })
    }

    /// Adds a scheduled task, with the next number of a start.
    ///
    /// Stands for the end of `mtapi_task_start` and of `mtapi_task_enqueue`.
    ///
    /// # Errors
    ///
    /// - `ErrTaskLimit`: every place is in use or has retired.
    pub fn add(&mut self, task: NewTask) -> Result<TaskHandle, MtapiStatus>
        requires { self.old.starts < 2 ^ 63 }
        ensures { AddsTask self.old (asked_task task) result self.new }
    {
        match self.pool.insert(TaskRecord::new(task, self.starts)) {
            Ok(handle) => {
                self.starts += 1;
                Ok(TaskHandle(handle))
            }
            Err(_) => Err(MtapiStatus::ErrTaskLimit),
        }
    }

    /// Tells how many tasks are live.
    pub fn live(&self) -> u32
        ensures { result ≡ live_count self.now.pool }
    {
        self.pool.live()
    }

    /// How many tasks haven't ended.
    pub fn unended(&self) -> u64
        ensures { result ≡ unended_count self.now.pool }
    {
        self.starts - self.ends
    }

    /// How far a live task has come.
    pub fn state(&self, t: TaskHandle) -> Option<TaskState>
        ensures { result ≡ option_map (λ (task : Task). shown_state task.state) (slot_value self.now.pool t.0) }
    {
        self.pool.get(t.0).map(|record| record.state())
    }

    /// Has a scheduled task run on a worker, and gives a copy of its arguments.
    pub fn run_on(&mut self, t: TaskHandle, worker: u32, kind: Kind) -> Args
        requires { IsLiveAnd is_unstarted (slot_value self.old.pool t.0) }
        ensures args { option_map (λ (task : Task). task.args) (slot_value self.old.pool t.0) ≡ Some result }
        ensures new { self.new ≡ record self.old { pool = changed self.old.pool t.0 (with_state (Running worker kind)) } }
    {
        match self.pool.get_mut(t.0) {
            Some(record) => {
                record.run_on(worker, kind);
                record.args().again()
            }
            None => unreachable!(),
        }
    }

    /// Asks a running task to cancel.
    pub fn request(&mut self, t: TaskHandle)
        requires { IsLiveAnd (λ task. is_some (runner task.state)) (slot_value self.old.pool t.0) }
        ensures { self.new ≡ record self.old { pool = changed self.old.pool t.0 (with_notes cancel_requested) } }
    {
        match self.pool.get_mut(t.0) {
            Some(record) => record.request(),
            None => unreachable!(),
        }
    }

    /// Notes how far the tally of a task has come. Changes nothing where the task isn't live.
    pub fn note_tally(&mut self, t: TaskHandle, tally: TallyState)
        ensures { self.new ≡ record self.old { pool = changed self.old.pool t.0 (tallied tally) } }
    {
        note_tally(&mut self.pool, t.0, tally);
    }

    /// Ends a task, with the next number of an end. A detached one stops being live.
    pub fn end_with(&mut self, t: TaskHandle, end: TaskEnd)
        requires { IsLiveAnd is_unended (slot_value self.old.pool t.0) }
        ensures { self.new ≡ record self.old { pool = ended_in self.old.pool t.0 end self.old.ends (slot_value self.old.pool t.0); ends = self.old.ends + 1 } }
    {
        finish(&mut self.pool, t.0, end, self.ends);
        self.ends += 1;
    }

    /// Has a task leave its group, to be waited for by nobody. An ended one stops being live.
    pub fn detach(&mut self, t: TaskHandle)
        requires { IsSome (slot_value self.old.pool t.0) }
        ensures { self.new ≡ record self.old { pool = detached_in self.old.pool t.0 (slot_value self.old.pool t.0) } }
    {
        leave_group(&mut self.pool, t.0);
    }

    /// Looks once at a task for a seat. An ended task gives its end and stops being live. Of
    /// another one the seat becomes the waiter, and is told that it goes on; with `last` it no
    /// longer is the waiter, and is told that its looks are used up.
    ///
    /// Stands for one look of `mtapi_task_wait`.
    ///
    /// # Errors
    ///
    /// - `ErrTaskInvalid`: the task isn't live.
    /// - `ErrParameter`: it is detached or in a group.
    /// - `ErrWaitPending`: another seat waits for it.
    /// - `Timeout`: it hasn't ended, and this was the last look.
    pub fn look(&mut self, t: TaskHandle, who: u32, last: bool) -> TaskLook
        ensures reply { result ≡ task_look_reply who last (slot_value self.old.pool t.0) }
        ensures new { self.new ≡ record self.old { pool = looked_in self.old.pool t.0 who last (slot_value self.old.pool t.0) } }
    {
        let Some(record) = self.pool.get_mut(t.0) else {
            return TaskLook::Refused(MtapiStatus::ErrTaskInvalid);
        };
        if let Some(status) = record.look_refusal(who) {
            return TaskLook::Refused(status);
        }
        if record.is_unended() {
            return record.wait(who, last);
        }
        TaskLook::Ended(self.free(t))
    }

    /// Tells a watch that runs on the worker whether it is to cancel, and counts the question until
    /// it has seen the request.
    ///
    /// # Errors
    ///
    /// - `ErrTaskInvalid`: the task is no live watch that runs on the worker.
    /// - `ErrParameter`: its arguments aren't one number from 0 to 64, it saw the request before,
    ///   or it has no looks left.
    pub fn asked(&mut self, t: TaskHandle, worker: u32) -> Result<bool, MtapiStatus>
        ensures reply { result ≡ cancel_asked worker (slot_value self.old.pool t.0) }
        ensures new { self.new ≡ record self.old { pool = changed self.old.pool t.0 (after_asked worker) } }
    {
        ask(&mut self.pool, t.0, worker)
    }

    /// Tells how a watch that runs on the worker ends. Changes nothing.
    ///
    /// # Errors
    ///
    /// - `ErrTaskInvalid`: the task is no live watch that runs on the worker.
    /// - `ErrParameter`: its arguments are good, it hasn't seen the request, and it has looks left.
    pub fn watch_end(&self, t: TaskHandle, worker: u32) -> Result<TaskEnd, MtapiStatus>
        ensures { result ≡ watch_end_of worker (slot_value self.now.pool t.0) }
    {
        match self.pool.get(t.0) {
            Some(record) => record.watch_end(worker),
            None => Err(MtapiStatus::ErrTaskInvalid),
        }
    }

    /// Gives up an ended task, and gives its end.
    pub fn free(&mut self, t: TaskHandle) -> TaskEnd
        requires { IsLiveAnd (λ task. not (is_unended task)) (slot_value self.old.pool t.0) }
        ensures end { IfSome (slot_value self.old.pool t.0) (λ task. end_noted (end_of task.state) ≡ Some result) }
        ensures new { self.new ≡ record self.old { pool = without self.old.pool t.0 } }
    {
        match self.pool.remove(t.0) {
            Some(record) => record.into_end(),
            None => unreachable!(),
        }
    }

    /// The record of a live task. None exactly where it isn't live.
    pub fn get(&self, t: TaskHandle) -> Option<&TaskRecord>
        ensures { option_copied result ≡ slot_value self.now.pool t.0 }
    {
        self.pool.get(t.0)
    }

    /// The handle and the record of the task at a place, if there is one.
    pub fn slot_at(&self, place: u32) -> Option<(TaskHandle, &TaskRecord)>
        ensures { option_map (λ found.
            (found.0.0, found.1.now)) result ≡ used_at place (slice_get self.now.pool.slots place) }
    {
        match self.pool.slot_at(place) {
            Some((handle, record)) => Some((TaskHandle(handle), record)),
            None => None,
        }
    }
}

// Ends a task with the number of its end. A detached one is given up.
fn finish(pool: &mut Pool<TaskRecord>, handle: u64, end: TaskEnd, number: u64)
    requires { IsSome (slot_value pool.old handle) }
    ensures { pool.new ≡ ended_in pool.old handle end number (slot_value pool.old handle) }
{
    match pool.get_mut(handle) {
        Some(record) if !record.detached() => record.finish(end, number),
        _ => {
            let _ = pool.remove(handle);
        }
    }
}

// Has a task leave its group. An ended one is given up.
fn leave_group(pool: &mut Pool<TaskRecord>, handle: u64)
    requires { IsSome (slot_value pool.old handle) }
    ensures { pool.new ≡ detached_in pool.old handle (slot_value pool.old handle) }
{
    match pool.get_mut(handle) {
        Some(record) if record.is_unended() => record.detach(),
        _ => {
            let _ = pool.remove(handle);
        }
    }
}

// Notes how far the tally of a task has come.
fn note_tally(pool: &mut Pool<TaskRecord>, handle: u64, tally: TallyState)
    ensures { pool.new ≡ changed pool.old handle (tallied tally) }
{
    match pool.get_mut(handle) {
        Some(record) => record.note_tally(tally),
        None => {}
    }
}

// Whether a watch that runs on the worker is to cancel.
fn ask(pool: &mut Pool<TaskRecord>, handle: u64, worker: u32) -> Result<bool, MtapiStatus>
    ensures reply { result ≡ cancel_asked worker (slot_value pool.old handle) }
    ensures new { pool.new ≡ changed pool.old handle (after_asked worker) }
{
    match pool.get_mut(handle) {
        Some(record) => record.asked(worker),
        None => Err(MtapiStatus::ErrTaskInvalid),
    }
}
