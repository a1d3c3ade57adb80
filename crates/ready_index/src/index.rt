//! The ready index.

ghost use Rattle.std.specs.Prelude.{◌≡◌, ◌+◌, ◌*◌, ◌<◌, ◌≤◌, ℕ, true, false, Some, None, is_some, IfOk, IfSome, IsNone, ◌↔◌, length, replicate, slice_set};
ghost use Rattle.mtapi_values.specs.Masks.{in_mask};
ghost use Rattle.ready_index.specs.Bits.{has_slot, set_of};
ghost use Rattle.ready_index.specs.Marks.{mark_at, HasNoneFor, IsFirst};
ghost use Rattle.ready_index.specs.Index.{sets_of, HaveRoom, PutsSlot, SameRoom};

use crate::marks::Mark;
use crate::steps::Steps;
use crate::workers::WorkerSets;
use mtapi_values::Mask;
use std::alloc::{AllocError, Global};
use std::marker::{Brand, Model};
use std::sync::ledger::{Blank, Ledger};

/// Which slots have a ready task, for whom and with which priority. Only `new` takes memory.
#[derive(Drop)]
pub struct ReadyIndex {
    marks: Vec<Option<Mark>>,
    workers: Vec<WorkerSets>,
    priorities: u32,
}

impl Model for ReadyIndex {
    ghost use Rattle.std.specs.Prelude.{length};
    ghost use Rattle.ready_index.specs.Marks.{ReadyMarks};
    ghost use Rattle.ready_index.specs.Index.{AreMarks};

    ghost Value = { ReadyMarks };

    ghost view = { λ i. record { workers = length i.workers.items; priorities = i.priorities; marks = i.marks.items } };

    ghost invariant = { λ i. AreMarks i.marks.items i.workers.items i.priorities };
}

impl ReadyIndex {
    /// An index without marks, for slots below max: 1 to 65,536 slots, 1 to 16 workers and 1 to 8 priorities.
    ///
    /// # Errors
    ///
    /// - `AllocError`: memory ran out.
    pub fn new(
        alloc: Global,
        max: u32,
        workers: u32,
        priorities: u32,
    ) -> Result<ReadyIndex, AllocError>
        requires max { (1 ≤ max) × (max ≤ 65536) }
        requires workers { (1 ≤ workers) × (workers ≤ 16) }
        requires priorities { (1 ≤ priorities) × (priorities ≤ 8) }
        ensures { IfOk result (λ i.
            i ≡ record { workers = workers; priorities = priorities; marks = replicate max None }) }
    {
        Ok(ReadyIndex {
            marks: vec![in alloc; None; max as usize]?,
            workers: new_sets(alloc, max, workers, priorities)?,
            priorities,
        })
    }

    /// Marks a slot that has no mark.
    pub fn mark(&mut self, slot: u32, priority: u32, mask: Mask)
        requires slot { slot < length self.old.marks }
        requires unmarked { mark_at self.old.marks slot ≡ None }
        requires priority { priority < self.old.priorities }
        ensures { self.new ≡ record self.old { marks = slice_set self.old.marks slot (Some (record { priority = priority; mask = mask })) } }
    {
        let mark = Mark { priority, mask };
        self.marks[slot as usize] = Some(mark);
        put_all(&mut self.workers, mark, slot, true);
    }

    /// Takes the mark of a slot away.
    pub fn unmark(&mut self, slot: u32)
        requires { is_some (mark_at self.old.marks slot) ≡ true }
        ensures { self.new ≡ record self.old { marks = slice_set self.old.marks slot None } }
    {
        if let Some(mark) = self.marks[slot as usize].take() {
            put_all(&mut self.workers, mark, slot, false);
        }
    }

    /// Whether the slot has a mark.
    pub fn is_marked(&self, slot: u32) -> bool
        requires { slot < length self.now.marks }
        ensures { result ≡ is_some (mark_at self.now.marks slot) }
    {
        self.marks[slot as usize].is_some()
    }

    /// The least priority of the marks for this worker, and a slot that has such a mark;
    /// none exactly where no mark is for it. The steps bind reads of the words of bitmaps alone: at most
    /// three are read for each priority by the caller's counter. Any other work, and reads on a
    /// counter that a body made for itself, as `first_for` does, aren't bounded.
    pub fn first<L: Ledger>(&self, worker: u32, steps: &mut Steps<L>) -> Option<(u32, u32)>
        requires { worker < self.now.workers }
        ensures none { IsNone result ↔ HasNoneFor worker self.now.marks }
        ensures first { IfSome result (λ r. IsFirst worker r.0 r.1 self.now.marks) }
        ensures cost { steps.new ≤ steps.old + 3 * self.now.priorities }
    {
        self.workers[worker as usize].first(steps)
    }

    /// As `first`, for a caller that doesn't count.
    pub fn first_for(&self, worker: u32) -> Option<(u32, u32)>
        requires { worker < self.now.workers }
        ensures none { IsNone result ↔ HasNoneFor worker self.now.marks }
        ensures first { IfSome result (λ r. IsFirst worker r.0 r.1 self.now.marks) }
    {
        self.first_from::<Brand>(worker, Blank::new(1))
    }

    /// As `first`, with a new counter.
    fn first_from<L: Ledger>(&self, worker: u32, blank: Blank) -> Option<(u32, u32)>
        requires name { blank.name ≡ L.name }
        requires parts { blank.parts ≡ L.parts }
        requires some { 0 < L.parts }
        requires worker { worker < self.now.workers }
        ensures none { IsNone result ↔ HasNoneFor worker self.now.marks }
        ensures first { IfSome result (λ r. IsFirst worker r.0 r.1 self.now.marks) }
    {
        let mut steps = Steps::<L>::new(blank);
        self.first(worker, &mut steps)
    }
}

/// The empty sets of each worker.
fn new_sets(
    alloc: Global,
    max: u32,
    workers: u32,
    priorities: u32,
) -> Result<Vec<WorkerSets>, AllocError>
    requires { max ≤ 65536 }
    ensures empty { IfOk result (λ v. (worker priority slot : ℕ)
        → has_slot (sets_of v.items worker) priority slot ≡ false) }
    ensures len { IfOk result (λ v. length v.items ≡ workers) }
    ensures room { IfOk result (λ v. HaveRoom max v.items priorities) }
{
    let mut sets = Vec::new(alloc);
    for _worker in 0..workers {
        sets.push(WorkerSets::new(alloc, max, priorities)?)?;
    }
    Ok(sets)
}

/// Puts a slot into the sets of each worker in the mark's mask, or takes it out.
fn put_all(workers: &mut [WorkerSets], mark: Mark, slot: u32, ready: bool)
    requires few { length workers.old ≤ 16 }
    requires known { (worker : ℕ) → worker < length workers.old → mark.priority < length (sets_of workers.old worker) }
    requires room { (worker : ℕ) → worker < length workers.old
        → slot < 64 * length (set_of (sets_of workers.old worker) mark.priority) }
    ensures slots { (worker : ℕ) → worker < length workers.old
        → PutsSlot mark worker slot ready (sets_of workers.old worker) (sets_of workers.new worker) }
    ensures same { (worker : ℕ) → SameRoom (sets_of workers.old worker) (sets_of workers.new worker) }
    ensures len { length workers.new ≡ length workers.old }
{
    for worker in 0..workers.len() {
        put(&mut workers[worker], worker, mark, slot, ready);
    }
}

/// The same for one worker, who may be outside the mask.
fn put(sets: &mut WorkerSets, worker: usize, mark: Mark, slot: u32, ready: bool)
    requires worker { worker < 64 }
    requires known { mark.priority < length sets.old }
    requires room { slot < 64 * length (set_of sets.old mark.priority) }
    ensures slots { PutsSlot mark worker slot ready sets.old sets.new }
    ensures same { SameRoom sets.old sets.new }
{
    if !is_in(mark.mask, worker) {
        return;
    }
    if ready {
        sets.insert(mark.priority, slot);
    } else {
        sets.remove(mark.priority, slot);
    }
}

/// Whether a worker is in the mask.
fn is_in(mask: Mask, worker: usize) -> bool
    requires { worker < 64 }
    ensures { result ≡ in_mask worker mask.0 }
{
    mask.0 >> worker & 1 == 1
}
