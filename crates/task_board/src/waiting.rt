//! The tasks that haven't begun, all of them in one list, and again by their jobs.

ghost use Rattle.std.specs.Prelude.{◌≡◌, ◌≤◌, ◌<◌, ◌+◌, ℕ, Some, true, [], replicate, length, slice_get, IfOk};
ghost use Rattle.handle_pool.specs.Slots.{slot_of};
ghost use Rattle.linked_places.specs.Lists.{list_at, has_handle, NowhereAt};
ghost use Rattle.task_board.specs.Waiting.{job_list, with_waiting, without_waiting};

use linked_places::LinkedLists;
use std::alloc::{AllocError, Global};
use std::marker::Model;

/// One list of all tasks that haven't begun, and so many lists of those of the jobs whose numbers have one remainder.
#[derive(Drop)]
pub struct WaitingTasks {
    all: LinkedLists,
    by_job: LinkedLists,
    jobs: u32,
}

impl Model for WaitingTasks {
    ghost use Rattle.task_board.specs.Waiting.{WaitingTable, AreSized};

    ghost Value = { WaitingTable };

    ghost view = { λ w. record { places = w.all.places; lists = w.all.lists; by_job = w.by_job.lists } };

    ghost invariant = { λ w. AreSized w.all w.by_job w.jobs };
}

impl WaitingTasks {
    // No tasks, with all the memory that so many will use.
    pub(crate) fn new(alloc: Global, jobs: u32, tasks: u32) -> Result<WaitingTasks, AllocError>
        requires some { 1 ≤ jobs }
        requires few { tasks ≤ 65536 }
        ensures places { IfOk result (λ w. w.places ≡ tasks) }
        ensures lists { IfOk result (λ w. w.lists ≡ replicate 1 []) }
        ensures by_job { IfOk result (λ w. w.by_job ≡ replicate jobs []) }
    {
        Ok(WaitingTasks {
            all: LinkedLists::new(alloc, 1, tasks)?,
            by_job: LinkedLists::new(alloc, jobs, tasks)?,
            jobs,
        })
    }

    // Puts a task of a job behind the others.
    pub(crate) fn push(&mut self, job: u32, task: u64)
        requires place { slot_of task < self.old.places }
        requires nowhere { NowhereAt (slot_of task) self.old.lists }
        requires apart { NowhereAt (slot_of task) self.old.by_job }
        ensures { self.new ≡ with_waiting self.old job task }
    {
        self.all.push(0, task);
        self.by_job.push(job % self.jobs, task);
    }

    // Takes a task of a job out.
    pub(crate) fn remove(&mut self, job: u32, task: u64)
        requires has { has_handle task (list_at self.old.lists 0) ≡ true }
        requires job { has_handle task (job_list self.old job) ≡ true }
        ensures new { self.new ≡ without_waiting self.old job task }
        ensures gone { NowhereAt (slot_of task) self.new.lists }
        ensures gone_by_job { NowhereAt (slot_of task) self.new.by_job }
    {
        self.all.remove(0, task);
        self.by_job.remove(job % self.jobs, task);
    }

    // The first of all.
    pub(crate) fn first(&self) -> Option<u64>
        ensures { result ≡ slice_get (list_at self.now.lists 0) 0 }
    {
        self.all.first(0)
    }

    // The one after this of all.
    pub(crate) fn next(&self, task: u64) -> Option<u64>
        requires { has_handle task (list_at self.now.lists 0) ≡ true }
        ensures { (i : ℕ) → slice_get (list_at self.now.lists 0) i ≡ Some task
            → result ≡ slice_get (list_at self.now.lists 0) (i + 1) }
    {
        self.all.next(task)
    }

    // How many there are.
    pub(crate) fn count(&self) -> u32
        ensures { result ≡ length (list_at self.now.lists 0) }
    {
        self.all.len(0)
    }

    // The first of the list that has those of a job.
    pub(crate) fn first_of_job(&self, job: u32) -> Option<u64>
        ensures { result ≡ slice_get (job_list self.now job) 0 }
    {
        self.by_job.first(job % self.jobs)
    }

    // The one after this of the list that has those of a job.
    pub(crate) fn next_of_job(&self, job: u32, task: u64) -> Option<u64>
        requires { has_handle task (job_list self.now job) ≡ true }
        ensures { (i : ℕ) → slice_get (job_list self.now job) i ≡ Some task
            → result ≡ slice_get (job_list self.now job) (i + 1) }
    {
        self.by_job.next(task)
    }

    // How many the list has that has those of a job.
    pub(crate) fn count_of_job(&self, job: u32) -> u32
        ensures { result ≡ length (job_list self.now job) }
    {
        self.by_job.len(job % self.jobs)
    }
}
