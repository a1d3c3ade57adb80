//! Task records.

ghost use Rattle.std.specs.Prelude.{◌≡◌, false, Some};
ghost use Rattle.std.specs.Option.{option_copied, option_map};
ghost use Rattle.mtapi_values.specs.Conditions.{first};
ghost use Rattle.mtapi_objects.specs.Tasks.{new_task, end_of, is_unended, with_state, with_notes, tally_args, Running, Ended, cancel_requested, with_waiter, task_look_refusals, runs_as, watch_looks};
ghost use Rattle.task_core.specs.Answers.{without_group, unended_look, waiter_after, asked_reply, after_asked, watch_end_reply, args_fault};
ghost use Rattle.task_core.specs.Records.{asked_task, group_number, queue_number, shown_state, end_noted, number_noted};
ghost use Rattle.task_core.specs.Tallies.{adds_of, notes_of, tallied};

use crate::states::{NewTask, TaskLook, TaskState};
use crate::tallies::{TallyArgs, TallyState, tally_args};
use mtapi_values::{Args, GroupHandle, Kind, Mask, MtapiStatus, QueueHandle, TaskEnd};
use std::marker::Model;

/// How often a watch looks at most.
const MOST_LOOKS: i64 = 64;

/// How far a task has come.
#[derive(Drop)]
enum Progress {
    Scheduled,
    // The worker, and the kind of the action.
    Running(u32, Kind),
    // The end, and its number.
    Ended(TaskEnd, u64),
}

/// One task: what was asked for, how far it has come, who waits for it, and what a tally has done.
#[derive(Drop)]
pub struct TaskRecord {
    job: u32,
    args: Args,
    priority: u32,
    cores: Mask,
    detached: bool,
    group: Option<GroupHandle>,
    queue: Option<QueueHandle>,
    progress: Progress,
    start: u64,
    waiter: Option<u32>,
    requested: bool,
    looks: u32,
    seen: bool,
    tally: TallyState,
}

impl Model for TaskRecord {
    ghost use Rattle.mtapi_objects.specs.Tasks.{Task};

    ghost Value = { Task };

    ghost use Rattle.task_core.specs.Records.{group_number, queue_number, state_of_progress, LooksWithin};
    ghost use Rattle.task_core.specs.Tallies.{notes_of};

    ghost view = { λ t. record {
      job = t.job;
      args = t.args;
      priority = t.priority;
      cores = t.cores.0;
      queue = queue_number t.queue;
      start = t.start;
      state = state_of_progress t.progress;
      notes = record {
        detached = t.detached;
        group = group_number t.group;
        waiter = t.waiter;
        requested = t.requested;
        looks = t.looks;
        seen = t.seen;
        tally = notes_of t.args t.tally;
      };
    } };

    ghost invariant = { λ t. LooksWithin t.args t.looks };
}

impl TaskRecord {
    pub(crate) fn new(task: NewTask, start: u64) -> TaskRecord
        ensures { result ≡ new_task (asked_task task) start }
    {
        TaskRecord {
            job: task.job,
            args: task.args,
            priority: task.priority,
            cores: task.cores,
            detached: task.detached,
            group: task.group,
            queue: task.queue,
            progress: Progress::Scheduled,
            start,
            waiter: None,
            requested: false,
            looks: 0,
            seen: false,
            tally: TallyState::Begun,
        }
    }

    /// The job whose actions may run it.
    pub fn job(&self) -> u32
        ensures { result ≡ self.now.job }
    {
        self.job
    }

    /// The arguments of the action.
    pub fn args(&self) -> &Args
        ensures { result.now ≡ self.now.args }
    {
        &self.args
    }

    /// The priority; 0 is the highest.
    pub fn priority(&self) -> u32
        ensures { result ≡ self.now.priority }
    {
        self.priority
    }

    /// The cores that may run it.
    pub fn cores(&self) -> Mask
        ensures { result.0 ≡ self.now.cores }
    {
        self.cores
    }

    /// Whether it stops being live as soon as it ends.
    pub fn detached(&self) -> bool
        ensures { result ≡ self.now.notes.detached }
    {
        self.detached
    }

    /// The group that it is a member of.
    pub fn group(&self) -> Option<GroupHandle>
        ensures { group_number result ≡ self.now.notes.group }
    {
        self.group
    }

    /// The queue that it was put into.
    pub fn queue(&self) -> Option<QueueHandle>
        ensures { queue_number result ≡ self.now.queue }
    {
        self.queue
    }

    /// How far it has come.
    pub fn state(&self) -> TaskState
        ensures { result ≡ shown_state self.now.state }
    {
        match &self.progress {
            Progress::Scheduled => TaskState::Scheduled,
            Progress::Running(worker, kind) => TaskState::Running {
                worker: *worker,
                kind: *kind,
            },
            Progress::Ended(_, _) => TaskState::Ended,
        }
    }

    /// How many tasks were started before it.
    pub fn start_number(&self) -> u64
        ensures { result ≡ self.now.start }
    {
        self.start
    }

    /// The seat that waits for it.
    pub fn waiter(&self) -> Option<u32>
        ensures { result ≡ self.now.notes.waiter }
    {
        self.waiter
    }

    /// Whether cancelling was asked for.
    pub fn requested(&self) -> bool
        ensures { result ≡ self.now.notes.requested }
    {
        self.requested
    }

    /// How often a watch looked and saw no request.
    pub fn looks(&self) -> u32
        ensures { result ≡ self.now.notes.looks }
    {
        self.looks
    }

    /// Whether a watch saw the request.
    pub fn seen(&self) -> bool
        ensures { result ≡ self.now.notes.seen }
    {
        self.seen
    }

    /// How it ended, if it has.
    pub fn end(&self) -> Option<&TaskEnd>
        ensures { option_copied result ≡ end_noted (end_of self.now.state) }
    {
        match &self.progress {
            Progress::Ended(end, _) => Some(end),
            _ => None,
        }
    }

    /// How many tasks had ended before it, if it has ended.
    pub fn end_number(&self) -> Option<u64>
        ensures { result ≡ number_noted (end_of self.now.state) }
    {
        match &self.progress {
            Progress::Ended(_, number) => Some(*number),
            _ => None,
        }
    }

    pub(crate) fn is_unended(&self) -> bool
        ensures { result ≡ is_unended self.now }
    {
        !matches!(&self.progress, Progress::Ended(_, _))
    }

    // Runs on a worker from now on.
    pub(crate) fn run_on(&mut self, worker: u32, kind: Kind)
        ensures { self.new ≡ with_state (Running worker kind) self.old }
    {
        self.progress = Progress::Running(worker, kind);
    }

    // Ends, with the number of its end.
    pub(crate) fn finish(&mut self, end: TaskEnd, number: u64)
        ensures { self.new ≡ with_state (Ended end number) self.old }
    {
        self.progress = Progress::Ended(end, number);
    }

    pub(crate) fn request(&mut self)
        ensures { self.new ≡ with_notes cancel_requested self.old }
    {
        self.requested = true;
    }

    /// What its arguments name, where it is run as a tally: none where they aren't four or one of the first three is negative.
    pub fn tally_args(&self) -> Option<TallyArgs>
        ensures { option_map adds_of result ≡ tally_args self.now.args }
    {
        tally_args(self.args.as_slice())
    }

    /// How far its tally has come.
    pub fn tally(&self) -> TallyState
        ensures { notes_of self.now.args result ≡ self.now.notes.tally }
    {
        self.tally
    }

    pub(crate) fn note_tally(&mut self, tally: TallyState)
        ensures { self.new ≡ tallied tally self.old }
    {
        self.tally = tally;
    }

    // Leaves its group, and is waited for by nobody.
    pub(crate) fn detach(&mut self)
        ensures { self.new ≡ without_group self.old }
    {
        self.group = None;
        self.detached = true;
    }

    // A look at a task that hasn't ended: the seat waits for it, or with the last look no longer does.
    pub(crate) fn wait(&mut self, who: u32, last: bool) -> TaskLook
        ensures reply { result ≡ unended_look last }
        ensures new { self.new ≡ with_notes (with_waiter (waiter_after who last)) self.old }
    {
        if last {
            self.waiter = None;
            TaskLook::Refused(MtapiStatus::Timeout)
        } else {
            self.waiter = Some(who);
            TaskLook::Pending
        }
    }

    // The end of a task that has ended.
    pub(crate) fn into_end(self) -> TaskEnd
        requires { is_unended self ≡ false }
        ensures { end_noted (end_of self.state) ≡ Some result }
    {
        match self.progress {
            Progress::Ended(end, _) => end,
            Progress::Scheduled | Progress::Running(_, _) => unreachable!(),
        }
    }

    // What a look by a seat is refused for.
    pub(crate) fn look_refusal(&self, who: u32) -> Option<MtapiStatus>
        ensures { result ≡ first (task_look_refusals who self.now) }
    {
        if self.detached || self.group.is_some() {
            return Some(MtapiStatus::ErrParameter);
        }
        match self.waiter {
            Some(waiter) if waiter != who => Some(MtapiStatus::ErrWaitPending),
            _ => None,
        }
    }

    fn is_watch_on(&self, worker: u32) -> bool
        ensures { result ≡ runs_as worker Kind.Watch self.now }
    {
        match &self.progress {
            Progress::Running(on, Kind::Watch) => *on == worker,
            _ => false,
        }
    }

    // Asks whether cancelling was requested.
    pub(crate) fn asked(&mut self, worker: u32) -> Result<bool, MtapiStatus>
        ensures reply { result ≡ asked_reply worker self.old }
        ensures new { self.new ≡ after_asked worker self.old }
    {
        if !self.is_watch_on(worker) {
            return Err(MtapiStatus::ErrTaskInvalid);
        }
        match looks_of(&self.args) {
            Some(most) if !self.seen && self.looks != most => {}
            _ => return Err(MtapiStatus::ErrParameter),
        }
        if self.requested {
            self.seen = true;
        } else {
            self.looks += 1;
        }
        Ok(self.requested)
    }

    // The end of a watch on this worker, or why it may not end.
    pub(crate) fn watch_end(&self, worker: u32) -> Result<TaskEnd, MtapiStatus>
        ensures { result ≡ watch_end_reply worker self.now }
    {
        if !self.is_watch_on(worker) {
            return Err(MtapiStatus::ErrTaskInvalid);
        }
        let Some(most) = looks_of(&self.args) else {
            return Ok(fault_of(&self.args));
        };
        if self.seen {
            Ok(TaskEnd::Cancelled)
        } else if self.looks < most {
            Err(MtapiStatus::ErrParameter)
        } else {
            Ok(TaskEnd::Completed(self.args.again()))
        }
    }
}

// How often a watch with these arguments looks.
fn looks_of(args: &Args) -> Option<u32>
    ensures { result ≡ watch_looks args.now }
{
    match args.as_slice() {
        [most] if *most >= 0 && *most <= MOST_LOOKS => Some(*most as u32),
        _ => None,
    }
}

// How a watch ends whose arguments aren't one number from 0 to 64.
fn fault_of(args: &Args) -> TaskEnd
    ensures { result ≡ args_fault args.now }
{
    if args.as_slice().len() == 1 {
        TaskEnd::Failed(MtapiStatus::ErrActionFailed)
    } else {
        TaskEnd::Failed(MtapiStatus::ErrArgSize)
    }
}
