//! The scheduler.

ghost use Rattle.std.specs.Prelude.{◌≡◌, ◌+◌, ◌≤◌, ◌<◌, ◌^◌, ℕ, [], replicate, Some, None, IfSome, IsNone, IfOk, Ok, OnOk, OnErr, slice_get, is_some, not, true, false, length};
ghost use Rattle.std.specs.Option.{option_copied, option_map};
ghost use Rattle.std.specs.Bool.{OnTrue, OnFalse};
ghost use Rattle.mtapi_values.specs.Attributes.{IsWithin};
ghost use Rattle.handle_pool.specs.Slots.{Slots, slot_of, slot_value, free_slot, changed, without, live_count};
ghost use Rattle.mtapi_values.specs.declared.statuses.MtapiStatus.TheVariants.{ErrQueueExists};
ghost use Rattle.handle_pool.specs.Walks.{SomeLive, NoneLive};
ghost use Rattle.linked_places.specs.Lists.{list_at, has_handle};
ghost use Rattle.mtapi_objects.specs.Actions.{Action, with_enabled};
ghost use Rattle.job_table.specs.Answers.{CreatesAction, Covers, IsUnion, Passes, job_of};
ghost use Rattle.mtapi_objects.specs.Tasks.{Task, is_unstarted, is_unended, runs_on, with_state, Running, runner, with_notes, cancel_requested};
ghost use Rattle.task_core.specs.Records.{asked_task, group_number, shown_state};
ghost use Rattle.task_core.specs.Answers.{task_look_reply, cancel_asked, after_asked, watch_end_of};
ghost use Rattle.task_core.specs.Tallies.{tallied};
ghost use Rattle.task_core.specs.Table.{AddsTask, IsLiveAnd, ended_in, looked_in, unended_count};
ghost use Rattle.task_board.specs.Picks.{IsBest, IsChoice, IsChoiceOf};
ghost use Rattle.queue_core.specs.Held.{new_queue_of, CreatesQueue, Finds, live_reply, with_opened, with_task, put_reply, NoTaskAt, facts_of, HasQueueId};
ghost use Rattle.group_core.specs.Members.{CreatesGroup, no_members, counts_of};
ghost use Rattle.task_board.specs.Seen.{seen_in};
ghost use Rattle.task_board.specs.Queued.{IsRoomFor, NoneWaitsIn};
ghost use Rattle.task_board.specs.Members.{MayJoin};
ghost use Rattle.task_board.specs.GroupMoves.{Regroups, TakesFirst, LeavesFirst};
ghost use Rattle.task_board.specs.Scheduler.{IsScheduler, Becomes, BecomesWith};
ghost use Rattle.task_board.specs.Walks.{walked};

use crate::covered::CoveredActions;
use crate::ends::{cores_beside, covered_cores};
use crate::marks::{clear, leave_queue, may_run, refresh, remark, remark_where_changed};
use crate::members::{join, note_end};
use crate::waiting::WaitingTasks;
use crate::walks::{Walk, count_in, first_in, next_in};
use group_core::Groups;
use handle_pool::slot_of;
use job_table::Cover;
use mtapi_values::{
    ActionHandle, Args, GroupHandle, Kind, Mask, MtapiStatus, NodeAttr, QueueAttr, QueueHandle,
    TaskEnd, TaskHandle,
};
use queue_core::{QueueFacts, Queues};
use ready_index::ReadyIndex;
use std::alloc::{AllocError, Global};
use std::marker::Model;
use task_core::{NewTask, TallyState, TaskLook, TaskRecord, TaskState, Tasks};

/// A task that a worker may take, the action by which it would run it, and its priority.
#[derive(Clone, Copy, Drop)]
pub struct Choice {
    /// The task.
    pub task: TaskHandle,
    /// The action.
    pub action: ActionHandle,
    /// The kind of the action.
    pub kind: Kind,
    /// The priority of the task.
    pub priority: u32,
}

/// Actions, tasks, queues and groups, and which of the tasks wait, may be taken, and run.
#[derive(Drop)]
pub struct Scheduler {
    settings: NodeAttr,
    actions: CoveredActions,
    tasks: Tasks,
    queues: Queues,
    // The tasks that a worker may take.
    ready: ReadyIndex,
    // The tasks that haven't begun.
    waiting: WaitingTasks,
    // The task that runs on each worker.
    running: [Option<TaskHandle>; 25],
    // The groups, each with its members.
    groups: Groups,
}

impl Model for Scheduler {
    ghost use Rattle.task_board.specs.Scheduler.{SchedulerTable, IsScheduler};

    ghost Value = { SchedulerTable };

    ghost view = { λ b. record {
      settings = b.settings;
      actions = b.actions;
      tasks = b.tasks;
      queues = b.queues;
      ready = b.ready;
      waiting = b.waiting;
      running = b.running;
      groups = b.groups;
    } };

    ghost invariant = { λ b. IsScheduler (record {
      settings = b.settings;
      actions = b.actions;
      tasks = b.tasks;
      queues = b.queues;
      ready = b.ready;
      waiting = b.waiting;
      running = b.running;
      groups = b.groups;
    }) };
}

// The tables that say what there is. Two functions of three calls each leave less to free on each way out than one of six.
fn new_tables(alloc: Global, attr: NodeAttr) -> Result<(CoveredActions, Tasks, Queues), AllocError>
    ensures action_turns { IfOk result (λ t. t.0.generations ≡ attr.generations) }
    ensures action_slots { IfOk result (λ t. t.0.slots ≡ replicate attr.actions (free_slot 1)) }
    ensures task_turns { IfOk result (λ t. t.1.pool.generations ≡ attr.generations) }
    ensures task_slots { IfOk result (λ t. t.1.pool.slots ≡ replicate attr.tasks (free_slot 1)) }
    ensures starts { IfOk result (λ t. t.1.starts ≡ 0) }
    ensures ends { IfOk result (λ t. t.1.ends ≡ 0) }
    ensures queue_turns { IfOk result (λ t. t.2.pool.generations ≡ attr.generations) }
    ensures queue_slots { IfOk result (λ t. t.2.pool.slots ≡ replicate attr.queues (free_slot 1)) }
    ensures queue_tasks { IfOk result (λ t. t.2.tasks ≡ attr.tasks) }
{
    let actions = CoveredActions::new(alloc, attr.actions(), attr.generations())?;
    let tasks = Tasks::new(alloc, attr.tasks(), attr.generations())?;
    let queues = Queues::new(alloc, attr.queues(), attr.generations(), attr.tasks())?;
    Ok((actions, tasks, queues))
}

// What is kept beside the tables: the marks, the waiting tasks and the members of the groups.
fn new_places(
    alloc: Global,
    attr: NodeAttr,
) -> Result<(ReadyIndex, WaitingTasks, Groups), AllocError>
    ensures few { attr.workers ≤ 16 }
    ensures some { 1 ≤ attr.actions }
    ensures ready { IfOk result (λ t.
        t.0 ≡ record { workers = attr.workers; priorities = attr.priorities; marks = replicate attr.tasks None }) }
    ensures places { IfOk result (λ t. t.1.places ≡ attr.tasks) }
    ensures lists { IfOk result (λ t. t.1.lists ≡ replicate 1 []) }
    ensures by_job { IfOk result (λ t. t.1.by_job ≡ replicate attr.actions []) }
    ensures group_turns { IfOk result (λ t. t.2.pool.generations ≡ attr.generations) }
    ensures group_slots { IfOk result (λ t. t.2.pool.slots ≡ replicate attr.groups (free_slot 1)) }
    ensures group_tasks { IfOk result (λ t. t.2.tasks ≡ attr.tasks) }
{
    let ready = ReadyIndex::new(alloc, attr.tasks(), attr.workers(), attr.priorities())?;
    let waiting = WaitingTasks::new(alloc, attr.actions(), attr.tasks())?;
    let groups = Groups::new(alloc, attr.groups(), attr.generations(), attr.tasks())?;
    Ok((ready, waiting, groups))
}

impl Scheduler {
    /// Makes a scheduler without actions, tasks, queues and groups, with room for as many as the
    /// settings say, and takes all the memory that they will use. It fails for want of memory
    /// alone.
    pub fn new(alloc: Global, attr: NodeAttr) -> Result<Scheduler, AllocError>
        ensures settings { IfOk result (λ b. b.settings ≡ attr) }
        ensures action_turns { IfOk result (λ b. b.actions.generations ≡ attr.generations) }
        ensures action_slots { IfOk result (λ b. b.actions.slots ≡ replicate attr.actions (free_slot 1)) }
        ensures task_turns { IfOk result (λ b. b.tasks.pool.generations ≡ attr.generations) }
        ensures task_slots { IfOk result (λ b. b.tasks.pool.slots ≡ replicate attr.tasks (free_slot 1)) }
        ensures group_turns { IfOk result (λ b. b.groups.pool.generations ≡ attr.generations) }
        ensures group_slots { IfOk result (λ b. b.groups.pool.slots ≡ replicate attr.groups (free_slot 1)) }
        ensures starts { IfOk result (λ b. b.tasks.starts ≡ 0) }
        ensures ends { IfOk result (λ b. b.tasks.ends ≡ 0) }
        ensures queue_turns { IfOk result (λ b. b.queues.pool.generations ≡ attr.generations) }
        ensures queue_slots { IfOk result (λ b. b.queues.pool.slots ≡ replicate attr.queues (free_slot 1)) }
    {
        let (actions, tasks, queues) = new_tables(alloc, attr)?;
        let (ready, waiting, groups) = new_places(alloc, attr)?;
        Ok(Scheduler {
            settings: attr,
            actions,
            tasks,
            queues,
            ready,
            waiting,
            running: [None; 25],
            groups,
        })
    }

    /// What the marks, the waiting tasks, the running ones, those of the queues and the members of the groups are.
    pub fn is_kept(&self)
        ensures { IsScheduler self.now }
    {
        let _ = self.settings.workers();
    }

    /// The settings.
    pub fn settings(&self) -> &NodeAttr
        ensures { result.now ≡ self.now.settings }
    {
        &self.settings
    }

    /// The number of workers.
    pub fn workers(&self) -> u32
        ensures value { result ≡ self.now.settings.workers }
        ensures range { IsWithin 1 16 result }
    {
        self.settings.workers()
    }

    /// The number of priorities.
    pub fn priorities(&self) -> u32
        ensures value { result ≡ self.now.settings.priorities }
        ensures range { IsWithin 1 8 result }
    {
        self.settings.priorities()
    }

    /// Tells how many actions are live.
    pub fn live_actions(&self) -> u32
        ensures { result ≡ live_count self.now.actions }
    {
        self.actions.live()
    }

    /// Tells how many tasks are live.
    pub fn live_tasks(&self) -> u32
        ensures { result ≡ live_count self.now.tasks.pool }
    {
        self.tasks.live()
    }

    /// Tells how many groups are live.
    pub fn live_groups(&self) -> u32
        ensures { result ≡ live_count self.now.groups.pool }
    {
        self.groups.live()
    }

    /// Tells how many queues are live.
    pub fn live_queues(&self) -> u32
        ensures { result ≡ live_count self.now.queues.pool }
    {
        self.queues.live()
    }

    /// Whether a handle names a live action.
    pub fn is_action(&self, a: ActionHandle) -> bool
        ensures { result ≡ is_some (slot_value self.now.actions a.0) }
    {
        self.actions.is_live(a)
    }

    /// Which cores the live actions of a job cover.
    pub fn cover(&self, job: u32) -> Cover
        ensures { Covers self.now.actions job result }
    {
        self.actions.cover(job)
    }

    // Keeps what the actions of a job cover at hand, until an action changes or another job is asked for.
    pub(crate) fn keep_cover(&mut self, job: u32)
        ensures { self.new ≡ self.old }
    {
        self.actions.keep_cover(job);
    }

    /// How many tasks haven't ended.
    pub fn unended(&self) -> u64
        ensures { result ≡ unended_count self.now.tasks.pool }
    {
        self.tasks.unended()
    }

    /// Tells how far a live task has come. None exactly where it isn't live.
    pub fn state(&self, t: TaskHandle) -> Option<TaskState>
        ensures { result ≡ option_map (λ (task : Task). shown_state task.state) (slot_value self.now.tasks.pool t.0) }
    {
        self.tasks.state(t)
    }

    /// The record of a live task. None exactly where it isn't live.
    pub fn task(&self, t: TaskHandle) -> Option<&TaskRecord>
        ensures { option_copied result ≡ slot_value self.now.tasks.pool t.0 }
    {
        self.tasks.get(t)
    }

    /// How a watch that runs on the worker ends, as `Tasks::watch_end` says it.
    pub fn watch_end(&self, t: TaskHandle, worker: u32) -> Result<TaskEnd, MtapiStatus>
        ensures { result ≡ watch_end_of worker (slot_value self.now.tasks.pool t.0) }
    {
        self.tasks.watch_end(t, worker)
    }

    // How many tasks a walk has.
    pub(crate) fn walked_count(&self, walk: Walk) -> u32
        ensures { result ≡ length (walked walk self.now.waiting self.now.queues.pool) }
    {
        count_in(&self.waiting, &self.queues, walk)
    }

    // The first task of a walk.
    pub(crate) fn first_walked(&self, walk: Walk) -> Option<u64>
        ensures { result ≡ slice_get (walked walk self.now.waiting self.now.queues.pool) 0 }
    {
        first_in(&self.waiting, &self.queues, walk)
    }

    // The task after this one of a walk.
    pub(crate) fn next_walked(&self, walk: Walk, task: u64) -> Option<u64>
        requires { has_handle task (walked walk self.now.waiting self.now.queues.pool) ≡ true }
        ensures { (i : ℕ) → slice_get (walked walk self.now.waiting self.now.queues.pool) i ≡ Some task
            → result ≡ slice_get (walked walk self.now.waiting self.now.queues.pool) (i + 1) }
    {
        next_in(&self.waiting, &self.queues, walk, task)
    }

    /// Whether a task runs on the worker.
    pub fn is_running(&self, worker: u32) -> bool
        requires { worker < self.now.settings.workers }
        ensures some { OnTrue result (SomeLive (slot_value self.now.tasks.pool) (Passes (runs_on worker))) }
        ensures none { OnFalse result (NoneLive (slot_value self.now.tasks.pool) (Passes (runs_on worker))) }
    {
        let _ = self.settings.workers();
        self.running[worker as usize].is_some()
    }

    /// Finds a task of the least priority number that the worker may take. None exactly where it
    /// may take none; which of several isn't said.
    pub fn best(&self, worker: u32) -> Option<Choice>
        requires { worker < self.now.settings.workers }
        ensures { IsBest self.now.actions self.now.tasks.pool self.now.queues.pool worker result }
    {
        let Some((_, place)) = self.ready.first_for(worker) else {
            return None;
        };
        let Some((task, record)) = self.tasks.slot_at(place) else {
            unreachable!()
        };
        let Some((action, kind)) = self.actions.choice(record.job(), worker) else {
            unreachable!()
        };
        Some(Choice {
            task,
            action,
            kind,
            priority: record.priority(),
        })
    }

    /// The choice of this task and this action, for a worker that wants just these. None exactly
    /// where the worker may not take the task by the action.
    pub fn choice_of(&self, worker: u32, task: TaskHandle, action: ActionHandle) -> Option<Choice>
        requires { worker < self.now.settings.workers }
        ensures { IsChoiceOf self.now.actions self.now.tasks.pool self.now.queues.pool worker task action result }
    {
        let _ = self.settings.workers();
        let Some(record) = self.tasks.get(task) else {
            return None;
        };
        if !may_run(&self.queues, task, record, worker) {
            return None;
        }
        let Some(kind) = self.actions.kind_for(action, record.job(), worker) else {
            return None;
        };
        Some(Choice {
            task,
            action,
            kind,
            priority: record.priority(),
        })
    }

    /// A look by a seat, as `Tasks::look` says it.
    pub fn look(&mut self, t: TaskHandle, who: u32, last: bool) -> TaskLook
        ensures reply { result ≡ task_look_reply who last (slot_value self.old.tasks.pool t.0) }
        ensures new { Becomes self.old self.new self.old.actions (record self.old.tasks { pool = looked_in self.old.tasks.pool t.0 who last (slot_value self.old.tasks.pool t.0) }) }
    {
        self.tasks.look(t, who, last)
    }

    /// Whether a watch that runs on the worker is to cancel, as `Tasks::asked` says it.
    pub fn asked(&mut self, t: TaskHandle, worker: u32) -> Result<bool, MtapiStatus>
        ensures reply { result ≡ cancel_asked worker (slot_value self.old.tasks.pool t.0) }
        ensures new { Becomes self.old self.new self.old.actions (record self.old.tasks { pool = changed self.old.tasks.pool t.0 (after_asked worker) }) }
    {
        self.tasks.asked(t, worker)
    }

    /// Asks a running task to cancel.
    pub fn request(&mut self, t: TaskHandle)
        requires { IsLiveAnd (λ task. is_some (runner task.state)) (slot_value self.old.tasks.pool t.0) }
        ensures { Becomes self.old self.new self.old.actions (record self.old.tasks { pool = changed self.old.tasks.pool t.0 (with_notes cancel_requested) }) }
    {
        self.tasks.request(t);
    }

    /// Notes how far the tally of a task has come. Changes nothing where the task isn't live.
    pub fn note_tally(&mut self, t: TaskHandle, tally: TallyState)
        ensures { Becomes self.old self.new self.old.actions (record self.old.tasks { pool = changed self.old.tasks.pool t.0 (tallied tally) }) }
    {
        self.tasks.note_tally(t, tally);
    }

    /// The cores that the enabled actions of an action's job cover, and none where the action isn't live.
    pub fn covered(&self, a: ActionHandle) -> Mask
        ensures live { (x : Action) → slot_value self.now.actions a.0 ≡ Some x
            → IsUnion self.now.actions x.job result.0 }
        ensures gone { slot_value self.now.actions a.0 ≡ None → result.0 ≡ 0 }
    {
        cores_beside(&self.actions, a)
    }

    /// Makes an enabled action, as `Actions::create` says it.
    pub fn create_action(
        &mut self,
        job: u32,
        kind: Kind,
        cores: Mask,
    ) -> Result<ActionHandle, MtapiStatus>
        ensures creates { CreatesAction self.old.actions job kind cores.0 result self.new.actions }
        ensures new { Becomes self.old self.new self.new.actions self.old.tasks }
    {
        let before = covered_cores(self.actions.cover(job));
        let action = self.actions.create(job, kind, cores)?;
        remark_where_changed(
            &mut self.ready,
            &self.waiting,
            &self.tasks,
            &self.queues,
            &self.actions,
            job,
            before,
        );
        Ok(action)
    }

    /// Enables an action, as `Actions::enable` says it.
    pub fn enable_action(&mut self, a: ActionHandle) -> Result<u32, MtapiStatus>
        ensures reply { result ≡ job_of (slot_value self.old.actions a.0) }
        ensures new { Becomes self.old self.new (changed self.old.actions a.0 (with_enabled true)) self.old.tasks }
    {
        let before = cores_beside(&self.actions, a);
        let job = self.actions.enable(a)?;
        remark_where_changed(
            &mut self.ready,
            &self.waiting,
            &self.tasks,
            &self.queues,
            &self.actions,
            job,
            before,
        );
        Ok(job)
    }

    /// Disables an action, as `Actions::disable` says it.
    pub fn disable_action(&mut self, a: ActionHandle) -> Result<u32, MtapiStatus>
        ensures reply { result ≡ job_of (slot_value self.old.actions a.0) }
        ensures new { Becomes self.old self.new (changed self.old.actions a.0 (with_enabled false)) self.old.tasks }
    {
        let before = cores_beside(&self.actions, a);
        let job = self.actions.disable(a)?;
        remark_where_changed(
            &mut self.ready,
            &self.waiting,
            &self.tasks,
            &self.queues,
            &self.actions,
            job,
            before,
        );
        Ok(job)
    }

    /// Gives up an action, as `Actions::delete` says it.
    pub fn delete_action(&mut self, a: ActionHandle) -> Result<u32, MtapiStatus>
        ensures reply { result ≡ job_of (slot_value self.old.actions a.0) }
        ensures ok { OnOk result (Becomes self.old self.new (without self.old.actions a.0) self.old.tasks) }
        ensures err { OnErr result (Becomes self.old self.new self.old.actions self.old.tasks) }
    {
        let before = cores_beside(&self.actions, a);
        let job = self.actions.delete(a)?;
        remark_where_changed(
            &mut self.ready,
            &self.waiting,
            &self.tasks,
            &self.queues,
            &self.actions,
            job,
            before,
        );
        Ok(job)
    }

    /// Adds a scheduled task of no queue, as `Tasks::add` says it. It enters the group that it names.
    pub fn add(&mut self, task: NewTask) -> Result<TaskHandle, MtapiStatus>
        requires few { self.old.tasks.starts < 2 ^ 63 }
        requires priority { task.priority < self.old.settings.priorities }
        requires no_queue { task.queue ≡ None }
        requires member { MayJoin self.old.groups.pool task.detached (group_number task.group) }
        ensures adds { AddsTask self.old.tasks (asked_task task) result self.new.tasks }
        ensures new { Becomes self.old self.new self.old.actions self.new.tasks }
    {
        self.keep_cover(task.job);
        self.add_task(task)
    }

    // The same. It asks for what the actions of the job cover, which is kept while tasks of one job are added.
    fn add_task(&mut self, task: NewTask) -> Result<TaskHandle, MtapiStatus>
        requires few { self.old.tasks.starts < 2 ^ 63 }
        requires priority { task.priority < self.old.settings.priorities }
        requires no_queue { task.queue ≡ None }
        requires member { MayJoin self.old.groups.pool task.detached (group_number task.group) }
        ensures adds { AddsTask self.old.tasks (asked_task task) result self.new.tasks }
        ensures new { Becomes self.old self.new self.old.actions self.new.tasks }
    {
        let group = task.group;
        let job = task.job;
        match self.tasks.add(task) {
            Ok(task) => {
                self.waiting.push(job, task.0);
                refresh(
                    &mut self.ready,
                    &self.actions,
                    &self.tasks,
                    &self.queues,
                    task,
                );
                join(&mut self.groups, group, task);
                Ok(task)
            }
            Err(status) => Err(status),
        }
    }

    /// Adds a scheduled task to a live queue that takes it, as `Tasks::add` says it. It enters the
    /// group that it names. That the queue takes it is for the caller to see first.
    pub fn enqueue(&mut self, queue: QueueHandle, task: NewTask) -> Result<TaskHandle, MtapiStatus>
        requires few { self.old.tasks.starts < 2 ^ 63 }
        requires queue { IsRoomFor self.old.queues.pool queue.0 (asked_task task) }
        requires member { MayJoin self.old.groups.pool task.detached (group_number task.group) }
        ensures adds { AddsTask self.old.tasks (asked_task task) result self.new.tasks }
        ensures new { Becomes self.old self.new self.old.actions self.new.tasks }
    {
        self.keep_cover(task.job);
        self.enqueue_task(queue, task)
    }

    // The same, as for a task of no queue.
    fn enqueue_task(&mut self, queue: QueueHandle, task: NewTask) -> Result<TaskHandle, MtapiStatus>
        requires few { self.old.tasks.starts < 2 ^ 63 }
        requires queue { IsRoomFor self.old.queues.pool queue.0 (asked_task task) }
        requires member { MayJoin self.old.groups.pool task.detached (group_number task.group) }
        ensures adds { AddsTask self.old.tasks (asked_task task) result self.new.tasks }
        ensures new { Becomes self.old self.new self.old.actions self.new.tasks }
    {
        let group = task.group;
        let job = task.job;
        self.queues.is_kept();
        match self.tasks.add(task) {
            Ok(task) => {
                self.waiting.push(job, task.0);
                put_in(&mut self.queues, queue, task);
                refresh(
                    &mut self.ready,
                    &self.actions,
                    &self.tasks,
                    &self.queues,
                    task,
                );
                join(&mut self.groups, group, task);
                Ok(task)
            }
            Err(status) => Err(status),
        }
    }

    /// Has a worker that runs nothing take what was chosen, and gives a copy of the arguments.
    pub fn take(&mut self, worker: u32, choice: Choice) -> Args
        requires worker { worker < self.old.settings.workers }
        requires free { NoneLive (slot_value self.old.tasks.pool) (Passes (runs_on worker)) }
        requires choice { IsChoice self.old.actions self.old.tasks.pool self.old.queues.pool worker choice }
        ensures args { option_map (λ (task : Task).
            task.args) (slot_value self.old.tasks.pool choice.task.0) ≡ Some result }
        ensures new { Becomes self.old self.new self.old.actions (record self.old.tasks { pool = changed self.old.tasks.pool choice.task.0 (with_state (Running worker choice.kind)) }) }
    {
        let _ = self.settings.workers();
        let Some(task) = self.tasks.get(choice.task) else {
            unreachable!()
        };
        self.waiting.remove(task.job(), choice.task.0);
        clear(&mut self.ready, slot_of(choice.task.0));
        self.running[worker as usize] = Some(choice.task);
        self.tasks.run_on(choice.task, worker, choice.kind)
    }

    /// Ends a task, as `Tasks::end_with` says it.
    pub fn end_with(&mut self, t: TaskHandle, end: TaskEnd)
        requires { IsLiveAnd is_unended (slot_value self.old.tasks.pool t.0) }
        ensures { Becomes self.old self.new self.old.actions (record self.old.tasks { pool = ended_in self.old.tasks.pool t.0 end self.old.tasks.ends (slot_value self.old.tasks.pool t.0); ends = self.old.tasks.ends + 1 }) }
    {
        let Some(task) = self.tasks.get(t) else {
            unreachable!()
        };
        let state = task.state();
        let job = task.job();
        let queue = task.queue();
        let group = task.group();
        self.queues.is_kept();
        self.tasks.end_with(t, end);
        clear(&mut self.ready, slot_of(t.0));
        leave_queue(
            &mut self.ready,
            &self.actions,
            &self.tasks,
            &mut self.queues,
            queue,
            t,
        );
        note_end(&mut self.groups, group, t);
        match state {
            TaskState::Scheduled => self.waiting.remove(job, t.0),
            TaskState::Running { worker, .. } => self.running[worker as usize] = None,
            TaskState::Ended => unreachable!(),
        }
    }

    /// A live queue at a glance. None exactly where it isn't live.
    pub fn queue(&self, q: QueueHandle) -> Option<QueueFacts>
        ensures { result ≡ option_map facts_of (slot_value self.now.queues.pool q.0) }
    {
        self.queues.facts(q)
    }

    /// The live queue of an id, as `Queues::get` says it.
    pub fn get_queue(&self, id: u32) -> Result<QueueHandle, MtapiStatus>
        ensures { Finds self.now.queues.pool id result }
    {
        self.queues.get(id)
    }

    /// Tells why a create of a queue of this id is refused, as `Queues::create_refusal` says it.
    pub fn queue_refusal(&self, id: u32) -> Option<MtapiStatus>
        ensures exists { IfSome result (λ c. (c ≡ ErrQueueExists)
            × SomeLive (slot_value self.now.queues.pool) (HasQueueId id)) }
        ensures new_id { IsNone result → NoneLive (slot_value self.now.queues.pool) (HasQueueId id) }
    {
        self.queues.create_refusal(id)
    }

    /// Makes an enabled queue with no tasks, as `Queues::create` says it.
    pub fn create_queue(
        &mut self,
        id: u32,
        job: u32,
        attr: QueueAttr,
    ) -> Result<QueueHandle, MtapiStatus>
        requires { attr.priority < self.old.settings.priorities }
        ensures creates { CreatesQueue self.old.queues (new_queue_of id job attr) result self.new.queues }
        ensures new { BecomesWith self.old self.new self.new.queues.pool }
    {
        self.queues.create(id, job, attr)
    }

    /// Has the tasks of a queue begin again, as `Queues::enable` says it.
    pub fn enable_queue(&mut self, q: QueueHandle) -> Result<(), MtapiStatus>
        ensures reply { result ≡ live_reply (slot_value self.old.queues.pool q.0) }
        ensures new { BecomesWith self.old self.new (changed self.old.queues.pool q.0 (with_opened true)) }
    {
        self.open_queue(q, true)
    }

    /// Has no further task of a queue begin, as `Queues::disable` says it.
    pub fn disable_queue(&mut self, q: QueueHandle) -> Result<(), MtapiStatus>
        ensures reply { result ≡ live_reply (slot_value self.old.queues.pool q.0) }
        ensures new { BecomesWith self.old self.new (changed self.old.queues.pool q.0 (with_opened false)) }
    {
        self.open_queue(q, false)
    }

    // Enables or disables a queue, and marks its tasks anew.
    fn open_queue(&mut self, q: QueueHandle, enabled: bool) -> Result<(), MtapiStatus>
        ensures reply { result ≡ live_reply (slot_value self.old.queues.pool q.0) }
        ensures new { BecomesWith self.old self.new (changed self.old.queues.pool q.0 (with_opened enabled)) }
    {
        let Some(facts) = self.queues.facts(q) else {
            return Err(MtapiStatus::ErrQueueInvalid);
        };
        let result = self.queues.set_enabled(q, enabled);
        remark(
            &mut self.ready,
            &self.waiting,
            &self.tasks,
            &self.queues,
            &self.actions,
            Walk::Queued(q),
            facts.job,
        );
        result
    }

    /// Gives up a queue whose tasks have all begun, as `Queues::delete` says it.
    pub fn delete_queue(&mut self, q: QueueHandle) -> Result<(), MtapiStatus>
        requires { NoneWaitsIn q.0 (seen_in self.old.tasks.pool) }
        ensures reply { result ≡ live_reply (slot_value self.old.queues.pool q.0) }
        ensures ok { OnOk result (BecomesWith self.old self.new (without self.old.queues.pool q.0)) }
        ensures err { OnErr result (BecomesWith self.old self.new self.old.queues.pool) }
    {
        self.queues.delete(q)
    }

    /// Makes a group with no members, as `Groups::create` says it.
    pub fn create_group(&mut self) -> Result<GroupHandle, MtapiStatus>
        ensures creates { CreatesGroup self.old.groups result self.new.groups }
        ensures others { Regroups self.old self.new self.old.tasks }
    {
        self.groups.create()
    }

    /// Gives up a live group that has no members.
    pub fn delete_group(&mut self, g: GroupHandle)
        requires empty { slot_value self.old.groups.pool g.0 ≡ Some no_members }
        ensures group { self.new.groups.pool ≡ without self.old.groups.pool g.0 }
        ensures others { Regroups self.old self.new self.old.tasks }
    {
        let _ = self.groups.delete(g);
    }

    /// Tells how many members of a live group weren't handed out, and how many of these have ended.
    /// None exactly where the group isn't live.
    pub fn left(&self, g: GroupHandle) -> Option<(u32, u32)>
        ensures { result ≡ option_map counts_of (slot_value self.now.groups.pool g.0) }
    {
        self.groups.left(g)
    }

    /// Frees the member of a group that ended first, and gives its end. None where the group isn't
    /// live, or no member is left that has ended.
    pub fn take_first(&mut self, g: GroupHandle) -> Option<(TaskHandle, TaskEnd)>
        ensures { TakesFirst self.old g.0 result self.new }
    {
        self.groups.is_kept();
        match self.groups.take(g) {
            Some(task) => Some((task, self.tasks.free(task))),
            None => None,
        }
    }

    /// Has the member of a group that entered first leave, of those that haven't ended; it becomes
    /// detached. None where the group isn't live, or there is no such member.
    pub fn leave_first(&mut self, g: GroupHandle) -> Option<TaskHandle>
        ensures { LeavesFirst self.old g.0 result self.new }
    {
        self.groups.is_kept();
        match self.groups.leave(g) {
            Some(task) => {
                self.tasks.detach(task);
                Some(task)
            }
            None => None,
        }
    }
}

// Puts a task into a live queue that takes it.
fn put_in(queues: &mut Queues, queue: QueueHandle, task: TaskHandle)
    requires slot { slot_of task.0 < queues.old.tasks }
    requires alone { NoTaskAt (slot_of task.0) queues.old.pool }
    requires takes { put_reply (slot_value queues.old.pool queue.0) ≡ Ok tt }
    ensures { queues.new ≡ record queues.old { pool = changed queues.old.pool queue.0 (with_task task.0) } }
{
    match queues.put(queue, task) {
        Ok(()) => {}
        Err(_) => unreachable!(),
    }
}
