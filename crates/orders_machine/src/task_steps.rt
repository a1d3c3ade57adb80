//! Statements that start tasks, wait for them and cancel them.

use crate::lists::{at, put};
use crate::machine::Machine;
use crate::state::{Bond, End, NO_TASK, Outcome, Progress, State, Task, Told};
use crate::statements::{Attempt, executed, named, refused};
use crate::table::{QueuePlan, Site, TaskPlan};
use mtapi_values::{Kind, MtapiStatus};

/// How many of these tasks are live.
fn live_count(tasks: &[Task]) -> usize {
    let mut count = 0usize;
    for task in tasks {
        if task.live {
            count = count.saturating_add(1);
        }
    }
    count
}

impl Machine<'_> {
    /// What the job, the group and the cores of a new task are refused for.
    fn start_refusal(&self, state: &State, plan: &TaskPlan, job: u32) -> Option<MtapiStatus> {
        if !self.has_job(state, job, false) {
            return Some(MtapiStatus::ErrJobInvalid);
        }
        if let Some(place) = plan.group {
            if self.live_group(state, plan.site.part, place).is_none() {
                return Some(MtapiStatus::ErrGroupInvalid);
            }
        }
        if !self.has_job(state, job, true) {
            return Some(MtapiStatus::ErrActionDisabled);
        }
        if !self.is_served(state, job, plan.cores) {
            return Some(MtapiStatus::ErrNoCore);
        }
        None
    }

    /// A task is made, if there is room.
    fn schedule(&self, state: &mut State, site: Site, plan: &TaskPlan, turn: u16) -> Attempt {
        if live_count(state.tasks.as_slice()) >= self.load.settings.tasks() as usize {
            return refused(MtapiStatus::ErrTaskLimit);
        }
        let bond = if plan.detached {
            Bond::Detached
        } else if plan.group.is_some() {
            Bond::Member
        } else {
            Bond::Alone
        };
        let own = self.own(site);
        put(
            &mut state.tasks,
            own,
            Task {
                progress: Progress::Scheduled,
                live: true,
                bond,
                turn,
                ..NO_TASK
            },
        );
        named(own)
    }

    pub(crate) fn start(&self, state: &mut State, site: Site) -> Attempt {
        let Some(plan) = at(self.table.tasks.as_slice(), self.own(site)) else {
            return Attempt::Blocked;
        };
        if plan.priority >= self.load.settings.priorities()
            || (plan.detached && plan.group.is_some())
        {
            return refused(MtapiStatus::ErrParameter);
        }
        if let Some(status) = self.start_refusal(state, &plan, plan.job) {
            return refused(status);
        }
        self.schedule(state, site, &plan, 0)
    }

    /// How many tasks of a queue haven't ended.
    fn held_by(&self, state: &State, queue: usize) -> u32 {
        let mut count = 0u32;
        for (task, now) in state.tasks.as_slice().iter().enumerate() {
            if now.is_unended() && self.is_of(state, queue, task) {
                count = count.saturating_add(1);
            }
        }
        count
    }

    /// What an enqueue into a live queue is refused for before it looks for room.
    fn put_refusal(&self, state: &State, plan: &TaskPlan, queue: usize) -> Option<MtapiStatus> {
        let made = at(self.table.queues.as_slice(), queue)?;
        let now = at(state.queues.as_slice(), queue)?;
        if !now.enabled && !made.retain {
            return Some(MtapiStatus::ErrQueueDisabled);
        }
        self.start_refusal(state, plan, made.job)
    }

    /// A task is put into a queue, if the queue has room.
    fn queue_up(
        &self,
        state: &mut State,
        site: Site,
        plan: &TaskPlan,
        queue: usize,
        made: QueuePlan,
    ) -> Attempt {
        let held = self.held_by(state, queue);
        if held >= made.limit {
            return refused(MtapiStatus::ErrQueueLimit);
        }
        let turn = if made.ordered {
            u16::try_from(held).unwrap_or(u16::MAX).saturating_add(1)
        } else {
            0
        };
        self.schedule(state, site, plan, turn)
    }

    pub(crate) fn enqueue(&self, state: &mut State, site: Site) -> Attempt {
        let Some(plan) = at(self.table.tasks.as_slice(), self.own(site)) else {
            return Attempt::Blocked;
        };
        if plan.detached && plan.group.is_some() {
            return refused(MtapiStatus::ErrParameter);
        }
        let place = plan.queue.unwrap_or(0);
        let Some(queue) = self.live_queue(state, site.part, place) else {
            return refused(MtapiStatus::ErrQueueInvalid);
        };
        let Some(made) = at(self.table.queues.as_slice(), queue) else {
            return refused(MtapiStatus::ErrQueueInvalid);
        };
        if let Some(status) = self.put_refusal(state, &plan, queue) {
            return refused(status);
        }
        self.queue_up(state, site, &plan, queue, made)
    }

    /// The live task of a name.
    fn live_task(&self, state: &State, part: usize, place: u32) -> Option<(usize, Task)> {
        let task = self.bound(state, part, place)?;
        let now = at(state.tasks.as_slice(), task)?;
        if now.live { Some((task, now)) } else { None }
    }

    pub(crate) fn wait(&self, state: &mut State, part: usize, place: u32) -> Attempt {
        let Some((task, now)) = self.live_task(state, part, place) else {
            return refused(MtapiStatus::ErrTaskInvalid);
        };
        if now.bond != Bond::Alone {
            return refused(MtapiStatus::ErrParameter);
        }
        if now.is_unended() {
            return Attempt::Blocked;
        }
        put(&mut state.tasks, task, Task { live: false, ..now });
        executed()
    }

    /// A running task is asked to stop. Only a watch that hasn't asked for the last time will know.
    fn request(&self, state: &mut State, task: usize, now: Task, kind: Kind) {
        if kind == Kind::Watch && now.told == Told::Nothing {
            let told = Told::Requested;
            put(&mut state.tasks, task, Task { told, ..now });
        }
    }

    pub(crate) fn cancel(&self, state: &mut State, part: usize, place: u32) -> Attempt {
        let Some((task, now)) = self.live_task(state, part, place) else {
            return refused(MtapiStatus::ErrTaskInvalid);
        };
        match now.progress {
            Progress::Scheduled => self.end_task(state, task, End::Cancelled),
            Progress::Running { kind, .. } => self.request(state, task, now, kind),
            _ => {}
        }
        Attempt::Makes(Outcome::Done)
    }
}
