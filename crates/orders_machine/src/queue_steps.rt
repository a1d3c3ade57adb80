//! Statements on queues.

use crate::lists::{at, put};
use crate::machine::Machine;
use crate::state::{End, Queue, State};
use crate::statements::{Attempt, executed, named, refused};
use crate::table::Site;
use mtapi_values::MtapiStatus;

/// How many of these queues are live.
fn live_count(queues: &[Queue]) -> usize {
    let mut count = 0usize;
    for queue in queues {
        if queue.live {
            count = count.saturating_add(1);
        }
    }
    count
}

impl Machine<'_> {
    /// The live queue of an id.
    fn queue_with(&self, state: &State, id: u32) -> Option<usize> {
        for (queue, now) in state.queues.as_slice().iter().enumerate() {
            if let Some(plan) = at(self.table.queues.as_slice(), queue) {
                if now.live && plan.id == id {
                    return Some(queue);
                }
            }
        }
        None
    }

    pub(crate) fn create_queue(&self, state: &mut State, site: Site) -> Attempt {
        let own = self.own(site);
        let Some(plan) = at(self.table.queues.as_slice(), own) else {
            return Attempt::Blocked;
        };
        if plan.priority >= self.load.settings.priorities()
            || plan.limit < 1
            || plan.limit > 65_536
        {
            return refused(MtapiStatus::ErrParameter);
        }
        if !self.has_job(state, plan.job, false) {
            return refused(MtapiStatus::ErrJobInvalid);
        }
        if self.queue_with(state, plan.id).is_some() {
            return refused(MtapiStatus::ErrQueueExists);
        }
        if live_count(state.queues.as_slice()) >= self.load.settings.queues() as usize {
            return refused(MtapiStatus::ErrQueueLimit);
        }
        let enabled = true;
        put(
            &mut state.queues,
            own,
            Queue {
                live: true,
                enabled,
            },
        );
        named(own)
    }

    pub(crate) fn get_queue(&self, state: &State, id: u32) -> Attempt {
        match self.queue_with(state, id) {
            Some(queue) => named(queue),
            None => refused(MtapiStatus::ErrQueueInvalid),
        }
    }

    /// The live queue of a name.
    pub(crate) fn live_queue(&self, state: &State, part: usize, place: u32) -> Option<usize> {
        let queue = self.bound(state, part, place)?;
        let now = at(state.queues.as_slice(), queue)?;
        if now.live { Some(queue) } else { None }
    }

    pub(crate) fn enable_queue(&self, state: &mut State, part: usize, place: u32) -> Attempt {
        let Some(queue) = self.live_queue(state, part, place) else {
            return refused(MtapiStatus::ErrQueueInvalid);
        };
        let (live, enabled) = (true, true);
        put(&mut state.queues, queue, Queue { live, enabled });
        executed()
    }

    /// The tasks of a queue that haven't begun end so.
    fn end_waiting(&self, state: &mut State, queue: usize, end: End) {
        for task in 0..state.tasks.len() {
            let Some(now) = at(state.tasks.as_slice(), task) else {
                continue;
            };
            if now.is_scheduled() && self.is_of(state, queue, task) {
                self.end_task(state, task, end);
            }
        }
    }

    pub(crate) fn disable_queue(&self, state: &mut State, part: usize, place: u32) -> Attempt {
        let Some(queue) = self.live_queue(state, part, place) else {
            return refused(MtapiStatus::ErrQueueInvalid);
        };
        let (live, enabled) = (true, false);
        put(&mut state.queues, queue, Queue { live, enabled });
        match at(self.table.queues.as_slice(), queue) {
            Some(plan) if !plan.retain => self.end_waiting(state, queue, End::Cancelled),
            _ => {}
        }
        executed()
    }

    pub(crate) fn delete_queue(&self, state: &mut State, part: usize, place: u32) -> Attempt {
        let Some(queue) = self.live_queue(state, part, place) else {
            return refused(MtapiStatus::ErrQueueInvalid);
        };
        self.end_waiting(state, queue, End::Failed(MtapiStatus::ErrQueueDeleted));
        let (live, enabled) = (false, false);
        put(&mut state.queues, queue, Queue { live, enabled });
        executed()
    }

    /// Whether a task hasn't begun, and its queue is disabled.
    fn is_shut(&self, state: &State, task: usize) -> bool {
        let Some(now) = at(state.tasks.as_slice(), task) else {
            return false;
        };
        let Some(plan) = at(self.table.tasks.as_slice(), task) else {
            return false;
        };
        let Some(queue) = self.queue_of(state, &plan) else {
            return false;
        };
        match at(state.queues.as_slice(), queue) {
            Some(queue) => now.is_scheduled() && queue.live && !queue.enabled,
            None => false,
        }
    }

    /// The tasks of disabled queues that haven't begun end cancelled.
    pub(crate) fn end_shut(&self, state: &mut State) {
        for task in 0..state.tasks.len() {
            if self.is_shut(state, task) {
                self.end_task(state, task, End::Cancelled);
            }
        }
    }
}
