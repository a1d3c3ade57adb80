//! Statements on actions, and which tasks some worker can take.

use crate::lists::{at, put};
use crate::machine::{Machine, in_mask};
use crate::state::{Ability, End, State};
use crate::statements::{Attempt, executed, named, refused};
use crate::table::{Site, TaskPlan};
use mtapi_values::MtapiStatus;

/// How many of these actions are live.
fn live_count(actions: &[Ability]) -> usize {
    let mut count = 0usize;
    for action in actions {
        if *action != Ability::Gone {
            count = count.saturating_add(1);
        }
    }
    count
}

impl Machine<'_> {
    /// Whether a live action has the job, or a live and enabled one.
    pub(crate) fn has_job(&self, state: &State, job: u32, enabled: bool) -> bool {
        for (action, now) in state.actions.as_slice().iter().enumerate() {
            let Some(plan) = at(self.table.actions.as_slice(), action) else {
                continue;
            };
            let counts = *now == Ability::Enabled || (*now == Ability::Disabled && !enabled);
            if counts && plan.job == job {
                return true;
            }
        }
        false
    }

    /// Whether this action is eligible, on the workers of a class, for a task of this job on these cores.
    pub(crate) fn is_eligible(
        &self,
        state: &State,
        action: usize,
        worker: u32,
        job: u32,
        cores: u64,
    ) -> bool {
        if at(state.actions.as_slice(), action) != Some(Ability::Enabled) {
            return false;
        }
        match at(self.table.actions.as_slice(), action) {
            Some(plan) => {
                plan.job == job && in_mask(worker, plan.cores) && in_mask(worker, cores)
            }
            None => false,
        }
    }

    /// Whether the workers of a class have an eligible action.
    pub(crate) fn can_serve(&self, state: &State, worker: u32, job: u32, cores: u64) -> bool {
        for action in 0..state.actions.len() {
            if self.is_eligible(state, action, worker, job, cores) {
                return true;
            }
        }
        false
    }

    /// Whether some worker has an eligible action.
    pub(crate) fn is_served(&self, state: &State, job: u32, cores: u64) -> bool {
        for class in self.classes.as_slice() {
            if self.can_serve(state, class.worker, job, cores) {
                return true;
            }
        }
        false
    }

    /// Makes an action. The text allows no job that is out of range.
    pub(crate) fn create_action(&self, state: &mut State, site: Site) -> Attempt {
        let own = self.own(site);
        match at(self.table.actions.as_slice(), own) {
            Some(plan) if plan.job < 1 || plan.job > 65_535 => {
                return refused(MtapiStatus::ErrJobInvalid);
            }
            _ => {}
        }
        if live_count(state.actions.as_slice()) >= self.load.settings.actions() as usize {
            return refused(MtapiStatus::ErrActionLimit);
        }
        put(&mut state.actions, own, Ability::Enabled);
        named(own)
    }

    /// The live action of a name.
    fn live_action(&self, state: &State, part: usize, place: u32) -> Option<usize> {
        let action = self.bound(state, part, place)?;
        match at(state.actions.as_slice(), action)? {
            Ability::Gone => None,
            _ => Some(action),
        }
    }

    /// Whether a task hasn't begun and no worker can take it any more.
    fn is_left(&self, state: &State, task: usize, plan: &TaskPlan) -> bool {
        match at(state.tasks.as_slice(), task) {
            Some(now) => {
                now.is_scheduled() && !self.is_served(state, self.job_of(state, plan), plan.cores)
            }
            None => false,
        }
    }

    /// An action may not be taken any more: the tasks that no worker can take then fail.
    fn withdraw(&self, state: &mut State, action: usize, now: Ability, status: MtapiStatus) {
        put(&mut state.actions, action, now);
        for (task, plan) in self.table.tasks.as_slice().iter().enumerate() {
            if self.is_left(state, task, plan) {
                self.end_task(state, task, End::Failed(status));
            }
        }
    }

    pub(crate) fn delete_action(&self, state: &mut State, part: usize, place: u32) -> Attempt {
        let Some(action) = self.live_action(state, part, place) else {
            return refused(MtapiStatus::ErrActionInvalid);
        };
        self.withdraw(state, action, Ability::Gone, MtapiStatus::ErrActionDeleted);
        executed()
    }

    pub(crate) fn disable_action(&self, state: &mut State, part: usize, place: u32) -> Attempt {
        let Some(action) = self.live_action(state, part, place) else {
            return refused(MtapiStatus::ErrActionInvalid);
        };
        self.withdraw(
            state,
            action,
            Ability::Disabled,
            MtapiStatus::ErrActionDisabled,
        );
        executed()
    }

    pub(crate) fn enable_action(&self, state: &mut State, part: usize, place: u32) -> Attempt {
        let Some(action) = self.live_action(state, part, place) else {
            return refused(MtapiStatus::ErrActionInvalid);
        };
        put(&mut state.actions, action, Ability::Enabled);
        executed()
    }
}
