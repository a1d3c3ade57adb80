//! What no later step asks of a state is left out, so that states which differ in nothing but answers are one.

use crate::lists::{at, put};
use crate::machine::Machine;
use crate::state::{End, NO_TASK, Outcome, Progress, State, Task};
use crate::table::{Site, TaskPlan};
use std::alloc::{AllocError, Global};
use workload_file::Deed;

/// Of each statement, over all parts in order: one more than the place of the last statement that uses its name, and 0 if none does.
#[derive(Drop)]
pub struct LastUses {
    places: Vec<usize>,
}

/// The name that a statement on a lock or a segment uses, by its place.
fn resource_used(deed: &Deed) -> Option<u32> {
    match deed {
        Deed::MutexDelete { place } => Some(*place),
        Deed::Lock { place, .. } => Some(*place),
        Deed::Unlock { place, .. } => Some(*place),
        Deed::SemDelete { place } => Some(*place),
        Deed::SemLock { place, .. } => Some(*place),
        Deed::SemUnlock { place } => Some(*place),
        Deed::RwlDelete { place } => Some(*place),
        Deed::RwlLock { place, .. } => Some(*place),
        Deed::RwlUnlock { place, .. } => Some(*place),
        Deed::ShmemDelete { place } => Some(*place),
        Deed::Attach { place } => Some(*place),
        Deed::Detach { place } => Some(*place),
        Deed::Read { place, .. } => Some(*place),
        Deed::Write { place, .. } => Some(*place),
        _ => None,
    }
}

/// The name that a statement uses, by its place; of one that puts a task into a queue that of the queue.
fn name_used(deed: &Deed) -> Option<u32> {
    match deed {
        Deed::ActionDelete { place } => Some(*place),
        Deed::ActionEnable { place } => Some(*place),
        Deed::ActionDisable { place } => Some(*place),
        Deed::Wait { place, .. } => Some(*place),
        Deed::Cancel { place } => Some(*place),
        Deed::WaitAll { place, .. } => Some(*place),
        Deed::WaitAny { place, .. } => Some(*place),
        Deed::GroupDelete { place } => Some(*place),
        Deed::QueueEnable { place } => Some(*place),
        Deed::QueueDisable { place } => Some(*place),
        Deed::QueueDelete { place } => Some(*place),
        Deed::Enqueue { queue, .. } => Some(*queue),
        _ => resource_used(deed),
    }
}

/// The group that a statement puts a task into, by its place.
fn group_used(deed: &Deed) -> Option<u32> {
    match deed {
        Deed::Start { group, .. } => *group,
        Deed::Enqueue { group, .. } => *group,
        _ => None,
    }
}

/// Whether a name that may be there is the one of this place.
fn is_name(name: Option<u32>, place: usize) -> bool {
    match name {
        Some(name) => name as usize == place,
        None => false,
    }
}

impl Machine<'_> {
    fn note_use(&self, part: usize, name: Option<u32>, by: usize, places: &mut Vec<usize>) {
        if let Some(name) = name {
            let at = name as usize;
            put(
                places,
                self.number_of(Site { part, at }),
                by.saturating_add(1),
            );
        }
    }

    fn note_uses(&self, part: usize, places: &mut Vec<usize>) {
        for (by, statement) in self.statements(part).iter().enumerate() {
            self.note_use(part, name_used(&statement.deed), by, places);
            self.note_use(part, group_used(&statement.deed), by, places);
        }
    }

    /// Where each name is used last. It fails for want of memory alone.
    pub fn last_uses(&self, alloc: Global) -> Result<LastUses, AllocError> {
        let mut places = vec![in alloc; 0usize; self.table.own.len()]?;
        for part in 0..self.parts() {
            self.note_uses(part, &mut places);
        }
        Ok(LastUses { places })
    }

    /// Whether a task that hasn't ended is in the queue of this name, or one that is live in the group.
    fn is_used_by_task(&self, state: &State, site: Site) -> bool {
        for (task, plan) in self.table.tasks.as_slice().iter().enumerate() {
            let Some(now) = at(state.tasks.as_slice(), task) else {
                continue;
            };
            if plan.site.part != site.part {
                continue;
            }
            if (now.is_unended() && is_name(plan.queue, site.at))
                || (now.live && is_name(plan.group, site.at))
            {
                return true;
            }
        }
        false
    }

    /// Whether a later step may ask what the name of a statement stands for.
    fn is_used_later(&self, uses: &LastUses, state: &State, site: Site) -> bool {
        let last = at(uses.places.as_slice(), self.number_of(site)).unwrap_or(0);
        if last > self.made(state, site.part) {
            return true;
        }
        match self.deed(site) {
            Some(Deed::Group) => self.is_used_by_task(state, site),
            Some(Deed::Queue { .. }) => self.is_used_by_task(state, site),
            Some(Deed::QueueGet { .. }) => self.is_used_by_task(state, site),
            _ => false,
        }
    }

    /// Leaves out what a statement that was made came to, unless it is a name that is used later.
    fn forget_statement(&self, uses: &LastUses, state: &mut State, site: Site) {
        let names = matches!(self.outcome(state, site), Outcome::Names(_));
        if names && self.is_used_later(uses, state, site) {
            return;
        }
        if let Some(Deed::Read { .. }) = self.deed(site) {
            put(&mut state.numbers, self.own(site), 0);
        }
        put(&mut state.outcomes, self.number_of(site), Outcome::Open);
    }

    fn forget_part(&self, uses: &LastUses, state: &mut State, part: usize) {
        for at in 0..self.made(state, part) {
            self.forget_statement(uses, state, Site { part, at });
        }
    }

    /// Leaves out how a task ended, unless its group may still tell that; and all of a task that isn't live any more.
    fn forget_task(state: &mut State, task: usize, plan: &TaskPlan) {
        let Some(now) = at(state.tasks.as_slice(), task) else {
            return;
        };
        if now.end().is_none() {
            return;
        }
        put(&mut state.numbers, plan.number, 0);
        if !now.live {
            put(&mut state.tasks, task, NO_TASK);
        } else if now.rank == 0 {
            let progress = Progress::Ended(End::Cancelled);
            put(&mut state.tasks, task, Task { progress, ..now });
        }
    }

    /// Leaves out what no later step asks: answers, names that aren't used any more, and how tasks ended. The steps of the state, and
    /// the lines of the report that they settle, stay the same.
    pub fn forget(&self, uses: &LastUses, state: &mut State) {
        for part in 0..self.parts() {
            self.forget_part(uses, state, part);
        }
        for (task, plan) in self.table.tasks.as_slice().iter().enumerate() {
            Self::forget_task(state, task, plan);
        }
    }
}
