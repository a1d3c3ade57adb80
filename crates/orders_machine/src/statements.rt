//! The next statement of a part: what it comes to, or that it is blocked.

use crate::lists::{at, put};
use crate::machine::Machine;
use crate::state::{Outcome, State};
use crate::table::Site;
use mtapi_values::{MrapiStatus, MtapiStatus, Timeout};
use workload_file::Deed;

/// What a call finds.
#[derive(Clone, Copy, Drop)]
pub(crate) enum Attempt {
    /// It comes to this.
    Makes(Outcome),
    /// It looks for what isn't there yet.
    Blocked,
}

/// Executed, with nothing to tell.
pub(crate) fn executed() -> Attempt {
    Attempt::Makes(Outcome::Done)
}

/// Refused with a status of MTAPI.
pub(crate) fn refused(status: MtapiStatus) -> Attempt {
    Attempt::Makes(Outcome::Mtapi(status))
}

/// Refused with a status of MRAPI.
pub(crate) fn denied(status: MrapiStatus) -> Attempt {
    Attempt::Makes(Outcome::Mrapi(status))
}

/// The name is bound to this object.
pub(crate) fn named(object: usize) -> Attempt {
    match u16::try_from(object) {
        Ok(number) => Attempt::Makes(Outcome::Names(number)),
        Err(_) => Attempt::Blocked,
    }
}

/// What a call that looks answers when its looks are used up, where it has a bound.
pub(crate) fn late_outcome(deed: &Deed) -> Option<Outcome> {
    let (timeout, outcome) = match deed {
        Deed::Wait { timeout, .. } => (timeout, Outcome::Mtapi(MtapiStatus::Timeout)),
        Deed::WaitAll { timeout, .. } => (timeout, Outcome::Mtapi(MtapiStatus::Timeout)),
        Deed::WaitAny { timeout, .. } => (timeout, Outcome::Mtapi(MtapiStatus::Timeout)),
        Deed::Lock { timeout, .. } => (timeout, Outcome::Mrapi(MrapiStatus::Timeout)),
        Deed::SemLock { timeout, .. } => (timeout, Outcome::Mrapi(MrapiStatus::Timeout)),
        Deed::RwlLock { timeout, .. } => (timeout, Outcome::Mrapi(MrapiStatus::Timeout)),
        _ => return None,
    };
    match timeout {
        Timeout::Infinite => None,
        _ => Some(outcome),
    }
}

impl Machine<'_> {
    /// The statements on actions and groups, and `begin`.
    fn attempt_work(&self, state: &mut State, site: Site, deed: &Deed) -> Attempt {
        match deed {
            Deed::Begin => {
                state.released = true;
                executed()
            }
            Deed::Action { .. } => self.create_action(state, site),
            Deed::ActionDelete { place } => self.delete_action(state, site.part, *place),
            Deed::ActionDisable { place } => self.disable_action(state, site.part, *place),
            Deed::ActionEnable { place } => self.enable_action(state, site.part, *place),
            Deed::Group => self.create_group(state, site),
            Deed::WaitAll { place, .. } => self.wait_all(state, site.part, *place),
            Deed::WaitAny { place, .. } => self.wait_any(state, site.part, *place),
            Deed::GroupDelete { place } => self.delete_group(state, site.part, *place),
            _ => Attempt::Blocked,
        }
    }

    /// The statements on tasks and queues.
    fn attempt_tasks(&self, state: &mut State, site: Site, deed: &Deed) -> Attempt {
        match deed {
            Deed::Start { .. } => self.start(state, site),
            Deed::Enqueue { .. } => self.enqueue(state, site),
            Deed::Wait { place, .. } => self.wait(state, site.part, *place),
            Deed::Cancel { place } => self.cancel(state, site.part, *place),
            Deed::Queue { .. } => self.create_queue(state, site),
            Deed::QueueGet { id } => self.get_queue(state, *id),
            Deed::QueueEnable { place } => self.enable_queue(state, site.part, *place),
            Deed::QueueDisable { place } => self.disable_queue(state, site.part, *place),
            Deed::QueueDelete { place } => self.delete_queue(state, site.part, *place),
            _ => self.attempt_work(state, site, deed),
        }
    }

    /// The statements on semaphores and reader-writer locks.
    fn attempt_counting(&self, state: &mut State, site: Site, deed: &Deed) -> Attempt {
        match deed {
            Deed::Sem { .. } => self.create_sem(state, site),
            Deed::SemGet { id } => self.get_sem(state, *id),
            Deed::SemDelete { place } => self.delete_sem(state, site.part, *place),
            Deed::SemLock { place, .. } => self.lock_sem(state, site.part, *place),
            Deed::SemUnlock { place } => self.unlock_sem(state, site.part, *place),
            Deed::Rwl { .. } => self.create_rwl(state, site),
            Deed::RwlGet { id } => self.get_rwl(state, *id),
            Deed::RwlDelete { place } => self.delete_rwl(state, site.part, *place),
            Deed::RwlLock { place, writer, .. } => {
                self.lock_rwl(state, site.part, *place, *writer)
            }
            Deed::RwlUnlock { place, writer } => {
                self.unlock_rwl(state, site.part, *place, *writer)
            }
            _ => self.attempt_tasks(state, site, deed),
        }
    }

    /// A statement. Where it is blocked, the state stays as it is.
    fn attempt(&self, state: &mut State, site: Site, deed: &Deed) -> Attempt {
        match deed {
            Deed::Mutex { .. } => self.create_mutex(state, site),
            Deed::MutexGet { id } => self.get_mutex(state, *id),
            Deed::MutexDelete { place } => self.delete_mutex(state, site.part, *place),
            Deed::Lock { place, .. } => self.lock(state, site.part, *place),
            Deed::Unlock { place, key } => self.unlock(state, site.part, *place, *key),
            Deed::Shmem { .. } => self.create_segment(state, site),
            Deed::ShmemGet { id } => self.get_segment(state, *id),
            Deed::ShmemDelete { place } => self.delete_segment(state, site.part, *place),
            Deed::Attach { place } => self.attach(state, site.part, *place),
            Deed::Detach { place } => self.detach(state, site.part, *place),
            Deed::Read { place, cell } => self.read(state, site, *place, *cell),
            Deed::Write { place, cell, value } => {
                self.write(state, site.part, *place, *cell, *value)
            }
            _ => self.attempt_counting(state, site, deed),
        }
    }

    /// The group that a statement waits for.
    fn awaited_group(&self, state: &State, part: usize, deed: &Deed) -> Option<usize> {
        match deed {
            Deed::WaitAll { place, .. } => self.bound(state, part, *place),
            Deed::WaitAny { place, .. } => self.bound(state, part, *place),
            _ => None,
        }
    }

    /// A statement has come to this: the part goes on behind it.
    fn go_on(&self, state: &mut State, site: Site, deed: &Deed, outcome: Outcome) {
        put(&mut state.outcomes, self.number_of(site), outcome);
        if let Some(place) = at(state.places.as_slice(), site.part) {
            put(&mut state.places, site.part, place.saturating_add(1));
        }
        if let Some(group) = self.awaited_group(state, site.part, deed) {
            self.forget_order(state, group);
        }
    }

    /// The next statement of a part, if its caller has begun and it has one.
    pub(crate) fn next_site(&self, state: &State, part: usize) -> Option<Site> {
        let place = usize::from(at(state.places.as_slice(), part)?);
        if part == 0 && !state.released && !self.begins {
            return None;
        }
        Some(Site {
            part,
            at: place.checked_sub(1)?,
        })
    }

    /// The next statement of a part is made. False where it is blocked, and then nothing changes.
    pub(crate) fn make(&self, state: &mut State, part: usize) -> bool {
        let Some(site) = self.next_site(state, part) else {
            return false;
        };
        let Some(deed) = self.deed(site) else {
            return false;
        };
        match self.attempt(state, site, deed) {
            Attempt::Makes(outcome) => {
                self.go_on(state, site, deed, outcome);
                true
            }
            Attempt::Blocked => false,
        }
    }

    /// The next statement of a part, which is blocked, gives up. False where it has no bound, and then nothing changes.
    pub(crate) fn give_up(&self, state: &mut State, part: usize) -> bool {
        let Some(site) = self.next_site(state, part) else {
            return false;
        };
        let Some(deed) = self.deed(site) else {
            return false;
        };
        let Some(outcome) = late_outcome(deed) else {
            return false;
        };
        self.go_on(state, site, deed, outcome);
        true
    }
}
