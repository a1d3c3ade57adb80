//! Statements on mutexes.

use crate::lists::{at, put};
use crate::machine::Machine;
use crate::state::{Mutex, Outcome, Owner, State};
use crate::statements::{Attempt, denied, executed, named};
use crate::table::Site;
use mtapi_values::MrapiStatus;

/// How deep a mutex may be locked.
const DEEPEST: u8 = 64;

/// How many of these mutexes are live.
fn live_count(mutexes: &[Mutex]) -> usize {
    let mut count = 0usize;
    for mutex in mutexes {
        if mutex.live {
            count = count.saturating_add(1);
        }
    }
    count
}

/// Whether the caller of this part owns the mutex.
fn is_owner(mutex: &Mutex, part: usize) -> bool {
    match mutex.owner {
        Owner::Part(owner) => usize::from(owner) == part,
        _ => false,
    }
}

/// The caller of a part, as an owner.
fn owner_of(part: usize) -> Owner {
    match u8::try_from(part) {
        Ok(part) => Owner::Part(part),
        Err(_) => Owner::Nobody,
    }
}

impl Machine<'_> {
    /// The live mutex of an id.
    pub(crate) fn mutex_with(&self, state: &State, id: u32) -> Option<usize> {
        for (mutex, now) in state.mutexes.as_slice().iter().enumerate() {
            if let Some(plan) = at(self.table.mutexes.as_slice(), mutex) {
                if now.live && plan.id == id {
                    return Some(mutex);
                }
            }
        }
        None
    }

    pub(crate) fn create_mutex(&self, state: &mut State, site: Site) -> Attempt {
        let own = self.own(site);
        let Some(plan) = at(self.table.mutexes.as_slice(), own) else {
            return Attempt::Blocked;
        };
        if self.mutex_with(state, plan.id).is_some() {
            return denied(MrapiStatus::ErrMutexExists);
        }
        if live_count(state.mutexes.as_slice()) >= self.load.settings.objects() as usize {
            return denied(MrapiStatus::ErrMutexLimit);
        }
        put(
            &mut state.mutexes,
            own,
            Mutex {
                live: true,
                owner: Owner::Nobody,
                depth: 0,
            },
        );
        named(own)
    }

    pub(crate) fn get_mutex(&self, state: &State, id: u32) -> Attempt {
        match self.mutex_with(state, id) {
            Some(mutex) => named(mutex),
            None => denied(MrapiStatus::ErrMutexIdInvalid),
        }
    }

    /// The live mutex of a name.
    pub(crate) fn live_mutex(
        &self,
        state: &State,
        part: usize,
        place: u32,
    ) -> Option<(usize, Mutex)> {
        let mutex = self.bound(state, part, place)?;
        let now = at(state.mutexes.as_slice(), mutex)?;
        if now.live { Some((mutex, now)) } else { None }
    }

    pub(crate) fn delete_mutex(&self, state: &mut State, part: usize, place: u32) -> Attempt {
        let Some((mutex, now)) = self.live_mutex(state, part, place) else {
            return denied(MrapiStatus::ErrMutexInvalid);
        };
        if now.owner != Owner::Nobody {
            return denied(MrapiStatus::ErrMutexLocked);
        }
        put(&mut state.mutexes, mutex, Mutex { live: false, ..now });
        executed()
    }

    /// Whether the owner of a mutex may lock it once more.
    fn is_recursive(&self, mutex: usize) -> bool {
        match at(self.table.mutexes.as_slice(), mutex) {
            Some(plan) => plan.recursive,
            None => false,
        }
    }

    pub(crate) fn lock(&self, state: &mut State, part: usize, place: u32) -> Attempt {
        let Some((mutex, now)) = self.live_mutex(state, part, place) else {
            return denied(MrapiStatus::ErrMutexInvalid);
        };
        let owns = is_owner(&now, part);
        if owns && (!self.is_recursive(mutex) || now.depth >= DEEPEST) {
            return denied(MrapiStatus::ErrMutexLocked);
        }
        if !owns && now.owner != Owner::Nobody {
            return Attempt::Blocked;
        }
        let depth = now.depth.saturating_add(1);
        put(
            &mut state.mutexes,
            mutex,
            Mutex {
                live: true,
                owner: owner_of(part),
                depth,
            },
        );
        Attempt::Makes(Outcome::Key(depth))
    }

    pub(crate) fn unlock(&self, state: &mut State, part: usize, place: u32, key: u32) -> Attempt {
        let Some((mutex, now)) = self.live_mutex(state, part, place) else {
            return denied(MrapiStatus::ErrMutexInvalid);
        };
        if !is_owner(&now, part) {
            return denied(MrapiStatus::ErrMutexNotlocked);
        }
        if key == 0 || key > u32::from(now.depth) {
            return denied(MrapiStatus::ErrMutexKey);
        }
        if key < u32::from(now.depth) {
            return denied(MrapiStatus::ErrMutexLockorder);
        }
        let owner = if now.depth == 1 {
            Owner::Nobody
        } else {
            now.owner
        };
        put(
            &mut state.mutexes,
            mutex,
            Mutex {
                live: true,
                owner,
                depth: now.depth.saturating_sub(1),
            },
        );
        executed()
    }
}
