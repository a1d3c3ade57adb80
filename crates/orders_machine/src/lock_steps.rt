//! Statements on semaphores and reader-writer locks.

use crate::lists::{at, put};
use crate::machine::Machine;
use crate::state::{CALLERS, Rwl, Sem, State, marks_of, sum_of};
use crate::statements::{Attempt, denied, executed, named};
use crate::table::Site;
use mtapi_values::MrapiStatus;

/// How many of these semaphores are live.
fn live_sems(sems: &[Sem]) -> usize {
    let mut count = 0usize;
    for sem in sems {
        if sem.live {
            count = count.saturating_add(1);
        }
    }
    count
}

/// How many of these reader-writer locks are live.
fn live_rwls(rwls: &[Rwl]) -> usize {
    let mut count = 0usize;
    for rwl in rwls {
        if rwl.live {
            count = count.saturating_add(1);
        }
    }
    count
}

/// The semaphore with this many holdings of a part.
fn with_holding(sem: Sem, part: usize, holding: u16) -> Sem {
    let mut sem = sem;
    if part < CALLERS {
        sem.holdings[part] = holding;
    }
    sem
}

/// Somebody holds the lock.
fn is_held(rwl: &Rwl) -> bool {
    rwl.writer.is_some() || marks_of(&rwl.readers) > 0
}

/// The caller of this part writes.
fn is_writer(rwl: &Rwl, part: usize) -> bool {
    match rwl.writer {
        Some(writer) => usize::from(writer) == part,
        None => false,
    }
}

/// The caller of this part reads.
fn is_reader(rwl: &Rwl, part: usize) -> bool {
    at(&rwl.readers, part) == Some(true)
}

/// The lock with or without this reader.
fn with_reader(rwl: Rwl, part: usize, reads: bool) -> Rwl {
    let mut rwl = rwl;
    if part < CALLERS {
        rwl.readers[part] = reads;
    }
    rwl
}

/// The lock with this writer, or with none.
fn with_writer(rwl: Rwl, writer: Option<u8>) -> Rwl {
    Rwl { writer, ..rwl }
}

impl Machine<'_> {
    /// The live semaphore of an id.
    fn sem_with(&self, state: &State, id: u32) -> Option<usize> {
        for (sem, now) in state.sems.as_slice().iter().enumerate() {
            if let Some(plan) = at(self.table.sems.as_slice(), sem) {
                if now.live && plan.id == id {
                    return Some(sem);
                }
            }
        }
        None
    }

    pub(crate) fn create_sem(&self, state: &mut State, site: Site) -> Attempt {
        let own = self.own(site);
        let Some(plan) = at(self.table.sems.as_slice(), own) else {
            return Attempt::Blocked;
        };
        if plan.limit < 1 || plan.limit > 65_535 {
            return denied(MrapiStatus::ErrParameter);
        }
        if self.sem_with(state, plan.id).is_some() {
            return denied(MrapiStatus::ErrSemExists);
        }
        if live_sems(state.sems.as_slice()) >= self.load.settings.objects() as usize {
            return denied(MrapiStatus::ErrSemLimit);
        }
        let holdings = [0; CALLERS];
        put(
            &mut state.sems,
            own,
            Sem {
                live: true,
                holdings,
            },
        );
        named(own)
    }

    pub(crate) fn get_sem(&self, state: &State, id: u32) -> Attempt {
        match self.sem_with(state, id) {
            Some(sem) => named(sem),
            None => denied(MrapiStatus::ErrSemIdInvalid),
        }
    }

    /// The live semaphore of a name.
    pub(crate) fn live_sem(&self, state: &State, part: usize, place: u32) -> Option<(usize, Sem)> {
        let sem = self.bound(state, part, place)?;
        let now = at(state.sems.as_slice(), sem)?;
        if now.live { Some((sem, now)) } else { None }
    }

    pub(crate) fn delete_sem(&self, state: &mut State, part: usize, place: u32) -> Attempt {
        let Some((sem, now)) = self.live_sem(state, part, place) else {
            return denied(MrapiStatus::ErrSemInvalid);
        };
        if sum_of(&now.holdings) > 0 {
            return denied(MrapiStatus::ErrSemLocked);
        }
        put(&mut state.sems, sem, Sem { live: false, ..now });
        executed()
    }

    pub(crate) fn lock_sem(&self, state: &mut State, part: usize, place: u32) -> Attempt {
        let Some((sem, now)) = self.live_sem(state, part, place) else {
            return denied(MrapiStatus::ErrSemInvalid);
        };
        let limit = match at(self.table.sems.as_slice(), sem) {
            Some(plan) => plan.limit,
            None => 0,
        };
        if sum_of(&now.holdings) >= limit {
            return Attempt::Blocked;
        }
        let holding = at(&now.holdings, part).unwrap_or(0).saturating_add(1);
        put(&mut state.sems, sem, with_holding(now, part, holding));
        executed()
    }

    pub(crate) fn unlock_sem(&self, state: &mut State, part: usize, place: u32) -> Attempt {
        let Some((sem, now)) = self.live_sem(state, part, place) else {
            return denied(MrapiStatus::ErrSemInvalid);
        };
        let holding = at(&now.holdings, part).unwrap_or(0);
        if holding == 0 {
            return denied(MrapiStatus::ErrSemNotlocked);
        }
        put(
            &mut state.sems,
            sem,
            with_holding(now, part, holding.saturating_sub(1)),
        );
        executed()
    }

    /// The live reader-writer lock of an id.
    fn rwl_with(&self, state: &State, id: u32) -> Option<usize> {
        for (rwl, now) in state.rwls.as_slice().iter().enumerate() {
            if let Some(plan) = at(self.table.rwls.as_slice(), rwl) {
                if now.live && plan.id == id {
                    return Some(rwl);
                }
            }
        }
        None
    }

    pub(crate) fn create_rwl(&self, state: &mut State, site: Site) -> Attempt {
        let own = self.own(site);
        let Some(plan) = at(self.table.rwls.as_slice(), own) else {
            return Attempt::Blocked;
        };
        if plan.limit < 1 || plan.limit > 32 {
            return denied(MrapiStatus::ErrParameter);
        }
        if self.rwl_with(state, plan.id).is_some() {
            return denied(MrapiStatus::ErrRwlExists);
        }
        if live_rwls(state.rwls.as_slice()) >= self.load.settings.objects() as usize {
            return denied(MrapiStatus::ErrRwlLimit);
        }
        put(
            &mut state.rwls,
            own,
            Rwl {
                live: true,
                readers: [false; CALLERS],
                writer: None,
            },
        );
        named(own)
    }

    pub(crate) fn get_rwl(&self, state: &State, id: u32) -> Attempt {
        match self.rwl_with(state, id) {
            Some(rwl) => named(rwl),
            None => denied(MrapiStatus::ErrRwlIdInvalid),
        }
    }

    /// The live reader-writer lock of a name.
    pub(crate) fn live_rwl(&self, state: &State, part: usize, place: u32) -> Option<(usize, Rwl)> {
        let rwl = self.bound(state, part, place)?;
        let now = at(state.rwls.as_slice(), rwl)?;
        if now.live { Some((rwl, now)) } else { None }
    }

    pub(crate) fn delete_rwl(&self, state: &mut State, part: usize, place: u32) -> Attempt {
        let Some((rwl, now)) = self.live_rwl(state, part, place) else {
            return denied(MrapiStatus::ErrRwlInvalid);
        };
        if is_held(&now) {
            return denied(MrapiStatus::ErrRwlLocked);
        }
        put(&mut state.rwls, rwl, Rwl { live: false, ..now });
        executed()
    }

    /// Whether the readers of a lock are as many as may be.
    fn is_full(&self, rwl: usize, now: &Rwl) -> bool {
        match at(self.table.rwls.as_slice(), rwl) {
            Some(plan) => marks_of(&now.readers) >= plan.limit,
            None => true,
        }
    }

    pub(crate) fn lock_rwl(
        &self,
        state: &mut State,
        part: usize,
        place: u32,
        writer: bool,
    ) -> Attempt {
        let Some((rwl, now)) = self.live_rwl(state, part, place) else {
            return denied(MrapiStatus::ErrRwlInvalid);
        };
        if is_writer(&now, part) || is_reader(&now, part) {
            return denied(MrapiStatus::ErrRwlLocked);
        }
        let busy = if writer {
            is_held(&now)
        } else {
            now.writer.is_some() || self.is_full(rwl, &now)
        };
        if busy {
            return Attempt::Blocked;
        }
        let then = if writer {
            with_writer(now, u8::try_from(part).ok())
        } else {
            with_reader(now, part, true)
        };
        put(&mut state.rwls, rwl, then);
        executed()
    }

    pub(crate) fn unlock_rwl(
        &self,
        state: &mut State,
        part: usize,
        place: u32,
        writer: bool,
    ) -> Attempt {
        let Some((rwl, now)) = self.live_rwl(state, part, place) else {
            return denied(MrapiStatus::ErrRwlInvalid);
        };
        let holds = if writer {
            is_writer(&now, part)
        } else {
            is_reader(&now, part)
        };
        if !holds {
            return denied(MrapiStatus::ErrRwlNotlocked);
        }
        let then = if writer {
            with_writer(now, None)
        } else {
            with_reader(now, part, false)
        };
        put(&mut state.rwls, rwl, then);
        executed()
    }
}
