//! Who holds what, and since which statement.

use crate::lists::at;
use crate::machine::Machine;
use crate::state::{Outcome, Owner, State};
use crate::table::Site;
use crate::waits::push;
use std::alloc::{AllocError, Global};
use workload_file::Deed;

/// What callers may hold, by its number among those of its kind.
#[derive(Clone, Copy, Drop, PartialEq, Eq)]
pub(crate) enum Thing {
    Mutex(usize),
    Sem(usize),
    Rwl(usize),
}

/// Whether the call took or gave back what it named.
fn was_executed(outcome: Outcome) -> bool {
    matches!(outcome, Outcome::Done | Outcome::Key(_))
}

/// Whether the statement takes, and doesn't give back.
fn takes(deed: &Deed) -> bool {
    matches!(
        deed,
        Deed::Lock { .. } | Deed::SemLock { .. } | Deed::RwlLock { .. }
    )
}

/// What is said of who holds it, by the statement that took it.
fn held_words(deed: Option<&Deed>) -> &'static [u8] {
    match deed {
        Some(Deed::RwlLock { writer: true, .. }) => b" has held it as writer since line ",
        Some(Deed::RwlLock { .. }) => b" has held it as reader since line ",
        _ => b" has held it since line ",
    }
}

impl Machine<'_> {
    /// What a statement takes or gives back.
    pub(crate) fn thing_of(&self, state: &State, part: usize, deed: &Deed) -> Option<Thing> {
        match deed {
            Deed::Lock { place, .. } | Deed::Unlock { place, .. } => {
                Some(Thing::Mutex(self.bound(state, part, *place)?))
            }
            Deed::SemLock { place, .. } | Deed::SemUnlock { place } => {
                Some(Thing::Sem(self.bound(state, part, *place)?))
            }
            Deed::RwlLock { place, .. } | Deed::RwlUnlock { place, .. } => {
                Some(Thing::Rwl(self.bound(state, part, *place)?))
            }
            _ => None,
        }
    }

    /// The statement by which a part took what it holds, if it holds it.
    fn held_since(&self, state: &State, part: usize, thing: Thing) -> Option<Site> {
        let made = self.made(state, part);
        let mut held = 0u32;
        let mut since = None;
        for (place, statement) in self.statements(part).iter().enumerate() {
            let site = Site { part, at: place };
            if place >= made || !was_executed(self.outcome(state, site)) {
                continue;
            }
            if self.thing_of(state, part, &statement.deed) != Some(thing) {
                continue;
            }
            if !takes(&statement.deed) {
                held = held.saturating_sub(1);
                continue;
            }
            if held == 0 {
                since = Some(site);
            }
            held = held.saturating_add(1);
        }
        if held > 0 { since } else { None }
    }

    /// Appends the tally that owns a mutex, if one does.
    fn push_tally_owner(
        &self,
        alloc: Global,
        out: &mut Vec<u8>,
        state: &State,
        mutex: usize,
    ) -> Result<(), AllocError> {
        let Some(now) = at(state.mutexes.as_slice(), mutex) else {
            return Ok(());
        };
        let Owner::Tally(task) = now.owner else {
            return Ok(());
        };
        let Some(plan) = at(self.table.tasks.as_slice(), usize::from(task)) else {
            return Ok(());
        };
        push(out, b"; a worker has held it for the tally ")?;
        self.push_task(alloc, out, &plan)
    }

    /// Appends who holds it, and since when.
    pub(crate) fn push_holders(
        &self,
        alloc: Global,
        out: &mut Vec<u8>,
        state: &State,
        thing: Thing,
    ) -> Result<(), AllocError> {
        let mut any = false;
        for part in 0..self.parts() {
            let Some(site) = self.held_since(state, part, thing) else {
                continue;
            };
            push(out, if any { b", and " } else { b"; " })?;
            self.push_part_name(out, part)?;
            push(out, held_words(self.deed(site)))?;
            self.push_line(alloc, out, site)?;
            any = true;
        }
        match thing {
            Thing::Mutex(mutex) => self.push_tally_owner(alloc, out, state, mutex),
            _ => Ok(()),
        }
    }
}
