//! Who waits for what in a deadlock, in words.

use crate::holders::Thing;
use crate::lists::at;
use crate::machine::Machine;
use crate::state::{Progress, Stage, State};
use crate::table::{Site, TaskPlan};
use number_text::{push_number, push_whole};
use std::alloc::{AllocError, Global};
use workload_file::{Deed, Statement};

/// Appends a text.
pub(crate) fn push(out: &mut Vec<u8>, text: &[u8]) -> Result<(), AllocError> {
    out.extend_from_slice(text)
}

/// The word of a statement that looks, the place whose name it uses, and what it looks for.
fn awaited(deed: &Deed) -> Option<(&'static [u8], u32, &'static [u8])> {
    match deed {
        Deed::Wait { place, .. } => Some((b"wait", *place, b"the end of the task")),
        Deed::WaitAll { place, .. } => {
            Some((b"wait_all", *place, b"the ends of all tasks of the group"))
        }
        Deed::WaitAny { place, .. } => Some((
            b"wait_any",
            *place,
            b"the end of one more task of the group",
        )),
        Deed::Lock { place, .. } => Some((b"lock", *place, b"the mutex")),
        Deed::SemLock { place, .. } => {
            Some((b"sem_lock", *place, b"a free place of the semaphore"))
        }
        Deed::RwlLock { place, .. } => Some((b"rwl_lock", *place, b"the reader-writer lock")),
        _ => None,
    }
}

impl Machine<'_> {
    /// Appends the name of a part.
    pub(crate) fn push_part_name(&self, out: &mut Vec<u8>, part: usize) -> Result<(), AllocError> {
        match self.load.parts.as_slice().get(part) {
            Some(part) => push(out, part.name.as_slice()),
            None => Ok(()),
        }
    }

    /// The statement there.
    pub(crate) fn statement(&self, site: Site) -> Option<&Statement> {
        self.statements(site.part).get(site.at)
    }

    /// Appends the name that a statement binds.
    fn push_name(&self, out: &mut Vec<u8>, site: Site) -> Result<(), AllocError> {
        let Some(statement) = self.statement(site) else {
            return Ok(());
        };
        match &statement.name {
            Some(name) => push(out, name.as_slice()),
            None => Ok(()),
        }
    }

    /// Appends the line of a statement.
    pub(crate) fn push_line(
        &self,
        alloc: Global,
        out: &mut Vec<u8>,
        site: Site,
    ) -> Result<(), AllocError> {
        match self.statement(site) {
            Some(statement) => push_number(alloc, out, statement.line),
            None => Ok(()),
        }
    }

    /// Appends a task by its part, its name and its line.
    pub(crate) fn push_task(
        &self,
        alloc: Global,
        out: &mut Vec<u8>,
        plan: &TaskPlan,
    ) -> Result<(), AllocError> {
        self.push_part_name(out, plan.site.part)?;
        push(out, b".")?;
        self.push_name(out, plan.site)?;
        push(out, b" of line ")?;
        self.push_line(alloc, out, plan.site)
    }

    /// Why a task hasn't ended.
    fn why(&self, state: &State, task: usize, plan: &TaskPlan) -> &'static [u8] {
        if let Some(now) = at(state.tasks.as_slice(), task) {
            if !now.is_scheduled() {
                return b"which runs";
            }
        }
        if self.is_ready(state, task, plan) {
            return b"which is ready and has no worker";
        }
        let queue = self.queue_of(state, plan).unwrap_or(usize::MAX);
        match at(state.queues.as_slice(), queue) {
            Some(queue) if !queue.enabled => b"whose queue is disabled",
            _ => b"which stands behind another task of its queue",
        }
    }

    /// Appends why a task hasn't ended that is waited for, or that stands in a group that is.
    fn push_why(
        &self,
        alloc: Global,
        out: &mut Vec<u8>,
        state: &State,
        site: Site,
        deed: &Deed,
    ) -> Result<(), AllocError> {
        for (task, plan) in self.table.tasks.as_slice().iter().enumerate() {
            let Some(now) = at(state.tasks.as_slice(), task) else {
                continue;
            };
            if !now.is_unended() || !self.is_awaited(state, site.part, deed, task) {
                continue;
            }
            if !matches!(deed, Deed::Wait { .. }) {
                push(out, b"; ")?;
                self.push_task(alloc, out, plan)?;
            }
            push(out, b", ")?;
            push(out, self.why(state, task, plan))?;
        }
        Ok(())
    }

    /// Whether a statement waits for this task, alone or among others.
    fn is_awaited(&self, state: &State, part: usize, deed: &Deed, task: usize) -> bool {
        match deed {
            Deed::Wait { place, .. } => self.bound(state, part, *place) == Some(task),
            Deed::WaitAll { place, .. } | Deed::WaitAny { place, .. } => {
                match self.bound(state, part, *place) {
                    Some(group) => self.is_member(state, group, task),
                    None => false,
                }
            }
            _ => false,
        }
    }

    /// Appends the line of the next statement of a part, which is blocked.
    fn push_blocked(
        &self,
        alloc: Global,
        out: &mut Vec<u8>,
        state: &State,
        site: Site,
        deed: &Deed,
    ) -> Result<(), AllocError> {
        let Some((word, place, what)) = awaited(deed) else {
            return Ok(());
        };
        let named = Site {
            part: site.part,
            at: place as usize,
        };
        push(out, b"line ")?;
        self.push_line(alloc, out, site)?;
        push(out, b": ")?;
        push(out, word)?;
        push(out, b" of ")?;
        self.push_part_name(out, site.part)?;
        push(out, b" waits for ")?;
        push(out, what)?;
        push(out, b" ")?;
        self.push_name(out, named)?;
        push(out, b" of line ")?;
        self.push_line(alloc, out, named)?;
        self.push_why(alloc, out, state, site, deed)?;
        if let Some(thing) = self.thing_of(state, site.part, deed) {
            self.push_holders(alloc, out, state, thing)?;
        }
        push(out, b"\n")
    }

    /// Appends the names of the further callers that aren't at their end; nothing where all are.
    fn push_unended(&self, out: &mut Vec<u8>, state: &State) -> Result<bool, AllocError> {
        let mut any = false;
        for part in 1..self.parts() {
            if self.is_through(state, part) {
                continue;
            }
            if any {
                push(out, b", ")?;
            }
            self.push_part_name(out, part)?;
            any = true;
        }
        Ok(any)
    }

    /// Appends what a part waits for.
    fn push_part_wait(
        &self,
        alloc: Global,
        out: &mut Vec<u8>,
        state: &State,
        part: usize,
    ) -> Result<(), AllocError> {
        if at(state.places.as_slice(), part) == Some(0) {
            self.push_part_name(out, part)?;
            return push(out, b" waits for begin of main\n");
        }
        if let Some(site) = self.next_site(state, part) {
            if let Some(deed) = self.deed(site) {
                return self.push_blocked(alloc, out, state, site, deed);
            }
        }
        if part > 0 {
            return Ok(());
        }
        push(out, b"main is at its end and waits for ")?;
        if !self.push_unended(out, state)? {
            push(out, b"the workers")?;
        }
        push(out, b"\n")
    }

    /// Appends what the worker of a tally waits for.
    fn push_tally(
        &self,
        alloc: Global,
        out: &mut Vec<u8>,
        state: &State,
        plan: &TaskPlan,
    ) -> Result<(), AllocError> {
        let Some(args) = self.args_of(plan) else {
            return Ok(());
        };
        let [id, ..] = args.as_slice() else {
            return Ok(());
        };
        push(out, b"a worker: the tally ")?;
        self.push_task(alloc, out, plan)?;
        push(out, b" waits for the mutex of id ")?;
        push_whole(alloc, out, *id)?;
        if let Some(mutex) = self.mutex_with(state, u32::try_from(*id).unwrap_or(u32::MAX)) {
            self.push_holders(alloc, out, state, Thing::Mutex(mutex))?;
        }
        push(out, b"\n")
    }

    /// One line for each part and each worker that waits, of a state without steps. It fails for want of memory alone.
    pub fn waits(&self, alloc: Global, state: &State) -> Result<Vec<u8>, AllocError> {
        let mut out = Vec::new(alloc);
        for part in 0..self.parts() {
            self.push_part_wait(alloc, &mut out, state, part)?;
        }
        for (task, plan) in self.table.tasks.as_slice().iter().enumerate() {
            let Some(now) = at(state.tasks.as_slice(), task) else {
                continue;
            };
            if let (Progress::Running { .. }, Stage::Begun) = (now.progress, now.stage) {
                self.push_tally(alloc, &mut out, state, plan)?;
            }
        }
        Ok(out)
    }
}
