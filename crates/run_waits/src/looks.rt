//! What each seat waits for at an entry of a run, and which seats are stuck.
//!
//! A seat is *stuck* while what it waits for without end is held, or run, by seats that are stuck: by one of them, or for a semaphore,
//! for a reader, and for any task of a group, by all. A task that hasn't begun may begin, so who waits for it isn't stuck.

use crate::progress::{MadeMutex, Progress};
use crate::run::BoundedRun;
use journal_text::{NodeObject, object_named};
use mtapi_machine::{Entry, Op, Reply};
use mtapi_values::{ObjectKind, TaskHandle, Timeout};
use std::alloc::{AllocError, Global};
use workload_file::Deed;

/// What each seat waits for while an entry of the run is made.
#[derive(Drop)]
pub struct Looks<'a> {
    pub run: &'a BoundedRun<'a>,
    pub progress: &'a Progress,
    /// For each seat the place of the entry whose look it repeats.
    pub looks: Vec<Option<usize>>,
    pub stuck: Vec<bool>,
}

/// Those who hold or run what a look waits for.
#[derive(Drop)]
pub struct Needed {
    pub seats: Vec<u32>,
    /// Whether one of them that goes on is enough.
    one_is_enough: bool,
}

/// Whether an op may be asked again and again, until there is an answer.
fn is_look(op: &Op) -> bool {
    matches!(
        op,
        Op::TaskLook { .. }
            | Op::AllLook { .. }
            | Op::AnyLook { .. }
            | Op::MutexLook { .. }
            | Op::SemLook { .. }
            | Op::RwlLook { .. }
            | Op::TallyLock { .. }
    )
}

/// Whether a seat that looks so waits for tasks that others run.
pub fn waits_for_tasks(op: &Op) -> bool {
    matches!(
        op,
        Op::TaskLook { .. } | Op::AllLook { .. } | Op::AnyLook { .. }
    )
}

/// Whether a statement waits without end.
pub fn is_endless(deed: &Deed) -> bool {
    match deed {
        Deed::Wait { timeout, .. }
        | Deed::WaitAll { timeout, .. }
        | Deed::WaitAny { timeout, .. }
        | Deed::Lock { timeout, .. }
        | Deed::SemLock { timeout, .. }
        | Deed::RwlLock { timeout, .. } => *timeout == Timeout::Infinite,
        _ => false,
    }
}

/// The entry whose look a seat repeats while the entry at this place is made.
fn look_at(run: &BoundedRun, progress: &Progress, seat: u32, place: usize) -> Option<usize> {
    if run.entries.get(place)?.who == seat {
        return Some(place);
    }
    let latest = progress.latest_of(seat)?;
    let last = run.entries.get(latest)?;
    if matches!(last.reply, Reply::Pending) {
        return if is_look(&last.op) {
            Some(latest)
        } else {
            None
        };
    }
    let behind = match run.next.get(latest) {
        Some(Some(behind)) => *behind,
        _ => return None,
    };
    let left_out = match run.skipped.get(behind) {
        Some(looks) => *looks,
        None => 0,
    };
    if is_look(&run.entries.get(behind)?.op) && left_out > 0 {
        Some(behind)
    } else {
        None
    }
}

/// For each seat the entry whose look it repeats while the entry at this place is made.
fn all_looks(
    alloc: Global,
    run: &BoundedRun,
    progress: &Progress,
    place: usize,
) -> Result<Vec<Option<usize>>, AllocError> {
    let mut looks = Vec::new(alloc);
    for seat in 0..run.seats() {
        let seat = u32::try_from(seat).unwrap_or(u32::MAX);
        looks.push(look_at(run, progress, seat, place))?;
    }
    Ok(looks)
}

impl<'a> Looks<'a> {
    /// What the seats wait for while the entry at this place is made, of a run that was followed up to there.
    pub fn new(
        alloc: Global,
        run: &'a BoundedRun<'a>,
        progress: &'a Progress,
        place: usize,
    ) -> Result<Looks<'a>, AllocError> {
        let looks = all_looks(alloc, run, progress, place)?;
        let stuck = vec![in alloc; false; looks.len()]?;
        let mut all = Looks {
            run,
            progress,
            looks,
            stuck,
        };
        all.find_stuck(alloc)?;
        Ok(all)
    }

    /// The entry whose look a seat repeats.
    pub fn entry_of(&self, seat: u32) -> Option<&'a Entry> {
        match self.looks.get(seat as usize) {
            Some(Some(place)) => self.run.entries.get(*place),
            _ => None,
        }
    }

    pub fn is_stuck(&self, seat: u32) -> bool {
        match self.stuck.get(seat as usize) {
            Some(stuck) => *stuck,
            None => false,
        }
    }

    /// The mutex that the look of a worker's tally waits for.
    pub fn mutex_looked_for(&self, look: &Entry) -> Option<MadeMutex> {
        match look.op {
            Op::TallyLock { .. } => self.progress.mutex_of_tally(look.who),
            _ => None,
        }
    }

    /// What those hold for whom a look waits.
    pub fn object_of(&self, look: &Entry) -> Option<NodeObject> {
        match (&look.op, self.mutex_looked_for(look)) {
            (Op::TallyLock { .. }, Some(made)) => Some(NodeObject {
                kind: ObjectKind::Mutex,
                handle: made.handle,
            }),
            (Op::TallyLock { .. }, None) => None,
            (op, _) => object_named(op),
        }
    }

    /// Whether a seat looks without end.
    fn looks_without_end(&self, seat: usize) -> bool {
        let Some(Some(place)) = self.looks.get(seat) else {
            return false;
        };
        match (self.run.entries.get(*place), self.run.statement_at(*place)) {
            (Some(entry), _) if matches!(entry.op, Op::TallyLock { .. }) => true,
            (Some(_), Some(statement)) => is_endless(&statement.deed),
            _ => false,
        }
    }

    /// Those who run tasks of a group. If one end is enough, and a task may begin yet, they are none.
    fn runners_of(
        &self,
        alloc: Global,
        tasks: &[u64],
        one_is_enough: bool,
    ) -> Result<Vec<u32>, AllocError> {
        let mut seats = Vec::new(alloc);
        for task in tasks {
            match self.progress.runner_of(*task) {
                Some(seat) => seats.push(seat)?,
                None if one_is_enough && !self.progress.has_ended(*task) => {
                    return Ok(Vec::new(alloc));
                }
                None => {}
            }
        }
        Ok(seats)
    }

    /// The worker that runs a task, if one does.
    fn runner_alone(&self, alloc: Global, task: &TaskHandle) -> Result<Vec<u32>, AllocError> {
        let mut seats = Vec::new(alloc);
        if let Some(seat) = self.progress.runner_of(task.0) {
            seats.push(seat)?;
        }
        Ok(seats)
    }

    /// Those who hold what a look waits for.
    fn holders_of(&self, alloc: Global, look: &Entry) -> Result<Vec<u32>, AllocError> {
        let mut seats = Vec::new(alloc);
        if let Some(object) = self.object_of(look) {
            for holder in self.progress.holders() {
                if holder.object == object {
                    seats.push(holder.seat)?;
                }
            }
        }
        Ok(seats)
    }

    /// Those who hold or run what a look waits for.
    pub fn needed_by(&self, alloc: Global, look: &Entry) -> Result<Needed, AllocError> {
        let one_is_enough = matches!(
            look.op,
            Op::SemLook { .. } | Op::AnyLook { .. } | Op::RwlLook { writer: false, .. }
        );
        let seats = match &look.op {
            Op::TaskLook { task, .. } => self.runner_alone(alloc, task)?,
            Op::AllLook { group, .. } | Op::AnyLook { group, .. } => {
                self.runners_of(alloc, self.progress.members_of(*group), one_is_enough)?
            }
            _ => self.holders_of(alloc, look)?,
        };
        Ok(Needed {
            seats,
            one_is_enough,
        })
    }

    /// Whether so many of those that a seat needs are stuck that it can't go on.
    fn stays_stuck(&self, alloc: Global, seat: usize) -> Result<bool, AllocError> {
        let Some(look) = self.entry_of(u32::try_from(seat).unwrap_or(u32::MAX)) else {
            return Ok(false);
        };
        let needed = self.needed_by(alloc, look)?;
        let mut stuck = 0usize;
        for other in needed.seats.as_slice() {
            if self.is_stuck(*other) {
                stuck = stuck.saturating_add(1);
            }
        }
        Ok(stuck > 0 && (stuck == needed.seats.len() || !needed.one_is_enough))
    }

    /// Takes out the first seat that isn't stuck by those that still are taken to be. Whether there was one.
    fn release_one(&mut self, alloc: Global) -> Result<bool, AllocError> {
        for seat in 0..self.stuck.len() {
            if seat < self.stuck.len() && self.stuck[seat] && !self.stays_stuck(alloc, seat)? {
                if seat < self.stuck.len() {
                    self.stuck[seat] = false;
                }
                return Ok(true);
            }
        }
        Ok(false)
    }

    /// Finds the seats that are stuck: those that look without end, without those that go on.
    fn find_stuck(&mut self, alloc: Global) -> Result<(), AllocError> {
        for seat in 0..self.stuck.len() {
            let endless = self.looks_without_end(seat);
            if seat < self.stuck.len() {
                self.stuck[seat] = endless;
            }
        }
        for _ in 0..self.stuck.len() {
            if !self.release_one(alloc)? {
                return Ok(());
            }
        }
        Ok(())
    }
}
