//! Who holds what, and who runs which task, as far as the entries of a run were followed. What became of each task is what the report of
//! a run is made of.

use crate::run::BoundedRun;
use journal_text::NodeObject;
use mtapi_machine::{Entry, Op, Reply};
use mtapi_values::{GroupHandle, Kind, ObjectKind};
use run_report::{Standings, follow_entry, no_standings};
use std::alloc::{AllocError, Global};
use std::collections::HashMap;

/// As what a seat holds an object.
#[derive(Clone, Copy, Drop, PartialEq, Eq)]
pub enum HeldAs {
    /// By a call of its own.
    Caller,
    Reader,
    Writer,
    /// A worker, for the tally that it runs.
    Tally,
}

/// A seat that holds an object.
#[derive(Clone, Copy, Drop)]
pub struct Holder {
    pub object: NodeObject,
    pub seat: u32,
    pub held_as: HeldAs,
    /// The place of the entry by which it took it.
    pub since: usize,
    /// How often it locked it, if it is a mutex.
    pub depth: i64,
}

/// The task that a worker picked last, and the id of its mutex if it is a tally.
#[derive(Clone, Copy, Drop)]
struct Picked {
    task: u64,
    mutex: Option<i64>,
}

/// A mutex with an id, and the place of the entry that made it.
#[derive(Clone, Copy, Drop)]
pub struct MadeMutex {
    pub handle: u64,
    pub made: usize,
}

/// How things stand behind some entries of a run.
#[derive(Drop)]
pub struct Progress {
    alloc: Global,
    workers: u32,
    standings: Standings,
    /// For each seat.
    picked: Vec<Option<Picked>>,
    /// For each seat the place of its last entry.
    latest: Vec<Option<usize>>,
    /// In the order in which they took what they hold.
    holders: Vec<Holder>,
    /// By id: the newest one.
    mutexes: HashMap<i64, MadeMutex>,
    /// The tasks of each group.
    members: HashMap<u64, Vec<u64>>,
}

fn object(kind: ObjectKind, handle: u64) -> NodeObject {
    NodeObject { kind, handle }
}

/// The id of the mutex of a tally.
fn tally_mutex(kind: Kind, args: &[i64]) -> Option<i64> {
    match (kind, args) {
        (Kind::Tally, [mutex, ..]) => Some(*mutex),
        _ => None,
    }
}

/// The mode in which a reader-writer lock is held.
fn mode_of(writer: bool) -> HeldAs {
    if writer {
        HeldAs::Writer
    } else {
        HeldAs::Reader
    }
}

impl Progress {
    /// Before the first entry.
    pub fn new(alloc: Global, workers: u32, seats: usize) -> Result<Progress, AllocError> {
        Ok(Progress {
            alloc,
            workers: workers.min(64),
            standings: no_standings(alloc, 0)?,
            picked: vec![in alloc; None; seats]?,
            latest: vec![in alloc; None; seats]?,
            holders: Vec::new(alloc),
            mutexes: HashMap::new(alloc),
            members: HashMap::new(alloc),
        })
    }

    /// The place of a seat's last entry.
    pub fn latest_of(&self, seat: u32) -> Option<usize> {
        match self.latest.get(seat as usize) {
            Some(latest) => *latest,
            None => None,
        }
    }

    /// Those who hold an object, in the order in which they took it.
    pub fn holders(&self) -> &[Holder] {
        self.holders.as_slice()
    }

    /// The tasks that were put into a group.
    pub fn members_of(&self, group: GroupHandle) -> &[u64] {
        match self.members.get(&group.0) {
            Some(members) => members.as_slice(),
            None => &[],
        }
    }

    /// Whether a task has ended.
    pub fn has_ended(&self, task: u64) -> bool {
        self.standings.ended.contains_key(&task)
    }

    /// The worker that runs a task.
    pub fn runner_of(&self, task: u64) -> Option<u32> {
        if self.has_ended(task) {
            return None;
        }
        for (seat, picked) in self.picked.iter().enumerate() {
            if let Some(picked) = picked
                && picked.task == task
            {
                return u32::try_from(seat).ok();
            }
        }
        None
    }

    /// The mutex of the tally that a worker runs.
    pub fn mutex_of_tally(&self, seat: u32) -> Option<MadeMutex> {
        match self.picked.get(seat as usize) {
            Some(Some(picked)) => match self.mutexes.get(&picked.mutex?) {
                Some(made) => Some(*made),
                None => None,
            },
            _ => None,
        }
    }

    /// A seat takes an object.
    fn hold(
        &mut self,
        seat: u32,
        object: NodeObject,
        held_as: HeldAs,
        since: usize,
    ) -> Result<(), AllocError> {
        self.holders.push(Holder {
            object,
            seat,
            held_as,
            since,
            depth: 1,
        })?;
        Ok(())
    }

    /// The place of the newest holder of an object that is this seat and holds it so, or else of the first.
    fn holder_at(&self, seat: u32, object: NodeObject, held_as: HeldAs) -> Option<usize> {
        let mut first = None;
        let mut own = None;
        for (place, holder) in self.holders.iter().enumerate() {
            if holder.object == object {
                if first.is_none() {
                    first = Some(place);
                }
                if holder.seat == seat && holder.held_as == held_as {
                    own = Some(place);
                }
            }
        }
        own.or(first)
    }

    /// A seat gives an object back, of a mutex one level.
    fn give_back(&mut self, seat: u32, object: NodeObject, held_as: HeldAs) {
        if let Some(place) = self.holder_at(seat, object, held_as)
            && place < self.holders.len()
        {
            let holder = self.holders[place];
            let depth = holder.depth.saturating_sub(1);
            if depth > 0 {
                self.holders[place] = Holder { depth, ..holder };
            } else {
                self.holders.remove(place);
            }
        }
    }

    /// A seat has locked a mutex so often.
    fn lock_mutex(
        &mut self,
        seat: u32,
        mutex: NodeObject,
        depth: i64,
        since: usize,
    ) -> Result<(), AllocError> {
        if depth == 1 {
            return self.hold(seat, mutex, HeldAs::Caller, since);
        }
        if let Some(place) = self.holder_at(seat, mutex, HeldAs::Caller)
            && place < self.holders.len()
        {
            let holder = self.holders[place];
            self.holders[place] = Holder { depth, ..holder };
        }
        Ok(())
    }

    /// A worker's tally takes its mutex.
    fn lock_for_tally(&mut self, seat: u32, since: usize) -> Result<(), AllocError> {
        match self.mutex_of_tally(seat) {
            Some(made) => self.hold(
                seat,
                object(ObjectKind::Mutex, made.handle),
                HeldAs::Tally,
                since,
            ),
            None => Ok(()),
        }
    }

    /// A worker's tally ends.
    fn end_tally(&mut self, seat: u32) {
        if let Some(made) = self.mutex_of_tally(seat) {
            self.give_back(seat, object(ObjectKind::Mutex, made.handle), HeldAs::Tally);
        }
    }

    /// A task is put into a group.
    fn join_group(&mut self, group: GroupHandle, task: u64) -> Result<(), AllocError> {
        match self.members.get_mut(&group.0) {
            Some(members) => members.push(task)?,
            None => {
                let mut members = Vec::new(self.alloc);
                members.push(task)?;
                self.members.insert(group.0, members)?;
            }
        }
        Ok(())
    }

    /// A worker picks a task.
    fn pick(&mut self, seat: u32, picked: Picked) {
        let place = seat as usize;
        if place < self.picked.len() {
            self.picked[place] = Some(picked);
        }
    }

    /// What an entry that makes, runs or ends something changes.
    fn note_work(&mut self, place: usize, entry: &Entry) -> Result<(), AllocError> {
        match (&entry.op, &entry.reply) {
            (Op::MutexCreate { id, .. }, Reply::Handle(handle)) => {
                let made = MadeMutex {
                    handle: *handle,
                    made: place,
                };
                self.mutexes.insert(i64::from(*id), made)?;
            }
            (
                Op::TaskStart {
                    group: Some(group),
                    ..
                },
                Reply::Handle(task),
            ) => self.join_group(*group, *task)?,
            (
                Op::TaskEnqueue {
                    group: Some(group),
                    ..
                },
                Reply::Handle(task),
            ) => self.join_group(*group, *task)?,
            (
                Op::Pick,
                Reply::Picked {
                    task,
                    kind,
                    args,
                    ..
                },
            ) => self.pick(
                entry.who,
                Picked {
                    task: task.0,
                    mutex: tally_mutex(*kind, args.as_slice()),
                },
            ),
            (Op::TallyLock { .. }, Reply::Asked(true)) => self.lock_for_tally(entry.who, place)?,
            (Op::TallyEnd { .. }, Reply::Ended(_)) => self.end_tally(entry.who),
            _ => {}
        }
        Ok(())
    }

    /// What an entry changes in who holds what.
    fn note_hold(&mut self, place: usize, entry: &Entry) -> Result<(), AllocError> {
        let who = entry.who;
        match (&entry.op, &entry.reply) {
            (Op::MutexLook { mutex, .. }, Reply::Number(depth)) => {
                self.lock_mutex(who, object(ObjectKind::Mutex, mutex.0), *depth, place)?;
            }
            (Op::MutexUnlock { mutex, .. }, Reply::Ok) => {
                self.give_back(who, object(ObjectKind::Mutex, mutex.0), HeldAs::Caller);
            }
            (Op::SemLook { sem, .. }, Reply::Ok) => {
                self.hold(who, object(ObjectKind::Sem, sem.0), HeldAs::Caller, place)?;
            }
            (Op::SemUnlock { sem }, Reply::Ok) => {
                self.give_back(who, object(ObjectKind::Sem, sem.0), HeldAs::Caller);
            }
            (Op::RwlLook { rwl, writer, .. }, Reply::Ok) => {
                self.hold(who, object(ObjectKind::Rwl, rwl.0), mode_of(*writer), place)?;
            }
            (Op::RwlUnlock { rwl, writer }, Reply::Ok) => {
                self.give_back(who, object(ObjectKind::Rwl, rwl.0), mode_of(*writer));
            }
            _ => {}
        }
        Ok(())
    }

    /// Follows an entry.
    pub fn note(&mut self, place: usize, entry: &Entry) -> Result<(), AllocError> {
        self.note_work(place, entry)?;
        self.note_hold(place, entry)?;
        let workers = self.workers.min(64);
        follow_entry(self.alloc, &mut self.standings, workers, entry)?;
        let who = entry.who as usize;
        if who < self.latest.len() {
            self.latest[who] = Some(place);
        }
        Ok(())
    }
}

/// Before the first entry of a run.
pub fn progress_of(alloc: Global, run: &BoundedRun) -> Result<Progress, AllocError> {
    Progress::new(alloc, run.workers, run.seats())
}
