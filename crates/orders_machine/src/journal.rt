//! The journal of a path: what each step asks a node, and what the node answers.

use crate::lists::at;
use crate::machine::Machine;
use crate::state::{End, Outcome, Progress, Stage, State, Task, Told};
use crate::steps::Label;
use crate::table::{Site, TaskPlan};
use crate::workers::{looks_of, pure_answer};
use action_fn::{ActEnd, Finished};
use mtapi_machine::{Entry, Op, Reply};
use mtapi_values::{ActionHandle, Args, Kind, MtapiStatus, ObjectKind, TaskEnd, TaskHandle};
use node_journals::ShortList;
use std::alloc::{AllocError, Global};
use workload_file::Deed;
use workload_runs::{Call, call_of};

/// The handle of an object in layout two: each object has a slot of its own, of the first generation.
fn handle_of(kind: ObjectKind, object: u16) -> u64 {
    (1 << 32) + u64::from(kind.number()) * (1 << 24) + u64::from(object)
}

/// The kind of object to which a statement binds its name.
fn kind_named(deed: &Deed) -> ObjectKind {
    match deed {
        Deed::Action { .. } => ObjectKind::Action,
        Deed::Group => ObjectKind::Group,
        Deed::Queue { .. } | Deed::QueueGet { .. } => ObjectKind::Queue,
        Deed::Mutex { .. } | Deed::MutexGet { .. } => ObjectKind::Mutex,
        Deed::Sem { .. } | Deed::SemGet { .. } => ObjectKind::Sem,
        Deed::Rwl { .. } | Deed::RwlGet { .. } => ObjectKind::Rwl,
        Deed::Shmem { .. } | Deed::ShmemGet { .. } => ObjectKind::Shmem,
        _ => ObjectKind::Task,
    }
}

/// A list of one number.
fn one(number: i64) -> Args {
    let mut args = Args::new();
    args.push(number);
    args
}

/// Who runs what: of each worker the task that it runs.
type Seats = Vec<Option<u16>>;

/// The worker that runs a task.
fn seat_of(seats: &[Option<u16>], task: u16) -> Option<u32> {
    for (worker, runs) in seats.iter().enumerate() {
        if *runs == Some(task) {
            return u32::try_from(worker).ok();
        }
    }
    None
}

/// A worker runs this task, or none.
fn set_seat(seats: &mut Seats, worker: u32, runs: Option<u16>) {
    crate::lists::put(seats, worker as usize, runs);
}

impl Machine<'_> {
    /// The seat of the caller of a part.
    fn seat_of_part(&self, part: usize) -> u32 {
        let part = u32::try_from(part).unwrap_or(u32::MAX);
        self.load.settings.workers().saturating_add(part)
    }

    /// The handles that the first statements of a part bound, 0 where one bound none.
    fn handles(
        &self,
        alloc: Global,
        state: &State,
        part: usize,
        count: usize,
    ) -> Result<Vec<u64>, AllocError> {
        let mut handles = Vec::new(alloc);
        for (place, statement) in self.statements(part).iter().enumerate() {
            if place >= count {
                break;
            }
            let handle = match self.outcome(state, Site { part, at: place }) {
                Outcome::Names(object) => handle_of(kind_named(&statement.deed), object),
                _ => 0,
            };
            handles.push(handle)?;
        }
        Ok(handles)
    }

    /// The end of a task in full.
    pub(crate) fn end_of(&self, state: &State, task: usize) -> TaskEnd {
        let (Some(now), Some(plan)) = (
            at(state.tasks.as_slice(), task),
            at(self.table.tasks.as_slice(), task),
        ) else {
            return TaskEnd::Cancelled;
        };
        match now.end() {
            Some(End::Completed(kind)) => self.completed(state, &plan, kind),
            Some(End::Failed(status)) => TaskEnd::Failed(status),
            _ => TaskEnd::Cancelled,
        }
    }

    /// The end of a task that this kind completed.
    fn completed(&self, state: &State, plan: &TaskPlan, kind: Kind) -> TaskEnd {
        let Some(args) = self.args_of(plan) else {
            return TaskEnd::Cancelled;
        };
        match kind {
            Kind::Watch => TaskEnd::Completed(args.again()),
            Kind::Tally => TaskEnd::Completed(one(at(
                state.numbers.as_slice(),
                plan.number,
            ).unwrap_or(0))),
            _ => match pure_answer(kind, args) {
                Some(ActEnd::Done(numbers)) => TaskEnd::Completed(numbers),
                Some(ActEnd::Fails(status)) => TaskEnd::Failed(status),
                None => TaskEnd::Cancelled,
            },
        }
    }

    /// The reply to the call of a statement, of what it came to.
    fn reply_of(&self, state: &State, site: Site, deed: &Deed) -> Reply {
        match self.outcome(state, site) {
            Outcome::Names(object) => Reply::Handle(handle_of(kind_named(deed), object)),
            Outcome::Key(key) => Reply::Number(i64::from(key)),
            Outcome::Number => {
                Reply::Number(at(state.numbers.as_slice(), self.own(site)).unwrap_or(0))
            }
            Outcome::Given(task) => Reply::Given(
                TaskHandle(handle_of(ObjectKind::Task, task)),
                self.end_of(state, usize::from(task)),
            ),
            Outcome::Mtapi(status) => Reply::Mtapi(status),
            Outcome::Mrapi(status) => Reply::Mrapi(status),
            _ => self.plain_reply(state, site, deed),
        }
    }

    /// The reply to a call that was executed and has nothing else to tell.
    fn plain_reply(&self, state: &State, site: Site, deed: &Deed) -> Reply {
        let Deed::Wait { place, .. } = deed else {
            return Reply::Ok;
        };
        match self.bound(state, site.part, *place) {
            Some(task) => Reply::Ended(self.end_of(state, task)),
            None => Reply::Ok,
        }
    }

    /// The entries of a statement, which has been made or has given up.
    fn tell_statement(
        &self,
        alloc: Global,
        after: &State,
        site: Site,
        late: bool,
        entries: &mut ShortList,
    ) -> Result<(), AllocError> {
        let Some(deed) = self.deed(site) else {
            return Ok(());
        };
        let who = self.seat_of_part(site.part);
        let bound = self.handles(alloc, after, site.part, site.at)?;
        let reply = self.reply_of(after, site, deed);
        match call_of(deed, bound.as_slice()) {
            Call::Once(op) => entries.push(Entry { who, op, reply }, 0),
            Call::Looking(wanted, timeout) => {
                let most = timeout.looks().unwrap_or(0);
                let mut before = if late { most.saturating_sub(1) } else { 0 };
                let last = late || most == 1;
                if before > 0 && wanted.waits() {
                    let op = wanted.op(false);
                    let reply = Reply::Pending;
                    entries.push(Entry { who, op, reply }, 0)?;
                    before = before.saturating_sub(1);
                }
                let op = wanted.op(last);
                entries.push(Entry { who, op, reply }, before)
            }
        }
    }

    /// An entry of main.
    fn tell_main(&self, op: Op, entries: &mut ShortList) -> Result<(), AllocError> {
        let who = self.seat_of_part(0);
        let reply = Reply::Ok;
        entries.push(Entry { who, op, reply }, 0)
    }

    /// Each worker stops, and main finalizes the node.
    fn tell_final(&self, entries: &mut ShortList) -> Result<(), AllocError> {
        for who in 0..self.load.settings.workers() {
            let op = Op::Pick;
            let reply = Reply::Stop;
            entries.push(Entry { who, op, reply }, 0)?;
        }
        self.tell_main(Op::Final, entries)
    }

    /// The first worker of a class that runs no task.
    fn idle_worker(&self, seats: &[Option<u16>], class: u8) -> Option<u32> {
        for (worker, runs) in seats.iter().enumerate() {
            let worker = u32::try_from(worker).ok()?;
            if runs.is_none() && self.class_of(worker) == Some(usize::from(class)) {
                return Some(worker);
            }
        }
        None
    }

    /// A worker takes a task.
    fn tell_pick(
        &self,
        class: u8,
        task: u16,
        action: u16,
        seats: &mut Seats,
        entries: &mut ShortList,
    ) -> Result<(), AllocError> {
        let (Some(who), Some(plan), Some(made)) = (
            self.idle_worker(seats.as_slice(), class),
            at(self.table.tasks.as_slice(), usize::from(task)),
            at(self.table.actions.as_slice(), usize::from(action)),
        ) else {
            return Ok(());
        };
        let Some(args) = self.args_of(&plan) else {
            return Ok(());
        };
        set_seat(seats, who, Some(task));
        let op = Op::Pick;
        let reply = Reply::Picked {
            task: TaskHandle(handle_of(ObjectKind::Task, task)),
            action: ActionHandle(handle_of(ObjectKind::Action, action)),
            kind: made.kind,
            args: args.again(),
        };
        entries.push(Entry { who, op, reply }, 0)
    }

    /// The entries of a watch, which stood so before.
    fn tell_watch(
        &self,
        who: u32,
        task: TaskHandle,
        before: Task,
        end: Option<TaskEnd>,
        args: &Args,
        entries: &mut ShortList,
    ) -> Result<(), AllocError> {
        if let Some(end) = end {
            let op = Op::WatchEnd { task };
            let reply = Reply::Ended(end);
            return entries.push(Entry { who, op, reply }, 0);
        }
        if before.told == Told::Requested {
            let op = Op::Asked { task };
            let reply = Reply::Asked(true);
            return entries.push(Entry { who, op, reply }, 0);
        }
        for _look in 0..looks_of(args).unwrap_or(0) {
            let op = Op::Asked { task };
            let reply = Reply::Asked(false);
            entries.push(Entry { who, op, reply }, 0)?;
        }
        Ok(())
    }

    /// The entry of a tally, which stands so behind it and keeps this number.
    fn tell_tally(
        &self,
        who: u32,
        task: TaskHandle,
        stage: Stage,
        end: Option<TaskEnd>,
        number: i64,
        entries: &mut ShortList,
    ) -> Result<(), AllocError> {
        let (op, reply) = match (end, stage) {
            (Some(end), _) => (Op::TallyEnd { task }, Reply::Ended(end)),
            (None, Stage::Holds) => (Op::TallyLock { task }, Reply::Asked(true)),
            (None, Stage::Read) => (Op::TallyRead { task }, Reply::Number(number)),
            (None, Stage::Written) => {
                let value = number;
                (Op::TallyWrite { task, value }, Reply::Ok)
            }
            (None, _) => (Op::TallyLock { task }, Reply::Asked(false)),
        };
        entries.push(Entry { who, op, reply }, 0)
    }

    /// The entry of a worker that ends a task of a pure kind.
    fn tell_finish(
        &self,
        who: u32,
        task: TaskHandle,
        kind: Kind,
        args: &Args,
        entries: &mut ShortList,
    ) -> Result<(), AllocError> {
        let Some(done) = finished(kind, args) else {
            return Ok(());
        };
        let op = Op::Finish { task, done };
        let reply = Reply::Ok;
        entries.push(Entry { who, op, reply }, 0)
    }

    /// The entries of the worker that runs a task, which ran with this kind before.
    fn tell_work(
        &self,
        kind: Kind,
        before: Task,
        after: &State,
        task: u16,
        seats: &mut Seats,
        entries: &mut ShortList,
    ) -> Result<(), AllocError> {
        let place = usize::from(task);
        let (Some(who), Some(now), Some(plan)) = (
            seat_of(seats.as_slice(), task),
            at(after.tasks.as_slice(), place),
            at(self.table.tasks.as_slice(), place),
        ) else {
            return Ok(());
        };
        let Some(args) = self.args_of(&plan) else {
            return Ok(());
        };
        let mut end = None;
        if now.end().is_some() {
            set_seat(seats, who, None);
            end = Some(self.end_of(after, place));
        }
        let handle = TaskHandle(handle_of(ObjectKind::Task, task));
        let number = at(after.numbers.as_slice(), plan.number).unwrap_or(0);
        match kind {
            Kind::Watch => self.tell_watch(who, handle, before, end, args, entries),
            Kind::Tally => self.tell_tally(who, handle, now.stage, end, number, entries),
            _ => self.tell_finish(who, handle, kind, args, entries),
        }
    }

    /// The entries of a step, by which one state became another.
    fn tell(
        &self,
        alloc: Global,
        label: Label,
        before: &State,
        after: &State,
        seats: &mut Seats,
        entries: &mut ShortList,
    ) -> Result<(), AllocError> {
        match label {
            Label::Initialize => self.tell_main(Op::Initialize, entries),
            Label::Release => self.tell_main(Op::Release, entries),
            Label::Close => self.tell_main(Op::Close, entries),
            Label::Final => self.tell_final(entries),
            Label::Enter { part } => {
                let who = self.seat_of_part(usize::from(part));
                let (op, reply) = (Op::Enter, Reply::Ok);
                entries.push(Entry { who, op, reply }, 0)
            }
            Label::Make { part } => self.tell_part(alloc, before, after, part, false, entries),
            Label::GiveUp { part } => self.tell_part(alloc, before, after, part, true, entries),
            Label::Pick {
                class,
                task,
                action,
            } => self.tell_pick(class, task, action, seats, entries),
            Label::Work { task } => match at(before.tasks.as_slice(), usize::from(task)) {
                Some(then) => match then.progress {
                    Progress::Running { kind, .. } => {
                        self.tell_work(kind, then, after, task, seats, entries)
                    }
                    _ => Ok(()),
                },
                None => Ok(()),
            },
        }
    }

    /// The entries of the statement that a part made, or that gave up.
    fn tell_part(
        &self,
        alloc: Global,
        before: &State,
        after: &State,
        part: u8,
        late: bool,
        entries: &mut ShortList,
    ) -> Result<(), AllocError> {
        match self.next_site(before, usize::from(part)) {
            Some(site) => self.tell_statement(alloc, after, site, late, entries),
            None => Ok(()),
        }
    }

    /// The entries of a path from the opening, in layout two, with the number of looks that were left out before each. Labels that are
    /// no path are told as far as they are one. It fails for want of memory alone.
    pub fn entries(&self, alloc: Global, path: &[Label]) -> Result<ShortList, AllocError> {
        let mut entries = ShortList::new(alloc);
        let mut state = self.opening(alloc)?;
        let mut seats = vec![in alloc; None; self.load.settings.workers() as usize]?;
        for label in path {
            let before = state.clone()?;
            if !self.apply(&mut state, *label) {
                return Ok(entries);
            }
            self.tell(alloc, *label, &before, &state, &mut seats, &mut entries)?;
        }
        Ok(entries)
    }
}

/// What the action of a pure kind answers to these arguments, beside both; nothing for the other kinds.
fn finished(kind: Kind, args: &Args) -> Option<Finished> {
    let end = pure_answer(kind, args)?;
    Some(Finished::new(kind, args.again(), end))
}
