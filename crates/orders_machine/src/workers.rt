//! The steps of workers: they take tasks, and end them.

ghost use Rattle.std.specs.Prelude.{◌≡◌, true, IfSome};
ghost use Rattle.action_fn.specs.Answers.{is_pure, answer_of};

use crate::lists::{at, put};
use crate::machine::Machine;
use crate::state::{End, Mutex, Owner, Progress, Segment, Stage, State, Task, Told};
use crate::steps::Label;
use crate::table::{TaskPlan, cell_of};
use action_fn::{ActEnd, answer_of};
use mtapi_values::{Args, Kind, MtapiStatus};
use std::alloc::AllocError;
use workload_file::Deed;

/// How often a watch with these arguments looks, where they are one number from 0 to 64.
pub(crate) fn looks_of(args: &Args) -> Option<u64> {
    match args.as_slice() {
        [looks] if 0 <= *looks && *looks <= 64 => u64::try_from(*looks).ok(),
        _ => None,
    }
}

/// The id that this argument of a tally names.
fn id_in(number: i64) -> Option<u32> {
    u32::try_from(number).ok()
}

/// What the action of a pure kind answers; nothing for the other kinds.
pub(crate) fn pure_answer(kind: Kind, args: &Args) -> Option<ActEnd>
    ensures pure { IfSome result (λ end. is_pure kind ≡ true) }
    ensures answer { IfSome result (λ end. end ≡ answer_of kind args.now) }
{
    match kind {
        Kind::Watch | Kind::Tally => None,
        Kind::Add
        | Kind::Mul
        | Kind::Max
        | Kind::Div
        | Kind::Gcd
        | Kind::Echo
        | Kind::Triangle
        | Kind::Fail => Some(answer_of(kind, args)),
    }
}

/// How a task ends that is run with a pure kind.
fn pure_end(kind: Kind, args: &Args) -> Option<End> {
    match pure_answer(kind, args)? {
        ActEnd::Done(_) => Some(End::Completed(kind)),
        ActEnd::Fails(status) => Some(End::Failed(status)),
    }
}

/// What a watch does next: it ends so, or it asks and is told so.
fn watch_step(told: Told, args: &Args) -> Result<End, Told> {
    if args.as_slice().len() != 1 {
        return Ok(End::Failed(MtapiStatus::ErrArgSize));
    }
    let Some(looks) = looks_of(args) else {
        return Ok(End::Failed(MtapiStatus::ErrActionFailed));
    };
    if looks == 0 {
        return Ok(End::Completed(Kind::Watch));
    }
    match told {
        Told::Seen => Ok(End::Cancelled),
        Told::Never => Ok(End::Completed(Kind::Watch)),
        Told::Requested => Err(Told::Seen),
        Told::Nothing => Err(Told::Never),
    }
}

/// What a tally with these arguments has to find: a mutex, a segment and a cell there.
#[derive(Clone, Copy, Drop)]
struct Adds {
    mutex: usize,
    segment: usize,
    cell: usize,
    number: i64,
}

/// The mutex given back.
fn unowned(mutex: Mutex) -> Mutex {
    Mutex {
        owner: Owner::Nobody,
        depth: 0,
        ..mutex
    }
}

impl Machine<'_> {
    /// The arguments of a task.
    pub(crate) fn args_of(&self, plan: &TaskPlan) -> Option<&Args> {
        match self.deed(plan.site)? {
            Deed::Start { args, .. } => Some(args),
            Deed::Enqueue { args, .. } => Some(args),
            _ => None,
        }
    }

    // Taking

    /// Whether a task hasn't begun, and its queue, if it has one, lets it begin.
    pub(crate) fn is_ready(&self, state: &State, task: usize, plan: &TaskPlan) -> bool {
        let Some(now) = at(state.tasks.as_slice(), task) else {
            return false;
        };
        if !now.is_scheduled() {
            return false;
        }
        let Some(queue) = self.queue_of(state, plan) else {
            return true;
        };
        match at(state.queues.as_slice(), queue) {
            Some(queue) => queue.enabled && now.turn <= 1,
            None => false,
        }
    }

    /// Whether the workers of a class could take the task.
    fn can_take(&self, state: &State, worker: u32, task: usize, plan: &TaskPlan) -> bool {
        self.is_ready(state, task, plan)
            && self.can_serve(state, worker, self.job_of(state, plan), plan.cores)
    }

    /// The smallest priority of the tasks that the workers of a class could take.
    fn best_priority(&self, state: &State, worker: u32) -> Option<u32> {
        let mut best = None;
        for (task, plan) in self.table.tasks.as_slice().iter().enumerate() {
            if !self.can_take(state, worker, task, plan) {
                continue;
            }
            let priority = self.priority_of(state, plan);
            best = match best {
                Some(least) if least <= priority => best,
                _ => Some(priority),
            };
        }
        best
    }

    /// The kind of an action.
    fn kind_of(&self, action: usize) -> Option<Kind> {
        match at(self.table.actions.as_slice(), action) {
            Some(plan) => Some(plan.kind),
            None => None,
        }
    }

    /// Whether an earlier action of the same kind is eligible for the task too.
    fn is_repeated(&self, state: &State, action: usize, worker: u32, plan: &TaskPlan) -> bool {
        let job = self.job_of(state, plan);
        for other in 0..action {
            if self.kind_of(other) == self.kind_of(action)
                && self.is_eligible(state, other, worker, job, plan.cores)
            {
                return true;
            }
        }
        false
    }

    /// Appends the picks of a task by the workers of a class, one for each kind.
    fn push_picks(
        &self,
        state: &State,
        class: u8,
        worker: u32,
        task: usize,
        into: &mut Vec<Label>,
    ) -> Result<(), AllocError> {
        let Some(plan) = at(self.table.tasks.as_slice(), task) else {
            return Ok(());
        };
        let job = self.job_of(state, &plan);
        for action in 0..self.table.actions.len() {
            if !self.is_eligible(state, action, worker, job, plan.cores)
                || self.is_repeated(state, action, worker, &plan)
            {
                continue;
            }
            if let (Ok(task), Ok(action)) = (u16::try_from(task), u16::try_from(action)) {
                into.push(Label::Pick {
                    class,
                    task,
                    action,
                })?;
            }
        }
        Ok(())
    }

    /// Appends the picks of the workers of a class, where one of them is idle.
    pub(crate) fn push_class(
        &self,
        state: &State,
        class: usize,
        into: &mut Vec<Label>,
    ) -> Result<(), AllocError> {
        let (Some(kind), Ok(number)) = (at(self.classes.as_slice(), class), u8::try_from(class))
        else {
            return Ok(());
        };
        if self.busy(state, number) >= kind.size {
            return Ok(());
        }
        let Some(best) = self.best_priority(state, kind.worker) else {
            return Ok(());
        };
        for (task, plan) in self.table.tasks.as_slice().iter().enumerate() {
            if self.is_ready(state, task, plan) && self.priority_of(state, plan) == best {
                self.push_picks(state, number, kind.worker, task, into)?;
            }
        }
        Ok(())
    }

    /// A worker of a class takes a task, by this action.
    pub(crate) fn take(&self, state: &mut State, class: u8, task: u16, action: u16) -> bool {
        let task = usize::from(task);
        let Some(now) = at(state.tasks.as_slice(), task) else {
            return false;
        };
        let Some(kind) = self.kind_of(usize::from(action)) else {
            return false;
        };
        let progress = Progress::Running { class, kind };
        put(&mut state.tasks, task, Task { progress, ..now });
        true
    }

    // Ending

    /// What the arguments of a tally name, where the objects are live and the segment has the cell.
    fn adds(&self, state: &State, args: &Args) -> Option<Adds> {
        let [mutex, segment, _, number] = args.as_slice() else {
            return None;
        };
        let mutex = self.mutex_with(state, id_in(*mutex)?)?;
        let segment = self.segment_with(state, id_in(*segment)?)?;
        let cell = self.cell_place(segment, cell_of(args)?)?;
        let number = *number;
        Some(Adds {
            mutex,
            segment,
            cell,
            number,
        })
    }

    /// The task with another stage of its tally.
    fn put_stage(state: &mut State, task: usize, stage: Stage) {
        if let Some(now) = at(state.tasks.as_slice(), task) {
            put(&mut state.tasks, task, Task { stage, ..now });
        }
    }

    /// A tally takes its mutex and its segment, or fails. False where the mutex is owned.
    fn tally_lock(&self, state: &mut State, task: usize, args: &Args) -> bool {
        let Some(adds) = self.adds(state, args) else {
            let status = if args.as_slice().len() == 4 {
                MtapiStatus::ErrActionFailed
            } else {
                MtapiStatus::ErrArgSize
            };
            Self::put_stage(state, task, Stage::Failed(status));
            return true;
        };
        let (Some(mutex), Some(segment)) = (
            at(state.mutexes.as_slice(), adds.mutex),
            at(state.segments.as_slice(), adds.segment),
        ) else {
            return false;
        };
        if mutex.owner != Owner::Nobody {
            return false;
        }
        let owner = Owner::Tally(u16::try_from(task).unwrap_or(u16::MAX));
        let depth = mutex.depth.saturating_add(1);
        put(
            &mut state.mutexes,
            adds.mutex,
            Mutex {
                owner,
                depth,
                ..mutex
            },
        );
        let tallies = segment.tallies.saturating_add(1);
        put(
            &mut state.segments,
            adds.segment,
            Segment { tallies, ..segment },
        );
        Self::put_stage(state, task, Stage::Holds);
        true
    }

    /// A tally reads its cell.
    fn tally_read(&self, state: &mut State, task: usize, plan: &TaskPlan, args: &Args) -> bool {
        let Some(adds) = self.adds(state, args) else {
            return false;
        };
        let value = at(state.numbers.as_slice(), adds.cell).unwrap_or(0);
        put(&mut state.numbers, plan.number, value);
        Self::put_stage(state, task, Stage::Read);
        true
    }

    /// A tally gives back what it has, and ends.
    fn give_back(&self, state: &mut State, task: usize, adds: Adds, end: End) -> bool {
        if let Some(segment) = at(state.segments.as_slice(), adds.segment) {
            let tallies = segment.tallies.saturating_sub(1);
            put(
                &mut state.segments,
                adds.segment,
                Segment { tallies, ..segment },
            );
        }
        if let Some(mutex) = at(state.mutexes.as_slice(), adds.mutex) {
            put(&mut state.mutexes, adds.mutex, unowned(mutex));
        }
        self.end_task(state, task, end);
        true
    }

    /// A tally writes the number that it read and the one that it adds, together, or fails where that doesn't fit.
    fn tally_write(&self, state: &mut State, task: usize, plan: &TaskPlan, args: &Args) -> bool {
        let Some(adds) = self.adds(state, args) else {
            return false;
        };
        let read = at(state.numbers.as_slice(), plan.number).unwrap_or(0);
        match read.checked_add(adds.number) {
            Some(sum) => {
                put(&mut state.numbers, plan.number, sum);
                put(&mut state.numbers, adds.cell, sum);
                Self::put_stage(state, task, Stage::Written);
                true
            }
            None => {
                put(&mut state.numbers, plan.number, 0);
                let end = End::Failed(MtapiStatus::ErrActionFailed);
                self.give_back(state, task, adds, end)
            }
        }
    }

    /// The next step of a tally.
    fn run_tally(
        &self,
        state: &mut State,
        task: usize,
        stage: Stage,
        plan: &TaskPlan,
        args: &Args,
    ) -> bool {
        match stage {
            Stage::Begun => self.tally_lock(state, task, args),
            Stage::Holds => self.tally_read(state, task, plan, args),
            Stage::Read => self.tally_write(state, task, plan, args),
            Stage::Written => match self.adds(state, args) {
                Some(adds) => self.give_back(state, task, adds, End::Completed(Kind::Tally)),
                None => false,
            },
            Stage::Failed(status) => {
                self.end_task(state, task, End::Failed(status));
                true
            }
        }
    }

    /// The next step of a watch.
    fn run_watch(&self, state: &mut State, task: usize, now: Task, args: &Args) -> bool {
        match watch_step(now.told, args) {
            Ok(end) => self.end_task(state, task, end),
            Err(told) => put(&mut state.tasks, task, Task { told, ..now }),
        }
        true
    }

    /// The next step of the worker that runs a task. False where it is blocked, and then nothing changes.
    pub(crate) fn work(&self, state: &mut State, task: usize) -> bool {
        let (Some(now), Some(plan)) = (
            at(state.tasks.as_slice(), task),
            at(self.table.tasks.as_slice(), task),
        ) else {
            return false;
        };
        let (Progress::Running { kind, .. }, Some(args)) = (now.progress, self.args_of(&plan))
        else {
            return false;
        };
        match kind {
            Kind::Watch => self.run_watch(state, task, now, args),
            Kind::Tally => self.run_tally(state, task, now.stage, &plan, args),
            _ => {
                if let Some(end) = pure_end(kind, args) {
                    self.end_task(state, task, end);
                }
                true
            }
        }
    }
}
