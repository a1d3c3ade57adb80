//! The ops by which a worker executes a tally.

ghost use Rattle.std.specs.Prelude.{◌≡◌, ◌<◌, [], ◌∷◌, ℤ, ◌+ℤ◌, ◌==◌, length, IfOk, IfErr, if◌then◌else◌};
ghost use Rattle.std.specs.Bool.{OnTrue, OnFalse};
ghost use Rattle.std.specs.Option.{option_map};
ghost use Rattle.action_fn.specs.Answers.{fitting};
ghost use Rattle.handle_pool.specs.Slots.{slot_value};
ghost use Rattle.mtapi_values.specs.declared.statuses.MtapiStatus.TheVariants as status;
ghost use Rattle.mtapi_objects.specs.Tasks.{is_unended, cell_in, number_in};
ghost use Rattle.task_core.specs.Tallies.{adds_of};
ghost use Rattle.task_core.specs.Table.{IsLiveAnd};
ghost use Rattle.mtapi_machine.specs.declared.ops.Op.TheVariants as op;
ghost use Rattle.node_steps.specs.Stands.{Lists, Live, PoolNodeSteps, state_of};
ghost use Rattle.node_steps.specs.Sound.{Sound};
ghost use Rattle.node_steps.specs.Tallies.{RunsTally, NoTally, GivesBack, tally_number};

use crate::node::PoolNode;
use crate::running::runs_as;
use mtapi_machine::Reply;
use mtapi_values::{Args, Kind, MtapiStatus, MutexHandle, ShmemHandle, TaskEnd, TaskHandle};
use node_resources::TallyLock;
use task_core::{TallyArgs, TallyState};

/// What is known of a tally that runs on a worker.
#[derive(Clone, Copy, Drop)]
pub(crate) struct RunningTally {
    pub(crate) state: TallyState,
    // What its arguments name: none where they name nothing.
    pub(crate) args: Option<TallyArgs>,
    // Its arguments are four.
    pub(crate) is_four: bool,
}

// The sum of two numbers, where it fits.
fn plus(a: i64, b: i64) -> Option<i64>
    ensures { result ≡ fitting (a +ℤ b) }
{
    a.checked_add(b)
}

// Whether the value is the sum of these two numbers.
fn is_sum(value: i64, kept: i64, number: i64) -> bool
    ensures same { OnTrue result (value ≡ kept +ℤ number) }
    ensures other { OnFalse result (value ≡ kept +ℤ number → ⊥) }
{
    match plus(kept, number) {
        Some(sum) => value == sum,
        None => false,
    }
}

// A list of one number.
fn one(number: i64) -> Args
    ensures { result ≡ number ∷ [] }
{
    let mut args = Args::new();
    let _ = args.push(number);
    args
}

impl RunningTally {
    // The cell that it adds to.
    fn cell(&self) -> u64
        ensures { result ≡ cell_in (option_map adds_of self.now.args) }
    {
        match self.args {
            Some(args) => args.cell,
            None => 0,
        }
    }

    // The number that it adds.
    fn number(&self) -> i64
        ensures { result ≡ number_in (option_map adds_of self.now.args) }
    {
        match self.args {
            Some(args) => args.number,
            None => 0,
        }
    }

    // The number that it has read or written last.
    fn noted(&self) -> i64
        ensures { result ≡ tally_number self.now.state }
    {
        match self.state {
            TallyState::Read { kept, .. } => kept,
            TallyState::Written { sum, .. } => sum,
            TallyState::Begun | TallyState::Locked { .. } | TallyState::Failed(_) => 0,
        }
    }

    // What it fails with where its arguments name nothing.
    fn fault(&self) -> MtapiStatus
        ensures { result ≡ (if self.now.is_four then status.ErrActionFailed else status.ErrArgSize) }
    {
        if self.is_four {
            MtapiStatus::ErrActionFailed
        } else {
            MtapiStatus::ErrArgSize
        }
    }
}

impl PoolNode {
    // The tally of this handle that runs on the worker, or why there is none.
    fn running_tally(&self, who: u32, task: TaskHandle) -> Result<RunningTally, MtapiStatus>
        ensures tally { IfOk result (λ r. RunsTally self.now who task.0 r) }
        ensures refused { IfErr result (λ c. NoTally self.now who task.0 c) }
    {
        if who >= self.scheduler.workers() {
            return Err(MtapiStatus::ErrParameter);
        }
        let Some(record) = self.scheduler.task(task) else {
            return Err(MtapiStatus::ErrTaskInvalid);
        };
        if !runs_as(record, who, Kind::Tally) {
            return Err(MtapiStatus::ErrTaskInvalid);
        }
        Ok(RunningTally {
            state: record.tally(),
            args: record.tally_args(),
            is_four: record.args().as_slice().len() == 4,
        })
    }

    // It gets the mutex and the segment that its arguments name, or fails; while a seat owns the mutex it is to ask again.
    pub(crate) fn tally_lock(&mut self, who: u32, task: TaskHandle) -> Reply
        requires seat { who < 25 }
        ensures { (l : Lists) → Live self.old l → PoolNodeSteps self.old l who (op.TallyLock task) result self.new }
    {
        match self.running_tally(who, task) {
            Ok(tally) => self.lock_both(who, task, tally),
            Err(status) => Reply::Mtapi(status),
        }
    }

    fn lock_both(&mut self, who: u32, task: TaskHandle, tally: RunningTally) -> Reply
        requires seat { who < 25 }
        requires tally { RunsTally self.old who task.0 tally }
        ensures { (l : Lists) → Live self.old l → PoolNodeSteps self.old l who (op.TallyLock task) result self.new }
    {
        let TallyState::Begun = tally.state else {
            return Reply::Mtapi(MtapiStatus::ErrParameter);
        };
        let Some(args) = tally.args else {
            let fault = tally.fault();
            self.scheduler.note_tally(task, TallyState::Failed(fault));
            return Reply::Asked(false);
        };
        match self
            .resources
            .tally_lock(who, args.mutex, args.segment, args.cell)
        {
            TallyLock::Both(mutex, segment) => {
                self.scheduler
                    .note_tally(task, TallyState::Locked { mutex, segment });
                Reply::Asked(true)
            }
            TallyLock::Owned => Reply::Pending,
            TallyLock::Absent => {
                self.scheduler
                    .note_tally(task, TallyState::Failed(MtapiStatus::ErrActionFailed));
                Reply::Asked(false)
            }
        }
    }

    // It reads its cell.
    pub(crate) fn tally_read(&mut self, who: u32, task: TaskHandle) -> Reply
        ensures { (l : Lists) → Live self.old l → Sound (state_of self.old l)
            → PoolNodeSteps self.old l who (op.TallyRead task) result self.new }
    {
        match self.running_tally(who, task) {
            Ok(tally) => self.read_cell(who, task, tally),
            Err(status) => Reply::Mtapi(status),
        }
    }

    fn read_cell(&mut self, who: u32, task: TaskHandle, tally: RunningTally) -> Reply
        requires tally { RunsTally self.old who task.0 tally }
        ensures { (l : Lists) → Live self.old l → Sound (state_of self.old l)
            → PoolNodeSteps self.old l who (op.TallyRead task) result self.new }
    {
        let TallyState::Locked { mutex, segment } = tally.state else {
            return Reply::Mtapi(MtapiStatus::ErrParameter);
        };
        let kept = self.resources.tally_read(segment, tally.cell());
        self.scheduler.note_tally(
            task,
            TallyState::Read {
                mutex,
                segment,
                kept,
            },
        );
        Reply::Number(kept)
    }

    // It writes the sum of what it read and what it adds, and nothing else.
    pub(crate) fn tally_write(&mut self, who: u32, task: TaskHandle, value: i64) -> Reply
        ensures { (l : Lists) → Live self.old l → Sound (state_of self.old l)
            → PoolNodeSteps self.old l who (op.TallyWrite task value) result self.new }
    {
        match self.running_tally(who, task) {
            Ok(tally) => self.write_cell(who, task, tally, value),
            Err(status) => Reply::Mtapi(status),
        }
    }

    fn write_cell(&mut self, who: u32, task: TaskHandle, tally: RunningTally, value: i64) -> Reply
        requires tally { RunsTally self.old who task.0 tally }
        ensures { (l : Lists) → Live self.old l → Sound (state_of self.old l)
            → PoolNodeSteps self.old l who (op.TallyWrite task value) result self.new }
    {
        let TallyState::Read {
            mutex,
            segment,
            kept: _,
        } = tally.state
        else {
            return Reply::Mtapi(MtapiStatus::ErrParameter);
        };
        if !is_sum(value, tally.noted(), tally.number()) {
            return Reply::Mtapi(MtapiStatus::ErrParameter);
        }
        self.resources.tally_write(segment, tally.cell(), value);
        self.scheduler.note_tally(
            task,
            TallyState::Written {
                mutex,
                segment,
                sum: value,
            },
        );
        Reply::Ok
    }

    // It gives back what it has, and ends.
    pub(crate) fn tally_end(&mut self, who: u32, task: TaskHandle) -> Reply
        requires seat { who < 25 }
        ensures { (l : Lists) → Live self.old l → Sound (state_of self.old l)
            → PoolNodeSteps self.old l who (op.TallyEnd task) result self.new }
    {
        match self.running_tally(who, task) {
            Ok(tally) => self.end_tally(who, task, tally),
            Err(status) => Reply::Mtapi(status),
        }
    }

    fn end_tally(&mut self, who: u32, task: TaskHandle, tally: RunningTally) -> Reply
        requires seat { who < 25 }
        requires tally { RunsTally self.old who task.0 tally }
        ensures { (l : Lists) → Live self.old l → Sound (state_of self.old l)
            → PoolNodeSteps self.old l who (op.TallyEnd task) result self.new }
    {
        match tally.state {
            TallyState::Begun | TallyState::Locked { .. } => {
                Reply::Mtapi(MtapiStatus::ErrParameter)
            }
            TallyState::Read {
                mutex,
                segment,
                kept: _,
            } => match plus(tally.noted(), tally.number()) {
                Some(_) => Reply::Mtapi(MtapiStatus::ErrParameter),
                None => {
                    let end = TaskEnd::Failed(MtapiStatus::ErrActionFailed);
                    self.give_back(who, task, mutex, segment, end)
                }
            },
            TallyState::Written {
                mutex,
                segment,
                sum: _,
            } => {
                let end = TaskEnd::Completed(one(tally.noted()));
                self.give_back(who, task, mutex, segment, end)
            }
            TallyState::Failed(status) => {
                self.scheduler.end_with(task, TaskEnd::Failed(status));
                Reply::Ended(TaskEnd::Failed(status))
            }
        }
    }

    // Its worker gives the mutex and the segment back, and it ends so.
    fn give_back(
        &mut self,
        who: u32,
        task: TaskHandle,
        mutex: MutexHandle,
        segment: ShmemHandle,
        end: TaskEnd,
    ) -> Reply
        requires seat { who < 25 }
        requires unended { IsLiveAnd is_unended (slot_value self.old.scheduler.tasks.pool task.0) }
        ensures { GivesBack self.old who task.0 mutex.0 segment.0 end result self.new }
    {
        self.resources.tally_end(who, mutex, segment);
        let answer = end.again();
        self.scheduler.end_with(task, end);
        Reply::Ended(answer)
    }
}
