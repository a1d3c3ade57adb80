//! The ops of workers.

ghost use Rattle.std.specs.Prelude.{◌≡◌, ◌<◌, ℕ, ℤ, List, Some};
ghost use Rattle.std.specs.Bool.{OnFalse};
ghost use Rattle.handle_pool.specs.Slots.{slot_value};
ghost use Rattle.handle_pool.specs.Walks.{NoneLive};
ghost use Rattle.handle_pool.specs.Issued.{any_listed};
ghost use Rattle.job_table.specs.Answers.{Passes};
ghost use Rattle.mtapi_objects.specs.Tasks.{runs_on};
ghost use Rattle.mtapi_machine.specs.WorkRows.{task_end};
ghost use Rattle.mtapi_machine.specs.State.{is_stop};
ghost use Rattle.mtapi_machine.specs.declared.ops.Op.TheVariants as op;
ghost use Rattle.node_steps.specs.Stands.{Lists, Live, PoolNodeSteps, state_of};
ghost use Rattle.node_steps.specs.Picks.{TakesChoice, IsToward, MayPick};
ghost use Rattle.task_board.specs.Picks.{IsBest, IsChoice};
ghost use Rattle.mtapi_values.specs.declared.kinds.Kind.{Kind};
ghost use Rattle.mtapi_machine.specs.declared.replies.Reply.TheVariants as reply;

use crate::node::PoolNode;
use crate::phase_ops::{is_new, is_past_open};
use crate::running::{is_answered, runs_so};
use action_fn::{ActEnd, Finished};
use mtapi_machine::Reply;
use mtapi_values::{ActionHandle, MtapiStatus, TaskEnd, TaskHandle};
use task_board::Choice;

// How a task ends whose action answered so.
fn task_end(end: ActEnd) -> TaskEnd
    ensures { result ≡ task_end end }
{
    match end {
        ActEnd::Done(args) => TaskEnd::Completed(args),
        ActEnd::Fails(status) => TaskEnd::Failed(status),
    }
}

impl PoolNode {
    // Whether a live task runs on the worker.
    fn runs_any(&self, worker: u32) -> bool
        requires { worker < self.now.scheduler.settings.workers }
        ensures reported { (l : Lists) → Live self.now l → any_listed (runs_on worker) l.tasks ≡ result }
        ensures none { OnFalse result (NoneLive (slot_value self.now.scheduler.tasks.pool) (Passes (runs_on worker))) }
    {
        self.scheduler.is_running(worker)
    }

    // Whether no worker finds a task any more.
    fn stops(&self) -> bool
        ensures { (l : Lists) → Live self.now l → is_stop (state_of self.now l) ≡ result }
    {
        is_past_open(self.core.phase) && self.scheduler.unended() == 0
    }

    // What the worker takes: some task of the least priority that it may take, and this task by this
    // action where these are wanted and no task of a smaller priority may be taken.
    fn chosen(&self, who: u32, wanted: Option<(TaskHandle, ActionHandle)>) -> Option<Choice>
        requires { who < self.now.scheduler.settings.workers }
        ensures best { IsBest self.now.scheduler.actions self.now.scheduler.tasks.pool self.now.scheduler.queues.pool who result }
        ensures toward { (task : TaskHandle) (action : ActionHandle) → wanted ≡ Some (task, action)
            → IsToward self.now who task action result }
    {
        let Some(best) = self.scheduler.best(who) else {
            return None;
        };
        let Some((task, action)) = wanted else {
            return Some(best);
        };
        match self.scheduler.choice_of(who, task, action) {
            Some(choice) if choice.priority == best.priority => Some(choice),
            _ => Some(best),
        }
    }

    // A worker asks for a task. Where one is wanted, it takes this task by this action wherever it may.
    pub(crate) fn pick_wanted(
        &mut self,
        who: u32,
        wanted: Option<(TaskHandle, ActionHandle)>,
    ) -> Reply
        ensures steps { (l : Lists) → Live self.old l → PoolNodeSteps self.old l who op.Pick result self.new }
        ensures toward { (task : TaskHandle) (action : ActionHandle) (l : Lists) (kind : Kind) (args : List ℤ)
            → wanted ≡ Some (task, action) → Live self.old l → MayPick (state_of self.old l) who task action kind args
            → result ≡ reply.Picked task action kind args }
    {
        if who >= self.scheduler.workers() || self.runs_any(who) {
            return Reply::Mtapi(MtapiStatus::ErrParameter);
        }
        if is_new(self.core.phase) {
            return Reply::Idle;
        }
        if self.stops() {
            self.core.stopped[who as usize] = true;
            return Reply::Stop;
        }
        self.scheduler.is_kept();
        match self.chosen(who, wanted) {
            None => Reply::Idle,
            Some(choice) => self.take(who, choice),
        }
    }

    // The worker takes what was chosen.
    fn take(&mut self, who: u32, choice: Choice) -> Reply
        requires worker { who < self.old.scheduler.settings.workers }
        requires free { NoneLive (slot_value self.old.scheduler.tasks.pool) (Passes (runs_on who)) }
        requires choice { IsChoice self.old.scheduler.actions self.old.scheduler.tasks.pool self.old.scheduler.queues.pool who choice }
        ensures { TakesChoice self.old who choice result self.new }
    {
        Reply::Picked {
            task: choice.task,
            action: choice.action,
            kind: choice.kind,
            args: self.scheduler.take(who, choice),
        }
    }

    pub(crate) fn finish(&mut self, who: u32, task: TaskHandle, done: &Finished) -> Reply
        ensures { (l : Lists) → Live self.old l → PoolNodeSteps self.old l who (op.Finish task done.now) result self.new }
    {
        is_answered(done);
        if who >= self.scheduler.workers() {
            return Reply::Mtapi(MtapiStatus::ErrParameter);
        }
        match self.scheduler.task(task) {
            Some(found) if runs_so(found, who, done) => {}
            _ => return Reply::Mtapi(MtapiStatus::ErrTaskInvalid),
        }
        self.scheduler.end_with(task, task_end(done.end()));
        Reply::Ok
    }

    pub(crate) fn asked(&mut self, who: u32, task: TaskHandle) -> Reply
        ensures { (l : Lists) → Live self.old l → PoolNodeSteps self.old l who (op.Asked task) result self.new }
    {
        if who >= self.scheduler.workers() {
            return Reply::Mtapi(MtapiStatus::ErrParameter);
        }
        match self.scheduler.asked(task, who) {
            Ok(requested) => Reply::Asked(requested),
            Err(status) => Reply::Mtapi(status),
        }
    }

    pub(crate) fn watch_end(&mut self, who: u32, task: TaskHandle) -> Reply
        ensures { (l : Lists) → Live self.old l → PoolNodeSteps self.old l who (op.WatchEnd task) result self.new }
    {
        if who >= self.scheduler.workers() {
            return Reply::Mtapi(MtapiStatus::ErrParameter);
        }
        match self.scheduler.watch_end(task, who) {
            Ok(end) => {
                let answer = end.again();
                self.scheduler.end_with(task, end);
                Reply::Ended(answer)
            }
            Err(status) => Reply::Mtapi(status),
        }
    }
}
