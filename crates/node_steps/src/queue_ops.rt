//! The ops on queues.

ghost use Rattle.std.specs.Prelude.{◌≡◌, ◌≤◌, ◌<◌, ◌^◌, ◌==◌, ◌&&◌, ◌++◌, ◌∷◌, [], ℕ, ℤ, Bool, List, not, false, None, Some, IfNone, IfOk, IfErr, if◌then◌else◌};
ghost use Rattle.std.specs.Option.{option_map};
ghost use Rattle.mtapi_values.specs.Conditions.{first};
ghost use Rattle.mtapi_values.specs.declared.statuses.MtapiStatus.TheVariants as status;
ghost use Rattle.mtapi_machine.specs.TaskRows.{asked_for, start_refusals, is_detached_member, number_of};
ghost use Rattle.task_board.specs.Members.{names_dead};
ghost use Rattle.mtapi_machine.specs.declared.ops.Op.TheVariants as op;
ghost use Rattle.mtapi_machine.specs.declared.replies.Reply.TheVariants as reply;
ghost use Rattle.mtapi_renaming.specs.Refusals.{refusal_of};
ghost use Rattle.node_steps.specs.Refusals.{queue_causes, queue_refusals, MayPut};
ghost use Rattle.node_steps.specs.Stands.{Lists, Live, PoolNodeSteps, state_of};
ghost use Rattle.node_steps.specs.Sound.{Sound};

use crate::node::PoolNode;
use crate::phase_ops::{is_open, is_up};
use mtapi_machine::Reply;
use mtapi_values::{Args, GroupHandle, Mask, MtapiStatus, QueueAttr, QueueHandle, TaskEnd};
use task_board::QueueFacts;
use task_core::NewTask;

// A yes or no as an attribute has it.
fn yes_or_no(yes: bool) -> u64
    ensures { result ≡ (if yes then 1 else 0) }
{
    if yes { 1 } else { 0 }
}

// Whether a queue takes no tasks: it is disabled, and doesn't retain them.
fn is_shut(facts: QueueFacts) -> bool
    ensures { result ≡ (not facts.enabled && not facts.retain) }
{
    !facts.enabled && !facts.retain
}

// Whether a task is to be detached and in a group.
fn is_detached_member(detached: bool, group: Option<GroupHandle>) -> bool
    ensures { result ≡ is_detached_member detached group }
{
    detached && group.is_some()
}

// The attributes of a queue, each in its range.
fn attributes(priority: u32, limit: u32, ordered: bool, retain: bool) -> QueueAttr
    requires priority { priority ≤ 7 }
    requires some { 1 ≤ limit }
    requires few { limit ≤ 65536 }
    ensures priority { result.priority ≡ priority }
    ensures limit { result.limit ≡ limit }
    ensures ordered { result.ordered ≡ ordered }
    ensures retain { result.retain ≡ retain }
{
    let mut attr = QueueAttr::new();
    let _ = attr.set(QueueAttr::PRIORITY, u64::from(priority));
    let _ = attr.set(QueueAttr::LIMIT, u64::from(limit));
    let _ = attr.set(QueueAttr::ORDERED, yes_or_no(ordered));
    let _ = attr.set(QueueAttr::RETAIN, yes_or_no(retain));
    attr
}

impl PoolNode {
    // Why no queue of this job and these numbers is made, but for its id and for want of room.
    fn queue_cause(&self, job: u32, priority: u32, limit: u32) -> Option<MtapiStatus>
        ensures first { (l : Lists) → Live self.now l
            → first (queue_causes (state_of self.now l) job priority limit) ≡ result }
        ensures known { IfNone result (priority < self.now.scheduler.settings.priorities) }
        ensures priority { IfNone result (priority ≤ 7) }
        ensures some { IfNone result (1 ≤ limit) }
        ensures few { IfNone result (limit ≤ 65536) }
    {
        if !is_open(self.core.phase) {
            return Some(MtapiStatus::ErrNodeNotinit);
        }
        if priority >= self.scheduler.priorities() || limit < 1 || limit > 65_536 {
            return Some(MtapiStatus::ErrParameter);
        }
        if !self.has_job(job) {
            return Some(MtapiStatus::ErrJobInvalid);
        }
        None
    }

    // Why no such queue is made, whether there is room or not.
    pub(crate) fn queue_refusal(
        &self,
        id: u32,
        job: u32,
        priority: u32,
        limit: u32,
    ) -> Option<MtapiStatus>
        ensures { (l : Lists) → Live self.now l
            → first (queue_refusals (state_of self.now l) id job priority limit) ≡ result }
    {
        if let Some(status) = self.queue_cause(job, priority, limit) {
            return Some(status);
        }
        self.scheduler.queue_refusal(id)
    }

    pub(crate) fn queue_create(
        &mut self,
        id: u32,
        job: u32,
        priority: u32,
        limit: u32,
        ordered: bool,
        retain: bool,
    ) -> Reply
        ensures { (l : Lists) (who : ℕ) → Live self.old l
            → PoolNodeSteps self.old l who (op.QueueCreate id job priority limit ordered retain) result self.new }
    {
        if let Some(status) = self.queue_cause(job, priority, limit) {
            return Reply::Mtapi(status);
        }
        let attr = attributes(priority, limit, ordered, retain);
        match self.scheduler.create_queue(id, job, attr) {
            Ok(queue) => Reply::Handle(queue.0),
            Err(status) => Reply::Mtapi(status),
        }
    }

    pub(crate) fn queue_get(&self, id: u32) -> Reply
        ensures { (l : Lists) (who : ℕ) → Live self.now l → PoolNodeSteps self.now l who (op.QueueGet id) result self.now }
    {
        if !is_up(self.core.phase) {
            return Reply::Mtapi(MtapiStatus::ErrNodeNotinit);
        }
        match self.scheduler.get_queue(id) {
            Ok(queue) => Reply::Handle(queue.0),
            Err(status) => Reply::Mtapi(status),
        }
    }

    pub(crate) fn queue_enable(&mut self, queue: QueueHandle) -> Reply
        ensures { (l : Lists) (who : ℕ) → Live self.old l
            → PoolNodeSteps self.old l who (op.QueueEnable queue) result self.new }
    {
        if !is_open(self.core.phase) {
            return Reply::Mtapi(MtapiStatus::ErrNodeNotinit);
        }
        match self.scheduler.enable_queue(queue) {
            Ok(()) => Reply::Ok,
            Err(status) => Reply::Mtapi(status),
        }
    }

    // Where the queue doesn't retain its tasks, those that haven't begun are cancelled.
    pub(crate) fn queue_disable(&mut self, queue: QueueHandle) -> Reply
        ensures { (l : Lists) (who : ℕ) → Live self.old l → Sound (state_of self.old l)
            → PoolNodeSteps self.old l who (op.QueueDisable queue) result self.new }
    {
        if !is_open(self.core.phase) {
            return Reply::Mtapi(MtapiStatus::ErrNodeNotinit);
        }
        let Some(facts) = self.scheduler.queue(queue) else {
            return Reply::Mtapi(MtapiStatus::ErrQueueInvalid);
        };
        let _ = self.scheduler.disable_queue(queue);
        if facts.retain {
            return Reply::Ok;
        }
        self.scheduler.end_queued(queue, &TaskEnd::Cancelled);
        Reply::Ok
    }

    // The tasks of the queue that haven't begun fail.
    pub(crate) fn queue_delete(&mut self, queue: QueueHandle) -> Reply
        ensures { (l : Lists) (who : ℕ) → Live self.old l → Sound (state_of self.old l)
            → PoolNodeSteps self.old l who (op.QueueDelete queue) result self.new }
    {
        if !is_open(self.core.phase) {
            return Reply::Mtapi(MtapiStatus::ErrNodeNotinit);
        }
        let Some(_) = self.scheduler.queue(queue) else {
            return Reply::Mtapi(MtapiStatus::ErrQueueInvalid);
        };
        self.scheduler
            .end_queued(queue, &TaskEnd::Failed(MtapiStatus::ErrQueueDeleted));
        let _ = self.scheduler.delete_queue(queue);
        Reply::Ok
    }

    // Why a queue takes no new task, but for want of room among the tasks.
    fn put_refusal(
        &self,
        facts: QueueFacts,
        cores: Mask,
        group: Option<GroupHandle>,
    ) -> Option<MtapiStatus>
        ensures refused { (l : Lists) (args : List ℤ) (priority : ℕ) (detached : Bool) → Live self.now l
            → first ((
              not facts.enabled && not facts.retain,
              status.ErrQueueDisabled,
            ) ∷ start_refusals (state_of self.now l) (asked_for facts.job args priority cores detached group) ++ (facts.unended == facts.limit, status.ErrQueueLimit) ∷ []) ≡ result }
        ensures takes { result ≡ None → (not facts.enabled && not facts.retain) ≡ false }
        ensures room { result ≡ None → (facts.unended == facts.limit) ≡ false }
        ensures group { result ≡ None → names_dead self.now.scheduler.groups.pool (number_of group) ≡ false }
    {
        if is_shut(facts) {
            return Some(MtapiStatus::ErrQueueDisabled);
        }
        if let Some(status) = self.start_refusal(facts.job, cores, group) {
            return Some(status);
        }
        if facts.unended == facts.limit {
            return Some(MtapiStatus::ErrQueueLimit);
        }
        None
    }

    // What the queue shows, into which such a task may be put but for want of room among the tasks.
    fn enqueue_facts(
        &self,
        queue: QueueHandle,
        cores: Mask,
        detached: bool,
        group: Option<GroupHandle>,
    ) -> Result<QueueFacts, MtapiStatus>
        ensures may { IfOk result (λ f. MayPut self.now queue.0 cores detached group f) }
        ensures refused { IfErr result (λ c. (l : Lists) (who : ℕ) (args : List ℤ) → Live self.now l
            → refusal_of (state_of self.now l) who (op.TaskEnqueue queue args cores detached group) ≡ Some (reply.Mtapi c)) }
    {
        if !is_open(self.core.phase) {
            return Err(MtapiStatus::ErrNodeNotinit);
        }
        if is_detached_member(detached, group) {
            return Err(MtapiStatus::ErrParameter);
        }
        let Some(facts) = self.scheduler.queue(queue) else {
            return Err(MtapiStatus::ErrQueueInvalid);
        };
        self.scheduler.is_kept();
        match self.put_refusal(facts, cores, group) {
            Some(status) => Err(status),
            None => Ok(facts),
        }
    }

    // Why such a task isn't put into the queue, whether there is room among the tasks or not.
    pub(crate) fn enqueue_refusal(
        &self,
        queue: QueueHandle,
        cores: Mask,
        detached: bool,
        group: Option<GroupHandle>,
    ) -> Option<MtapiStatus>
        ensures { (l : Lists) (who : ℕ) (args : List ℤ) → Live self.now l
            → refusal_of (state_of self.now l) who (op.TaskEnqueue queue args cores detached group) ≡ option_map reply.Mtapi result }
    {
        self.scheduler.is_kept();
        match self.enqueue_facts(queue, cores, detached, group) {
            Ok(_) => None,
            Err(status) => Some(status),
        }
    }

    pub(crate) fn task_enqueue(
        &mut self,
        queue: QueueHandle,
        args: &Args,
        cores: Mask,
        detached: bool,
        group: Option<GroupHandle>,
    ) -> Reply
        requires { self.old.scheduler.tasks.starts < 2 ^ 63 }
        ensures { (l : Lists) (who : ℕ) → Live self.old l
            → PoolNodeSteps self.old l who (op.TaskEnqueue queue args.now cores detached group) result self.new }
    {
        self.scheduler.is_kept();
        let facts = match self.enqueue_facts(queue, cores, detached, group) {
            Ok(facts) => facts,
            Err(status) => return Reply::Mtapi(status),
        };
        let task = NewTask {
            job: facts.job,
            args: args.again(),
            priority: facts.priority,
            cores,
            detached,
            group,
            queue: Some(queue),
        };
        match self.scheduler.enqueue(queue, task) {
            Ok(task) => Reply::Handle(task.0),
            Err(status) => Reply::Mtapi(status),
        }
    }
}
