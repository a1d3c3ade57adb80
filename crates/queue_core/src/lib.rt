//! Queues of tasks, in the order in which they were put.
#![tactic(auto)]

pub mod facts;
mod queue;
mod worked;

ghost use Rattle.std.specs.Prelude.{◌≡◌, ◌≤◌, ◌<◌, ◌+◌, ℕ, Some, true, false, replicate, slice_get, IfSome, IsNone, IfOk, OnOk, OnErr};
ghost use Rattle.mtapi_values.specs.declared.statuses.MtapiStatus.TheVariants.{ErrQueueExists};
ghost use Rattle.handle_pool.specs.Walks.{SomeLive, NoneLive};
ghost use Rattle.std.specs.Option.{option_map};
ghost use Rattle.handle_pool.specs.Slots.{slot_value, slot_of, free_slot, without, changed, live_count};
ghost use Rattle.queue_core.specs.Held.{new_queue_of, CreatesQueue, Finds, live_reply, with_opened, with_task, without_task, put_reply, NoTaskAt, IsUnendedTask, first_task, tasks_of, facts_of, AreRetiredEmpty, HasQueueId};

pub use facts::QueueFacts;
use handle_pool::slot_of;
use keyed_pool::{InsertError, KeyedPool};
use linked_places::LinkedLists;
use mtapi_values::{MtapiStatus, QueueAttr, QueueHandle, TaskHandle};
use queue::StoredQueue;
use std::alloc::{AllocError, Global};
use std::marker::Model;
pub use worked::worked_puts;

/// Queues, each under a handle, with their unended tasks.
#[derive(Drop)]
pub struct Queues {
    pool: KeyedPool<StoredQueue>,
    // The unended tasks of the queue of each slot.
    tasks: LinkedLists,
}

impl Model for Queues {
    ghost use Rattle.queue_core.specs.Held.{QueueTable, table_of, AreQueues};

    ghost Value = { QueueTable };

    ghost view = { λ q. table_of q.pool q.tasks };

    ghost invariant = { λ q. AreQueues q.pool q.tasks };
}

impl Queues {
    /// Room for 1 to 65,536 queues over 1 to 65,536 slots of tasks, with all the memory that they will use; a place takes `generations`
    /// handles, one after another.
    pub fn new(alloc: Global, max: u32, generations: u32, tasks: u32) -> Result<Queues, AllocError>
        requires some { 1 ≤ max }
        requires few { max ≤ 65536 }
        requires once { 1 ≤ generations }
        requires some_tasks { 1 ≤ tasks }
        requires few_tasks { tasks ≤ 65536 }
        ensures generations { IfOk result (λ q. q.pool.generations ≡ generations) }
        ensures slots { IfOk result (λ q. q.pool.slots ≡ replicate max (free_slot 1)) }
        ensures tasks { IfOk result (λ q. q.tasks ≡ tasks) }
    {
        Ok(Queues {
            pool: KeyedPool::new(alloc, max, generations)?,
            tasks: LinkedLists::new(alloc, max, tasks)?,
        })
    }

    /// Slots that have retired hold no queue.
    pub fn is_kept(&self)
        ensures { AreRetiredEmpty self.now.pool }
    {
        let _ = self.pool.live();
    }

    /// Makes an enabled queue with no tasks.
    ///
    /// Stands for `mtapi_queue_create`.
    ///
    /// # Errors
    ///
    /// - `ErrQueueExists`: a live queue has the id.
    /// - `ErrQueueLimit`: every place is in use or has retired.
    pub fn create(&mut self, id: u32, job: u32, attr: QueueAttr) -> Result<QueueHandle, MtapiStatus>
        ensures { CreatesQueue self.old (new_queue_of id job attr) result self.new }
    {
        match self.pool.insert(StoredQueue::new(id, job, &attr)) {
            Ok(handle) => Ok(QueueHandle(handle)),
            Err(InsertError::IdTaken) => Err(MtapiStatus::ErrQueueExists),
            Err(InsertError::Full) => Err(MtapiStatus::ErrQueueLimit),
        }
    }

    /// Tells why a create of this id is refused, whether there is room or not: `ErrQueueExists`
    /// where a live queue has the id, else None.
    pub fn create_refusal(&self, id: u32) -> Option<MtapiStatus>
        ensures exists { IfSome result (λ c. (c ≡ ErrQueueExists) × SomeLive (slot_value self.now.pool) (HasQueueId id)) }
        ensures new_id { IsNone result → NoneLive (slot_value self.now.pool) (HasQueueId id) }
    {
        match self.get(id) {
            Ok(_) => Some(MtapiStatus::ErrQueueExists),
            Err(_) => None,
        }
    }

    /// Tells how many queues are live.
    pub fn live(&self) -> u32
        ensures { result ≡ live_count self.now.pool }
    {
        self.pool.live()
    }

    /// Finds the live queue of an id.
    ///
    /// Stands for `mtapi_queue_get`.
    ///
    /// # Errors
    ///
    /// - `ErrQueueInvalid`: no live queue has the id.
    pub fn get(&self, id: u32) -> Result<QueueHandle, MtapiStatus>
        ensures { Finds self.now.pool id result }
    {
        match self.pool.find(u64::from(id)) {
            Some(handle) => Ok(QueueHandle(handle)),
            None => Err(MtapiStatus::ErrQueueInvalid),
        }
    }

    /// Has the tasks of a queue begin again. An enabled queue stays as it is.
    ///
    /// Stands for `mtapi_queue_enable`.
    ///
    /// # Errors
    ///
    /// - `ErrQueueInvalid`: the queue isn't live.
    pub fn enable(&mut self, q: QueueHandle) -> Result<(), MtapiStatus>
        ensures reply { result ≡ live_reply (slot_value self.old.pool q.0) }
        ensures new { self.new ≡ record self.old { pool = changed self.old.pool q.0 (with_opened true) } }
    {
        self.set_enabled(q, true)
    }

    /// Has no further task of a queue begin. A disabled queue stays as it is.
    ///
    /// Stands for `mtapi_queue_disable`, without the end of the tasks that wait.
    ///
    /// # Errors
    ///
    /// - `ErrQueueInvalid`: the queue isn't live.
    pub fn disable(&mut self, q: QueueHandle) -> Result<(), MtapiStatus>
        ensures reply { result ≡ live_reply (slot_value self.old.pool q.0) }
        ensures new { self.new ≡ record self.old { pool = changed self.old.pool q.0 (with_opened false) } }
    {
        self.set_enabled(q, false)
    }

    /// Enables or disables a queue, as `enable` and `disable` say it.
    ///
    /// # Errors
    ///
    /// - `ErrQueueInvalid`: the queue isn't live.
    pub fn set_enabled(&mut self, q: QueueHandle, enabled: bool) -> Result<(), MtapiStatus>
        ensures reply { result ≡ live_reply (slot_value self.old.pool q.0) }
        ensures new { self.new ≡ record self.old { pool = changed self.old.pool q.0 (with_opened enabled) } }
    {
        match self.pool.update(q.0, |queue| queue.set_enabled(enabled)) {
            Some(()) => Ok(()),
            None => Err(MtapiStatus::ErrQueueInvalid),
        }
    }

    /// Gives up a queue and forgets its tasks.
    ///
    /// Stands for `mtapi_queue_delete`, without the end of the tasks that wait.
    ///
    /// # Errors
    ///
    /// - `ErrQueueInvalid`: the queue isn't live.
    pub fn delete(&mut self, q: QueueHandle) -> Result<(), MtapiStatus>
        ensures reply { result ≡ live_reply (slot_value self.old.pool q.0) }
        ensures ok { OnOk result (self.new ≡ record self.old { pool = without self.old.pool q.0 }) }
        ensures err { OnErr result (self.new ≡ self.old) }
    {
        let Some(_) = self.pool.remove(q.0) else {
            return Err(MtapiStatus::ErrQueueInvalid);
        };
        self.tasks.clear(slot_of(q.0));
        Ok(())
    }

    /// Puts a task behind the others of a queue. No unended task of any live queue may have the
    /// task's slot.
    ///
    /// Stands for what `mtapi_task_enqueue` does to a queue.
    ///
    /// # Errors
    ///
    /// - `ErrQueueInvalid`: the queue isn't live.
    /// - `ErrQueueDisabled`: it is disabled, and doesn't retain.
    /// - `ErrQueueLimit`: its unended tasks equal its limit.
    pub fn put(&mut self, q: QueueHandle, t: TaskHandle) -> Result<(), MtapiStatus>
        requires slot { slot_of t.0 < self.old.tasks }
        requires alone { NoTaskAt (slot_of t.0) self.old.pool }
        ensures reply { result ≡ put_reply (slot_value self.old.pool q.0) }
        ensures ok { OnOk result (self.new ≡ record self.old { pool = changed self.old.pool q.0 (with_task t.0) }) }
        ensures err { OnErr result (self.new ≡ self.old) }
    {
        let Some(queue) = self.pool.get(q.0) else {
            return Err(MtapiStatus::ErrQueueInvalid);
        };
        if let Some(status) = queue.put_refusal() {
            return Err(status);
        }
        if self.tasks.len(slot_of(q.0)) == queue.limit() {
            return Err(MtapiStatus::ErrQueueLimit);
        }
        self.tasks.push(slot_of(q.0), t.0);
        Ok(())
    }

    /// Takes an unended task out of its queue.
    pub fn ended(&mut self, q: QueueHandle, t: TaskHandle)
        requires { IsUnendedTask t.0 (slot_value self.old.pool q.0) }
        ensures { self.new ≡ record self.old { pool = changed self.old.pool q.0 (without_task t.0) } }
    {
        self.tasks.remove(slot_of(q.0), t.0);
    }

    /// Finds the unended task of a live queue that was put first. None where the queue isn't live,
    /// or holds no task.
    pub fn head(&self, q: QueueHandle) -> Option<TaskHandle>
        ensures { option_map (λ (t : TaskHandle). t.0) result ≡ first_task (slot_value self.now.pool q.0) }
    {
        let Some(_) = self.pool.get(q.0) else {
            return None;
        };
        match self.tasks.first(slot_of(q.0)) {
            Some(task) => Some(TaskHandle(task)),
            None => None,
        }
    }

    /// Finds the unended task that was put next after this one of the same live queue. None exactly where this one was put last.
    pub fn next(&self, t: TaskHandle) -> Option<TaskHandle>
        requires { (q : ℕ) × IsUnendedTask t.0 (slot_value self.now.pool q) }
        ensures { (q i : ℕ) → slice_get (tasks_of (slot_value self.now.pool q)) i ≡ Some t.0
            → option_map (λ (t : TaskHandle). t.0) result ≡ slice_get (tasks_of (slot_value self.now.pool q)) (i + 1) }
    {
        match self.tasks.next(t.0) {
            Some(task) => Some(TaskHandle(task)),
            None => None,
        }
    }

    /// Shows a live queue at a glance. None exactly where it isn't live.
    pub fn facts(&self, q: QueueHandle) -> Option<QueueFacts>
        ensures { result ≡ option_map facts_of (slot_value self.now.pool q.0) }
    {
        match self.pool.get(q.0) {
            Some(queue) => Some(queue.facts(self.tasks.len(slot_of(q.0)))),
            None => None,
        }
    }
}
