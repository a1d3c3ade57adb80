ghost use Rattle.std.specs.Prelude.{◌≡◌};
ghost use Rattle.mtapi_values.specs.Conditions.{first};
ghost use Rattle.mtapi_objects.specs.Queues.{opened, put_refusals};
ghost use Rattle.queue_core.specs.Held.{new_queue_of, facts_with};

use crate::facts::QueueFacts;
use keyed_pool::HasId;
use mtapi_values::{MtapiStatus, QueueAttr};
use std::marker::Model;

/// One queue, without its tasks, as it lies in the pool.
#[derive(Drop)]
pub struct StoredQueue {
    id: u32,
    job: u32,
    priority: u32,
    limit: u32,
    ordered: bool,
    retain: bool,
    enabled: bool,
}

impl Model for StoredQueue {
    ghost use Rattle.mtapi_objects.specs.Queues.{Queue};

    ghost Value = { Queue };

    ghost view = { λ q. record {
      id = q.id;
      job = q.job;
      priority = q.priority;
      limit = q.limit;
      ordered = q.ordered;
      retain = q.retain;
      enabled = q.enabled;
    } };
}

impl HasId for StoredQueue {
    ghost id_of = { λ q. q.id };

    fn id(&self) -> u64 {
        u64::from(self.id)
    }
}

impl StoredQueue {
    pub fn new(id: u32, job: u32, attr: &QueueAttr) -> StoredQueue
        ensures { result ≡ new_queue_of id job attr.now }
    {
        StoredQueue {
            id,
            job,
            priority: attr.priority(),
            limit: attr.limit(),
            ordered: attr.ordered(),
            retain: attr.retain(),
            enabled: true,
        }
    }

    pub fn limit(&self) -> u32
        ensures { result ≡ self.now.limit }
    {
        self.limit
    }

    pub fn set_enabled(&mut self, enabled: bool)
        ensures { self.new ≡ opened enabled self.old }
    {
        self.enabled = enabled;
    }

    /// Why the queue takes no task, whatever it holds.
    pub fn put_refusal(&self) -> Option<MtapiStatus>
        ensures { result ≡ first (put_refusals self.now) }
    {
        if !self.enabled && !self.retain {
            Some(MtapiStatus::ErrQueueDisabled)
        } else {
            None
        }
    }

    /// The queue at a glance, with so many unended tasks.
    pub fn facts(&self, unended: u32) -> QueueFacts
        ensures { result ≡ facts_with self.now unended }
    {
        QueueFacts {
            job: self.job,
            priority: self.priority,
            enabled: self.enabled,
            ordered: self.ordered,
            retain: self.retain,
            limit: self.limit,
            unended,
        }
    }
}
