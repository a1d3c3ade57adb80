//! The attributes of nodes, actions, tasks, queues and mutexes. Each type keeps every value in its range.

ghost use Rattle.std.specs.Prelude.{◌≡◌, ◌≤◌, true, false, Ok, Err, OnErr, if◌then◌else◌};
ghost use Rattle.mtapi_values.specs.declared.statuses.MtapiStatus.TheVariants.{ErrParameter};
ghost use Rattle.mtapi_values.specs.Attributes.{IsWithin, AreNodeSettings};
ghost use Rattle.mtapi_values.specs.AttributeTables.{set_answer, after_set, get_answer, is_within, is_one, node_attributes, action_attributes, task_attributes, queue_attributes, mutex_attributes};

use crate::masks::Mask;
use crate::statuses::MtapiStatus;
use std::marker::Model;

/// The attributes of a node, each in its range.
#[derive(Clone, Copy, Debug, Drop, PartialEq, Eq)]
pub struct NodeAttr {
    workers: u32,
    tasks: u32,
    actions: u32,
    groups: u32,
    queues: u32,
    objects: u32,
    priorities: u32,
    generations: u32,
}

impl Model for NodeAttr {
    ghost use Rattle.mtapi_values.specs.Attributes.{NodeSettings, AreNodeSettings};

    ghost Value = { NodeSettings };

    ghost view = { λ a. record { workers = a.workers; tasks = a.tasks; actions = a.actions; groups = a.groups; queues = a.queues; objects = a.objects; priorities = a.priorities; generations = a.generations } };

    ghost invariant = { λ a. AreNodeSettings (record { workers = a.workers; tasks = a.tasks; actions = a.actions; groups = a.groups; queues = a.queues; objects = a.objects; priorities = a.priorities; generations = a.generations }) };

    ghost inverse = { λ a. record { workers = a.workers; tasks = a.tasks; actions = a.actions; groups = a.groups; queues = a.queues; objects = a.objects; priorities = a.priorities; generations = a.generations } };
}

impl NodeAttr {
    /// The number of `workers`.
    pub const WORKERS: u32 = 1;
    /// The number of `tasks`.
    pub const TASKS: u32 = 2;
    /// The number of `actions`.
    pub const ACTIONS: u32 = 3;
    /// The number of `groups`.
    pub const GROUPS: u32 = 4;
    /// The number of `queues`.
    pub const QUEUES: u32 = 5;
    /// The number of `objects`.
    pub const OBJECTS: u32 = 6;
    /// The number of `priorities`.
    pub const PRIORITIES: u32 = 7;
    /// The number of `generations`.
    pub const GENERATIONS: u32 = 8;

    /// The defaults.
    pub fn new() -> NodeAttr
        ensures { result ≡ record { workers = 1; tasks = 1024; actions = 64; groups = 128; queues = 16; objects = 16; priorities = 4; generations = 4294967295 } }
    {
        NodeAttr {
            workers: 1,
            tasks: 1024,
            actions: 64,
            groups: 128,
            queues: 16,
            objects: 16,
            priorities: 4,
            generations: 4294967295,
        }
    }

    /// Each attribute is in its range.
    pub fn is_kept(&self)
        ensures { AreNodeSettings self.now }
    {
        let _ = &self.workers;
    }

    /// The number of workers, 1 to 16.
    pub fn workers(&self) -> u32
        ensures value { result ≡ self.now.workers }
        ensures range { IsWithin 1 16 result }
    {
        self.workers
    }

    /// The greatest number of live tasks, 1 to 65,536.
    pub fn tasks(&self) -> u32
        ensures value { result ≡ self.now.tasks }
        ensures range { IsWithin 1 65536 result }
    {
        self.tasks
    }

    /// The greatest number of live actions, 1 to 1,024.
    pub fn actions(&self) -> u32
        ensures value { result ≡ self.now.actions }
        ensures range { IsWithin 1 1024 result }
    {
        self.actions
    }

    /// The greatest number of live groups, 1 to 1,024.
    pub fn groups(&self) -> u32
        ensures value { result ≡ self.now.groups }
        ensures range { IsWithin 1 1024 result }
    {
        self.groups
    }

    /// The greatest number of live queues, 1 to 256.
    pub fn queues(&self) -> u32
        ensures value { result ≡ self.now.queues }
        ensures range { IsWithin 1 256 result }
    {
        self.queues
    }

    /// The greatest number of live objects of each MRAPI kind, 1 to 256.
    pub fn objects(&self) -> u32
        ensures value { result ≡ self.now.objects }
        ensures range { IsWithin 1 256 result }
    {
        self.objects
    }

    /// The number of priorities, 1 to 8. Priority 0 goes first.
    pub fn priorities(&self) -> u32
        ensures value { result ≡ self.now.priorities }
        ensures range { IsWithin 1 8 result }
    {
        self.priorities
    }

    /// How often a place may be used again, 1 to 4,294,967,295.
    pub fn generations(&self) -> u32
        ensures value { result ≡ self.now.generations }
        ensures range { IsWithin 1 4294967295 result }
    {
        self.generations
    }

    /// Sets the attribute with this number. Where it refuses, nothing changes.
    ///
    /// # Errors
    ///
    /// - `ErrAttrNum`: the number isn't 1 to 8.
    /// - `ErrParameter`: the value is outside the range of the attribute.
    pub fn set(&mut self, number: u32, value: u64) -> Result<(), MtapiStatus>
        ensures answers { result ≡ set_answer node_attributes number value }
        ensures becomes { self.new ≡ after_set node_attributes number value self.old }
        ensures refused { OnErr result (self.new ≡ self.old) }
    {
        match number {
            NodeAttr::WORKERS => set_number(&mut self.workers, value, 1, 16),
            NodeAttr::TASKS => set_number(&mut self.tasks, value, 1, 65_536),
            NodeAttr::ACTIONS => set_number(&mut self.actions, value, 1, 1024),
            NodeAttr::GROUPS => set_number(&mut self.groups, value, 1, 1024),
            NodeAttr::QUEUES => set_number(&mut self.queues, value, 1, 256),
            NodeAttr::OBJECTS => set_number(&mut self.objects, value, 1, 256),
            NodeAttr::PRIORITIES => set_number(&mut self.priorities, value, 1, 8),
            NodeAttr::GENERATIONS => set_number(&mut self.generations, value, 1, 4_294_967_295),
            _ => Err(MtapiStatus::ErrAttrNum),
        }
    }

    /// The value of the attribute with this number, a yes or no as 1 or 0.
    ///
    /// # Errors
    ///
    /// - `ErrAttrNum`: the number isn't 1 to 8.
    pub fn get(&self, number: u32) -> Result<u64, MtapiStatus>
        ensures { result ≡ get_answer node_attributes number self.now }
    {
        match number {
            NodeAttr::WORKERS => Ok(u64::from(self.workers)),
            NodeAttr::TASKS => Ok(u64::from(self.tasks)),
            NodeAttr::ACTIONS => Ok(u64::from(self.actions)),
            NodeAttr::GROUPS => Ok(u64::from(self.groups)),
            NodeAttr::QUEUES => Ok(u64::from(self.queues)),
            NodeAttr::OBJECTS => Ok(u64::from(self.objects)),
            NodeAttr::PRIORITIES => Ok(u64::from(self.priorities)),
            NodeAttr::GENERATIONS => Ok(u64::from(self.generations)),
            _ => Err(MtapiStatus::ErrAttrNum),
        }
    }
}

/// The attributes of an action, each in its range.
#[derive(Clone, Copy, Debug, Drop, PartialEq, Eq)]
pub struct ActionAttr {
    global: bool,
    affinity: Mask,
    domain_shared: bool,
}

impl Model for ActionAttr {
    ghost use Rattle.mtapi_values.specs.Attributes.{ActionAttributes, AreActionAttributes};

    ghost Value = { ActionAttributes };

    ghost view = { λ a. record { global = a.global; affinity = a.affinity.0; domain_shared = a.domain_shared } };

    ghost invariant = { λ a. AreActionAttributes (record { global = a.global; affinity = a.affinity.0; domain_shared = a.domain_shared }) };

    ghost inverse = { λ a. record { global = a.global; affinity = record { 0 = a.affinity }; domain_shared = a.domain_shared } };
}

impl ActionAttr {
    /// The number of `global`.
    pub const GLOBAL: u32 = 1;
    /// The number of `affinity`.
    pub const AFFINITY: u32 = 2;
    /// The number of `domain_shared`.
    pub const DOMAIN_SHARED: u32 = 3;

    /// The defaults.
    pub fn new() -> ActionAttr
        ensures { result ≡ record { global = false; affinity = 18446744073709551615; domain_shared = false } }
    {
        ActionAttr {
            global: false,
            affinity: Mask(u64::MAX),
            domain_shared: false,
        }
    }

    /// Always false: no action is global.
    pub fn global(&self) -> bool
        ensures value { result ≡ self.now.global }
        ensures never { result ≡ false }
    {
        self.global
    }

    /// The workers that may run the action.
    pub fn affinity(&self) -> Mask
        ensures { result.0 ≡ self.now.affinity }
    {
        self.affinity
    }

    /// Always false: no action is shared between domains.
    pub fn domain_shared(&self) -> bool
        ensures value { result ≡ self.now.domain_shared }
        ensures never { result ≡ false }
    {
        self.domain_shared
    }

    /// Sets the attribute with this number. Where it refuses, nothing changes.
    ///
    /// # Errors
    ///
    /// - `ErrAttrNum`: the number isn't 1 to 3.
    /// - `ErrAttrReadonly`: the number is 1 or 3, whose attributes are always false.
    pub fn set(&mut self, number: u32, value: u64) -> Result<(), MtapiStatus>
        ensures answers { result ≡ set_answer action_attributes number value }
        ensures becomes { self.new ≡ after_set action_attributes number value self.old }
        ensures refused { OnErr result (self.new ≡ self.old) }
    {
        match number {
            ActionAttr::AFFINITY => {
                self.affinity = Mask(value);
                Ok(())
            }
            ActionAttr::GLOBAL | ActionAttr::DOMAIN_SHARED => Err(MtapiStatus::ErrAttrReadonly),
            _ => Err(MtapiStatus::ErrAttrNum),
        }
    }

    /// The value of the attribute with this number, a yes or no as 1 or 0.
    ///
    /// # Errors
    ///
    /// - `ErrAttrNum`: the number isn't 1 to 3.
    pub fn get(&self, number: u32) -> Result<u64, MtapiStatus>
        ensures { result ≡ get_answer action_attributes number self.now }
    {
        match number {
            ActionAttr::GLOBAL => Ok(u64::from(self.global)),
            ActionAttr::AFFINITY => Ok(self.affinity.0),
            ActionAttr::DOMAIN_SHARED => Ok(u64::from(self.domain_shared)),
            _ => Err(MtapiStatus::ErrAttrNum),
        }
    }
}

/// The attributes of a task, each in its range.
#[derive(Clone, Copy, Debug, Drop, PartialEq, Eq)]
pub struct TaskAttr {
    detached: bool,
    instances: u32,
    priority: u32,
    affinity: Mask,
}

impl Model for TaskAttr {
    ghost use Rattle.mtapi_values.specs.Attributes.{TaskAttributes, AreTaskAttributes};

    ghost Value = { TaskAttributes };

    ghost view = { λ a. record { detached = a.detached; instances = a.instances; priority = a.priority; affinity = a.affinity.0 } };

    ghost invariant = { λ a. AreTaskAttributes (record { detached = a.detached; instances = a.instances; priority = a.priority; affinity = a.affinity.0 }) };

    ghost inverse = { λ a. record { detached = a.detached; instances = a.instances; priority = a.priority; affinity = record { 0 = a.affinity } } };
}

impl TaskAttr {
    /// The number of `detached`.
    pub const DETACHED: u32 = 1;
    /// The number of `instances`.
    pub const INSTANCES: u32 = 2;
    /// The number of `priority`.
    pub const PRIORITY: u32 = 3;
    /// The number of `affinity`.
    pub const AFFINITY: u32 = 4;

    /// The defaults.
    pub fn new() -> TaskAttr
        ensures { result ≡ record { detached = false; instances = 1; priority = 0; affinity = 18446744073709551615 } }
    {
        TaskAttr {
            detached: false,
            instances: 1,
            priority: 0,
            affinity: Mask(u64::MAX),
        }
    }

    /// Whether nobody waits for the task.
    pub fn detached(&self) -> bool
        ensures { result ≡ self.now.detached }
    {
        self.detached
    }

    /// Always 1.
    pub fn instances(&self) -> u32
        ensures value { result ≡ self.now.instances }
        ensures range { IsWithin 1 1 result }
    {
        self.instances
    }

    /// 0 to 7. Priority 0 goes first.
    pub fn priority(&self) -> u32
        ensures value { result ≡ self.now.priority }
        ensures range { IsWithin 0 7 result }
    {
        self.priority
    }

    /// The workers that may run the task.
    pub fn affinity(&self) -> Mask
        ensures { result.0 ≡ self.now.affinity }
    {
        self.affinity
    }

    /// Sets the attribute with this number. Where it refuses, nothing changes.
    ///
    /// # Errors
    ///
    /// - `ErrAttrNum`: the number isn't 1 to 4.
    /// - `ErrParameter`: the value is outside the range of the attribute; a yes or no is 1 or 0.
    pub fn set(&mut self, number: u32, value: u64) -> Result<(), MtapiStatus>
        ensures answers { result ≡ set_answer task_attributes number value }
        ensures becomes { self.new ≡ after_set task_attributes number value self.old }
        ensures refused { OnErr result (self.new ≡ self.old) }
    {
        match number {
            TaskAttr::DETACHED => set_yes_or_no(&mut self.detached, value),
            TaskAttr::INSTANCES => set_number(&mut self.instances, value, 1, 1),
            TaskAttr::PRIORITY => set_number(&mut self.priority, value, 0, 7),
            TaskAttr::AFFINITY => {
                self.affinity = Mask(value);
                Ok(())
            }
            _ => Err(MtapiStatus::ErrAttrNum),
        }
    }

    /// The value of the attribute with this number, a yes or no as 1 or 0.
    ///
    /// # Errors
    ///
    /// - `ErrAttrNum`: the number isn't 1 to 4.
    pub fn get(&self, number: u32) -> Result<u64, MtapiStatus>
        ensures { result ≡ get_answer task_attributes number self.now }
    {
        match number {
            TaskAttr::DETACHED => Ok(u64::from(self.detached)),
            TaskAttr::INSTANCES => Ok(u64::from(self.instances)),
            TaskAttr::PRIORITY => Ok(u64::from(self.priority)),
            TaskAttr::AFFINITY => Ok(self.affinity.0),
            _ => Err(MtapiStatus::ErrAttrNum),
        }
    }
}

/// The attributes of a queue, each in its range.
#[derive(Clone, Copy, Debug, Drop, PartialEq, Eq)]
pub struct QueueAttr {
    global: bool,
    priority: u32,
    limit: u32,
    ordered: bool,
    retain: bool,
    domain_shared: bool,
}

impl Model for QueueAttr {
    ghost use Rattle.mtapi_values.specs.Attributes.{QueueAttributes, AreQueueAttributes};

    ghost Value = { QueueAttributes };

    ghost view = { λ a. record { global = a.global; priority = a.priority; limit = a.limit; ordered = a.ordered; retain = a.retain; domain_shared = a.domain_shared } };

    ghost invariant = { λ a. AreQueueAttributes (record { global = a.global; priority = a.priority; limit = a.limit; ordered = a.ordered; retain = a.retain; domain_shared = a.domain_shared }) };

    ghost inverse = { λ a. record { global = a.global; priority = a.priority; limit = a.limit; ordered = a.ordered; retain = a.retain; domain_shared = a.domain_shared } };
}

impl QueueAttr {
    /// The number of `global`.
    pub const GLOBAL: u32 = 1;
    /// The number of `priority`.
    pub const PRIORITY: u32 = 2;
    /// The number of `limit`.
    pub const LIMIT: u32 = 3;
    /// The number of `ordered`.
    pub const ORDERED: u32 = 4;
    /// The number of `retain`.
    pub const RETAIN: u32 = 5;
    /// The number of `domain_shared`.
    pub const DOMAIN_SHARED: u32 = 6;

    /// The defaults.
    pub fn new() -> QueueAttr
        ensures { result ≡ record { global = false; priority = 0; limit = 65536; ordered = false; retain = false; domain_shared = false } }
    {
        QueueAttr {
            global: false,
            priority: 0,
            limit: 65536,
            ordered: false,
            retain: false,
            domain_shared: false,
        }
    }

    /// Always false: no queue is global.
    pub fn global(&self) -> bool
        ensures value { result ≡ self.now.global }
        ensures never { result ≡ false }
    {
        self.global
    }

    /// 0 to 7, for each task of the queue.
    pub fn priority(&self) -> u32
        ensures value { result ≡ self.now.priority }
        ensures range { IsWithin 0 7 result }
    {
        self.priority
    }

    /// The greatest number of unended tasks in the queue, 1 to 65,536.
    pub fn limit(&self) -> u32
        ensures value { result ≡ self.now.limit }
        ensures range { IsWithin 1 65536 result }
    {
        self.limit
    }

    /// Whether the tasks run one after the other, in the order in which they came.
    pub fn ordered(&self) -> bool
        ensures { result ≡ self.now.ordered }
    {
        self.ordered
    }

    /// Whether a disabled queue still takes tasks.
    pub fn retain(&self) -> bool
        ensures { result ≡ self.now.retain }
    {
        self.retain
    }

    /// Always false: no queue is shared between domains.
    pub fn domain_shared(&self) -> bool
        ensures value { result ≡ self.now.domain_shared }
        ensures never { result ≡ false }
    {
        self.domain_shared
    }

    /// Sets the attribute with this number. Where it refuses, nothing changes.
    ///
    /// # Errors
    ///
    /// - `ErrAttrNum`: the number isn't 1 to 6.
    /// - `ErrAttrReadonly`: the number is 1 or 6, whose attributes are always false.
    /// - `ErrParameter`: the value is outside the range of the attribute; a yes or no is 1 or 0.
    pub fn set(&mut self, number: u32, value: u64) -> Result<(), MtapiStatus>
        ensures answers { result ≡ set_answer queue_attributes number value }
        ensures becomes { self.new ≡ after_set queue_attributes number value self.old }
        ensures refused { OnErr result (self.new ≡ self.old) }
    {
        match number {
            QueueAttr::PRIORITY => set_number(&mut self.priority, value, 0, 7),
            QueueAttr::LIMIT => set_number(&mut self.limit, value, 1, 65_536),
            QueueAttr::ORDERED => set_yes_or_no(&mut self.ordered, value),
            QueueAttr::RETAIN => set_yes_or_no(&mut self.retain, value),
            QueueAttr::GLOBAL | QueueAttr::DOMAIN_SHARED => Err(MtapiStatus::ErrAttrReadonly),
            _ => Err(MtapiStatus::ErrAttrNum),
        }
    }

    /// The value of the attribute with this number, a yes or no as 1 or 0.
    ///
    /// # Errors
    ///
    /// - `ErrAttrNum`: the number isn't 1 to 6.
    pub fn get(&self, number: u32) -> Result<u64, MtapiStatus>
        ensures { result ≡ get_answer queue_attributes number self.now }
    {
        match number {
            QueueAttr::GLOBAL => Ok(u64::from(self.global)),
            QueueAttr::PRIORITY => Ok(u64::from(self.priority)),
            QueueAttr::LIMIT => Ok(u64::from(self.limit)),
            QueueAttr::ORDERED => Ok(u64::from(self.ordered)),
            QueueAttr::RETAIN => Ok(u64::from(self.retain)),
            QueueAttr::DOMAIN_SHARED => Ok(u64::from(self.domain_shared)),
            _ => Err(MtapiStatus::ErrAttrNum),
        }
    }
}

/// The attributes of a mutex, each in its range.
#[derive(Clone, Copy, Debug, Drop, PartialEq, Eq)]
pub struct MutexAttr {
    recursive: bool,
}

impl Model for MutexAttr {
    ghost use Rattle.mtapi_values.specs.Attributes.{MutexAttributes};

    ghost Value = { MutexAttributes };

    ghost view = { λ a. record { recursive = a.recursive } };

    ghost inverse = { λ a. record { recursive = a.recursive } };
}

impl MutexAttr {
    /// The number of `recursive`.
    pub const RECURSIVE: u32 = 1;

    /// The defaults.
    pub fn new() -> MutexAttr
        ensures { result ≡ record { recursive = false } }
    {
        MutexAttr { recursive: false }
    }

    /// Whether the holder may lock it again.
    pub fn recursive(&self) -> bool
        ensures { result ≡ self.now.recursive }
    {
        self.recursive
    }

    /// Sets the attribute with this number. Where it refuses, nothing changes.
    ///
    /// # Errors
    ///
    /// - `ErrAttrNum`: the number isn't 1.
    /// - `ErrParameter`: the value isn't 1 or 0, for yes or no.
    pub fn set(&mut self, number: u32, value: u64) -> Result<(), MtapiStatus>
        ensures answers { result ≡ set_answer mutex_attributes number value }
        ensures becomes { self.new ≡ after_set mutex_attributes number value self.old }
        ensures refused { OnErr result (self.new ≡ self.old) }
    {
        match number {
            MutexAttr::RECURSIVE => set_yes_or_no(&mut self.recursive, value),
            _ => Err(MtapiStatus::ErrAttrNum),
        }
    }

    /// The value of the attribute with this number, a yes or no as 1 or 0.
    ///
    /// # Errors
    ///
    /// - `ErrAttrNum`: the number isn't 1.
    pub fn get(&self, number: u32) -> Result<u64, MtapiStatus>
        ensures { result ≡ get_answer mutex_attributes number self.now }
    {
        match number {
            MutexAttr::RECURSIVE => Ok(u64::from(self.recursive)),
            _ => Err(MtapiStatus::ErrAttrNum),
        }
    }
}

/// Puts a number into its place where it is in this range.
fn set_number(place: &mut u32, value: u64, least: u32, greatest: u32) -> Result<(), MtapiStatus>
    ensures answers { result ≡ (if is_within least greatest value then Ok tt else Err ErrParameter) }
    ensures becomes { place.new ≡ (if is_within least greatest value then value else place.old) }
{
    match u32::try_from(value) {
        Ok(number) if least <= number && number <= greatest => {
            *place = number;
            Ok(())
        }
        _ => Err(MtapiStatus::ErrParameter),
    }
}

/// Puts 1 or 0 into its place as a yes or no.
fn set_yes_or_no(place: &mut bool, value: u64) -> Result<(), MtapiStatus>
    ensures answers { result ≡ (if is_within 0 1 value then Ok tt else Err ErrParameter) }
    ensures becomes { place.new ≡ (if is_within 0 1 value then is_one value else place.old) }
{
    match value {
        0 => *place = false,
        1 => *place = true,
        _ => return Err(MtapiStatus::ErrParameter),
    }
    Ok(())
}
