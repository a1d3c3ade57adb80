//! The statuses of both interfaces, each with its number and its name.

ghost use Rattle.std.specs.Prelude.{◌≡◌, ◌≢◌, ◌↔◌, Option, Some, None, IsNone};
ghost use Rattle.std.specs.Fmt.{padded};
ghost use Rattle.mtapi_values.specs.declared.statuses.MtapiStatus.{MtapiStatus};
ghost use Rattle.mtapi_values.specs.declared.statuses.MrapiStatus.{MrapiStatus};
ghost use Rattle.mtapi_values.specs.Statuses.{mtapi_number, mtapi_name, mrapi_number, mrapi_name};

use crate::names::{Named, value_named};
use std::error::Error;
use std::fmt;

/// What a call of the MTAPI part answers.
#[derive(Clone, Copy, Debug, Drop, PartialEq, Eq)]
pub enum MtapiStatus {
    /// The call did what it names.
    Success = 0,
    /// The looks that the caller allowed were used up.
    Timeout = 1,
    /// A group has no member left to hand out.
    GroupCompleted = 2,
    /// An argument is outside its range.
    ErrParameter = 3,
    /// The node was initialized before, or it can't end yet.
    ErrNodeInitialized = 4,
    /// The node isn't initialized, or isn't open any more.
    ErrNodeNotinit = 5,
    /// The handle is no live action's.
    ErrActionInvalid = 6,
    /// No room for a further action.
    ErrActionLimit = 7,
    /// The action failed: a number left its range, a divisor was 0, or its kind always fails.
    ErrActionFailed = 8,
    /// A deletion left no action that may run the task.
    ErrActionDeleted = 9,
    /// All actions of the job are disabled, or the last that may run the task was.
    ErrActionDisabled = 10,
    /// The wrong number of arguments.
    ErrArgSize = 11,
    /// No live action has the job, or the job's number is out of range.
    ErrJobInvalid = 12,
    /// No worker has an action that may run the task.
    ErrNoCore = 13,
    /// The handle is no live task's.
    ErrTaskInvalid = 14,
    /// No room for a further task.
    ErrTaskLimit = 16,
    /// The task was cancelled.
    ErrTaskCancelled = 17,
    /// The handle is no live group's.
    ErrGroupInvalid = 18,
    /// No room for a further group.
    ErrGroupLimit = 19,
    /// The handle or the id is no live queue's.
    ErrQueueInvalid = 20,
    /// No room for a further queue, or for a further task in the queue.
    ErrQueueLimit = 21,
    /// The queue was deleted with the task in it.
    ErrQueueDeleted = 22,
    /// The queue is disabled and takes no task.
    ErrQueueDisabled = 23,
    /// A live queue has this id.
    ErrQueueExists = 24,
    /// Another seat waits for this task.
    ErrWaitPending = 25,
    /// The attribute's number is unknown.
    ErrAttrNum = 26,
    /// The attribute can't be set.
    ErrAttrReadonly = 27,
    /// The core's number is 64 or more.
    ErrCoreNum = 28,
    /// The turns of the cell are used up.
    ErrSpent = 29,
}

/// What a call of the MRAPI part answers.
#[derive(Clone, Copy, Debug, Drop, PartialEq, Eq)]
pub enum MrapiStatus {
    /// The call did what it names.
    Success = 0,
    /// The looks that the caller allowed were used up.
    Timeout = 1,
    /// An argument is outside its range.
    ErrParameter = 2,
    /// The node isn't initialized, or isn't open any more.
    ErrNodeNotinit = 3,
    /// The handle is no live mutex's.
    ErrMutexInvalid = 4,
    /// No live mutex has this id.
    ErrMutexIdInvalid = 5,
    /// A live mutex has this id.
    ErrMutexExists = 6,
    /// No room for a further mutex.
    ErrMutexLimit = 7,
    /// The mutex is locked, or its holder can't lock it once more.
    ErrMutexLocked = 8,
    /// The caller doesn't hold the mutex.
    ErrMutexNotlocked = 9,
    /// The key is 0 or above the depth of the lock.
    ErrMutexKey = 10,
    /// The key is below the depth of the lock: keys come back in reverse order.
    ErrMutexLockorder = 11,
    /// The handle is no live semaphore's.
    ErrSemInvalid = 12,
    /// No live semaphore has this id.
    ErrSemIdInvalid = 13,
    /// A live semaphore has this id.
    ErrSemExists = 14,
    /// Somebody holds the semaphore.
    ErrSemLocked = 15,
    /// The caller doesn't hold the semaphore.
    ErrSemNotlocked = 16,
    /// The handle is no live reader-writer lock's.
    ErrRwlInvalid = 17,
    /// No live reader-writer lock has this id.
    ErrRwlIdInvalid = 18,
    /// A live reader-writer lock has this id.
    ErrRwlExists = 19,
    /// No room for a further reader-writer lock.
    ErrRwlLimit = 20,
    /// Somebody holds the lock, or the caller itself does.
    ErrRwlLocked = 21,
    /// The caller doesn't hold the lock in this mode.
    ErrRwlNotlocked = 22,
    /// The handle is no live segment's.
    ErrShmInvalid = 23,
    /// No live segment has this id.
    ErrShmIdInvalid = 24,
    /// A live segment has this id.
    ErrShmExists = 25,
    /// No room for a further segment.
    ErrShmLimit = 26,
    /// A seat is attached, or the caller is already.
    ErrShmAttached = 27,
    /// The caller isn't attached to the segment.
    ErrShmNotattached = 28,
    /// The turns of the cell are used up.
    ErrSpent = 29,
    /// No room for a further semaphore.
    ErrSemLimit = 30,
}

/// Each status once.
const ALL_MTAPI: [MtapiStatus; 29] = [
    MtapiStatus::Success,
    MtapiStatus::Timeout,
    MtapiStatus::GroupCompleted,
    MtapiStatus::ErrParameter,
    MtapiStatus::ErrNodeInitialized,
    MtapiStatus::ErrNodeNotinit,
    MtapiStatus::ErrActionInvalid,
    MtapiStatus::ErrActionLimit,
    MtapiStatus::ErrActionFailed,
    MtapiStatus::ErrActionDeleted,
    MtapiStatus::ErrActionDisabled,
    MtapiStatus::ErrArgSize,
    MtapiStatus::ErrJobInvalid,
    MtapiStatus::ErrNoCore,
    MtapiStatus::ErrTaskInvalid,
    MtapiStatus::ErrTaskLimit,
    MtapiStatus::ErrTaskCancelled,
    MtapiStatus::ErrGroupInvalid,
    MtapiStatus::ErrGroupLimit,
    MtapiStatus::ErrQueueInvalid,
    MtapiStatus::ErrQueueLimit,
    MtapiStatus::ErrQueueDeleted,
    MtapiStatus::ErrQueueDisabled,
    MtapiStatus::ErrQueueExists,
    MtapiStatus::ErrWaitPending,
    MtapiStatus::ErrAttrNum,
    MtapiStatus::ErrAttrReadonly,
    MtapiStatus::ErrCoreNum,
    MtapiStatus::ErrSpent,
];

impl MtapiStatus {
    /// The status's number. No two statuses share one.
    pub fn number(self) -> u32
        ensures value { result ≡ mtapi_number self }
        ensures alone { (other : MtapiStatus) → mtapi_number other ≡ result → other ≡ self }
    {
        self as u32
    }

    /// The status's name. No two statuses share one.
    #[tactic(auto, using(crate::proofs::NameLemmas::one_name, crate::proofs::ValueTables::mtapi_finds_each))]
    pub fn name(self) -> &'static str
        ensures value { result.now ≡ mtapi_name self }
        ensures alone { (other : MtapiStatus) → mtapi_name other ≡ result.now → other ≡ self }
    {
        self.text()
    }

    // The same, by its table.
    fn text(self) -> &'static str
        ensures { result.now ≡ mtapi_name self }
    {
        match self {
            MtapiStatus::Success => "MTAPI_SUCCESS",
            MtapiStatus::Timeout => "MTAPI_TIMEOUT",
            MtapiStatus::GroupCompleted => "MTAPI_GROUP_COMPLETED",
            MtapiStatus::ErrParameter => "MTAPI_ERR_PARAMETER",
            MtapiStatus::ErrNodeInitialized => "MTAPI_ERR_NODE_INITIALIZED",
            MtapiStatus::ErrNodeNotinit => "MTAPI_ERR_NODE_NOTINIT",
            MtapiStatus::ErrActionInvalid => "MTAPI_ERR_ACTION_INVALID",
            MtapiStatus::ErrActionLimit => "MTAPI_ERR_ACTION_LIMIT",
            MtapiStatus::ErrActionFailed => "MTAPI_ERR_ACTION_FAILED",
            MtapiStatus::ErrActionDeleted => "MTAPI_ERR_ACTION_DELETED",
            MtapiStatus::ErrActionDisabled => "MTAPI_ERR_ACTION_DISABLED",
            MtapiStatus::ErrArgSize => "MTAPI_ERR_ARG_SIZE",
            MtapiStatus::ErrJobInvalid => "MTAPI_ERR_JOB_INVALID",
            MtapiStatus::ErrNoCore => "MTAPI_ERR_NO_CORE",
            MtapiStatus::ErrTaskInvalid => "MTAPI_ERR_TASK_INVALID",
            MtapiStatus::ErrTaskLimit => "MTAPI_ERR_TASK_LIMIT",
            MtapiStatus::ErrTaskCancelled => "MTAPI_ERR_TASK_CANCELLED",
            MtapiStatus::ErrGroupInvalid => "MTAPI_ERR_GROUP_INVALID",
            MtapiStatus::ErrGroupLimit => "MTAPI_ERR_GROUP_LIMIT",
            MtapiStatus::ErrQueueInvalid => "MTAPI_ERR_QUEUE_INVALID",
            MtapiStatus::ErrQueueLimit => "MTAPI_ERR_QUEUE_LIMIT",
            MtapiStatus::ErrQueueDeleted => "MTAPI_ERR_QUEUE_DELETED",
            MtapiStatus::ErrQueueDisabled => "MTAPI_ERR_QUEUE_DISABLED",
            MtapiStatus::ErrQueueExists => "MTAPI_ERR_QUEUE_EXISTS",
            MtapiStatus::ErrWaitPending => "MTAPI_ERR_WAIT_PENDING",
            MtapiStatus::ErrAttrNum => "MTAPI_ERR_ATTR_NUM",
            MtapiStatus::ErrAttrReadonly => "MTAPI_ERR_ATTR_READONLY",
            MtapiStatus::ErrCoreNum => "MTAPI_ERR_CORE_NUM",
            MtapiStatus::ErrSpent => "MTAPI_ERR_SPENT",
        }
    }

    /// The status with this name.
    ///
    /// # Errors
    ///
    /// - `None`: no status has the name.
    pub fn from_name(text: &str) -> Option<MtapiStatus>
        ensures known { (status : MtapiStatus) → (result ≡ Some status) ↔ (text.now ≡ mtapi_name status) }
        ensures unknown { IsNone result ↔ ((status : MtapiStatus) → text.now ≢ mtapi_name status) }
    {
        value_named(&ALL_MTAPI, text)
    }
}

/// Writes the status's name.
impl fmt::Display for MtapiStatus {
    ghost output = { λ status. Some (mtapi_name status) };

    ghost styled_output = { λ status spec. Some (padded spec (mtapi_name status)) };

    fn fmt<W: fmt::Write>(&self, f: &mut fmt::Formatter<W>) -> fmt::Result {
        f.pad(self.name())
    }
}

impl Error for MtapiStatus {}

impl Named for MtapiStatus {
    ghost named = { mtapi_name };

    fn name_of(&self) -> &'static str {
        self.name()
    }
}

/// Each status once.
const ALL_MRAPI: [MrapiStatus; 31] = [
    MrapiStatus::Success,
    MrapiStatus::Timeout,
    MrapiStatus::ErrParameter,
    MrapiStatus::ErrNodeNotinit,
    MrapiStatus::ErrMutexInvalid,
    MrapiStatus::ErrMutexIdInvalid,
    MrapiStatus::ErrMutexExists,
    MrapiStatus::ErrMutexLimit,
    MrapiStatus::ErrMutexLocked,
    MrapiStatus::ErrMutexNotlocked,
    MrapiStatus::ErrMutexKey,
    MrapiStatus::ErrMutexLockorder,
    MrapiStatus::ErrSemInvalid,
    MrapiStatus::ErrSemIdInvalid,
    MrapiStatus::ErrSemExists,
    MrapiStatus::ErrSemLocked,
    MrapiStatus::ErrSemNotlocked,
    MrapiStatus::ErrRwlInvalid,
    MrapiStatus::ErrRwlIdInvalid,
    MrapiStatus::ErrRwlExists,
    MrapiStatus::ErrRwlLimit,
    MrapiStatus::ErrRwlLocked,
    MrapiStatus::ErrRwlNotlocked,
    MrapiStatus::ErrShmInvalid,
    MrapiStatus::ErrShmIdInvalid,
    MrapiStatus::ErrShmExists,
    MrapiStatus::ErrShmLimit,
    MrapiStatus::ErrShmAttached,
    MrapiStatus::ErrShmNotattached,
    MrapiStatus::ErrSpent,
    MrapiStatus::ErrSemLimit,
];

impl MrapiStatus {
    /// The status's number. No two statuses share one.
    pub fn number(self) -> u32
        ensures value { result ≡ mrapi_number self }
        ensures alone { (other : MrapiStatus) → mrapi_number other ≡ result → other ≡ self }
    {
        self as u32
    }

    /// The status's name. No two statuses share one.
    #[tactic(auto, using(crate::proofs::NameLemmas::one_name, crate::proofs::ValueTables::mrapi_finds_each))]
    pub fn name(self) -> &'static str
        ensures value { result.now ≡ mrapi_name self }
        ensures alone { (other : MrapiStatus) → mrapi_name other ≡ result.now → other ≡ self }
    {
        self.text()
    }

    // The same, by its table.
    fn text(self) -> &'static str
        ensures { result.now ≡ mrapi_name self }
    {
        match self {
            MrapiStatus::Success => "MRAPI_SUCCESS",
            MrapiStatus::Timeout => "MRAPI_TIMEOUT",
            MrapiStatus::ErrParameter => "MRAPI_ERR_PARAMETER",
            MrapiStatus::ErrNodeNotinit => "MRAPI_ERR_NODE_NOTINIT",
            MrapiStatus::ErrMutexInvalid => "MRAPI_ERR_MUTEX_INVALID",
            MrapiStatus::ErrMutexIdInvalid => "MRAPI_ERR_MUTEX_ID_INVALID",
            MrapiStatus::ErrMutexExists => "MRAPI_ERR_MUTEX_EXISTS",
            MrapiStatus::ErrMutexLimit => "MRAPI_ERR_MUTEX_LIMIT",
            MrapiStatus::ErrMutexLocked => "MRAPI_ERR_MUTEX_LOCKED",
            MrapiStatus::ErrMutexNotlocked => "MRAPI_ERR_MUTEX_NOTLOCKED",
            MrapiStatus::ErrMutexKey => "MRAPI_ERR_MUTEX_KEY",
            MrapiStatus::ErrMutexLockorder => "MRAPI_ERR_MUTEX_LOCKORDER",
            MrapiStatus::ErrSemInvalid => "MRAPI_ERR_SEM_INVALID",
            MrapiStatus::ErrSemIdInvalid => "MRAPI_ERR_SEM_ID_INVALID",
            MrapiStatus::ErrSemExists => "MRAPI_ERR_SEM_EXISTS",
            MrapiStatus::ErrSemLocked => "MRAPI_ERR_SEM_LOCKED",
            MrapiStatus::ErrSemNotlocked => "MRAPI_ERR_SEM_NOTLOCKED",
            MrapiStatus::ErrRwlInvalid => "MRAPI_ERR_RWL_INVALID",
            MrapiStatus::ErrRwlIdInvalid => "MRAPI_ERR_RWL_ID_INVALID",
            MrapiStatus::ErrRwlExists => "MRAPI_ERR_RWL_EXISTS",
            MrapiStatus::ErrRwlLimit => "MRAPI_ERR_RWL_LIMIT",
            MrapiStatus::ErrRwlLocked => "MRAPI_ERR_RWL_LOCKED",
            MrapiStatus::ErrRwlNotlocked => "MRAPI_ERR_RWL_NOTLOCKED",
            MrapiStatus::ErrShmInvalid => "MRAPI_ERR_SHM_INVALID",
            MrapiStatus::ErrShmIdInvalid => "MRAPI_ERR_SHM_ID_INVALID",
            MrapiStatus::ErrShmExists => "MRAPI_ERR_SHM_EXISTS",
            MrapiStatus::ErrShmLimit => "MRAPI_ERR_SHM_LIMIT",
            MrapiStatus::ErrShmAttached => "MRAPI_ERR_SHM_ATTACHED",
            MrapiStatus::ErrShmNotattached => "MRAPI_ERR_SHM_NOTATTACHED",
            MrapiStatus::ErrSpent => "MRAPI_ERR_SPENT",
            MrapiStatus::ErrSemLimit => "MRAPI_ERR_SEM_LIMIT",
        }
    }

    /// The status with this name.
    ///
    /// # Errors
    ///
    /// - `None`: no status has the name.
    pub fn from_name(text: &str) -> Option<MrapiStatus>
        ensures known { (status : MrapiStatus) → (result ≡ Some status) ↔ (text.now ≡ mrapi_name status) }
        ensures unknown { IsNone result ↔ ((status : MrapiStatus) → text.now ≢ mrapi_name status) }
    {
        value_named(&ALL_MRAPI, text)
    }
}

/// Writes the status's name.
impl fmt::Display for MrapiStatus {
    ghost output = { λ status. Some (mrapi_name status) };

    ghost styled_output = { λ status spec. Some (padded spec (mrapi_name status)) };

    fn fmt<W: fmt::Write>(&self, f: &mut fmt::Formatter<W>) -> fmt::Result {
        f.pad(self.name())
    }
}

impl Error for MrapiStatus {}

impl Named for MrapiStatus {
    ghost named = { mrapi_name };

    fn name_of(&self) -> &'static str {
        self.name()
    }
}
