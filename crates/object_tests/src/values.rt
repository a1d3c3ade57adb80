//! The tables of statuses and attributes: every number and name, and every range at both ends and one past them.

use mtapi_values::{
    ActionAttr, Args, Look, MrapiStatus, MtapiStatus, MutexAttr, NodeAttr, QueueAttr, TaskAttr,
    TaskEnd,
};

#[test]
fn mtapi_statuses_have_their_numbers_and_names(rt: HostRuntime) {
    let mtapi = [
        (MtapiStatus::Success, 0, "MTAPI_SUCCESS"),
        (MtapiStatus::Timeout, 1, "MTAPI_TIMEOUT"),
        (MtapiStatus::GroupCompleted, 2, "MTAPI_GROUP_COMPLETED"),
        (MtapiStatus::ErrParameter, 3, "MTAPI_ERR_PARAMETER"),
        (
            MtapiStatus::ErrNodeInitialized,
            4,
            "MTAPI_ERR_NODE_INITIALIZED",
        ),
        (MtapiStatus::ErrNodeNotinit, 5, "MTAPI_ERR_NODE_NOTINIT"),
        (MtapiStatus::ErrActionInvalid, 6, "MTAPI_ERR_ACTION_INVALID"),
        (MtapiStatus::ErrActionLimit, 7, "MTAPI_ERR_ACTION_LIMIT"),
        (MtapiStatus::ErrActionFailed, 8, "MTAPI_ERR_ACTION_FAILED"),
        (MtapiStatus::ErrActionDeleted, 9, "MTAPI_ERR_ACTION_DELETED"),
        (
            MtapiStatus::ErrActionDisabled,
            10,
            "MTAPI_ERR_ACTION_DISABLED",
        ),
        (MtapiStatus::ErrArgSize, 11, "MTAPI_ERR_ARG_SIZE"),
        (MtapiStatus::ErrJobInvalid, 12, "MTAPI_ERR_JOB_INVALID"),
        (MtapiStatus::ErrNoCore, 13, "MTAPI_ERR_NO_CORE"),
        (MtapiStatus::ErrTaskInvalid, 14, "MTAPI_ERR_TASK_INVALID"),
        (MtapiStatus::ErrTaskLimit, 16, "MTAPI_ERR_TASK_LIMIT"),
        (
            MtapiStatus::ErrTaskCancelled,
            17,
            "MTAPI_ERR_TASK_CANCELLED",
        ),
        (MtapiStatus::ErrGroupInvalid, 18, "MTAPI_ERR_GROUP_INVALID"),
        (MtapiStatus::ErrGroupLimit, 19, "MTAPI_ERR_GROUP_LIMIT"),
        (MtapiStatus::ErrQueueInvalid, 20, "MTAPI_ERR_QUEUE_INVALID"),
        (MtapiStatus::ErrQueueLimit, 21, "MTAPI_ERR_QUEUE_LIMIT"),
        (MtapiStatus::ErrQueueDeleted, 22, "MTAPI_ERR_QUEUE_DELETED"),
        (
            MtapiStatus::ErrQueueDisabled,
            23,
            "MTAPI_ERR_QUEUE_DISABLED",
        ),
        (MtapiStatus::ErrQueueExists, 24, "MTAPI_ERR_QUEUE_EXISTS"),
        (MtapiStatus::ErrWaitPending, 25, "MTAPI_ERR_WAIT_PENDING"),
        (MtapiStatus::ErrAttrNum, 26, "MTAPI_ERR_ATTR_NUM"),
        (MtapiStatus::ErrAttrReadonly, 27, "MTAPI_ERR_ATTR_READONLY"),
        (MtapiStatus::ErrCoreNum, 28, "MTAPI_ERR_CORE_NUM"),
        (MtapiStatus::ErrSpent, 29, "MTAPI_ERR_SPENT"),
    ];
    for (status, number, name) in mtapi {
        assert!(rt;
            status.number() == number && status.name() == name,
            "at {number}"
        );
        assert!(rt; MtapiStatus::from_name(name) == Some(status), "at {number}");
    }
}

#[test]
fn mrapi_statuses_have_their_numbers_and_names(rt: HostRuntime) {
    let mrapi = [
        (MrapiStatus::Success, 0, "MRAPI_SUCCESS"),
        (MrapiStatus::Timeout, 1, "MRAPI_TIMEOUT"),
        (MrapiStatus::ErrParameter, 2, "MRAPI_ERR_PARAMETER"),
        (MrapiStatus::ErrNodeNotinit, 3, "MRAPI_ERR_NODE_NOTINIT"),
        (MrapiStatus::ErrMutexInvalid, 4, "MRAPI_ERR_MUTEX_INVALID"),
        (
            MrapiStatus::ErrMutexIdInvalid,
            5,
            "MRAPI_ERR_MUTEX_ID_INVALID",
        ),
        (MrapiStatus::ErrMutexExists, 6, "MRAPI_ERR_MUTEX_EXISTS"),
        (MrapiStatus::ErrMutexLimit, 7, "MRAPI_ERR_MUTEX_LIMIT"),
        (MrapiStatus::ErrMutexLocked, 8, "MRAPI_ERR_MUTEX_LOCKED"),
        (
            MrapiStatus::ErrMutexNotlocked,
            9,
            "MRAPI_ERR_MUTEX_NOTLOCKED",
        ),
        (MrapiStatus::ErrMutexKey, 10, "MRAPI_ERR_MUTEX_KEY"),
        (
            MrapiStatus::ErrMutexLockorder,
            11,
            "MRAPI_ERR_MUTEX_LOCKORDER",
        ),
        (MrapiStatus::ErrSemInvalid, 12, "MRAPI_ERR_SEM_INVALID"),
        (MrapiStatus::ErrSemIdInvalid, 13, "MRAPI_ERR_SEM_ID_INVALID"),
        (MrapiStatus::ErrSemExists, 14, "MRAPI_ERR_SEM_EXISTS"),
        (MrapiStatus::ErrSemLocked, 15, "MRAPI_ERR_SEM_LOCKED"),
        (MrapiStatus::ErrSemNotlocked, 16, "MRAPI_ERR_SEM_NOTLOCKED"),
        (MrapiStatus::ErrRwlInvalid, 17, "MRAPI_ERR_RWL_INVALID"),
        (MrapiStatus::ErrRwlIdInvalid, 18, "MRAPI_ERR_RWL_ID_INVALID"),
        (MrapiStatus::ErrRwlExists, 19, "MRAPI_ERR_RWL_EXISTS"),
        (MrapiStatus::ErrRwlLimit, 20, "MRAPI_ERR_RWL_LIMIT"),
        (MrapiStatus::ErrRwlLocked, 21, "MRAPI_ERR_RWL_LOCKED"),
        (MrapiStatus::ErrRwlNotlocked, 22, "MRAPI_ERR_RWL_NOTLOCKED"),
        (MrapiStatus::ErrShmInvalid, 23, "MRAPI_ERR_SHM_INVALID"),
        (MrapiStatus::ErrShmIdInvalid, 24, "MRAPI_ERR_SHM_ID_INVALID"),
        (MrapiStatus::ErrShmExists, 25, "MRAPI_ERR_SHM_EXISTS"),
        (MrapiStatus::ErrShmLimit, 26, "MRAPI_ERR_SHM_LIMIT"),
        (MrapiStatus::ErrShmAttached, 27, "MRAPI_ERR_SHM_ATTACHED"),
        (
            MrapiStatus::ErrShmNotattached,
            28,
            "MRAPI_ERR_SHM_NOTATTACHED",
        ),
        (MrapiStatus::ErrSpent, 29, "MRAPI_ERR_SPENT"),
        (MrapiStatus::ErrSemLimit, 30, "MRAPI_ERR_SEM_LIMIT"),
    ];
    for (status, number, name) in mrapi {
        assert!(rt;
            status.number() == number && status.name() == name,
            "at {number}"
        );
        assert!(rt; MrapiStatus::from_name(name) == Some(status), "at {number}");
    }
}

/// The attributes of one of the five types.
#[derive(Clone, Copy, Drop)]
enum Attributes {
    Node(NodeAttr),
    Action(ActionAttr),
    Task(TaskAttr),
    Queue(QueueAttr),
    Mutex(MutexAttr),
}

fn set(attributes: &mut Attributes, number: u32, value: u64) -> Result<(), MtapiStatus> {
    match attributes {
        Attributes::Node(node) => node.set(number, value),
        Attributes::Action(action) => action.set(number, value),
        Attributes::Task(task) => task.set(number, value),
        Attributes::Queue(queue) => queue.set(number, value),
        Attributes::Mutex(mutex) => mutex.set(number, value),
    }
}

fn get(attributes: &Attributes, number: u32) -> Result<u64, MtapiStatus> {
    match attributes {
        Attributes::Node(node) => node.get(number),
        Attributes::Action(action) => action.get(number),
        Attributes::Task(task) => task.get(number),
        Attributes::Queue(queue) => queue.get(number),
        Attributes::Mutex(mutex) => mutex.get(number),
    }
}

/// An attribute's default and the ends of its range. One that can't be set has no range.
#[derive(Clone, Copy, Drop)]
struct Row {
    default: u64,
    range: Option<(u64, u64)>,
}

fn ranged(default: u64, least: u64, greatest: u64) -> Row {
    Row {
        default,
        range: Some((least, greatest)),
    }
}

fn fixed(default: u64) -> Row {
    Row {
        default,
        range: None,
    }
}

/// The first attribute, counted from 1, that does not go by its row, or the number after the last where that one isn't unknown.
fn first_wrong(mut attributes: Attributes, rows: &[Row]) -> Option<u32> {
    let mut number = 1;
    for row in rows {
        if !goes_by(&mut attributes, number, *row) {
            return Some(number);
        }
        number = number.saturating_add(1);
    }
    for other in [0, number, u32::MAX] {
        if get(&attributes, other) != Err(MtapiStatus::ErrAttrNum)
            || set(&mut attributes, other, 1) != Err(MtapiStatus::ErrAttrNum)
        {
            return Some(other);
        }
    }
    None
}

/// A number that is this much above another has the same lower 32 bits.
const PAST_32_BITS: u64 = 4294967296;

fn goes_by(attributes: &mut Attributes, number: u32, row: Row) -> bool {
    let begins = get(attributes, number) == Ok(row.default);
    let Some((least, greatest)) = row.range else {
        return begins
            && set(attributes, number, row.default) == Err(MtapiStatus::ErrAttrReadonly)
            && set(attributes, number, 1) == Err(MtapiStatus::ErrAttrReadonly)
            && get(attributes, number) == Ok(row.default);
    };
    begins
        && takes(attributes, number, least)
        && keeps(attributes, number, greatest.checked_add(1))
        && keeps(attributes, number, greatest.checked_add(PAST_32_BITS))
        && takes(attributes, number, greatest)
        && keeps(attributes, number, least.checked_sub(1))
}

/// Whether this value is taken.
fn takes(attributes: &mut Attributes, number: u32, value: u64) -> bool {
    set(attributes, number, value) == Ok(()) && get(attributes, number) == Ok(value)
}

/// Whether this value, where there is one, is refused and the one before stays.
fn keeps(attributes: &mut Attributes, number: u32, value: Option<u64>) -> bool {
    let before = get(attributes, number);
    match value {
        Some(value) => set(attributes, number, value) == Err(MtapiStatus::ErrParameter)
            && get(attributes, number) == before,
        None => true,
    }
}

#[test]
fn attributes_keep_their_ranges(rt: HostRuntime) {
    let node = [
        ranged(1, 1, 16),
        ranged(1024, 1, 65536),
        ranged(64, 1, 1024),
        ranged(128, 1, 1024),
        ranged(16, 1, 256),
        ranged(16, 1, 256),
        ranged(4, 1, 8),
        ranged(4294967295, 1, 4294967295),
    ];
    assert_eq!(rt; first_wrong(Attributes::Node(NodeAttr::new()), &node), None);
    let action = [fixed(0), ranged(u64::MAX, 0, u64::MAX), fixed(0)];
    assert_eq!(rt;
        first_wrong(Attributes::Action(ActionAttr::new()), &action),
        None
    );
    let task = [
        ranged(0, 0, 1),
        ranged(1, 1, 1),
        ranged(0, 0, 7),
        ranged(u64::MAX, 0, u64::MAX),
    ];
    assert_eq!(rt; first_wrong(Attributes::Task(TaskAttr::new()), &task), None);
    let queue = [
        fixed(0),
        ranged(0, 0, 7),
        ranged(65536, 1, 65536),
        ranged(0, 0, 1),
        ranged(0, 0, 1),
        fixed(0),
    ];
    assert_eq!(rt;
        first_wrong(Attributes::Queue(QueueAttr::new()), &queue),
        None
    );
    assert_eq!(rt;
        first_wrong(Attributes::Mutex(MutexAttr::new()), &[ranged(0, 0, 1)]),
        None
    );
}

/// Takes what may go to other threads and be shared by them.
fn may_cross_threads<T: Send + Sync>(_value: &T) {}

#[test]
fn values_may_cross_threads(_rt: HostRuntime) {
    may_cross_threads(&Args::new());
    may_cross_threads(&TaskEnd::Cancelled);
    may_cross_threads(&NodeAttr::new());
    may_cross_threads(&QueueAttr::new());
    may_cross_threads(&Look::Got(1));
    may_cross_threads(&MtapiStatus::Success);
}
