//! Handles: the numbers by which callers name objects, and how a handle names the kind of its object.

ghost use Rattle.std.specs.Prelude.{◌≡◌, ◌+◌, ◌*◌, ◌%◌, ◌^◌, ◌<◌, Some};
ghost use Rattle.mtapi_values.specs.Layouts.{object_number, outer, inner};

/// Names an action. No call issues the number 0.
#[derive(Clone, Copy, Debug, Drop, PartialEq, Eq)]
pub struct ActionHandle(pub u64);

/// Names a task. No call issues the number 0.
#[derive(Clone, Copy, Debug, Drop, PartialEq, Eq)]
pub struct TaskHandle(pub u64);

/// Names a group. No call issues the number 0.
#[derive(Clone, Copy, Debug, Drop, PartialEq, Eq)]
pub struct GroupHandle(pub u64);

/// Names a queue. No call issues the number 0.
#[derive(Clone, Copy, Debug, Drop, PartialEq, Eq)]
pub struct QueueHandle(pub u64);

/// Names a mutex. No call issues the number 0.
#[derive(Clone, Copy, Debug, Drop, PartialEq, Eq)]
pub struct MutexHandle(pub u64);

/// Names a semaphore. No call issues the number 0.
#[derive(Clone, Copy, Debug, Drop, PartialEq, Eq)]
pub struct SemHandle(pub u64);

/// Names a reader-writer lock. No call issues the number 0.
#[derive(Clone, Copy, Debug, Drop, PartialEq, Eq)]
pub struct RwlHandle(pub u64);

/// Names a shared segment. No call issues the number 0.
#[derive(Clone, Copy, Debug, Drop, PartialEq, Eq)]
pub struct ShmemHandle(pub u64);

/// Holds the number of a job.
#[derive(Clone, Copy, Debug, Drop, PartialEq, Eq)]
pub struct JobHandle(pub u32);

/// The kinds of object that have handles.
#[derive(Clone, Copy, Debug, Drop, PartialEq, Eq)]
pub enum ObjectKind {
    Action,
    Task,
    Group,
    Queue,
    Mutex,
    Sem,
    Rwl,
    Shmem,
}

impl ObjectKind {
    /// The number of the kind, 1 to 8.
    pub fn number(self) -> u32
        ensures { result ≡ object_number self }
    {
        match self {
            ObjectKind::Action => 1,
            ObjectKind::Task => 2,
            ObjectKind::Group => 3,
            ObjectKind::Queue => 4,
            ObjectKind::Mutex => 5,
            ObjectKind::Sem => 6,
            ObjectKind::Rwl => 7,
            ObjectKind::Shmem => 8,
        }
    }
}

/// How a handle is made of a generation and a slot.
#[derive(Clone, Copy, Debug, Drop, PartialEq, Eq)]
pub enum Layout {
    /// `generation * 2^32 + slot`, whatever the kind: an action and a task may have the same number.
    One,
    /// `generation * 2^32 + kind * 2^24 + slot`: a handle names its kind.
    Two,
}

/// A pool's handle as callers see it in layout two: with the number of the kind in its bits 24 to 31.
///
/// The slot in the handle's low 32 bits is below 2^24.
pub fn outer(kind: ObjectKind, handle: u64) -> u64
    requires slot { handle % 2 ^ 32 < 2 ^ 24 }
    ensures value { result ≡ outer kind handle }
    ensures back { inner kind result ≡ Some handle }
{
    handle + u64::from(kind.number()) * (1 << 24)
}

/// A handle of layout two as the pool of this kind has it.
///
/// # Errors
///
/// - `None`: the handle names another kind, or none.
pub fn inner(kind: ObjectKind, handle: u64) -> Option<u64>
    ensures { result ≡ inner kind handle }
{
    if handle >> 24 & 255 == u64::from(kind.number()) {
        Some(handle - u64::from(kind.number()) * (1 << 24))
    } else {
        None
    }
}
