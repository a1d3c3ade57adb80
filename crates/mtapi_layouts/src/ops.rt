//! Ops turned inwards and replies turned outwards.

ghost use Rattle.std.specs.Prelude.{◌≡◌};
ghost use Rattle.mtapi_layouts.specs.Inward.{inward, HasKindRoom};
ghost use Rattle.mtapi_layouts.specs.Ops.{answered_kind, outer_of, outer_task, outer_action, outward, IsSmall};

use mtapi_machine::{Op, Reply};
use mtapi_renaming::Rename;
use mtapi_values::{ActionHandle, ObjectKind, TaskHandle};

// A caller's handle as the pool of this kind has it: 0, which names nothing, where it names another kind.
fn inward(kind: ObjectKind, handle: u64) -> u64
    ensures { result ≡ inward kind handle }
{
    mtapi_values::inner(kind, handle).unwrap_or(0)
}

/// The handles that the pools have for those of callers.
pub struct Inwards;

impl Rename for Inwards {
    ghost renaming = { λ p. inward };

    /// A caller's handle as the pool of this kind has it: 0, which names nothing, where it names another kind.
    fn other(&self, kind: ObjectKind, handle: u64) -> u64 {
        inward(kind, handle)
    }
}

/// The kind of the object whose handle the op answers, and None where it answers none.
pub fn answered_kind(op: &Op) -> Option<ObjectKind>
    ensures { result ≡ answered_kind op.now }
{
    match op {
        Op::ActionCreate { .. } => Some(ObjectKind::Action),
        Op::TaskStart { .. } | Op::TaskEnqueue { .. } => Some(ObjectKind::Task),
        Op::GroupCreate => Some(ObjectKind::Group),
        Op::QueueCreate { .. } | Op::QueueGet { .. } => Some(ObjectKind::Queue),
        Op::MutexCreate { .. } | Op::MutexGet { .. } => Some(ObjectKind::Mutex),
        Op::SemCreate { .. } | Op::SemGet { .. } => Some(ObjectKind::Sem),
        Op::RwlCreate { .. } | Op::RwlGet { .. } => Some(ObjectKind::Rwl),
        Op::ShmemCreate { .. } | Op::ShmemGet { .. } => Some(ObjectKind::Shmem),
        _ => None,
    }
}

// A pool's handle of an object of this kind, as callers see it. No pool has a slot as large as those that stay.
fn outer_of(kind: Option<ObjectKind>, handle: u64) -> u64
    ensures { HasKindRoom handle → result ≡ outer_of kind handle }
{
    match kind {
        Some(kind) if handle % (1 << 32) < 1 << 24 => mtapi_values::outer(kind, handle),
        _ => handle,
    }
}

fn outer_task(task: TaskHandle) -> TaskHandle
    ensures { HasKindRoom task.0 → result ≡ outer_task task }
{
    TaskHandle(outer_of(Some(ObjectKind::Task), task.0))
}

fn outer_action(action: ActionHandle) -> ActionHandle
    ensures { HasKindRoom action.0 → result ≡ outer_action action }
{
    ActionHandle(outer_of(Some(ObjectKind::Action), action.0))
}

/// Turns each handle of a reply as callers see it, where it stands, to an op that answers a handle of this kind. The slots in the
/// handles are below 2^24, as those of every pool are.
pub fn turn_outward(kind: Option<ObjectKind>, reply: &mut Reply)
    ensures { IsSmall reply.old → reply.new ≡ outward kind reply.old }
{
    match reply {
        Reply::Handle(handle) => *handle = outer_of(kind, *handle),
        Reply::Given(task, _) => *task = outer_task(*task),
        Reply::Picked { task, action, .. } => {
            *task = outer_task(*task);
            *action = outer_action(*action);
        }
        _ => {}
    }
}
