//! Semaphores.

ghost use Rattle.mtapi_machine.specs.declared.ops.Op.TheVariants as op;
ghost use Rattle.node_handle.specs.Handles.{IsLive};
ghost use Rattle.mtapi_c.specs.Answers.{GivesStatus, GivesHandle};

use crate::asking::{ask, ask_handle};
use mtapi_values::SemHandle;
use node_core::Op;
use node_handle::NodeHandle;
use std::alloc::Global;

/// Makes a semaphore that may be held `limit` times.
#[unsafe(no_mangle)]
pub extern "C" fn mtapi_c_sem_create(
    alloc: Global,
    node: &mut NodeHandle,
    who: u32,
    id: u32,
    limit: u32,
    sem: &mut u64,
) -> u32
    requires live { IsLive node.old }
    ensures live { IsLive node.new }
    ensures called { GivesHandle node.old who (op.SemCreate id limit) result sem.new node.new }
{
    ask_handle(alloc, node, who, Op::SemCreate { id, limit }, sem)
}

/// Asks for the semaphore of this id.
#[unsafe(no_mangle)]
pub extern "C" fn mtapi_c_sem_get(
    alloc: Global,
    node: &mut NodeHandle,
    who: u32,
    id: u32,
    sem: &mut u64,
) -> u32
    requires live { IsLive node.old }
    ensures live { IsLive node.new }
    ensures called { GivesHandle node.old who (op.SemGet id) result sem.new node.new }
{
    ask_handle(alloc, node, who, Op::SemGet { id }, sem)
}

/// Gives a semaphore up that nobody holds.
#[unsafe(no_mangle)]
pub extern "C" fn mtapi_c_sem_delete(
    alloc: Global,
    node: &mut NodeHandle,
    who: u32,
    sem: u64,
) -> u32
    requires live { IsLive node.old }
    ensures live { IsLive node.new }
    ensures called { GivesStatus node.old who (op.SemDelete (record { 0 = sem })) result node.new }
{
    ask(
        alloc,
        node,
        who,
        Op::SemDelete {
            sem: SemHandle(sem),
        },
    )
}

/// Holds a semaphore once more.
#[unsafe(no_mangle)]
pub extern "C" fn mtapi_c_sem_look(
    alloc: Global,
    node: &mut NodeHandle,
    who: u32,
    sem: u64,
    last: bool,
) -> u32
    requires live { IsLive node.old }
    ensures live { IsLive node.new }
    ensures called { GivesStatus node.old who (op.SemLook (record { 0 = sem }) last) result node.new }
{
    ask(
        alloc,
        node,
        who,
        Op::SemLook {
            sem: SemHandle(sem),
            last,
        },
    )
}

/// Holds a semaphore once less.
#[unsafe(no_mangle)]
pub extern "C" fn mtapi_c_sem_unlock(
    alloc: Global,
    node: &mut NodeHandle,
    who: u32,
    sem: u64,
) -> u32
    requires live { IsLive node.old }
    ensures live { IsLive node.new }
    ensures called { GivesStatus node.old who (op.SemUnlock (record { 0 = sem })) result node.new }
{
    ask(
        alloc,
        node,
        who,
        Op::SemUnlock {
            sem: SemHandle(sem),
        },
    )
}
