//! Mutexes.

ghost use Rattle.mtapi_machine.specs.declared.ops.Op.TheVariants as op;
ghost use Rattle.node_handle.specs.Handles.{IsLive};
ghost use Rattle.mtapi_c.specs.Answers.{GivesStatus, GivesHandle, GivesNumber};

use crate::asking::{ask, ask_handle, ask_number};
use mtapi_values::MutexHandle;
use node_core::Op;
use node_handle::NodeHandle;
use std::alloc::Global;

/// Makes a mutex.
#[unsafe(no_mangle)]
pub extern "C" fn mtapi_c_mutex_create(
    alloc: Global,
    node: &mut NodeHandle,
    who: u32,
    id: u32,
    recursive: bool,
    mutex: &mut u64,
) -> u32
    requires live { IsLive node.old }
    ensures live { IsLive node.new }
    ensures called { GivesHandle node.old who (op.MutexCreate id recursive) result mutex.new node.new }
{
    ask_handle(alloc, node, who, Op::MutexCreate { id, recursive }, mutex)
}

/// Asks for the mutex of this id.
#[unsafe(no_mangle)]
pub extern "C" fn mtapi_c_mutex_get(
    alloc: Global,
    node: &mut NodeHandle,
    who: u32,
    id: u32,
    mutex: &mut u64,
) -> u32
    requires live { IsLive node.old }
    ensures live { IsLive node.new }
    ensures called { GivesHandle node.old who (op.MutexGet id) result mutex.new node.new }
{
    ask_handle(alloc, node, who, Op::MutexGet { id }, mutex)
}

/// Gives a mutex up that nobody owns.
#[unsafe(no_mangle)]
pub extern "C" fn mtapi_c_mutex_delete(
    alloc: Global,
    node: &mut NodeHandle,
    who: u32,
    mutex: u64,
) -> u32
    requires live { IsLive node.old }
    ensures live { IsLive node.new }
    ensures called { GivesStatus node.old who (op.MutexDelete (record { 0 = mutex })) result node.new }
{
    ask(
        alloc,
        node,
        who,
        Op::MutexDelete {
            mutex: MutexHandle(mutex),
        },
    )
}

/// Locks a mutex: the key is the new depth.
#[unsafe(no_mangle)]
pub extern "C" fn mtapi_c_mutex_look(
    alloc: Global,
    node: &mut NodeHandle,
    who: u32,
    mutex: u64,
    last: bool,
    key: &mut i64,
) -> u32
    requires live { IsLive node.old }
    ensures live { IsLive node.new }
    ensures called { GivesNumber node.old who (op.MutexLook (record { 0 = mutex }) last) result key.new node.new }
{
    ask_number(
        alloc,
        node,
        who,
        Op::MutexLook {
            mutex: MutexHandle(mutex),
            last,
        },
        key,
    )
}

/// Takes one level of a lock back, by the last key.
#[unsafe(no_mangle)]
pub extern "C" fn mtapi_c_mutex_unlock(
    alloc: Global,
    node: &mut NodeHandle,
    who: u32,
    mutex: u64,
    key: u32,
) -> u32
    requires live { IsLive node.old }
    ensures live { IsLive node.new }
    ensures called { GivesStatus node.old who (op.MutexUnlock (record { 0 = mutex }) key) result node.new }
{
    ask(
        alloc,
        node,
        who,
        Op::MutexUnlock {
            mutex: MutexHandle(mutex),
            key,
        },
    )
}
