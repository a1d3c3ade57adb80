//! Reader-writer locks.

ghost use Rattle.mtapi_machine.specs.declared.ops.Op.TheVariants as op;
ghost use Rattle.node_handle.specs.Handles.{IsLive};
ghost use Rattle.mtapi_c.specs.Answers.{GivesStatus, GivesHandle};

use crate::asking::{ask, ask_handle};
use mtapi_values::RwlHandle;
use node_core::Op;
use node_handle::NodeHandle;
use std::alloc::Global;

/// Makes a reader-writer lock for at most `limit` readers.
#[unsafe(no_mangle)]
pub extern "C" fn mtapi_c_rwl_create(
    alloc: Global,
    node: &mut NodeHandle,
    who: u32,
    id: u32,
    limit: u32,
    rwl: &mut u64,
) -> u32
    requires live { IsLive node.old }
    ensures live { IsLive node.new }
    ensures called { GivesHandle node.old who (op.RwlCreate id limit) result rwl.new node.new }
{
    ask_handle(alloc, node, who, Op::RwlCreate { id, limit }, rwl)
}

/// Asks for the reader-writer lock of this id.
#[unsafe(no_mangle)]
pub extern "C" fn mtapi_c_rwl_get(
    alloc: Global,
    node: &mut NodeHandle,
    who: u32,
    id: u32,
    rwl: &mut u64,
) -> u32
    requires live { IsLive node.old }
    ensures live { IsLive node.new }
    ensures called { GivesHandle node.old who (op.RwlGet id) result rwl.new node.new }
{
    ask_handle(alloc, node, who, Op::RwlGet { id }, rwl)
}

/// Gives a reader-writer lock up that nobody holds.
#[unsafe(no_mangle)]
pub extern "C" fn mtapi_c_rwl_delete(
    alloc: Global,
    node: &mut NodeHandle,
    who: u32,
    rwl: u64,
) -> u32
    requires live { IsLive node.old }
    ensures live { IsLive node.new }
    ensures called { GivesStatus node.old who (op.RwlDelete (record { 0 = rwl })) result node.new }
{
    ask(
        alloc,
        node,
        who,
        Op::RwlDelete {
            rwl: RwlHandle(rwl),
        },
    )
}

/// Holds a reader-writer lock in this mode.
#[unsafe(no_mangle)]
pub extern "C" fn mtapi_c_rwl_look(
    alloc: Global,
    node: &mut NodeHandle,
    who: u32,
    rwl: u64,
    writer: bool,
    last: bool,
) -> u32
    requires live { IsLive node.old }
    ensures live { IsLive node.new }
    ensures called { GivesStatus node.old who (op.RwlLook (record { 0 = rwl }) writer last) result node.new }
{
    ask(
        alloc,
        node,
        who,
        Op::RwlLook {
            rwl: RwlHandle(rwl),
            writer,
            last,
        },
    )
}

/// Gives back what it holds in this mode.
#[unsafe(no_mangle)]
pub extern "C" fn mtapi_c_rwl_unlock(
    alloc: Global,
    node: &mut NodeHandle,
    who: u32,
    rwl: u64,
    writer: bool,
) -> u32
    requires live { IsLive node.old }
    ensures live { IsLive node.new }
    ensures called { GivesStatus node.old who (op.RwlUnlock (record { 0 = rwl }) writer) result node.new }
{
    ask(
        alloc,
        node,
        who,
        Op::RwlUnlock {
            rwl: RwlHandle(rwl),
            writer,
        },
    )
}
