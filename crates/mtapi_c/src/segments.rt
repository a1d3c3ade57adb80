//! Shared segments.

ghost use Rattle.mtapi_machine.specs.declared.ops.Op.TheVariants as op;
ghost use Rattle.node_handle.specs.Handles.{IsLive};
ghost use Rattle.mtapi_c.specs.Answers.{GivesStatus, GivesHandle, GivesNumber};

use crate::asking::{ask, ask_handle, ask_number};
use mtapi_values::ShmemHandle;
use node_core::Op;
use node_handle::NodeHandle;
use std::alloc::Global;

/// Makes a segment of so many cells, each 0.
#[unsafe(no_mangle)]
pub extern "C" fn mtapi_c_shmem_create(
    alloc: Global,
    node: &mut NodeHandle,
    who: u32,
    id: u32,
    cells: u32,
    shmem: &mut u64,
) -> u32
    requires live { IsLive node.old }
    ensures live { IsLive node.new }
    ensures called { GivesHandle node.old who (op.ShmemCreate id cells) result shmem.new node.new }
{
    ask_handle(alloc, node, who, Op::ShmemCreate { id, cells }, shmem)
}

/// Asks for the segment of this id.
#[unsafe(no_mangle)]
pub extern "C" fn mtapi_c_shmem_get(
    alloc: Global,
    node: &mut NodeHandle,
    who: u32,
    id: u32,
    shmem: &mut u64,
) -> u32
    requires live { IsLive node.old }
    ensures live { IsLive node.new }
    ensures called { GivesHandle node.old who (op.ShmemGet id) result shmem.new node.new }
{
    ask_handle(alloc, node, who, Op::ShmemGet { id }, shmem)
}

/// Gives a segment up to which nobody is attached.
#[unsafe(no_mangle)]
pub extern "C" fn mtapi_c_shmem_delete(
    alloc: Global,
    node: &mut NodeHandle,
    who: u32,
    shmem: u64,
) -> u32
    requires live { IsLive node.old }
    ensures live { IsLive node.new }
    ensures called { GivesStatus node.old who (op.ShmemDelete (record { 0 = shmem })) result node.new }
{
    ask(
        alloc,
        node,
        who,
        Op::ShmemDelete {
            shmem: ShmemHandle(shmem),
        },
    )
}

/// Attaches this seat to a segment.
#[unsafe(no_mangle)]
pub extern "C" fn mtapi_c_shmem_attach(
    alloc: Global,
    node: &mut NodeHandle,
    who: u32,
    shmem: u64,
) -> u32
    requires live { IsLive node.old }
    ensures live { IsLive node.new }
    ensures called { GivesStatus node.old who (op.ShmemAttach (record { 0 = shmem })) result node.new }
{
    ask(
        alloc,
        node,
        who,
        Op::ShmemAttach {
            shmem: ShmemHandle(shmem),
        },
    )
}

/// Detaches this seat from a segment.
#[unsafe(no_mangle)]
pub extern "C" fn mtapi_c_shmem_detach(
    alloc: Global,
    node: &mut NodeHandle,
    who: u32,
    shmem: u64,
) -> u32
    requires live { IsLive node.old }
    ensures live { IsLive node.new }
    ensures called { GivesStatus node.old who (op.ShmemDetach (record { 0 = shmem })) result node.new }
{
    ask(
        alloc,
        node,
        who,
        Op::ShmemDetach {
            shmem: ShmemHandle(shmem),
        },
    )
}

/// Reads a cell.
#[unsafe(no_mangle)]
pub extern "C" fn mtapi_c_shmem_read(
    alloc: Global,
    node: &mut NodeHandle,
    who: u32,
    shmem: u64,
    cell: u32,
    number: &mut i64,
) -> u32
    requires live { IsLive node.old }
    ensures live { IsLive node.new }
    ensures called { GivesNumber node.old who (op.ShmemRead (record { 0 = shmem }) cell) result number.new node.new }
{
    ask_number(
        alloc,
        node,
        who,
        Op::ShmemRead {
            shmem: ShmemHandle(shmem),
            cell,
        },
        number,
    )
}

/// Writes a cell.
#[unsafe(no_mangle)]
pub extern "C" fn mtapi_c_shmem_write(
    alloc: Global,
    node: &mut NodeHandle,
    who: u32,
    shmem: u64,
    cell: u32,
    number: i64,
) -> u32
    requires live { IsLive node.old }
    ensures live { IsLive node.new }
    ensures called { GivesStatus node.old who (op.ShmemWrite (record { 0 = shmem }) cell number) result node.new }
{
    ask(
        alloc,
        node,
        who,
        Op::ShmemWrite {
            shmem: ShmemHandle(shmem),
            cell,
            value: number,
        },
    )
}
