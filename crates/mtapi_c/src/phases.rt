//! The phases of a node.

ghost use Rattle.mtapi_machine.specs.declared.ops.Op.TheVariants as op;
ghost use Rattle.node_handle.specs.Handles.{IsLive};
ghost use Rattle.mtapi_c.specs.Answers.{GivesStatus};

use crate::asking::ask;
use node_core::Op;
use node_handle::NodeHandle;
use std::alloc::Global;

/// Opens the node. Main calls.
#[unsafe(no_mangle)]
pub extern "C" fn mtapi_c_initialize(alloc: Global, node: &mut NodeHandle, who: u32) -> u32
    requires live { IsLive node.old }
    ensures live { IsLive node.new }
    ensures called { GivesStatus node.old who op.Initialize result node.new }
{
    ask(alloc, node, who, Op::Initialize)
}

/// Main lets the further callers enter.
#[unsafe(no_mangle)]
pub extern "C" fn mtapi_c_release(alloc: Global, node: &mut NodeHandle, who: u32) -> u32
    requires live { IsLive node.old }
    ensures live { IsLive node.new }
    ensures called { GivesStatus node.old who op.Release result node.new }
{
    ask(alloc, node, who, Op::Release)
}

/// A further caller enters: pending before main has released it.
#[unsafe(no_mangle)]
pub extern "C" fn mtapi_c_enter(alloc: Global, node: &mut NodeHandle, who: u32) -> u32
    requires live { IsLive node.old }
    ensures live { IsLive node.new }
    ensures called { GivesStatus node.old who op.Enter result node.new }
{
    ask(alloc, node, who, Op::Enter)
}

/// The node takes no new objects any more. Main calls.
#[unsafe(no_mangle)]
pub extern "C" fn mtapi_c_close(alloc: Global, node: &mut NodeHandle, who: u32) -> u32
    requires live { IsLive node.old }
    ensures live { IsLive node.new }
    ensures called { GivesStatus node.old who op.Close result node.new }
{
    ask(alloc, node, who, Op::Close)
}

/// The end of the node, once every worker has stopped. Main calls.
#[unsafe(no_mangle)]
pub extern "C" fn mtapi_c_final(alloc: Global, node: &mut NodeHandle, who: u32) -> u32
    requires live { IsLive node.old }
    ensures live { IsLive node.new }
    ensures called { GivesStatus node.old who op.Final result node.new }
{
    ask(alloc, node, who, Op::Final)
}
