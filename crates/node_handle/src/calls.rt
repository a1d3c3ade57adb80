//! What is done by a handle.

ghost use Rattle.std.specs.Prelude.{◌≡◌, ◌≤◌, Some, None};
ghost use Rattle.std.specs.Bool.{OnTrue, OnFalse};
ghost use Rattle.mtapi_values.specs.declared.handles.Layout.TheVariants.{Two};
ghost use Rattle.node_handle.specs.declared.held.Held.{Held};
ghost use Rattle.node_handle.specs.Handles.{IsNewNode, IsLive, IsLiveNode, HandleCalled, NodeCalled};

use crate::counted::CountedNode;
use crate::handle::NodeHandle;
use crate::held::Held;
use mtapi_values::NodeAttr;
use node_core::{Op, Reply};
use std::alloc::Global;

/// Makes a node. False where memory was short, and the handle is as it was.
pub fn create(
    node: &mut NodeHandle,
    alloc: Global,
    attr: NodeAttr,
    callers: u32,
    keeps: bool,
) -> bool
    requires some_caller { 1 ≤ callers }
    requires few_callers { callers ≤ 9 }
    ensures made { OnTrue result (IsNewNode node.new (record { node = record { layout = Two; settings = attr; callers = callers }; keeps = keeps })) }
    ensures short { OnFalse result (node.new ≡ node.old) }
{
    match CountedNode::new(alloc, attr, callers, keeps) {
        Ok(made) => match Box::new(alloc, Held::Node(made)) {
            Ok(boxed) => {
                *node = NodeHandle::of(boxed);
                true
            }
            Err(_) => false,
        },
        Err(_) => false,
    }
}

// One call of what is held, which is a node.
fn call_held(held: &mut Held, who: u32, op: Op) -> Reply
    requires { IsLiveNode held.old }
    ensures live { IsLiveNode held.new }
    ensures called { NodeCalled held.old who op result held.new }
{
    match held {
        Held::Node(node) => node.call(who, op),
        Held::Text(_) => unreachable!(),
    }
}

/// One call of the node by a seat.
pub fn call(node: &mut NodeHandle, alloc: Global, who: u32, op: Op) -> Reply
    requires live { IsLive node.old }
    ensures live { IsLive node.new }
    ensures called { HandleCalled node.old who op result node.new }
{
    let mut boxed = node.take(alloc);
    let reply = call_held(&mut *boxed, who, op);
    *node = NodeHandle::of(boxed);
    reply
}

/// Gives up what the handle holds, and its memory back.
pub fn discard(node: &mut NodeHandle, alloc: Global)
    requires { (n : Held) × (node.old.held ≡ Some n) }
    ensures { node.new.held ≡ None }
{
    drop(node.take(alloc));
}
