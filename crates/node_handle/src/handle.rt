//! The handle by which C holds a node.

ghost use Rattle.std.specs.Prelude.{Option};
ghost use Rattle.node_handle.specs.declared.held.Held.{Held};
ghost use Rattle.node_handle.specs.Owning.{held_owns, held_coded};

use std::alloc::Global;
use std::marker::Model;

/// A node or a text on the heap, or none: for C a struct of one pointer, which it neither reads nor writes. One of zeros holds
/// none.
///
/// What is dropped with it is lost to the heap.
#[repr(C)]
#[derive(Drop)]
pub struct NodeHandle {
    pub(crate) at: *mut u8,
    pub(crate) alloc: Global,
    pub ghost held: { Option Held } by { held_coded },
}

impl Model for NodeHandle {
    ghost also_owns = { λ h. held_owns h.alloc h.at h.held };
}

// C may hand it to another thread, in an order that a lock makes.
unsafe impl Send for NodeHandle {}
