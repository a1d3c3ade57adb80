//! What a handle holds into handles, and back.

ghost use Rattle.std.specs.Prelude.{◌≡◌, Some, None};
ghost use Rattle.node_handle.specs.declared.held.Held.{Held};

use crate::handle::NodeHandle;
use crate::held::Held;
use crate::parts::Parts;
use std::alloc::Global;
use std::mem;
use std::ptr::null_mut;

impl NodeHandle {
    // A handle that holds none.
    pub(crate) fn none(alloc: Global) -> NodeHandle
        ensures { result.held ≡ None }
    {
        NodeHandle {
            at: null_mut(),
            alloc,
        }
    }

    fn of_parts(parts: Parts<Held, Global>) -> NodeHandle
        ensures { result.held ≡ Some parts.value }
    {
        let Parts { ptr, alloc } = parts;
        NodeHandle {
            at: ptr as *mut u8,
            alloc,
        }
    }

    fn into_parts(self) -> Parts<Held, Global>
        requires { (n : Held) × (self.held ≡ Some n) }
        ensures { self.held ≡ Some result.value }
    {
        let NodeHandle { at, alloc } = self;
        Parts {
            ptr: at as *mut Held,
            alloc,
        }
    }

    // A handle that holds this.
    pub(crate) fn of(held: Box<Held, Global>) -> NodeHandle
        ensures { result.held ≡ Some held.value }
    {
        NodeHandle::of_parts(Parts::of(held))
    }

    // What this handle holds.
    pub(crate) fn into_box(self) -> Box<Held, Global>
        requires { (n : Held) × (self.held ≡ Some n) }
        ensures { self.held ≡ Some result.value }
    {
        self.into_parts().into_box()
    }

    // What this handle held, which holds none from then on.
    pub(crate) fn take(&mut self, alloc: Global) -> Box<Held, Global>
        requires { (n : Held) × (self.old.held ≡ Some n) }
        ensures taken { self.old.held ≡ Some result.value }
        ensures empty { self.new.held ≡ None }
    {
        mem::replace(self, NodeHandle::none(alloc)).into_box()
    }
}
