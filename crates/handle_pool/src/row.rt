//! One block of memory with a row of items from its start on.
ghost use Rattle.std.specs.Prelude.{◌≡◌, ℕ, ◌+◌, ◌<◌, List, [], ◌∷◌, ◌++◌, length, IfOk, IsTrue, Some, slice_get};
ghost use Rattle.std.specs.Mem.{type_size};
ghost use prog.Memory.{capped};
ghost use Rattle.std.specs.Borrow.{sem};
ghost use Rattle.handle_pool.specs.RowOwns.{row_owns, row_lent, FitsBlock};

use std::alloc::{AllocError, Allocator, Global};
use std::marker::{Model, Send, Sync};
use std::mem::{align_of, size_of};
use std::slice;

/// A block for `room` items, of which the first are written.
pub(crate) struct Row<X> {
    at: *mut X,
    ghost items: { List X },
    ghost room: { ℕ },
}

impl<X> Model for Row<X> {
    ghost also_owns = { λ r. row_owns X.row r.at r.room r.items };

    ghost also_shares = { λ r _ κ. row_lent X.row r.at r.room r.items κ };
}

unsafe impl<X: Send> Send for Row<X> {}

unsafe impl<X: Sync> Sync for Row<X> {}

// How many bytes an item takes. More than a word can say counts as the most that it can.
fn item_size<X>() -> usize
    ensures { result ≡ capped (type_size X.row) }
{
    size_of::<X>()
}

/// Whether so many items fit into one block.
pub(crate) fn fits<X>(room: usize) -> bool
    requires { 0 < room }
    ensures { IsTrue result → FitsBlock X.row room }
{
    item_size::<X>() <= 0x7fff_ffff_ffff_ffff / room
}

impl<X> Row<X> {
    ghost use Rattle.handle_pool.specs.RowLends.{lends_item, lends_items};

    // A block for `room` items, none of them written. Refuses only when out of memory.
    pub(crate) fn allocate(alloc: &Global, room: usize) -> Result<Row<X>, AllocError>
        requires { FitsBlock X.row room × (0 < room) }
        ensures { IfOk result (λ r. (r.items ≡ []) × (r.room ≡ room)) }
    {
        match alloc.allocate(room * size_of::<X>(), align_of::<X>()) {
            Ok(block) => {
                let at = block as *mut X;
                Ok(Row { at })
            }
            Err(error) => Err(error),
        }
    }

    // Gives the block back. What its items own is forgotten.
    pub(crate) fn free(self, alloc: &Global, room: usize)
        requires { (room ≡ self.room) × (0 < room) }
    {
        let Row { at } = self;
        unsafe {
            alloc.deallocate(at as *mut u8, room * size_of::<X>(), align_of::<X>());
        }
    }

    // Writes one item more at the end.
    pub(crate) fn push(&mut self, place: usize, item: X)
        requires { (place ≡ length self.old.items) × (place < self.old.room) }
        ensures { (self.new.items ≡ self.old.items ++ item ∷ []) × (self.new.room ≡ self.old.room)
            × (self.new.at ≡ self.old.at) }
    {
        let at = self.at;
        unsafe { at.add(place).write(item) }
    }

    // The items.
    pub(crate) fn items(&self, count: usize) -> &[X]
        requires { count ≡ length self.now.items }
        ensures { result.now ≡ self.now.items }
    {
        let at = self.at;
        unsafe { slice::from_raw_parts(at, count) }
    }

    // An item, for writing.
    pub(crate) fn item_mut(&mut self, place: usize) -> &mut X
        requires { place < length self.old.items }
        ensures* writes_back { sem 𝓛 (lends_item X.row self.entry place result) }
        ensures item { slice_get self.old.items place ≡ Some result.now }
    {
        let at = self.at;
        unsafe { &mut *at.add(place) }
    }

    // The items, for writing.
    pub(crate) fn items_mut(&mut self, count: usize) -> &mut [X]
        requires { count ≡ length self.old.items }
        ensures* writes_back { sem 𝓛 (lends_items X.row self.entry result) }
        ensures items { result.now ≡ self.old.items }
    {
        let at = self.at;
        unsafe { slice::from_raw_parts_mut(at, count) }
    }
}
