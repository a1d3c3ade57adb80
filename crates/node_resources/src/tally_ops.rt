//! What the node does with a mutex and a segment for a tally.

ghost use Rattle.std.specs.Prelude.{◌≡◌, ◌<◌, true, false, Some, None, pos, is_some, nat_lt, length, IfSome, IsNone, [], ◌∷◌};
ghost use Rattle.handle_pool.specs.Slots.{slot_value, changed};
ghost use Rattle.handle_pool.specs.Walks.{NoneLive, HasLive, OneEach};
ghost use Rattle.handle_pool.specs.Issued.{live_object};
ghost use Rattle.mtapi_objects.specs.Mutexes.{Mutex, locked_by, unlocked};
ghost use Rattle.mtapi_objects.specs.Segments.{Segment, cell_of, with_attached, with_cell};
ghost use Rattle.mrapi_mutex.specs.Calls.{after_unlock};
ghost use Rattle.mrapi_shmem.specs.Calls.{after_detach};
ghost use Rattle.mtapi_machine.specs.State.{State};
ghost use Rattle.mtapi_machine.specs.Moves.{Mutexes, Segments, alters, after_moves};
ghost use Rattle.node_resources.specs.Holds.{ResourcesStand};
ghost use Rattle.node_resources.specs.Tallies.{Locks};

use crate::Resources;
use mtapi_values::{MutexHandle, ShmemHandle};

/// What a tally is told that wants its mutex and its segment.
#[derive(Clone, Copy, Drop)]
pub enum TallyLock {
    /// Its worker owns the mutex now, and is attached to the segment.
    Both(MutexHandle, ShmemHandle),
    /// A seat owns the mutex, so nothing changed.
    Owned,
    /// No live mutex or no live segment has the id, or the segment doesn't have the cell.
    Absent,
}

impl Resources {
    /// Gives a tally on the worker `who`, below 25, the mutex and the segment of these ids; the segment has to have the cell.
    pub fn tally_lock(&mut self, who: u32, mutex_id: u64, segment_id: u64, cell: u64) -> TallyLock
        requires seat { who < 25 }
        ensures { (s : State) → ResourcesStand s self.old → Locks s who mutex_id segment_id cell result self.new }
    {
        let Some(mutex) = self.tally_mutex(who, mutex_id) else {
            return TallyLock::Absent;
        };
        let Some(segment) = self.tally_segment(who, segment_id) else {
            return TallyLock::Absent;
        };
        if !self.has_cell(segment, cell) {
            return TallyLock::Absent;
        }
        if self.is_owned(mutex) {
            return TallyLock::Owned;
        }
        self.take(who, mutex, segment);
        TallyLock::Both(mutex, segment)
    }

    // The live mutex of an id. Where a tally on the seat found it last, no place is walked.
    fn tally_mutex(&mut self, who: u32, id: u64) -> Option<MutexHandle>
        requires seat { who < 25 }
        ensures same { self.new ≡ self.old }
        ensures found { IfSome result (λ m. HasLive self.old.mutexes m.0 (λ x. x.id ≡ id)) }
        ensures absent { IsNone result → NoneLive (slot_value self.old.mutexes) (λ x. x.id ≡ id) }
        ensures only { OneEach (λ x. x.id) self.old.mutexes }
    {
        let mutex = self
            .mutexes
            .find_again(self.tally_mutexes[who as usize], id);
        self.tally_mutexes[who as usize] = mutex;
        mutex
    }

    // The same of a segment.
    fn tally_segment(&mut self, who: u32, id: u64) -> Option<ShmemHandle>
        requires seat { who < 25 }
        ensures same { self.new ≡ self.old }
        ensures found { IfSome result (λ s. HasLive self.old.segments s.0 (λ y. y.id ≡ id)) }
        ensures absent { IsNone result → NoneLive (slot_value self.old.segments) (λ y. y.id ≡ id) }
        ensures only { OneEach (λ y. y.id) self.old.segments }
    {
        let segment = self
            .segments
            .find_again(self.tally_segments[who as usize], id);
        self.tally_segments[who as usize] = segment;
        segment
    }

    // Whether a live segment has the cell.
    fn has_cell(&self, segment: ShmemHandle, cell: u64) -> bool
        ensures { (y : Segment) → slot_value self.now.segments segment.0 ≡ Some y
            → nat_lt cell (length y.cells) ≡ result }
    {
        self.segments.cell_count(segment).unwrap_or(0) as u64 > cell
    }

    // Whether a seat owns a live mutex.
    fn is_owned(&self, mutex: MutexHandle) -> bool
        ensures { (x : Mutex) → slot_value self.now.mutexes mutex.0 ≡ Some x → is_some x.owner ≡ result }
    {
        self.mutexes.is_owned(mutex).unwrap_or(false)
    }

    // Has a seat own a free mutex and attaches it to a segment.
    fn take(&mut self, who: u32, mutex: MutexHandle, segment: ShmemHandle)
        requires seat { who < 25 }
        requires free { (x : Mutex) → slot_value self.old.mutexes mutex.0 ≡ Some x → is_some x.owner ≡ false }
        ensures { self.new ≡ record self.old { mutexes = changed self.old.mutexes mutex.0 (locked_by who); segments = changed self.old.segments segment.0 (with_attached who true) } }
    {
        let _ = self.mutexes.look(mutex, who);
        let _ = self.segments.attach(segment, who);
    }

    /// The number in a cell of a tally's segment; 0 where the segment isn't live.
    pub fn tally_read(&self, segment: ShmemHandle, cell: u64) -> i64
        ensures live { (y : Segment) → slot_value self.now.segments segment.0 ≡ Some y → result ≡ cell_of cell y }
        ensures gone { slot_value self.now.segments segment.0 ≡ None → result ≡ pos 0 }
        ensures reads { (s : State) (y : Segment) → ResourcesStand s self.now → live_object s.segments segment.0 ≡ Some y
            → result ≡ cell_of cell y }
    {
        self.segments.number(segment, cell).unwrap_or(0)
    }

    /// Puts a number into a cell of a tally's segment.
    pub fn tally_write(&mut self, segment: ShmemHandle, cell: u64, value: i64)
        ensures { (s : State) → ResourcesStand s self.old
            → ResourcesStand (after_moves (alters Segments segment.0 (with_cell cell value) ∷ []) s) self.new }
    {
        self.segments.set_number(segment, cell, value);
    }

    /// Takes the mutex and the segment of a tally back from the worker `who`, below 25, which owns the mutex once. What the worker
    /// doesn't have stays as it was.
    pub fn tally_end(&mut self, who: u32, mutex: MutexHandle, segment: ShmemHandle)
        requires seat { who < 25 }
        ensures new { self.new ≡ record self.old { mutexes = changed self.old.mutexes mutex.0 (after_unlock who 1); segments = changed self.old.segments segment.0 (after_detach who) } }
        ensures ends { (s : State) (x : Mutex) → ResourcesStand s self.old → live_object s.mutexes mutex.0 ≡ Some x
            → x.owner ≡ Some who → x.depth ≡ 1
            → ResourcesStand (after_moves (alters Segments segment.0 (with_attached who false) ∷ alters Mutexes mutex.0 unlocked ∷ []) s) self.new }
    {
        let _ = self.segments.detach(segment, who);
        let _ = self.mutexes.unlock(mutex, who, 1);
    }
}
