//! One segment.

ghost use Rattle.std.specs.Prelude.{◌≡◌, ◌≤◌, ◌<◌, length};
ghost use Rattle.std.specs.Result.{result_err};
ghost use Rattle.mtapi_values.specs.Conditions.{first};
ghost use Rattle.mtapi_values.specs.Seats.{any_mark};
ghost use Rattle.mtapi_objects.specs.Segments.{new_segment, attach_refusals, detach_refusals, cell_refusals, cell_of, with_cell};
ghost use Rattle.mrapi_shmem.specs.Calls.{read_answer, after_attach, after_detach, after_write};

use crate::room::Room;
use keyed_pool::HasId;
use mtapi_values::MrapiStatus;
use mtapi_values::seats::{self, SEATS};
use std::marker::Model;

/// One segment: its cells, and the seats that are attached.
#[derive(Drop)]
pub(crate) struct SegmentState {
    id: u32,
    room: Room,
    attached: [bool; SEATS],
}

impl Model for SegmentState {
    ghost use Rattle.mtapi_objects.specs.Segments.{Segment};

    ghost Value = { Segment };

    ghost view = { λ s. record {
      id = s.id;
      cells = s.room;
      attached = s.attached;
    } };
}

impl HasId for SegmentState {
    ghost id_of = { λ s. s.id };

    fn id(&self) -> u64 {
        u64::from(self.id)
    }
}

impl SegmentState {
    /// A segment in this memory, whose cells are all 0.
    pub(crate) fn new(id: u32, cells: u32, room: Room) -> SegmentState
        requires { cells ≤ 4096 }
        ensures { result ≡ new_segment id cells }
    {
        SegmentState {
            id,
            room: room.zeroed(cells),
            attached: [false; SEATS],
        }
    }

    /// How many cells it has.
    pub(crate) fn cell_count(&self) -> usize
        ensures { result ≡ length self.now.cells }
    {
        self.room.len()
    }

    /// Whether some seat is attached.
    pub(crate) fn is_attached(&self) -> bool
        ensures { result ≡ any_mark self.now.attached }
    {
        seats::is_any(&self.attached)
    }

    pub(crate) fn attach(&mut self, who: u32) -> Result<(), MrapiStatus>
        requires { who < 25 }
        ensures reply { result_err result ≡ first (attach_refusals who self.old) }
        ensures new { self.new ≡ after_attach who self.old }
    {
        if self.attached[who as usize] {
            return Err(MrapiStatus::ErrShmAttached);
        }
        self.attached[who as usize] = true;
        Ok(())
    }

    pub(crate) fn detach(&mut self, who: u32) -> Result<(), MrapiStatus>
        requires { who < 25 }
        ensures reply { result_err result ≡ first (detach_refusals who self.old) }
        ensures new { self.new ≡ after_detach who self.old }
    {
        if !self.attached[who as usize] {
            return Err(MrapiStatus::ErrShmNotattached);
        }
        self.attached[who as usize] = false;
        Ok(())
    }

    // Whether the seat may read and write the cell.
    fn check(&self, who: u32, cell: u32) -> Result<(), MrapiStatus>
        requires { who < 25 }
        ensures { result_err result ≡ first (cell_refusals who cell self.now) }
    {
        if !self.attached[who as usize] {
            return Err(MrapiStatus::ErrShmNotattached);
        }
        if cell as usize >= self.room.len() {
            return Err(MrapiStatus::ErrParameter);
        }
        Ok(())
    }

    pub(crate) fn read(&self, who: u32, cell: u32) -> Result<i64, MrapiStatus>
        requires { who < 25 }
        ensures { result ≡ read_answer (first (cell_refusals who cell self.now)) (cell_of cell self.now) }
    {
        self.check(who, cell)?;
        Ok(self.room.get(cell as usize))
    }

    pub(crate) fn write(&mut self, who: u32, cell: u32, value: i64) -> Result<(), MrapiStatus>
        requires { who < 25 }
        ensures reply { result_err result ≡ first (cell_refusals who cell self.old) }
        ensures new { self.new ≡ after_write who cell value self.old }
    {
        self.check(who, cell)?;
        self.room.set(cell as usize, value);
        Ok(())
    }

    /// The number in a cell, whoever asks: 0 past the last one.
    pub(crate) fn number(&self, cell: u64) -> i64
        ensures { result ≡ cell_of cell self.now }
    {
        let place = cell as usize;
        if place < self.room.len() {
            self.room.get(place)
        } else {
            0
        }
    }

    /// Puts a number into a cell, whoever asks. Changes nothing past the last one.
    pub(crate) fn set_number(&mut self, cell: u64, value: i64)
        ensures { self.new ≡ with_cell cell value self.old }
    {
        let place = cell as usize;
        if place < self.room.len() {
            self.room.set(place, value);
        }
    }

    /// The segment's memory.
    pub(crate) fn into_room(self) -> Room {
        self.room
    }
}
