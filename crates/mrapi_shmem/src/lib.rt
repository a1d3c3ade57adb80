//! Shared segments: cells of numbers that the seats read and write once they are attached.
//!
//! Each segment has an id that no other live segment has. The memory of all segments is taken at the start, and goes from one
//! segment to a later one, whose cells are all 0 again.
#![tactic(auto)]

mod room;
mod state;

ghost use Rattle.std.specs.Prelude.{◌≡◌, ◌⊎◌, ◌+◌, ◌≤◌, ◌<◌, None, Some, is_some, length, replicate, IfSome, IsNone, IfOk, IfErr, OnOk, OnErr};
ghost use Rattle.std.specs.Bool.{OnTrue};
ghost use Rattle.std.specs.Option.{option_map};
ghost use Rattle.std.specs.Result.{result_err};
ghost use Rattle.mtapi_values.specs.declared.statuses.MrapiStatus.TheVariants.{ErrShmIdInvalid, ErrShmExists};
ghost use Rattle.mtapi_values.specs.Conditions.{first};
ghost use Rattle.handle_pool.specs.Slots.{slot_value, free_slot, without, changed, Inserts, IsFull, live_count, retired_count, max_of};
ghost use Rattle.handle_pool.specs.Walks.{SomeLive, NoneLive, HasLive, OneEach};
ghost use Rattle.mtapi_objects.specs.Segments.{new_segment, shmem_create_refusals, shmem_delete_refusals, attach_refusals, detach_refusals, cell_refusals, cell_of, with_cell};
ghost use Rattle.mrapi_shmem.specs.Calls.{HasId, CreateRefused, refusal, read_at, after_attach, after_detach, after_write};

use keyed_pool::{HasId, KeyedPool};
use mtapi_values::{MrapiStatus, ShmemHandle};
use room::{MAX_CELLS, Room};
use state::SegmentState;
use std::alloc::{AllocError, Global};
use std::marker::Model;

/// Segments, each under a handle, and seen as the slots of their pool. Live ones have different ids.
#[derive(Drop)]
pub struct Segments {
    pool: KeyedPool<SegmentState>,
    // Memory for each segment that isn't live.
    spare: Vec<Room>,
}

impl Model for Segments {
    ghost use Rattle.std.specs.Prelude.{vec_len, vec_capacity};
    ghost use Rattle.handle_pool.specs.Slots.{Slots};
    ghost use Rattle.mtapi_objects.specs.Segments.{Segment};
    ghost use Rattle.mrapi_shmem.specs.Calls.{IsStore};

    ghost Value = { Slots Segment };

    ghost view = { λ s. s.pool };

    ghost invariant = { λ s. IsStore s.pool (vec_len s.spare) (vec_capacity s.spare) };
}

impl Segments {
    /// Room for `max` segments, 1 to 65,536, of 4,096 cells each, with all the memory that they will use. A slot retires after
    /// `generations`, at least 1.
    pub fn new(alloc: Global, max: u32, generations: u32) -> Result<Segments, AllocError>
        requires some { 1 ≤ max }
        requires few { max ≤ 65536 }
        requires once { 1 ≤ generations }
        ensures generations { IfOk result (λ p. p.generations ≡ generations) }
        ensures slots { IfOk result (λ p. p.slots ≡ replicate max (free_slot 1)) }
    {
        let mut spare = Vec::with_capacity(alloc, max as usize)?;
        for _place in 0..max {
            spare.push_reserved(Room::new(alloc)?);
        }
        Ok(Segments {
            pool: KeyedPool::new(alloc, max, generations)?,
            spare,
        })
    }

    /// Makes a segment of so many cells, all of them 0, to which nobody is attached. Any id may be
    /// asked for.
    ///
    /// Stands for `mrapi_shmem_create`.
    ///
    /// # Errors
    ///
    /// - `ErrParameter`: the number of cells isn't 1 to 4,096.
    /// - `ErrShmExists`: a live segment has the id.
    /// - `ErrShmLimit`: every place is in use or has retired.
    pub fn create(&mut self, id: u32, cells: u32) -> Result<ShmemHandle, MrapiStatus>
        ensures in_range { OnOk result (first (shmem_create_refusals cells) ≡ None) }
        ensures new_id { OnOk result (NoneLive (slot_value self.old) (HasId id)) }
        ensures room { OnOk result (IsFull self.old → ⊥) }
        ensures made { IfOk result (λ s. Inserts self.old self.new s.0 (new_segment id cells)) }
        ensures refused { IfErr result (λ c. CreateRefused self.old id cells c) }
        ensures unchanged { OnErr result (self.new ≡ self.old) }
    {
        if let Some(status) = self.create_refusal(id, cells) {
            return Err(status);
        }
        if self.pool.is_full() {
            return Err(MrapiStatus::ErrShmLimit);
        }
        Ok(ShmemHandle(self.fill(id, cells)))
    }

    /// Tells why such a create is refused, whether there is room or not: `ErrParameter` where the cells aren't 1 to 4,096, and
    /// then `ErrShmExists` where a live segment has the id, else None.
    pub fn create_refusal(&self, id: u32, cells: u32) -> Option<MrapiStatus>
        ensures refused { IfSome result (λ c. (first (shmem_create_refusals cells) ≡ Some c)
            ⊎ ((first (shmem_create_refusals cells) ≡ None) × (c ≡ ErrShmExists)
            × SomeLive (slot_value self.now) (HasId id))) }
        ensures in_range { IsNone result → first (shmem_create_refusals cells) ≡ None }
        ensures new_id { IsNone result → NoneLive (slot_value self.now) (HasId id) }
    {
        if cells == 0 || cells > MAX_CELLS {
            return Some(MrapiStatus::ErrParameter);
        }
        self.find(u64::from(id))?;
        Some(MrapiStatus::ErrShmExists)
    }

    /// Tells how many segments are live.
    pub fn live(&self) -> u32
        ensures { result ≡ live_count self.now }
    {
        self.pool.live()
    }

    /// Whether a handle names a live segment.
    pub fn is_live(&self, s: ShmemHandle) -> bool
        ensures { result ≡ is_some (slot_value self.now s.0) }
    {
        self.pool.get(s.0).is_some()
    }

    // Puts a new segment into a free place and a piece of spare memory.
    fn fill(&mut self, id: u32, cells: u32) -> u64
        requires few { cells ≤ 4096 }
        requires new_id { NoneLive (slot_value self.old) (HasId id) }
        requires room { IsFull self.old → ⊥ }
        requires fits { live_count self.old + retired_count self.old ≤ max_of self.old }
        ensures { Inserts self.old self.new result (new_segment id cells) }
    {
        match self.spare.pop() {
            Some(room) => match self.pool.insert(SegmentState::new(id, cells, room)) {
                Ok(handle) => handle,
                Err(_) => unreachable!(),
            },
            None => unreachable!(),
        }
    }

    /// Finds the live segment of an id.
    ///
    /// Stands for `mrapi_shmem_get`.
    ///
    /// # Errors
    ///
    /// - `ErrShmIdInvalid`: no live segment has the id.
    pub fn get(&self, id: u32) -> Result<ShmemHandle, MrapiStatus>
        ensures found { IfOk result (λ s. HasLive self.now s.0 (HasId id)) }
        ensures absent { IfErr result (λ c. (c ≡ ErrShmIdInvalid) × NoneLive (slot_value self.now) (HasId id)) }

        // An id has one live segment at most.
        ensures only { OneEach (λ x. x.id) self.now }
    {
        self.find(u64::from(id)).ok_or(MrapiStatus::ErrShmIdInvalid)
    }

    /// The live segment of an id, which may be any number: none exactly where no live one has it.
    pub fn find(&self, id: u64) -> Option<ShmemHandle>
        ensures found { IfSome result (λ s. HasLive self.now s.0 (HasId id)) }
        ensures absent { IsNone result → NoneLive (slot_value self.now) (HasId id) }

        // An id has one live segment at most.
        ensures only { OneEach (λ x. x.id) self.now }
    {
        Some(ShmemHandle(self.pool.find(id)?))
    }

    /// Finds the same, where an earlier call found `last`. If that segment is live and has the id, nothing is searched.
    pub fn find_again(&self, last: Option<ShmemHandle>, id: u64) -> Option<ShmemHandle>
        ensures found { IfSome result (λ s. HasLive self.now s.0 (HasId id)) }
        ensures absent { IsNone result → NoneLive (slot_value self.now) (HasId id) }
        ensures only { OneEach (λ x. x.id) self.now }
    {
        if let Some(last) = last {
            if self.has_id(last, id) {
                return Some(last);
            }
        }
        self.find(id)
    }

    // Whether a handle names a live segment of this id.
    fn has_id(&self, s: ShmemHandle, id: u64) -> bool
        ensures found { OnTrue result (HasLive self.now s.0 (HasId id)) }
        ensures only { OneEach (λ x. x.id) self.now }
    {
        match self.pool.get(s.0) {
            Some(segment) => segment.id() == id,
            None => false,
        }
    }

    /// How many cells the segment of a handle has, 1 to 4,096: none exactly where the handle isn't live.
    pub fn cell_count(&self, s: ShmemHandle) -> Option<usize>
        ensures { result ≡ option_map (λ x. length x.cells) (slot_value self.now s.0) }
    {
        Some(self.pool.get(s.0)?.cell_count())
    }

    /// Gives up a segment to which nobody is attached.
    ///
    /// Stands for `mrapi_shmem_delete`.
    ///
    /// # Errors
    ///
    /// - `ErrShmInvalid`: the segment isn't live.
    /// - `ErrShmAttached`: some seat is attached.
    pub fn delete(&mut self, s: ShmemHandle) -> Result<(), MrapiStatus>
        ensures refused { result_err result ≡ refusal shmem_delete_refusals (slot_value self.old s.0) }
        ensures removed { OnOk result (self.new ≡ without self.old s.0) }
        ensures unchanged { OnErr result (self.new ≡ self.old) }
    {
        let segment = self.pool.get(s.0).ok_or(MrapiStatus::ErrShmInvalid)?;
        if segment.is_attached() {
            return Err(MrapiStatus::ErrShmAttached);
        }
        if let Some(segment) = self.pool.remove(s.0) {
            self.spare.push_reserved(segment.into_room());
        }
        Ok(())
    }

    /// Attaches the seat `who`, which is below 25.
    ///
    /// Stands for `mrapi_shmem_attach`; no address is given.
    ///
    /// # Errors
    ///
    /// - `ErrShmInvalid`: the segment isn't live.
    /// - `ErrShmAttached`: this seat is attached.
    pub fn attach(&mut self, s: ShmemHandle, who: u32) -> Result<(), MrapiStatus>
        requires { who < 25 }
        ensures refused { result_err result ≡ refusal (attach_refusals who) (slot_value self.old s.0) }
        ensures new { self.new ≡ changed self.old s.0 (after_attach who) }
        ensures unchanged { OnErr result (self.new ≡ self.old) }
    {
        match self.pool.update(s.0, |segment| segment.attach(who)) {
            None => Err(MrapiStatus::ErrShmInvalid),
            Some(answer) => answer,
        }
    }

    /// Detaches the seat `who`, which is below 25. The cells stay as they are.
    ///
    /// Stands for `mrapi_shmem_detach`.
    ///
    /// # Errors
    ///
    /// - `ErrShmInvalid`: the segment isn't live.
    /// - `ErrShmNotattached`: this seat isn't attached.
    pub fn detach(&mut self, s: ShmemHandle, who: u32) -> Result<(), MrapiStatus>
        requires { who < 25 }
        ensures refused { result_err result ≡ refusal (detach_refusals who) (slot_value self.old s.0) }
        ensures new { self.new ≡ changed self.old s.0 (after_detach who) }
        ensures unchanged { OnErr result (self.new ≡ self.old) }
    {
        match self.pool.update(s.0, |segment| segment.detach(who)) {
            None => Err(MrapiStatus::ErrShmInvalid),
            Some(answer) => answer,
        }
    }

    /// Reads the number in a cell for the seat `who`, which is below 25. Cells are numbered from 0.
    ///
    /// Stands for a read of attached memory.
    ///
    /// # Errors
    ///
    /// - `ErrShmInvalid`: the segment isn't live.
    /// - `ErrShmNotattached`: this seat isn't attached.
    /// - `ErrParameter`: the segment has no such cell.
    pub fn read(&self, s: ShmemHandle, who: u32, cell: u32) -> Result<i64, MrapiStatus>
        requires { who < 25 }
        ensures { result ≡ read_at who cell (slot_value self.now s.0) }
    {
        let segment = self.pool.get(s.0).ok_or(MrapiStatus::ErrShmInvalid)?;
        segment.read(who, cell)
    }

    /// Puts a number into a cell for the seat `who`, which is below 25. Cells are numbered from 0.
    ///
    /// Stands for a write of attached memory.
    ///
    /// # Errors
    ///
    /// - `ErrShmInvalid`: the segment isn't live.
    /// - `ErrShmNotattached`: this seat isn't attached.
    /// - `ErrParameter`: the segment has no such cell.
    pub fn write(
        &mut self,
        s: ShmemHandle,
        who: u32,
        cell: u32,
        value: i64,
    ) -> Result<(), MrapiStatus>
        requires { who < 25 }
        ensures refused { result_err result ≡ refusal (cell_refusals who cell) (slot_value self.old s.0) }
        ensures new { self.new ≡ changed self.old s.0 (after_write who cell value) }
        ensures unchanged { OnErr result (self.new ≡ self.old) }
    {
        match self
            .pool
            .update(s.0, |segment| segment.write(who, cell, value))
        {
            None => Err(MrapiStatus::ErrShmInvalid),
            Some(answer) => answer,
        }
    }

    /// The number in a cell, counted from 0, for what the node itself does for a seat: 0 past the last cell, and none exactly
    /// where the handle isn't live.
    pub fn number(&self, s: ShmemHandle, cell: u64) -> Option<i64>
        ensures { result ≡ option_map (cell_of cell) (slot_value self.now s.0) }
    {
        Some(self.pool.get(s.0)?.number(cell))
    }

    /// Puts a number into a cell, counted from 0, for what the node itself does for a seat. Changes nothing past the last cell, and
    /// where the handle isn't live.
    pub fn set_number(&mut self, s: ShmemHandle, cell: u64, value: i64)
        ensures { self.new ≡ changed self.old s.0 (with_cell cell value) }
    {
        let _ = self
            .pool
            .update(s.0, |segment| segment.set_number(cell, value));
    }
}
