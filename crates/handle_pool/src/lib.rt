//! Slots that are used again, each time under a new handle, until they retire.
//!
//! A handle is `generation * 2^32 + slot`. A slot begins at generation 1. Where its value is removed it goes on to the next
//! generation, and at the last one it retires for good. So no handle ever names a second value.
#![tactic(auto)]

ghost use Rattle.std.specs.Prelude.{◌≡◌, ◌+◌, ◌*◌, ◌/◌, ◌^◌, ◌<◌, ◌≤◌, ◌==◌, ◌↔◌, [], map, length, IsTrue, IsOk, IsErr, IsSome, OnSome, IfNone, IfOk, IfErr, IfSome, OnOk, OnErr, Some, option_copied, slice_get, slice_set, ℕ, replicate, vec_len};
ghost use Rattle.std.specs.Option.{option_copied_mut, option_map};
ghost use Rattle.std.specs.Borrow.{Lends, sem};
ghost use Rattle.handle_pool.specs.Slots.{slot_value, value_at, slot_of, generation_of, free_slot, live_count, retired_count, max_of, IsFull, Inserts, without, with_value, used_at};
ghost use Rattle.handle_pool.specs.Calls.{PoolLaw};
ghost use Rattle.handle_pool.specs.Place.{slot_in};

mod places;
mod row;

use places::{Place, Places};
use std::alloc::{AllocError, Global};
use std::marker::Model;

/// How many slots a handle can name: a handle is its generation times this, and its slot.
pub const SPAN: u64 = 0x1_0000_0000;

/// The slot that a handle names.
pub fn slot_of(handle: u64) -> u32
    ensures { result ≡ slot_of handle }
{
    (handle % SPAN) as u32
}

/// Slots that are used again, each time under a handle that was never issued before.
#[derive(Drop)]
pub struct Pool<T> {
    places: Places<T>,
    generations: u32,
    live: u32,
    retired: u32,
    // The first free place, or the number of places where there is none.
    next: u32,
}

impl<T> Model for Pool<T> {
    ghost use Rattle.std.specs.Prelude.{map};
    ghost use Rattle.handle_pool.specs.Slots.{Slots, slots_code};

    ghost Value = { Slots T };

    ghost coded = { slots_code T.code };

    ghost use Rattle.handle_pool.specs.Place.{slot_in, IsSound};

    ghost view = { λ p. record {
      generations = p.generations;
      slots = map (slot_in p.generations) p.places;
    } };

    ghost invariant = { λ p. IsSound p.places p.generations p.live p.retired p.next };
}

impl<T> Pool<T> {
    ghost use Rattle.handle_pool.specs.Lends.{lends_get, lends_value};

    /// A pool of `max` empty slots, 1 to 65,536, with all the memory that it will use. Each slot begins at generation 1, and retires
    /// once a value of the generation `generations`, at least 1, is removed.
    ///
    /// # Errors
    ///
    /// - `AllocError`: memory ran out.
    pub fn new(alloc: Global, max: u32, generations: u32) -> Result<Pool<T>, AllocError>
        requires some { 1 ≤ max }
        requires few { max ≤ 65536 }
        requires once { 1 ≤ generations }
        ensures generations { IfOk result (λ p. p.generations ≡ generations) }
        ensures slots { IfOk result (λ p. p.slots ≡ replicate max (free_slot 1)) }
    {
        let places = Places::new(alloc, max)?;
        Ok(Pool {
            places,
            generations,
            live: 0,
            retired: 0,
            next: 0,
        })
    }

    /// The value of a live handle.
    ///
    /// # Errors
    ///
    /// - `None`: the handle isn't live.
    pub fn get(&self, handle: u64) -> Option<&T>
        ensures { option_copied result ≡ slot_value self.now handle }
    {
        match self.places.used((handle % SPAN) as usize) {
            Some((generation, value)) => {
                if u64::from(generation) == handle / SPAN {
                    Some(value)
                } else {
                    None
                }
            }
            None => None,
        }
    }

    /// The value of a live handle, for writing.
    ///
    /// # Errors
    ///
    /// - `None`: the handle isn't live.
    pub fn get_mut(&mut self, handle: u64) -> Option<&mut T>
        ensures* writes_back { sem 𝓛 (lends_get T.row self.entry handle result) }
        ensures value { option_copied_mut result ≡ slot_value self.old handle }

        // What was there, written back, changes nothing.
        ensures same { IfSome result (λ lent. with_value self.old handle lent.now ≡ self.old) }
    {
        if self.is_live(handle) {
            Some(self.value_mut(handle))
        } else {
            None
        }
    }

    fn value_mut(&mut self, handle: u64) -> &mut T
        requires { IsSome (slot_value self.old handle) }
        ensures* writes_back { sem 𝓛 (lends_value T.row self.entry handle result) }
        ensures value { slot_value self.old handle ≡ Some result.now }
        ensures same { with_value self.old handle result.now ≡ self.old }
    {
        self.places.value_mut((handle % SPAN) as usize)
    }

    /// Whether the handle is live.
    pub fn is_live(&self, handle: u64) -> bool
        ensures { IsTrue result ↔ IsSome (slot_value self.now handle) }
    {
        self.get(handle).is_some()
    }

    /// Puts a value into an empty slot, and gives its handle.
    ///
    /// # Errors
    ///
    /// - The value itself: every slot is in use or has retired. The pool stays as it was.
    pub fn insert(&mut self, value: T) -> Result<u64, T>
        ensures full { IsErr result ↔ IsFull self.old }
        ensures value_back { IfErr result (λ back. back ≡ value) }
        ensures unchanged { OnErr result (self.new ≡ self.old) }
        ensures inserts { IfOk result (λ handle. Inserts self.old self.new handle value) }
    {
        let place = self.next as usize;
        if place == self.places.len() {
            return Err(value);
        }
        let (generation, after) = self.places.fill(place, value);
        self.live += 1;
        self.next = after;
        Ok(u64::from(generation) * SPAN + place as u64)
    }

    /// Gives up a live handle, and gives its value back. The slot goes on to its next
    /// generation, and retires at the last one.
    ///
    /// # Errors
    ///
    /// - `None`: the handle isn't live. The pool stays as it was.
    pub fn remove(&mut self, handle: u64) -> Option<T>
        ensures value { result ≡ slot_value self.old handle }
        ensures removed { OnSome result (self.new ≡ without self.old handle) }
        ensures absent { IfNone result (self.new ≡ self.old) }
    {
        if !self.is_live(handle) {
            return None;
        }
        Some(self.take(handle))
    }

    fn take(&mut self, handle: u64) -> T
        requires { IsSome (slot_value self.old handle) }
        ensures value { slot_value self.old handle ≡ Some result }
        ensures removed { self.new ≡ without self.old handle }
    {
        let place = (handle % SPAN) as usize;
        let generation = (handle / SPAN) as u32;
        if generation == self.generations {
            let value = self.places.vacate(place, Place::Retired);
            self.live -= 1;
            self.retired += 1;
            return value;
        }
        let freed = Place::Free(generation + 1, self.next);
        let value = self.places.vacate(place, freed);
        self.live -= 1;
        self.next = place as u32;
        value
    }

    /// The handle and the value of the slot at a place.
    ///
    /// # Errors
    ///
    /// - `None`: there is no such slot, or it is empty.
    pub fn slot_at(&self, place: u32) -> Option<(u64, &T)>
        ensures { option_map (λ found. (found.0, found.1.now)) result ≡ used_at place (slice_get self.now.slots place) }
    {
        match self.places.used(place as usize) {
            Some((generation, value)) => {
                Some((u64::from(generation) * SPAN + u64::from(place), value))
            }
            None => None,
        }
    }

    /// How many slots are in use.
    pub fn live(&self) -> u32
        ensures value { result ≡ live_count self.now }
        ensures fits { live_count self.now + retired_count self.now ≤ max_of self.now }
    {
        self.live
    }

    /// How many slots have retired.
    pub fn retired(&self) -> u32
        ensures value { result ≡ retired_count self.now }

        // No slot is in use and has retired.
        ensures fits { live_count self.now + retired_count self.now ≤ max_of self.now }
    {
        self.retired
    }

    /// How many slots there are, 1 to 65,536.
    pub fn max(&self) -> u32
        ensures value { result ≡ max_of self.now }
        ensures some { 1 ≤ result }
        ensures few { result ≤ 65536 }
    {
        self.places.len() as u32
    }

    /// The last generation that a slot may have, at least 1.
    pub fn generations(&self) -> u32
        ensures value { result ≡ self.now.generations }
        ensures once { 1 ≤ result }
    {
        self.generations
    }
}

/// Over any calls of a new pool: `get` gives the value exactly of the live handles, no handle is issued twice, and `insert` refuses exactly where the slots in use and the retired ones are all slots.
pub fn law_pool<T>()
    ensures { PoolLaw T }
{}
