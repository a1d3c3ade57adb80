//! The memory of a pool: a row of places, each free, in use or retired. A place is written when it is first used.
ghost use Rattle.std.specs.Prelude.{◌≡◌, ◌-◌, ◌<◌, ◌≤◌, ℕ, ◌++◌, length, IsSome, IfOk, Some, slice_get, slice_set};
ghost use Rattle.std.specs.Option.{option_map};
ghost use Rattle.std.specs.Borrow.{Lends, sem};
ghost use Rattle.handle_pool.specs.Place.{fresh, IsFree, HasValue, used_in};

use crate::row::{Row, fits};
use std::alloc::{AllocError, Global};
use std::marker::Model;
use std::mem;

/// A place of a pool.
#[derive(Drop)]
pub(crate) enum Place<T> {
    // The generation of the next value, and the next free place.
    Free(u32, u32),
    // The generation, and the value.
    Live(u32, T),
    Retired,
}

impl<T> Place<T> {
    ghost use Rattle.handle_pool.specs.contracts.places.Place.{the_row};
    ghost use Rattle.handle_pool.specs.Place.{value_in, with_value_in};

    fn value_mut(&mut self) -> &mut T
        requires { IsSome (value_in self.old) }
        ensures* lends { sem 𝓛 (Lends (the_row T.row) T.row self.entry result (with_value_in self.entry.now)) }
        ensures value { value_in self.old ≡ Some result.now }
    {
        match self {
            Place::Live(_, value) => value,
            Place::Free(_, _) | Place::Retired => unreachable!(),
        }
    }
}

// Puts an item in place of another, and gives that back.
fn exchange<X>(items: &mut [X], place: usize, item: X) -> X
    requires { place < length items.old }
    ensures was { slice_get items.old place ≡ Some result }
    ensures now { items.new ≡ slice_set items.old place item }
    ensures length { length items.new ≡ length items.old }
{
    mem::replace(&mut items[place], item)
}

// The generation and the value of a place in use.
fn used<T>(places: &[Place<T>], place: usize) -> Option<(u32, &T)>
    ensures { option_map (λ found. (found.0, found.1.now)) result ≡ used_in (slice_get places.now place) }
{
    match places.get(place) {
        Some(Place::Live(generation, value)) => Some((*generation, value)),
        _ => None,
    }
}

// The generation of a free place, and the next free place.
fn link<T>(places: &[Place<T>], place: usize) -> (u32, u32)
    requires { IsFree (slice_get places.now place) }
    ensures { slice_get places.now place ≡ Some (Place.Free result.0 result.1) }
{
    match places.get(place) {
        Some(Place::Free(generation, after)) => (*generation, *after),
        _ => unreachable!(),
    }
}

// Puts a value into a free place that was used before, and gives its generation and the next free place.
fn refill<T>(places: &mut [Place<T>], place: usize, value: T) -> (u32, u32)
    requires { IsFree (slice_get places.old place) }
    ensures was { slice_get places.old place ≡ Some (Place.Free result.0 result.1) }
    ensures now { places.new ≡ slice_set places.old place (Place.Live result.0 value) }
    ensures length { length places.new ≡ length places.old }
{
    let (generation, after) = link(places, place);
    match exchange(places, place, Place::Live(generation, value)) {
        Place::Free(_, _) | Place::Retired => (generation, after),
        Place::Live(_, _) => unreachable!(),
    }
}

// Writes the places below this one that were never used. A pool fills its places in their order, so there are none.
fn make<T>(row: &mut Row<Place<T>>, made: usize, place: usize)
    requires { (made ≡ length row.old.items) × (made ≤ place) × (place ≤ row.old.room) × (place ≤ 65536) }
    ensures { (row.new.items ≡ row.old.items ++ fresh made (place - made)) × (row.new.room ≡ row.old.room) }
{
    for at in made..place {
        row.push(at, Place::Free(1, at as u32 + 1));
    }
}

/// The places of a pool, as many as it was made with, in one block of memory. Contracts see them as a list.
pub(crate) struct Places<T> {
    // The places that were ever used. Behind them the block has room for those that weren't.
    row: Row<Place<T>>,
    made: usize,
    count: usize,
    alloc: Global,
}

impl<T> Model for Places<T> {
    ghost use Rattle.std.specs.Prelude.{◌≡◌, ◌-◌, ◌<◌, ◌≤◌, List, ◌++◌, length};
    ghost use Rattle.handle_pool.specs.Place.{fresh};
    ghost use Rattle.handle_pool.specs.declared.places.Place.{Place};

    ghost Value = { List (Place T) };

    ghost view = { λ p. p.row.items ++ fresh p.made (p.count - p.made) };

    ghost invariant = { λ p. (p.made ≡ length p.row.items) × (p.made ≤ p.count) × (p.count ≡ p.row.room) × (0 < p.count) × (p.count ≤ 65536) };
}

// Drops each value, and gives the block back. A place that holds none isn't written.
impl<T: Drop> Drop for Places<T> {
    fn drop(self) {
        let Places {
            mut row,
            made,
            count,
            alloc,
        } = self;
        for place in 0..made {
            if used(row.items(made), place).is_some() {
                drop(exchange(row.items_mut(made), place, Place::Retired));
            }
        }
        row.free(&alloc, count);
    }
}

impl<T> Places<T> {
    ghost use Rattle.handle_pool.specs.PlaceLends.{lends_place};

    /// `max` free places of generation 1, each naming the next. Refuses only when out of memory.
    pub(crate) fn new(alloc: Global, max: u32) -> Result<Places<T>, AllocError>
        requires some { 1 ≤ max }
        requires few { max ≤ 65536 }
        ensures fresh { IfOk result (λ p. p ≡ fresh 0 max) }
    {
        let count = max as usize;
        if !fits::<Place<T>>(count) {
            return Err(AllocError);
        }
        let row = Row::allocate(&alloc, count)?;
        Ok(Places {
            row,
            made: 0,
            count,
            alloc,
        })
    }

    /// How many places there are.
    pub(crate) fn len(&self) -> usize
        ensures { result ≡ length self.now }
    {
        self.count
    }

    /// The generation and the value of a place in use: none where there is no such place, or it isn't in use.
    pub(crate) fn used(&self, place: usize) -> Option<(u32, &T)>
        ensures { option_map (λ found. (found.0, found.1.now)) result ≡ used_in (slice_get self.now place) }
    {
        used(self.row.items(self.made), place)
    }

    /// Puts a value into a free place, and gives its generation and the next free place.
    pub(crate) fn fill(&mut self, place: usize, value: T) -> (u32, u32)
        requires { IsFree (slice_get self.old place) }
        ensures was { slice_get self.old place ≡ Some (Place.Free result.0 result.1) }
        ensures now { self.new ≡ slice_set self.old place (Place.Live result.0 value) }
    {
        if place < self.made {
            return refill(self.row.items_mut(self.made), place, value);
        }
        make(&mut self.row, self.made, place);
        self.row.push(place, Place::Live(1, value));
        self.made = place + 1;
        (1, place as u32 + 1)
    }

    /// Takes the value out of a place in use, and leaves this there.
    pub(crate) fn vacate(&mut self, place: usize, left: Place<T>) -> T
        requires { HasValue (slice_get self.old place) }
        ensures was { (generation : ℕ) × (slice_get self.old place ≡ Some (Place.Live generation result)) }
        ensures now { self.new ≡ slice_set self.old place left }
    {
        match exchange(self.row.items_mut(self.made), place, left) {
            Place::Live(_, value) => value,
            Place::Free(_, _) | Place::Retired => unreachable!(),
        }
    }

    /// The value of a place in use, for writing.
    pub(crate) fn value_mut(&mut self, place: usize) -> &mut T
        requires { HasValue (slice_get self.old place) }
        ensures* writes_back { sem 𝓛 (lends_place T.row self.entry place result) }
        ensures value { (generation : ℕ) × (slice_get self.old place ≡ Some (Place.Live generation result.now)) }
    {
        self.row.item_mut(place).value_mut()
    }
}
