//! A pool of values that have ids: no two live ones have the same, and the live one of an id is found by a search in a sorted list.
#![tactic(auto)]

ghost use Rattle.std.specs.Prelude.{◌≡◌, ◌≤◌, ◌<◌, ◌+◌, ◌↔◌, ℕ, IsTrue, IsNone, IfSome, IfNone, IfOk, IfErr, OnOk, OnErr, OnSome, replicate, vec_len, vec_capacity, option_copied};
ghost use Rattle.handle_pool.specs.Slots.{slot_value, free_slot, without, Inserts, IsFull, live_count, retired_count, max_of};
ghost use Rattle.handle_pool.specs.Walks.{NoneLive, HasLive, OneEach};
ghost use Rattle.keyed_pool.specs.Keyed.{KeepsId, Updates, WhyRefused};
ghost use Rattle.keyed_pool.specs.Index.{Locates};

use handle_pool::Pool;
use std::alloc::{AllocError, Global};
use std::marker::Model;

/// A value with an id.
pub trait HasId {
    ghost id_of: { Self → ℕ };

    /// The id.
    fn id(&self) -> u64
        ensures { result ≡ id_of self.now };
}

/// Why a value isn't put into a pool.
#[derive(Clone, Copy, Debug, Drop, PartialEq, Eq)]
pub enum InsertError {
    /// A live value has the id.
    IdTaken,
    /// Every slot is in use or has retired.
    Full,
}

// The handle of the live value of an id.
#[derive(Clone, Copy, Drop)]
struct IndexEntry {
    id: u64,
    handle: u64,
}

/// Values under handles, as those of a `Pool`, with ids of their own, and seen as the slots of the pool.
#[derive(Drop)]
pub struct KeyedPool<T: HasId + Drop> {
    pool: Pool<T>,
    // One entry for each live value, in the order of the ids.
    entries: Vec<IndexEntry>,
}

impl<T: HasId + Drop> Model for KeyedPool<T> {
    ghost use Rattle.std.specs.Prelude.{vec_len, vec_capacity};
    ghost use Rattle.handle_pool.specs.Slots.{Slots, slots_code};

    ghost Value = { Slots T };

    ghost coded = { slots_code T.code };

    ghost use Rattle.keyed_pool.specs.Index.{IsIndexed};

    ghost view = { λ p. p.pool };

    ghost invariant = { λ p. IsIndexed T.id_of p.pool p.entries.items (vec_len p.entries) (vec_capacity p.entries) };
}

impl<T: HasId + Drop> KeyedPool<T> {
    /// A pool of `max` empty slots, 1 to 65,536, with all the memory that it will use. A slot retires after `generations`, at least 1.
    pub fn new(alloc: Global, max: u32, generations: u32) -> Result<KeyedPool<T>, AllocError>
        requires some { 1 ≤ max }
        requires few { max ≤ 65536 }
        requires once { 1 ≤ generations }
        ensures generations { IfOk result (λ p. p.generations ≡ generations) }
        ensures slots { IfOk result (λ p. p.slots ≡ replicate max (free_slot 1)) }
    {
        Ok(KeyedPool {
            pool: Pool::new(alloc, max, generations)?,
            entries: Vec::with_capacity(alloc, max as usize)?,
        })
    }

    /// Puts a value into an empty slot, and gives its handle.
    ///
    /// # Errors
    ///
    /// - `IdTaken`: a live value has the id.
    /// - `Full`: every slot is in use or has retired.
    pub fn insert(&mut self, value: T) -> Result<u64, InsertError>
        ensures new_id { OnOk result (NoneLive (slot_value self.old) (λ x. T.id_of x ≡ T.id_of value)) }
        ensures room { OnOk result (IsFull self.old → ⊥) }
        ensures inserts { IfOk result (λ handle. Inserts self.old self.new handle value) }
        ensures refused { IfErr result (λ why. WhyRefused self.old (λ x. T.id_of x ≡ T.id_of value) why) }
        ensures unchanged { OnErr result (self.new ≡ self.old) }
    {
        let id = value.id();
        let place = match position(&self.entries, id) {
            Ok(_) => return Err(InsertError::IdTaken),
            Err(place) => place,
        };
        let Ok(handle) = self.pool.insert(value) else {
            return Err(InsertError::Full);
        };
        // There is room, so this takes no memory.
        let _ = self.entries.insert(place, IndexEntry { id, handle });
        Ok(handle)
    }

    /// The handle of the live value of an id, by a binary search.
    pub fn find(&self, id: u64) -> Option<u64>
        ensures found { IfSome result (λ handle. HasLive self.now handle (λ x. T.id_of x ≡ id)) }
        ensures absent { IsNone result → NoneLive (slot_value self.now) (λ x. T.id_of x ≡ id) }

        // An id has one live value at most.
        ensures only { OneEach T.id_of self.now }
    {
        match position(&self.entries, id) {
            Ok(place) => Some(self.entries[place].handle),
            Err(_) => None,
        }
    }

    /// The value of a live handle.
    ///
    /// # Errors
    ///
    /// - `None`: the handle isn't live.
    pub fn get(&self, handle: u64) -> Option<&T>
        ensures value { option_copied result ≡ slot_value self.now handle }

        // An id has one live value at most.
        ensures only { OneEach T.id_of self.now }
    {
        self.pool.get(handle)
    }

    /// Changes the value of a live handle by a function that keeps its id, and gives what the function returned.
    ///
    /// # Errors
    ///
    /// - `None`: the handle isn't live. The pool stays as it was.
    pub fn update<R, F: FnOnce(&mut T) -> R>(&mut self, handle: u64, change: F) -> Option<R>
        requires callable { F.IsAlwaysCallable change }
        requires keeps_id { KeepsId F.FnOnce change T.id_of (slot_value self.old handle) }
        ensures { Updates F.FnOnce change handle self.old result self.new }
    {
        match self.pool.get_mut(handle) {
            Some(value) => Some(change(value)),
            None => None,
        }
    }

    /// Gives up a live handle, and gives its value back. The slot goes on to its next generation, and retires at the last one.
    ///
    /// # Errors
    ///
    /// - `None`: the handle isn't live. The pool stays as it was.
    pub fn remove(&mut self, handle: u64) -> Option<T>
        ensures value { result ≡ slot_value self.old handle }
        ensures removed { OnSome result (self.new ≡ without self.old handle) }
        ensures absent { IfNone result (self.new ≡ self.old) }
    {
        let value = self.pool.remove(handle)?;
        match position(&self.entries, value.id()) {
            Ok(place) => {
                let _ = self.entries.remove(place);
            }
            Err(_) => unreachable!(),
        }
        Some(value)
    }

    /// How many slots are in use.
    pub fn live(&self) -> u32
        ensures { result ≡ live_count self.now }
    {
        self.pool.live()
    }

    /// Whether every slot is in use or has retired.
    pub fn is_full(&self) -> bool
        ensures full { IsTrue result ↔ IsFull self.now }

        // No slot is in use and has retired.
        ensures fits { live_count self.now + retired_count self.now ≤ max_of self.now }
    {
        u64::from(self.pool.live()) + u64::from(self.pool.retired()) == u64::from(self.pool.max())
    }
}

// The place of the entry of an id, or the one where it would stand.
fn position(entries: &[IndexEntry], id: u64) -> Result<usize, usize>
    ensures { Locates entries.now id result }
{
    entries.binary_search_by_key(&id, |entry| entry.id)
}
