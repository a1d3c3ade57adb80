//! Mutexes that belong to a seat and may be locked in depth.
//!
//! Each mutex has an id that no other live mutex has. A lock gives a key, the depth of the lock, and an unlock gives the last key
//! back. A call looks once and answers at once: what waits is above this crate.
#![tactic(auto)]

mod state;

ghost use Rattle.std.specs.Prelude.{◌≡◌, ◌≤◌, false, is_some, replicate, IfSome, IsNone, IfOk, IfErr, OnOk, OnErr};
ghost use Rattle.std.specs.Bool.{OnTrue};
ghost use Rattle.std.specs.Option.{option_map};
ghost use Rattle.std.specs.Result.{result_err};
ghost use Rattle.handle_pool.specs.Slots.{slot_value, free_slot, without, changed, Inserts, IsFull, live_count};
ghost use Rattle.handle_pool.specs.Walks.{SomeLive, NoneLive, HasLive, OneEach};
ghost use Rattle.mtapi_objects.specs.Mutexes.{new_mutex, mutex_delete_refusals, mutex_unlock_refusals};
ghost use Rattle.mtapi_values.specs.declared.statuses.MrapiStatus.TheVariants.{ErrMutexIdInvalid, ErrMutexExists};
ghost use Rattle.mtapi_values.specs.Looks.{is_got};
ghost use Rattle.mrapi_mutex.specs.Calls.{HasId, CreateRefused, refusal, look_at, after_look, after_unlock};

use keyed_pool::{HasId, InsertError, KeyedPool};
use mtapi_values::{Look, MrapiStatus, MutexHandle};
use state::MutexState;
use std::alloc::{AllocError, Global};
use std::marker::Model;

/// Mutexes, each under a handle, and seen as the slots of their pool. Live ones have different ids.
#[derive(Drop)]
pub struct Mutexes {
    pool: KeyedPool<MutexState>,
}

impl Model for Mutexes {
    ghost use Rattle.handle_pool.specs.Slots.{Slots};
    ghost use Rattle.mtapi_objects.specs.Mutexes.{Mutex};

    ghost Value = { Slots Mutex };

    ghost view = { λ m. m.pool };
}

impl Mutexes {
    /// Room for `max` mutexes, 1 to 65,536, with all the memory that they will use. A slot retires after `generations`, at least 1.
    pub fn new(alloc: Global, max: u32, generations: u32) -> Result<Mutexes, AllocError>
        requires some { 1 ≤ max }
        requires few { max ≤ 65536 }
        requires once { 1 ≤ generations }
        ensures generations { IfOk result (λ p. p.generations ≡ generations) }
        ensures slots { IfOk result (λ p. p.slots ≡ replicate max (free_slot 1)) }
    {
        Ok(Mutexes {
            pool: KeyedPool::new(alloc, max, generations)?,
        })
    }

    /// Makes a mutex that nobody owns. Any id may be asked for.
    ///
    /// Stands for `mrapi_mutex_create`.
    ///
    /// # Errors
    ///
    /// - `ErrMutexExists`: a live mutex has the id.
    /// - `ErrMutexLimit`: every place is in use or has retired.
    pub fn create(&mut self, id: u32, recursive: bool) -> Result<MutexHandle, MrapiStatus>
        ensures new_id { OnOk result (NoneLive (slot_value self.old) (HasId id)) }
        ensures room { OnOk result (IsFull self.old → ⊥) }
        ensures made { IfOk result (λ m. Inserts self.old self.new m.0 (new_mutex id recursive)) }
        ensures refused { IfErr result (λ c. CreateRefused self.old id c) }
        ensures unchanged { OnErr result (self.new ≡ self.old) }
    {
        match self.pool.insert(MutexState::new(id, recursive)) {
            Ok(handle) => Ok(MutexHandle(handle)),
            Err(InsertError::IdTaken) => Err(MrapiStatus::ErrMutexExists),
            Err(InsertError::Full) => Err(MrapiStatus::ErrMutexLimit),
        }
    }

    /// Tells why a create of this id is refused, whether there is room or not: `ErrMutexExists`
    /// where a live mutex has the id, else None.
    pub fn create_refusal(&self, id: u32) -> Option<MrapiStatus>
        ensures exists { IfSome result (λ c. (c ≡ ErrMutexExists) × SomeLive (slot_value self.now) (HasId id)) }
        ensures new_id { IsNone result → NoneLive (slot_value self.now) (HasId id) }
    {
        self.find(u64::from(id))?;
        Some(MrapiStatus::ErrMutexExists)
    }

    /// Tells how many mutexes are live.
    pub fn live(&self) -> u32
        ensures { result ≡ live_count self.now }
    {
        self.pool.live()
    }

    /// Whether a handle names a live mutex.
    pub fn is_live(&self, m: MutexHandle) -> bool
        ensures { result ≡ is_some (slot_value self.now m.0) }
    {
        self.pool.get(m.0).is_some()
    }

    /// Finds the live mutex of an id.
    ///
    /// Stands for `mrapi_mutex_get`.
    ///
    /// # Errors
    ///
    /// - `ErrMutexIdInvalid`: no live mutex has the id.
    pub fn get(&self, id: u32) -> Result<MutexHandle, MrapiStatus>
        ensures found { IfOk result (λ m. HasLive self.now m.0 (HasId id)) }
        ensures absent { IfErr result (λ c. (c ≡ ErrMutexIdInvalid) × NoneLive (slot_value self.now) (HasId id)) }

        // An id has one live mutex at most.
        ensures only { OneEach (λ x. x.id) self.now }
    {
        self.find(u64::from(id))
            .ok_or(MrapiStatus::ErrMutexIdInvalid)
    }

    /// The live mutex of an id, which may be any number: none exactly where no live one has it.
    pub fn find(&self, id: u64) -> Option<MutexHandle>
        ensures found { IfSome result (λ m. HasLive self.now m.0 (HasId id)) }
        ensures absent { IsNone result → NoneLive (slot_value self.now) (HasId id) }

        // An id has one live mutex at most.
        ensures only { OneEach (λ x. x.id) self.now }
    {
        Some(MutexHandle(self.pool.find(id)?))
    }

    /// Finds the same, where an earlier call found `last`. If that mutex is live and has the id, nothing is searched.
    pub fn find_again(&self, last: Option<MutexHandle>, id: u64) -> Option<MutexHandle>
        ensures found { IfSome result (λ m. HasLive self.now m.0 (HasId id)) }
        ensures absent { IsNone result → NoneLive (slot_value self.now) (HasId id) }
        ensures only { OneEach (λ x. x.id) self.now }
    {
        if let Some(last) = last {
            if self.has_id(last, id) {
                return Some(last);
            }
        }
        self.find(id)
    }

    // Whether a handle names a live mutex of this id.
    fn has_id(&self, m: MutexHandle, id: u64) -> bool
        ensures found { OnTrue result (HasLive self.now m.0 (HasId id)) }
        ensures only { OneEach (λ x. x.id) self.now }
    {
        match self.pool.get(m.0) {
            Some(mutex) => mutex.id() == id,
            None => false,
        }
    }

    /// Whether some seat owns the mutex of a handle: none exactly where the handle isn't live.
    pub fn is_owned(&self, m: MutexHandle) -> Option<bool>
        ensures { result ≡ option_map (λ x. is_some x.owner) (slot_value self.now m.0) }
    {
        Some(self.pool.get(m.0)?.is_locked())
    }

    /// Gives up a mutex that nobody owns.
    ///
    /// Stands for `mrapi_mutex_delete`.
    ///
    /// # Errors
    ///
    /// - `ErrMutexInvalid`: the mutex isn't live.
    /// - `ErrMutexLocked`: some seat owns it.
    pub fn delete(&mut self, m: MutexHandle) -> Result<(), MrapiStatus>
        ensures refused { result_err result ≡ refusal mutex_delete_refusals (slot_value self.old m.0) }
        ensures removed { OnOk result (self.new ≡ without self.old m.0) }
        ensures unchanged { OnErr result (self.new ≡ self.old) }
    {
        let mutex = self.pool.get(m.0).ok_or(MrapiStatus::ErrMutexInvalid)?;
        if mutex.is_locked() {
            return Err(MrapiStatus::ErrMutexLocked);
        }
        let _ = self.pool.remove(m.0);
        Ok(())
    }

    /// Looks once for the seat `who`: it gets the key where the mutex is free or its own, and Busy
    /// where another seat owns it. The key is the new depth, 1 to 64.
    ///
    /// Stands for `mrapi_mutex_trylock`, and for one look of `mrapi_mutex_lock`.
    ///
    /// # Errors
    ///
    /// - `ErrMutexInvalid`: the mutex isn't live.
    /// - `ErrMutexLocked`: this seat owns it, and it isn't recursive or is locked 64 deep.
    pub fn look(&mut self, m: MutexHandle, who: u32) -> Look<u32>
        ensures reply { result ≡ look_at who (slot_value self.old m.0) }
        ensures new { self.new ≡ changed self.old m.0 (after_look who) }
        ensures unchanged { is_got result ≡ false → self.new ≡ self.old }
    {
        match self.pool.update(m.0, |mutex| mutex.look(who)) {
            None => Look::Refused(MrapiStatus::ErrMutexInvalid),
            Some(look) => look,
        }
    }

    /// Takes the last key back from the seat `who`. At depth 0 the mutex is free.
    ///
    /// Stands for `mrapi_mutex_unlock`.
    ///
    /// # Errors
    ///
    /// - `ErrMutexInvalid`: the mutex isn't live.
    /// - `ErrMutexNotlocked`: this seat doesn't own it.
    /// - `ErrMutexKey`: the key isn't from 1 to the depth.
    /// - `ErrMutexLockorder`: a later key is still out.
    pub fn unlock(&mut self, m: MutexHandle, who: u32, key: u32) -> Result<(), MrapiStatus>
        ensures refused { result_err result ≡ refusal (mutex_unlock_refusals who key) (slot_value self.old m.0) }
        ensures new { self.new ≡ changed self.old m.0 (after_unlock who key) }
        ensures unchanged { OnErr result (self.new ≡ self.old) }
    {
        match self.pool.update(m.0, |mutex| mutex.unlock(who, key)) {
            None => Err(MrapiStatus::ErrMutexInvalid),
            Some(answer) => answer,
        }
    }
}
