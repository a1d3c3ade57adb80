//! Reader-writer locks, each under a handle.

ghost use Rattle.std.specs.Prelude.{◌≡◌, ◌⊎◌, ◌≤◌, ◌<◌, false, None, Some, replicate, is_some, IfSome, IsNone, IfOk, IfErr, OnOk, OnErr};
ghost use Rattle.std.specs.Result.{result_err};
ghost use Rattle.mtapi_values.specs.declared.statuses.MrapiStatus.TheVariants.{ErrRwlIdInvalid, ErrRwlExists};
ghost use Rattle.mtapi_values.specs.Conditions.{first};
ghost use Rattle.handle_pool.specs.Slots.{slot_value, free_slot, without, changed, Inserts, IsFull, live_count};
ghost use Rattle.handle_pool.specs.Walks.{SomeLive, NoneLive, HasLive, OneEach};
ghost use Rattle.mtapi_values.specs.Looks.{is_got};
ghost use Rattle.mtapi_objects.specs.Rwls.{new_rwl, rwl_create_refusals, rwl_delete_refusals, rwl_unlock_refusals};
ghost use Rattle.mrapi_counting.specs.RwlCalls.{HasId, RwlCreateRefused, rwl_refusal, rwl_look_at, rwl_after_look, rwl_after_unlock};

use crate::rwl_state::RwlState;
use keyed_pool::{InsertError, KeyedPool};
use mtapi_values::{Look, MrapiStatus, RwlHandle};
use std::alloc::{AllocError, Global};
use std::marker::Model;

/// The most readers that a lock may have.
const MAX_READERS: u32 = 32;

/// Reader-writer locks, each under a handle, and seen as the slots of their pool. Live ones have different ids.
#[derive(Drop)]
pub struct Rwls {
    pool: KeyedPool<RwlState>,
}

impl Model for Rwls {
    ghost use Rattle.handle_pool.specs.Slots.{Slots};
    ghost use Rattle.mtapi_objects.specs.Rwls.{Rwl};

    ghost Value = { Slots Rwl };

    ghost view = { λ r. r.pool };
}

impl Rwls {
    /// Room for `max` reader-writer locks, 1 to 65,536, with all the memory that they will use. A slot retires after `generations`, at least 1.
    pub fn new(alloc: Global, max: u32, generations: u32) -> Result<Rwls, AllocError>
        requires some { 1 ≤ max }
        requires few { max ≤ 65536 }
        requires once { 1 ≤ generations }
        ensures generations { IfOk result (λ p. p.generations ≡ generations) }
        ensures slots { IfOk result (λ p. p.slots ≡ replicate max (free_slot 1)) }
    {
        Ok(Rwls {
            pool: KeyedPool::new(alloc, max, generations)?,
        })
    }

    /// Makes a lock for `limit` readers or one writer. Any id may be asked for.
    ///
    /// Stands for `mrapi_rwl_create`.
    ///
    /// # Errors
    ///
    /// - `ErrParameter`: the limit isn't 1 to 32.
    /// - `ErrRwlExists`: a live lock has the id.
    /// - `ErrRwlLimit`: every place is in use or has retired.
    pub fn create(&mut self, id: u32, limit: u32) -> Result<RwlHandle, MrapiStatus>
        ensures in_range { OnOk result (first (rwl_create_refusals limit) ≡ None) }
        ensures new_id { OnOk result (NoneLive (slot_value self.old) (HasId id)) }
        ensures room { OnOk result (IsFull self.old → ⊥) }
        ensures made { IfOk result (λ r. Inserts self.old self.new r.0 (new_rwl id limit)) }
        ensures refused { IfErr result (λ c. RwlCreateRefused self.old id limit c) }
        ensures unchanged { OnErr result (self.new ≡ self.old) }
    {
        if limit == 0 || limit > MAX_READERS {
            return Err(MrapiStatus::ErrParameter);
        }
        match self.pool.insert(RwlState::new(id, limit)) {
            Ok(handle) => Ok(RwlHandle(handle)),
            Err(InsertError::IdTaken) => Err(MrapiStatus::ErrRwlExists),
            Err(InsertError::Full) => Err(MrapiStatus::ErrRwlLimit),
        }
    }

    /// Tells why such a create is refused, whether there is room or not: `ErrParameter` where the limit isn't 1 to 32, and
    /// then `ErrRwlExists` where a live lock has the id, else None.
    pub fn create_refusal(&self, id: u32, limit: u32) -> Option<MrapiStatus>
        ensures refused { IfSome result (λ c. (first (rwl_create_refusals limit) ≡ Some c)
            ⊎ ((first (rwl_create_refusals limit) ≡ None) × (c ≡ ErrRwlExists)
            × SomeLive (slot_value self.now) (HasId id))) }
        ensures in_range { IsNone result → first (rwl_create_refusals limit) ≡ None }
        ensures new_id { IsNone result → NoneLive (slot_value self.now) (HasId id) }
    {
        if limit == 0 || limit > MAX_READERS {
            return Some(MrapiStatus::ErrParameter);
        }
        self.pool.find(u64::from(id))?;
        Some(MrapiStatus::ErrRwlExists)
    }

    /// Tells how many locks are live.
    pub fn live(&self) -> u32
        ensures { result ≡ live_count self.now }
    {
        self.pool.live()
    }

    /// Whether a handle names a live lock.
    pub fn is_live(&self, r: RwlHandle) -> bool
        ensures { result ≡ is_some (slot_value self.now r.0) }
    {
        self.pool.get(r.0).is_some()
    }

    /// Finds the live lock of an id.
    ///
    /// Stands for `mrapi_rwl_get`.
    ///
    /// # Errors
    ///
    /// - `ErrRwlIdInvalid`: no live lock has the id.
    pub fn get(&self, id: u32) -> Result<RwlHandle, MrapiStatus>
        ensures found { IfOk result (λ r. HasLive self.now r.0 (HasId id)) }
        ensures absent { IfErr result (λ c. (c ≡ ErrRwlIdInvalid) × NoneLive (slot_value self.now) (HasId id)) }

        // An id has one live lock at most.
        ensures only { OneEach (λ x. x.id) self.now }
    {
        let found = self.pool.find(u64::from(id));
        Ok(RwlHandle(found.ok_or(MrapiStatus::ErrRwlIdInvalid)?))
    }

    /// Gives up a lock that nobody holds.
    ///
    /// Stands for `mrapi_rwl_delete`.
    ///
    /// # Errors
    ///
    /// - `ErrRwlInvalid`: the lock isn't live.
    /// - `ErrRwlLocked`: some seat holds it, as a reader or as the writer.
    pub fn delete(&mut self, r: RwlHandle) -> Result<(), MrapiStatus>
        ensures refused { result_err result ≡ rwl_refusal rwl_delete_refusals (slot_value self.old r.0) }
        ensures removed { OnOk result (self.new ≡ without self.old r.0) }
        ensures unchanged { OnErr result (self.new ≡ self.old) }
    {
        let rwl = self.pool.get(r.0).ok_or(MrapiStatus::ErrRwlInvalid)?;
        if rwl.is_held() {
            return Err(MrapiStatus::ErrRwlLocked);
        }
        let _ = self.pool.remove(r.0);
        Ok(())
    }

    /// Looks once for the seat `who`, which is below 25, as a writer or as a reader: it holds the
    /// lock, or is told Busy. A writer is told so while anybody holds the lock, a reader while a
    /// writer does or the readers are as many as may be.
    ///
    /// Stands for `mrapi_rwl_trylock`, and for one look of `mrapi_rwl_lock`.
    ///
    /// # Errors
    ///
    /// - `ErrRwlInvalid`: the lock isn't live.
    /// - `ErrRwlLocked`: this seat holds it, in either mode.
    pub fn look(&mut self, r: RwlHandle, who: u32, writer: bool) -> Look<()>
        requires { who < 25 }
        ensures reply { result ≡ rwl_look_at who writer (slot_value self.old r.0) }
        ensures new { self.new ≡ changed self.old r.0 (rwl_after_look who writer) }
        ensures unchanged { is_got result ≡ false → self.new ≡ self.old }
    {
        match self.pool.update(r.0, |rwl| rwl.look(who, writer)) {
            None => Look::Refused(MrapiStatus::ErrRwlInvalid),
            Some(answer) => answer,
        }
    }

    /// Gives the lock back that the seat `who`, which is below 25, holds in this mode.
    ///
    /// Stands for `mrapi_rwl_unlock`.
    ///
    /// # Errors
    ///
    /// - `ErrRwlInvalid`: the lock isn't live.
    /// - `ErrRwlNotlocked`: this seat doesn't hold it in this mode.
    pub fn unlock(&mut self, r: RwlHandle, who: u32, writer: bool) -> Result<(), MrapiStatus>
        requires { who < 25 }
        ensures refused { result_err result ≡ rwl_refusal (rwl_unlock_refusals who writer) (slot_value self.old r.0) }
        ensures new { self.new ≡ changed self.old r.0 (rwl_after_unlock who writer) }
        ensures unchanged { OnErr result (self.new ≡ self.old) }
    {
        match self.pool.update(r.0, |rwl| rwl.unlock(who, writer)) {
            None => Err(MrapiStatus::ErrRwlInvalid),
            Some(answer) => answer,
        }
    }
}
