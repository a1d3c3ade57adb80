//! Semaphores, each under a handle.

ghost use Rattle.std.specs.Prelude.{◌≡◌, ◌⊎◌, ◌≤◌, ◌<◌, false, None, Some, replicate, is_some, IfSome, IsNone, IfOk, IfErr, OnOk, OnErr};
ghost use Rattle.std.specs.Result.{result_err};
ghost use Rattle.mtapi_values.specs.declared.statuses.MrapiStatus.TheVariants.{ErrSemIdInvalid, ErrSemExists};
ghost use Rattle.mtapi_values.specs.Conditions.{first};
ghost use Rattle.handle_pool.specs.Slots.{slot_value, free_slot, without, changed, Inserts, IsFull, live_count};
ghost use Rattle.handle_pool.specs.Walks.{SomeLive, NoneLive, HasLive, OneEach};
ghost use Rattle.mtapi_values.specs.Looks.{is_got};
ghost use Rattle.mtapi_objects.specs.Sems.{new_sem, sem_create_refusals, sem_delete_refusals, sem_unlock_refusals};
ghost use Rattle.mrapi_counting.specs.SemCalls.{HasId, SemCreateRefused, sem_refusal, sem_look_at, sem_after_look, sem_after_unlock};

use crate::sem_state::SemState;
use keyed_pool::{InsertError, KeyedPool};
use mtapi_values::{Look, MrapiStatus, SemHandle};
use std::alloc::{AllocError, Global};
use std::marker::Model;

/// The most that a semaphore may be held.
const MAX_LIMIT: u32 = 65535;

/// Semaphores, each under a handle, and seen as the slots of their pool. Live ones have different ids.
#[derive(Drop)]
pub struct Sems {
    pool: KeyedPool<SemState>,
}

impl Model for Sems {
    ghost use Rattle.handle_pool.specs.Slots.{Slots};
    ghost use Rattle.mtapi_objects.specs.Sems.{Sem};

    ghost Value = { Slots Sem };

    ghost view = { λ s. s.pool };
}

impl Sems {
    /// Room for `max` semaphores, 1 to 65,536, with all the memory that they will use. A slot retires after `generations`, at least 1.
    pub fn new(alloc: Global, max: u32, generations: u32) -> Result<Sems, AllocError>
        requires some { 1 ≤ max }
        requires few { max ≤ 65536 }
        requires once { 1 ≤ generations }
        ensures generations { IfOk result (λ p. p.generations ≡ generations) }
        ensures slots { IfOk result (λ p. p.slots ≡ replicate max (free_slot 1)) }
    {
        Ok(Sems {
            pool: KeyedPool::new(alloc, max, generations)?,
        })
    }

    /// Makes a semaphore that may be held `limit` times. Any id may be asked for.
    ///
    /// Stands for `mrapi_sem_create`.
    ///
    /// # Errors
    ///
    /// - `ErrParameter`: the limit isn't 1 to 65,535.
    /// - `ErrSemExists`: a live semaphore has the id.
    /// - `ErrSemLimit`: every place is in use or has retired.
    pub fn create(&mut self, id: u32, limit: u32) -> Result<SemHandle, MrapiStatus>
        ensures in_range { OnOk result (first (sem_create_refusals limit) ≡ None) }
        ensures new_id { OnOk result (NoneLive (slot_value self.old) (HasId id)) }
        ensures room { OnOk result (IsFull self.old → ⊥) }
        ensures made { IfOk result (λ s. Inserts self.old self.new s.0 (new_sem id limit)) }
        ensures refused { IfErr result (λ c. SemCreateRefused self.old id limit c) }
        ensures unchanged { OnErr result (self.new ≡ self.old) }
    {
        if limit == 0 || limit > MAX_LIMIT {
            return Err(MrapiStatus::ErrParameter);
        }
        match self.pool.insert(SemState::new(id, limit)) {
            Ok(handle) => Ok(SemHandle(handle)),
            Err(InsertError::IdTaken) => Err(MrapiStatus::ErrSemExists),
            Err(InsertError::Full) => Err(MrapiStatus::ErrSemLimit),
        }
    }

    /// Tells why such a create is refused, whether there is room or not: `ErrParameter` where the limit isn't 1 to 65,535, and
    /// then `ErrSemExists` where a live semaphore has the id, else None.
    pub fn create_refusal(&self, id: u32, limit: u32) -> Option<MrapiStatus>
        ensures refused { IfSome result (λ c. (first (sem_create_refusals limit) ≡ Some c)
            ⊎ ((first (sem_create_refusals limit) ≡ None) × (c ≡ ErrSemExists)
            × SomeLive (slot_value self.now) (HasId id))) }
        ensures in_range { IsNone result → first (sem_create_refusals limit) ≡ None }
        ensures new_id { IsNone result → NoneLive (slot_value self.now) (HasId id) }
    {
        if limit == 0 || limit > MAX_LIMIT {
            return Some(MrapiStatus::ErrParameter);
        }
        self.pool.find(u64::from(id))?;
        Some(MrapiStatus::ErrSemExists)
    }

    /// Tells how many semaphores are live.
    pub fn live(&self) -> u32
        ensures { result ≡ live_count self.now }
    {
        self.pool.live()
    }

    /// Whether a handle names a live semaphore.
    pub fn is_live(&self, s: SemHandle) -> bool
        ensures { result ≡ is_some (slot_value self.now s.0) }
    {
        self.pool.get(s.0).is_some()
    }

    /// Finds the live semaphore of an id.
    ///
    /// Stands for `mrapi_sem_get`.
    ///
    /// # Errors
    ///
    /// - `ErrSemIdInvalid`: no live semaphore has the id.
    pub fn get(&self, id: u32) -> Result<SemHandle, MrapiStatus>
        ensures found { IfOk result (λ s. HasLive self.now s.0 (HasId id)) }
        ensures absent { IfErr result (λ c. (c ≡ ErrSemIdInvalid) × NoneLive (slot_value self.now) (HasId id)) }

        // An id has one live semaphore at most.
        ensures only { OneEach (λ x. x.id) self.now }
    {
        let found = self.pool.find(u64::from(id));
        Ok(SemHandle(found.ok_or(MrapiStatus::ErrSemIdInvalid)?))
    }

    /// Gives up a semaphore that nobody holds.
    ///
    /// Stands for `mrapi_sem_delete`.
    ///
    /// # Errors
    ///
    /// - `ErrSemInvalid`: the semaphore isn't live.
    /// - `ErrSemLocked`: some seat holds it.
    pub fn delete(&mut self, s: SemHandle) -> Result<(), MrapiStatus>
        ensures refused { result_err result ≡ sem_refusal sem_delete_refusals (slot_value self.old s.0) }
        ensures removed { OnOk result (self.new ≡ without self.old s.0) }
        ensures unchanged { OnErr result (self.new ≡ self.old) }
    {
        let sem = self.pool.get(s.0).ok_or(MrapiStatus::ErrSemInvalid)?;
        if sem.held() > 0 {
            return Err(MrapiStatus::ErrSemLocked);
        }
        let _ = self.pool.remove(s.0);
        Ok(())
    }

    /// Looks once for the seat `who`, which is below 25: it holds the semaphore once more, or is
    /// told Busy where all holds are taken.
    ///
    /// Stands for `mrapi_sem_trylock`, and for one look of `mrapi_sem_lock`.
    ///
    /// # Errors
    ///
    /// - `ErrSemInvalid`: the semaphore isn't live.
    pub fn look(&mut self, s: SemHandle, who: u32) -> Look<()>
        requires { who < 25 }
        ensures reply { result ≡ sem_look_at (slot_value self.old s.0) }
        ensures new { self.new ≡ changed self.old s.0 (sem_after_look who) }
        ensures unchanged { is_got result ≡ false → self.new ≡ self.old }
    {
        match self.pool.update(s.0, |sem| sem.look(who)) {
            None => Look::Refused(MrapiStatus::ErrSemInvalid),
            Some(answer) => answer,
        }
    }

    /// Gives back one hold of the seat `who`, which is below 25.
    ///
    /// Stands for `mrapi_sem_unlock`.
    ///
    /// # Errors
    ///
    /// - `ErrSemInvalid`: the semaphore isn't live.
    /// - `ErrSemNotlocked`: this seat doesn't hold it.
    pub fn unlock(&mut self, s: SemHandle, who: u32) -> Result<(), MrapiStatus>
        requires { who < 25 }
        ensures refused { result_err result ≡ sem_refusal (sem_unlock_refusals who) (slot_value self.old s.0) }
        ensures new { self.new ≡ changed self.old s.0 (sem_after_unlock who) }
        ensures unchanged { OnErr result (self.new ≡ self.old) }
    {
        match self.pool.update(s.0, |sem| sem.unlock(who)) {
            None => Err(MrapiStatus::ErrSemInvalid),
            Some(answer) => answer,
        }
    }
}
