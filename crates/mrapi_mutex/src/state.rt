//! One mutex.

ghost use Rattle.std.specs.Prelude.{◌≡◌, is_some};
ghost use Rattle.std.specs.Result.{result_err};
ghost use Rattle.mtapi_values.specs.Conditions.{first};
ghost use Rattle.mtapi_objects.specs.Mutexes.{new_mutex, mutex_unlock_refusals};
ghost use Rattle.mrapi_mutex.specs.Calls.{look_answer, after_look, after_unlock};

use keyed_pool::HasId;
use mtapi_values::{Look, MrapiStatus};
use std::marker::Model;

/// How deep a recursive mutex may be locked.
const MAX_DEPTH: u32 = 64;

/// One mutex: the seat that owns it, and how often.
#[derive(Drop)]
pub(crate) struct MutexState {
    id: u32,
    recursive: bool,
    owner: Option<u32>,
    depth: u32,
}

impl Model for MutexState {
    ghost use Rattle.mtapi_objects.specs.Mutexes.{Mutex};
    ghost use Rattle.mrapi_mutex.specs.Calls.{IsMutex};

    ghost Value = { Mutex };

    ghost view = { λ m. record {
      id = m.id;
      recursive = m.recursive;
      owner = m.owner;
      depth = m.depth;
    } };

    ghost invariant = { λ m. IsMutex m.owner m.depth };
}

impl HasId for MutexState {
    ghost id_of = { λ m. m.id };

    fn id(&self) -> u64 {
        u64::from(self.id)
    }
}

impl MutexState {
    pub(crate) fn new(id: u32, recursive: bool) -> MutexState
        ensures { result ≡ new_mutex id recursive }
    {
        MutexState {
            id,
            recursive,
            owner: None,
            depth: 0,
        }
    }

    pub(crate) fn is_locked(&self) -> bool
        ensures { result ≡ is_some self.now.owner }
    {
        self.owner.is_some()
    }

    pub(crate) fn look(&mut self, who: u32) -> Look<u32>
        ensures reply { result ≡ look_answer who self.old }
        ensures new { self.new ≡ after_look who self.old }
    {
        if let Some(owner) = self.owner {
            if owner != who {
                return Look::Busy;
            }
            if !self.recursive || self.depth >= MAX_DEPTH {
                return Look::Refused(MrapiStatus::ErrMutexLocked);
            }
        }
        self.owner = Some(who);
        self.depth += 1;
        Look::Got(self.depth)
    }

    pub(crate) fn unlock(&mut self, who: u32, key: u32) -> Result<(), MrapiStatus>
        ensures reply { result_err result ≡ first (mutex_unlock_refusals who key self.old) }
        ensures new { self.new ≡ after_unlock who key self.old }
    {
        if self.owner != Some(who) {
            return Err(MrapiStatus::ErrMutexNotlocked);
        }
        if key == 0 || key > self.depth {
            return Err(MrapiStatus::ErrMutexKey);
        }
        if key < self.depth {
            return Err(MrapiStatus::ErrMutexLockorder);
        }
        if self.depth == 1 {
            self.owner = None;
        }
        self.depth -= 1;
        Ok(())
    }
}
