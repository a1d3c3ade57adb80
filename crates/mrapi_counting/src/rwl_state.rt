//! One reader-writer lock.

ghost use Rattle.std.specs.Prelude.{◌≡◌, ◌≤◌, ◌<◌, ◌↔◌, IsTrue};
ghost use Rattle.std.specs.Result.{result_err};
ghost use Rattle.mtapi_values.specs.Conditions.{first};
ghost use Rattle.mtapi_objects.specs.Rwls.{new_rwl, rwl_held, rwl_busy, rwl_unlock_refusals};
ghost use Rattle.mrapi_counting.specs.RwlCalls.{rwl_look_answer, rwl_after_look, rwl_after_unlock};

use crate::marks;
use keyed_pool::HasId;
use mtapi_values::seats::{self, SEATS};
use mtapi_values::{Look, MrapiStatus};
use std::marker::Model;

/// One reader-writer lock: the seats that read, and the one that writes.
#[derive(Drop)]
pub(crate) struct RwlState {
    id: u32,
    limit: u32,
    readers: [bool; SEATS],
    writer: Option<u32>,
}

impl Model for RwlState {
    ghost use Rattle.mtapi_objects.specs.Rwls.{Rwl};

    ghost Value = { Rwl };

    ghost view = { λ r. record {
      id = r.id;
      limit = r.limit;
      readers = r.readers;
      writer = r.writer;
    } };
}

impl HasId for RwlState {
    ghost id_of = { λ x. x.id };

    fn id(&self) -> u64 {
        u64::from(self.id)
    }
}

impl RwlState {
    pub(crate) fn new(id: u32, limit: u32) -> RwlState
        ensures { result ≡ new_rwl id limit }
    {
        RwlState {
            id,
            limit,
            readers: [false; SEATS],
            writer: None,
        }
    }

    /// Whether somebody holds it, in either mode.
    pub(crate) fn is_held(&self) -> bool
        ensures { result ≡ rwl_held self.now }
    {
        self.writer.is_some() || seats::is_any(&self.readers)
    }

    /// Whether a look in this mode, by a seat that doesn't hold it, has to come again.
    fn is_busy(&self, writer: bool) -> bool
        ensures { result ≡ rwl_busy writer self.now }
    {
        if writer {
            return self.is_held();
        }
        self.writer.is_some() || marks::count(&self.readers) == self.limit
    }

    pub(crate) fn look(&mut self, who: u32, writer: bool) -> Look<()>
        requires { who < 25 }
        ensures reply { result ≡ rwl_look_answer who writer self.old }
        ensures new { self.new ≡ rwl_after_look who writer self.old }
    {
        if self.writer == Some(who) || self.readers[who as usize] {
            return Look::Refused(MrapiStatus::ErrRwlLocked);
        }
        if self.is_busy(writer) {
            return Look::Busy;
        }
        if writer {
            self.writer = Some(who);
        } else {
            self.readers[who as usize] = true;
        }
        Look::Got(())
    }

    pub(crate) fn unlock(&mut self, who: u32, writer: bool) -> Result<(), MrapiStatus>
        requires { who < 25 }
        ensures reply { result_err result ≡ first (rwl_unlock_refusals who writer self.old) }
        ensures new { self.new ≡ rwl_after_unlock who writer self.old }
    {
        let holds = if writer {
            self.writer == Some(who)
        } else {
            self.readers[who as usize]
        };
        if !holds {
            return Err(MrapiStatus::ErrRwlNotlocked);
        }
        if writer {
            self.writer = None;
        } else {
            self.readers[who as usize] = false;
        }
        Ok(())
    }
}
