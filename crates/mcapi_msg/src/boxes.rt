//! The live endpoints, each with its rings, and rings in reserve for those to come.

ghost use Rattle.std.specs.Prelude.{◌≡◌, ◌≤◌, ◌<◌, ◌↔◌, ℕ, Some, IfOk, IfSome, IfNone, IsTrue, IsSome, replicate, option_copied, vec_len, vec_capacity, length};
ghost use Rattle.std.specs.Bool.{OnFalse};
ghost use Rattle.handle_pool.specs.Slots.{Slots, slot_value, free_slot, without, with_value, Inserts, IsFull};
ghost use Rattle.handle_pool.specs.Walks.{NoneLive, HasLive, OneEach};
ghost use Rattle.mcapi_msg.specs.declared.boxes.Mailbox.{Mailbox};
ghost use Rattle.mcapi_msg.specs.Endpoints.{last_endpoint_generation};
ghost use Rattle.mcapi_msg.specs.Rings.{empty_rings, messages_in, with_last_message, first_in, without_front};
ghost use Rattle.mcapi_msg.specs.Boxes.{HasPort, new_mailbox, with_rings, HasSpace, HasFree, AreEmpty};

use crate::messages::{EndpointHandle, Waiting};
use crate::rings::Rings;
use handle_pool::Pool;
use std::alloc::{AllocError, Global};
use std::marker::Model;

/// The last generation of a handle.
const LAST_GENERATION: u32 = u32::MAX;

/// A live endpoint: its port, the seat that opened it, and the messages that wait there.
#[derive(Drop)]
pub(crate) struct Mailbox {
    pub(crate) port: u32,
    pub(crate) owner: u32,
    pub(crate) rings: Rings,
}

/// The live endpoints, seen as the slots of their pool and how many messages may wait at each.
#[derive(Drop)]
pub(crate) struct Boxes {
    limit: u32,
    pool: Pool<Mailbox>,
    // As many as there are slots without an endpoint.
    spare: Vec<Rings>,
}

impl Model for Boxes {
    ghost use Rattle.std.specs.Prelude.{vec_capacity};
    ghost use Rattle.mcapi_msg.specs.Boxes.{BoxTable, IsRingKept};

    ghost Value = { BoxTable };

    ghost view = { λ b. record { limit = b.limit; pool = b.pool } };

    ghost invariant = { λ b. IsRingKept b.limit b.pool b.spare.items (vec_capacity b.spare) };
}

// So many empty rings, with room for as many.
fn spare_rings(alloc: Global, count: u32, limit: u32) -> Result<Vec<Rings>, AllocError>
    requires { limit ≤ 256 }
    ensures count { IfOk result (λ v. length v.items ≡ count) }
    ensures empty { IfOk result (λ v. AreEmpty limit v.items) }
    ensures room { IfOk result (λ v. count ≤ vec_capacity v) }
{
    let mut spare = Vec::with_capacity(alloc, count as usize)?;
    for _index in 0..count {
        spare.push_reserved(Rings::new(alloc, limit)?);
    }
    Ok(spare)
}

impl Boxes {
    /// No endpoint yet, with all the memory that `max` endpoints, 1 to 64, use, and at most `limit` messages at each, 1 to 256.
    pub(crate) fn new(alloc: Global, max: u32, limit: u32) -> Result<Boxes, AllocError>
        requires some { 1 ≤ max }
        requires few { max ≤ 64 }
        requires messages { limit ≤ 256 }
        ensures limit { IfOk result (λ b. b.limit ≡ limit) }
        ensures generations { IfOk result (λ b. b.pool.generations ≡ last_endpoint_generation) }
        ensures slots { IfOk result (λ b. b.pool.slots ≡ replicate max (free_slot 1)) }
    {
        Boxes::with_generations(alloc, max, limit, LAST_GENERATION)
    }

    /// The same, with slots that retire after so many generations, at least 1.
    pub(crate) fn with_generations(
        alloc: Global,
        max: u32,
        limit: u32,
        generations: u32,
    ) -> Result<Boxes, AllocError>
        requires some { 1 ≤ max }
        requires few { max ≤ 64 }
        requires messages { limit ≤ 256 }
        requires once { 1 ≤ generations }
        ensures limit { IfOk result (λ b. b.limit ≡ limit) }
        ensures generations { IfOk result (λ b. b.pool.generations ≡ generations) }
        ensures slots { IfOk result (λ b. b.pool.slots ≡ replicate max (free_slot 1)) }
    {
        let pool = Pool::new(alloc, max, generations)?;
        let spare = spare_rings(alloc, max, limit)?;
        Ok(Boxes { limit, pool, spare })
    }

    /// How many endpoints there may be.
    pub(crate) fn max(&self) -> u32
        ensures { result ≡ length self.now.pool.slots }
    {
        self.pool.max()
    }

    /// How many messages may wait at each.
    pub(crate) fn limit(&self) -> u32
        ensures { result ≡ self.now.limit }
    {
        self.limit
    }

    /// The live endpoint with this port.
    pub(crate) fn find(&self, port: u32) -> Option<EndpointHandle>
        ensures found { IfSome result (λ h. HasLive self.now.pool h.0 (HasPort port)) }
        ensures absent { IfNone result (NoneLive (slot_value self.now.pool) (HasPort port)) }

        // A port has one live endpoint at most.
        ensures only { OneEach (λ m. m.port) self.now.pool }
    {
        for place in 0..self.pool.max() {
            if let Some((handle, mailbox)) = self.pool.slot_at(place) {
                if mailbox.port == port {
                    return Some(EndpointHandle(handle));
                }
            }
        }
        None
    }

    /// Whether no further endpoint can be made.
    pub(crate) fn is_full(&self) -> bool
        ensures full { IsTrue result ↔ IsFull self.now.pool }
        ensures room { OnFalse result (HasFree self.now.pool) }
    {
        let max = self.pool.max();
        let retired = self.pool.retired();
        self.pool.live() + retired == max
    }

    /// Makes an endpoint where no message waits.
    pub(crate) fn insert(&mut self, port: u32, owner: u32) -> u64
        requires new_port { NoneLive (slot_value self.old.pool) (HasPort port) }
        requires room { HasFree self.old.pool }
        ensures limit { self.new.limit ≡ self.old.limit }
        ensures made { Inserts self.old.pool self.new.pool result (new_mailbox port owner self.old.limit) }
    {
        let Some(rings) = self.spare.pop() else {
            unreachable!()
        };
        match self.pool.insert(Mailbox { port, owner, rings }) {
            Ok(handle) => handle,
            Err(_) => unreachable!(),
        }
    }

    /// The live endpoint of a handle.
    pub(crate) fn get(&self, at: EndpointHandle) -> Option<&Mailbox>
        ensures { option_copied result ≡ slot_value self.now.pool at.0 }
    {
        self.pool.get(at.0)
    }

    /// Puts a message at a live endpoint with room for it.
    pub(crate) fn put(&mut self, at: EndpointHandle, message: Waiting)
        requires space { HasSpace (slot_value self.old.pool at.0) }
        requires priority { message.priority < 4 }
        ensures limit { self.new.limit ≡ self.old.limit }
        ensures put { (m : Mailbox) → slot_value self.old.pool at.0 ≡ Some m → self.new.pool ≡ with_value self.old.pool at.0 (with_rings (with_last_message message) m) }
    {
        match self.pool.get_mut(at.0) {
            Some(mailbox) => mailbox.rings.push(message),
            None => unreachable!(),
        }
    }

    /// Takes the message that goes first from a live endpoint.
    pub(crate) fn take(&mut self, at: EndpointHandle) -> Option<Waiting>
        requires { IsSome (slot_value self.old.pool at.0) }
        ensures limit { self.new.limit ≡ self.old.limit }
        ensures value { (m : Mailbox) → slot_value self.old.pool at.0 ≡ Some m → result ≡ first_in m.rings }
        ensures none { IfNone result (self.new ≡ self.old) }
        ensures rest { (m : Mailbox) → slot_value self.old.pool at.0 ≡ Some m → self.new.pool ≡ with_value self.old.pool at.0 (with_rings without_front m) }
    {
        match self.pool.get_mut(at.0) {
            Some(mailbox) => mailbox.rings.take(),
            None => unreachable!(),
        }
    }

    /// Gives up a live endpoint. Its rings go back to the reserve.
    pub(crate) fn remove(&mut self, at: EndpointHandle)
        requires { IsSome (slot_value self.old.pool at.0) }
        ensures limit { self.new.limit ≡ self.old.limit }
        ensures removed { self.new.pool ≡ without self.old.pool at.0 }
    {
        let Some(mailbox) = self.pool.remove(at.0) else {
            unreachable!()
        };
        let Mailbox {
            port: _,
            owner: _,
            mut rings,
        } = mailbox;
        rings.clear();
        self.spare.push_reserved(rings);
    }
}
