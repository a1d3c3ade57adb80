//! The messages that wait at one endpoint: one ring for each priority.

ghost use Rattle.std.specs.Prelude.{◌≡◌, ◌==◌, ◌<◌, ◌≤◌, IfOk, IfNone};
ghost use Rattle.mcapi_msg.specs.Rings.{empty_rings, messages_in, with_last_message, first_in, without_front};

use crate::messages::Waiting;
use std::alloc::{AllocError, Global};
use std::collections::VecDeque;
use std::marker::Model;

/// Rings for at most `limit` messages, with all the memory that they will use.
#[derive(Drop)]
pub(crate) struct Rings {
    limit: u32,
    // The messages of priority 0, 1, 2 and 3, each in the order of their sends.
    first: VecDeque<Waiting>,
    second: VecDeque<Waiting>,
    third: VecDeque<Waiting>,
    fourth: VecDeque<Waiting>,
}

impl Model for Rings {
    ghost use Rattle.std.specs.Prelude.{◌≤◌};
    ghost use Rattle.std.specs.VecDeque.{deque_capacity, deque_len};
    ghost use Rattle.mcapi_msg.specs.Rings.{RingTable, HasRingRoom};

    ghost Value = { RingTable };

    ghost view = { λ r. record {
      limit = r.limit;
      first = r.first.items;
      second = r.second.items;
      third = r.third.items;
      fourth = r.fourth.items;
    } };

    ghost invariant = { λ r. HasRingRoom r.limit (deque_capacity r.first) (deque_capacity r.second) (deque_capacity r.third) (deque_capacity r.fourth) (deque_len r.first) (deque_len r.second) (deque_len r.third) (deque_len r.fourth) };
}

impl Rings {
    /// Empty rings for at most `limit` messages in all, 1 to 256.
    pub(crate) fn new(alloc: Global, limit: u32) -> Result<Rings, AllocError>
        requires { limit ≤ 256 }
        ensures { IfOk result (λ r. r ≡ empty_rings limit) }
    {
        Ok(Rings {
            limit,
            first: VecDeque::with_capacity(alloc, limit as usize)?,
            second: VecDeque::with_capacity(alloc, limit as usize)?,
            third: VecDeque::with_capacity(alloc, limit as usize)?,
            fourth: VecDeque::with_capacity(alloc, limit as usize)?,
        })
    }

    /// Whether as many messages wait as may.
    pub(crate) fn is_full(&self) -> bool
        ensures full { result ≡ (messages_in self.now == self.now.limit) }
        ensures within { messages_in self.now ≤ self.now.limit }
    {
        self.first.len() + self.second.len() + self.third.len() + self.fourth.len()
            == self.limit as usize
    }

    /// Puts a message behind those of its priority.
    pub(crate) fn push(&mut self, message: Waiting)
        requires priority { message.priority < 4 }
        requires room { messages_in self.old < self.old.limit }
        ensures { self.new ≡ with_last_message message self.old }
    {
        match message.priority {
            0 => self.first.push_back_reserved(message),
            1 => self.second.push_back_reserved(message),
            2 => self.third.push_back_reserved(message),
            _ => self.fourth.push_back_reserved(message),
        }
    }

    /// Takes the message that was sent first of those with the least priority.
    pub(crate) fn take(&mut self) -> Option<Waiting>
        ensures value { result ≡ first_in self.old }
        ensures rest { self.new ≡ without_front self.old }
        ensures none { IfNone result (self.new ≡ self.old) }
    {
        if let Some(message) = self.first.pop_front() {
            return Some(message);
        }
        if let Some(message) = self.second.pop_front() {
            return Some(message);
        }
        if let Some(message) = self.third.pop_front() {
            return Some(message);
        }
        self.fourth.pop_front()
    }

    /// Gives up all messages.
    pub(crate) fn clear(&mut self)
        ensures { self.new ≡ empty_rings self.old.limit }
    {
        self.first.clear();
        self.second.clear();
        self.third.clear();
        self.fourth.clear();
    }
}
