//! A source and a sink in memory, which tell their bytes and fail where they are told to.

ghost use Rattle.std.specs.Prelude.{◌≡◌, ◌+◌, ◌-◌, ◌<◌, ◌≤◌, ◌==◌, ◌&&◌, ◌||◌, nat_lt, nat_le, [], ◌++◌, min, length, take, drop, if◌then◌else◌, IfOk, OnOk, OnErr, Some, Ok, Err};
ghost use Rattle.byte_io.specs.Memory.{names_call, failed};
ghost use Rattle.byte_io.specs.Causes.{HasCause, TakesSome, one_more, faults_after};
ghost use Rattle.std.specs.Io.{ReadsAtMost};
ghost use Rattle.std.specs.Io.KnownBytes.{ReadConsumes, WriteAppends};
ghost use Rattle.byte_io.specs.declared.Failed.{Failed};

use crate::{Failed, Sink, Source};
use std::alloc::{AllocError, Global};
use std::marker::Model;

/// A source of bytes in memory. It gives at most `most` bytes a call, and fails at the calls whose numbers,
/// counted from 1, stand in `fails`.
#[derive(Drop)]
pub struct MemSource {
    bytes: Vec<u8>,
    at: usize,
    most: usize,
    fails: Vec<u64>,
    calls: u64,
    faults: u64,
}

impl Model for MemSource {
    ghost use Rattle.std.specs.Prelude.{drop, length, ◌≤◌, ◌<◌};
    ghost use Rattle.byte_io.specs.Memory.{SourceState};

    ghost Value = { SourceState };

    ghost view = { λ s. record { left = drop s.at s.bytes.items; most = s.most; fails = s.fails.items; calls = s.calls; faults = s.faults } };

    ghost invariant = { λ s. (s.at ≤ length s.bytes.items) × (0 < s.most) };
}

impl MemSource {
    /// A source of `bytes`; `most` is at least 1.
    pub fn new(bytes: Vec<u8>, most: usize, fails: Vec<u64>) -> Self
        requires { 0 < most }
        ensures { result ≡ record { left = bytes.items; most = most; fails = fails.items; calls = 0; faults = 0 } }
    {
        MemSource {
            bytes,
            at: 0,
            most,
            fails,
            calls: 0,
            faults: 0,
        }
    }
}

/// Whether a call's number is among those that fail.
fn is_named(fails: &[u64], call: u64) -> bool
    ensures { result ≡ names_call fails.now call }
{
    fails.iter().any(|n| *n == call)
}

/// Copies as many bytes as the buffer, `most` and the bytes allow, and tells how many.
fn fill(buf: &mut [u8], bytes: &[u8], most: usize) -> usize
    ensures count { result ≡ min (min (length buf.old) most) (length bytes.now) }
    ensures prefix { take result buf.new ≡ take result bytes.now }
{
    let count = buf.len().min(most).min(bytes.len());
    buf[..count].copy_from_slice(&bytes[..count]);
    count
}

impl Source for MemSource {
    ghost use Rattle.std.specs.Prelude.{Some};

    ghost left = { λ s. Some s.left };

    ghost faults = { λ s. s.faults };

    fn read(&mut self, buf: &mut [u8]) -> Result<usize, Failed>
        ensures bound { ReadsAtMost result buf.new }
        ensures bytes { ReadConsumes (Some self.old.left) (Some self.new.left) result buf.new }
        ensures cause { HasCause self.old.faults self.new.faults result }
        ensures clean { OnOk result (self.new.faults ≡ self.old.faults) }
        ensures count { self.new.faults ≡ faults_after self.old.faults result }
        ensures exact { result ≡ (if names_call self.old.fails (one_more self.old.calls) then Err failed
            else Ok (min (min (length buf.old) self.old.most) (length self.old.left))) }
        ensures stays { (self.new.most ≡ self.old.most) × (self.new.fails ≡ self.old.fails)
            × (self.new.calls ≡ one_more self.old.calls) }
    {
        self.calls = self.calls.saturating_add(1);
        if is_named(&self.fails, self.calls) {
            self.faults = self.faults.saturating_add(1);
            return Err(Failed);
        }
        let count = fill(buf, &self.bytes[self.at..], self.most);
        self.at += count;
        Ok(count)
    }
}

/// A sink in memory with room for `room` bytes. It takes at most `most` bytes a call, and fails at the calls
/// whose numbers, counted from 1, stand in `fails`, and where it is full and the piece isn't empty.
#[derive(Drop)]
pub struct MemSink {
    bytes: Vec<u8>,
    room: usize,
    most: usize,
    fails: Vec<u64>,
    calls: u64,
    faults: u64,
}

impl Model for MemSink {
    ghost use Rattle.std.specs.Prelude.{length, vec_capacity, ◌≤◌, ◌<◌};
    ghost use Rattle.byte_io.specs.Memory.{SinkState};

    ghost Value = { SinkState };

    ghost view = { λ s. record { bytes = s.bytes.items; room = s.room; most = s.most; fails = s.fails.items; calls = s.calls; faults = s.faults } };

    ghost invariant = { λ s. (length s.bytes.items ≤ s.room) × (s.room ≤ vec_capacity s.bytes) × (0 < s.most) };
}

impl MemSink {
    /// An empty sink; `most` is at least 1. Its room is taken here, so that a write takes no memory.
    ///
    /// # Errors
    ///
    /// - `AllocError`: there is no memory for the room.
    pub fn new(alloc: Global, room: usize, most: usize, fails: Vec<u64>) -> Result<Self, AllocError>
        requires { 0 < most }
        ensures { IfOk result (λ s.
            s ≡ record { bytes = []; room = room; most = most; fails = fails.items; calls = 0; faults = 0 }) }
    {
        Ok(MemSink {
            bytes: Vec::with_capacity(alloc, room)?,
            room,
            most,
            fails,
            calls: 0,
            faults: 0,
        })
    }

    /// The bytes that it holds.
    pub fn bytes(&self) -> &[u8]
        ensures { result.now ≡ self.now.bytes }
    {
        &self.bytes
    }
}

impl Sink for MemSink {
    ghost use Rattle.std.specs.Prelude.{Some};

    ghost held = { λ s. Some s.bytes };

    ghost faults = { λ s. s.faults };

    fn write(&mut self, piece: &[u8]) -> Result<usize, Failed>
        ensures bound { TakesSome result piece.now }
        ensures bytes { WriteAppends (Some self.old.bytes) (Some self.new.bytes) result piece.now }
        ensures cause { HasCause self.old.faults self.new.faults result }
        ensures count { self.new.faults ≡ faults_after self.old.faults result }
        ensures exact { result ≡ (if names_call self.old.fails (one_more self.old.calls)
            || (nat_lt 0 (length piece.now) && nat_le self.old.room (length self.old.bytes)) then Err failed
            else Ok (min (min (length piece.now) self.old.most) (self.old.room - length self.old.bytes))) }
        ensures stays { (self.new.room ≡ self.old.room) × (self.new.most ≡ self.old.most)
            × (self.new.fails ≡ self.old.fails) × (self.new.calls ≡ one_more self.old.calls) }
    {
        self.calls = self.calls.saturating_add(1);
        let full = !piece.is_empty() && self.room <= self.bytes.len();
        if is_named(&self.fails, self.calls) || full {
            self.faults = self.faults.saturating_add(1);
            return Err(Failed);
        }
        let count = piece.len().min(self.most).min(self.room - self.bytes.len());
        match self.bytes.extend_from_slice(&piece[..count]) {
            Ok(()) => Ok(count),
            Err(_) => unreachable!(),
        }
    }
}
