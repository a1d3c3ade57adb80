//! Messages, and the handles of the endpoints that they go to.

ghost use Rattle.std.specs.Prelude.{◌≡◌, ◌<◌, ◌≤◌, ◌↔◌, [], ◌∷◌, ◌++◌, length, IsTrue};
ghost use Rattle.std.specs.Bool.{OnTrue, OnFalse};

use arrayvec::ArrayVec;
use std::marker::Model;

/// A message: a list of at most 64 bytes, held in place. No call takes memory.
#[derive(Drop)]
pub struct Msg {
    bytes: ArrayVec<u8, 64>,
}

impl Model for Msg {
    ghost use Rattle.std.specs.Prelude.{ℕ, List, ◌≤◌, length};

    ghost Value = { List ℕ };

    ghost view = { λ m. m.bytes.items };

    ghost invariant = { λ m. length m.bytes.items ≤ 64 };
}

impl Msg {
    /// The empty message.
    pub fn new() -> Msg
        ensures { result ≡ [] }
    {
        Msg {
            bytes: ArrayVec::new(),
        }
    }

    /// Appends a byte. False exactly where 64 are held, and then nothing changes.
    pub fn push(&mut self, byte: u8) -> bool
        ensures room { IsTrue result ↔ (length self.old < 64) }
        ensures pushed { OnTrue result (self.new ≡ self.old ++ byte ∷ []) }
        ensures full { OnFalse result (self.new ≡ self.old) }
    {
        self.bytes.try_push(byte).is_ok()
    }

    /// The bytes in order, at most 64.
    pub fn as_slice(&self) -> &[u8]
        ensures value { result.now ≡ self.now }
        ensures fits { length result.now ≤ 64 }
    {
        self.bytes.as_slice()
    }
}

/// Names an endpoint. No call issues the number 0.
#[derive(Clone, Copy, Debug, Drop, PartialEq, Eq)]
pub struct EndpointHandle(pub u64);

/// A message that waits at an endpoint.
#[derive(Drop)]
pub struct Waiting {
    /// The seat that sent it.
    pub sender: u32,
    /// Its priority, 0 to 3. 0 goes first.
    pub priority: u32,
    /// Its bytes.
    pub msg: Msg,
}
