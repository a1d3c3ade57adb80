//! A node with a journal, asked call by call.

ghost use Rattle.std.specs.Prelude.{IfSome};
ghost use Rattle.node_core_tests.specs.Journals.{HasLegalEntries};

use history::Object;
use mtapi_machine::{Op, Reply};
use mtapi_values::NodeAttr;
use node_core::{Journal, Journaled, Node};
use std::alloc::{AllocError, Global};
use std::marker::Model;

/// The most ops that a test asks of one node.
const MOST: u64 = 100_000;

/// The seat of the only caller, behind that of the worker.
pub(crate) const MAIN: u32 = 1;

/// How many handles there are of a generation.
pub(crate) const GENERATION: u64 = 0x1_0000_0000;

// How many of them name a kind.
const KIND: u64 = 0x100_0000;

// The first handle of each kind: generation 1, the number of the kind, slot 0.
pub(crate) const ACTION: u64 = GENERATION + KIND;

pub(crate) const TASK: u64 = GENERATION + 2 * KIND;

pub(crate) const GROUP: u64 = GENERATION + 3 * KIND;

pub(crate) const QUEUE: u64 = GENERATION + 4 * KIND;

pub(crate) const MUTEX: u64 = GENERATION + 5 * KIND;

pub(crate) const SEM: u64 = GENERATION + 6 * KIND;

pub(crate) const RWL: u64 = GENERATION + 7 * KIND;

pub(crate) const SHMEM: u64 = GENERATION + 8 * KIND;

/// A node of one worker and one caller, with a journal, and a bound on how often it was asked.
#[derive(Drop)]
pub(crate) struct Called {
    node: Journaled,
    calls: u64,
}

impl Model for Called {
    ghost use Rattle.std.specs.Prelude.{◌≤◌, ℕ, List, length};
    ghost use Rattle.mtapi_machine.specs.Legal.{NodeEntry};
    ghost use Rattle.node_core.specs.Logs.{StandsKept};

    ghost Value = { ℕ };

    ghost view = { λ c. c.calls };

    ghost invariant = { λ c. (L : List NodeEntry) × StandsKept c.node L × (length L ≤ c.calls) };
}

impl Called {
    /// A new node.
    pub(crate) fn new(alloc: Global) -> Result<Called, AllocError> {
        let node = Journaled::with(alloc, Node::init(alloc, NodeAttr::new(), 1)?);
        Ok(Called { node, calls: 0 })
    }

    /// One call. None where the seat isn't one, or after too many calls.
    pub(crate) fn call(&mut self, who: u32, op: Op) -> Option<Reply> {
        if who >= self.node.seats() || self.calls >= MOST {
            return None;
        }
        let reply = self.node.apply(who, op);
        self.calls += 1;
        Some(reply)
    }

    /// The handle that a call of main gives, and 0 where it gives none.
    pub(crate) fn made(&mut self, op: Op) -> u64 {
        match self.call(MAIN, op) {
            Some(Reply::Handle(handle)) => handle,
            _ => 0,
        }
    }

    /// Gives the journal, which is a legal history. None where it was lost for lack of memory.
    pub(crate) fn into_journal(self) -> Option<Journal>
        ensures { IfSome result HasLegalEntries }
    {
        match self.node.into_journal() {
            Ok(journal) => journal,
            Err(_) => None,
        }
    }
}
