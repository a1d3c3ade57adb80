//! A node with a journal of its calls.

ghost use Rattle.std.specs.Prelude.{◌≡◌, ◌<◌, ◌^◌, ◌+◌, ◌↔◌, [], ◌∷◌, ◌++◌, List, length, true, false, slice_index, Ok, None, IfOk, IfSome, IsErr};
ghost use Rattle.std.specs.Bool.{OnTrue, OnFalse};
ghost use Rattle.history.specs.Histories.{entry};
ghost use Rattle.mtapi_machine.specs.Legal.{NodeEntry};
ghost use Rattle.mtapi_machine.specs.Kept.{drops, is_pending};
ghost use Rattle.node_core.specs.Stands.{NodeStands, terms_of_node};
ghost use Rattle.node_core.specs.Keeping.{KeptAs};
ghost use Rattle.node_core.specs.Logs.{AddsTo, Logs, StandsKept, HasTerms, IsKeptJournal, keeps, journal_terms, is_lost};

use crate::node::Node;
use history::Object;
use mtapi_machine::{Op, Reply, Terms};
use node_journals::{Journal, ShortList};
use std::alloc::{AllocError, Global};

// Whether an entry is left out, where the state stays if the reply is Pending.
fn drops(alike: bool, reply: &Reply) -> bool
    ensures { result ≡ drops alike reply.now }
{
    match reply {
        Reply::Idle => true,
        Reply::Pending => alike,
        _ => false,
    }
}

fn is_pending(reply: &Reply) -> bool
    ensures { result ≡ is_pending reply.now }
{
    matches!(reply, Reply::Pending)
}

// What is kept of the calls.
#[derive(Drop)]
enum Kept {
    // No journal is kept.
    Nothing,
    // Memory was short, and the entries are lost.
    Lost,
    Entries(ShortList),
}

// Adds an entry and its number where a journal is kept. The entries are lost where memory was short.
fn add_to(kept: &mut Kept, who: u32, op: &Op, reply: &Reply, number: u64)
    ensures { AddsTo kept.old (entry who op.now reply.now) number kept.new }
{
    let Kept::Entries(entries) = kept else {
        return;
    };
    if entries.push_call(who, op, reply, number).is_err() {
        *kept = Kept::Lost;
    }
}

// What is kept, and how many entries of each seat were left out since its last kept one.
#[derive(Drop)]
struct Log {
    kept: Kept,
    counts: [u64; 25],
}

impl Log {
    // Takes note of an entry.
    fn add(&mut self, who: u32, op: &Op, reply: &Reply, alike: bool)
        requires seat { who < 25 }
        requires room { slice_index self.old.counts who < 2 ^ 63 }
        ensures { Logs self.old (drops alike reply.now) (entry who op.now reply.now) self.new }
    {
        let place = who as usize;
        let number = self.counts[place];
        if drops(alike, reply) {
            if is_pending(reply) {
                self.counts[place] = number + 1;
            }
            return;
        }
        self.counts[place] = 0;
        add_to(&mut self.kept, who, op, reply, number);
    }
}

/// A node and, where it keeps one, the journal of its calls.
#[derive(Drop)]
pub struct Journaled {
    node: Node,
    log: Log,
}

/// What no call of a `Journaled` changes.
#[derive(Clone, Copy, Debug, Drop, PartialEq, Eq)]
pub struct JournaledTerms {
    /// The terms of the node.
    pub node: Terms,
    /// Whether a journal is kept.
    pub keeps: bool,
}

impl Object for Journaled {
    type Op = Op;

    type Reply = Reply;

    type Terms = JournaledTerms;

    ghost use Rattle.mtapi_machine.proofs.Lists.{Legal-prefix};
    ghost use Rattle.node_core.specs.Stands.{node_history_of};
    ghost use Rattle.node_core.specs.Logs.{StandsKept, journal_terms, journal_seats, journal_legal, some_journal_terms};

    ghost blank = { some_journal_terms };

    ghost terms = { journal_terms };

    ghost seat_count = { journal_seats };

    ghost legal = { journal_legal };

    ghost stands = { StandsKept };

    ghost prefix_legal = { λ t. Legal-prefix t.node };

    ghost stands_legal = { λ x l s. node_history_of x.node l s.node };

    fn seats(&self) -> u32 {
        self.node.seats()
    }

    fn told_terms(&self) -> JournaledTerms {
        JournaledTerms {
            node: self.node.told_terms(),
            keeps: !matches!(self.log.kept, Kept::Nothing),
        }
    }

    fn apply(&mut self, who: u32, op: Op) -> Reply {
        let alike = self.node.pends_alike(who, &op);
        let mut reply = Reply::Idle;
        self.node.execute(who, &op, &mut reply);
        self.log.add(who, &op, &reply, alike);
        reply
    }
}

impl Journaled {
    /// Makes an object for a cell out of a node, which keeps no journal. It takes no memory.
    pub fn without(node: Node) -> Journaled
        ensures terms { journal_terms result ≡ record { node = terms_of_node node; keeps = false } }
        ensures stands { NodeStands node [] → StandsKept result [] }
    {
        Journaled {
            node,
            log: Log {
                kept: Kept::Nothing,
                counts: [0; 25],
            },
        }
    }

    /// Makes an object for a cell out of a node, which keeps a journal that grows with its calls.
    /// Where a call finds no memory for its entry, the call is answered as ever, and the journal is
    /// lost.
    pub fn with(alloc: Global, node: Node) -> Journaled
        ensures terms { journal_terms result ≡ record { node = terms_of_node node; keeps = true } }
        ensures there { is_lost result ≡ false }
        ensures stands { NodeStands node [] → StandsKept result [] }
    {
        Journaled {
            node,
            log: Log {
                kept: Kept::Entries(ShortList::new(alloc)),
                counts: [0; 25],
            },
        }
    }

    /// Gives the kept journal: none where none is kept. It fails exactly where the journal was lost
    /// for lack of memory.
    pub fn into_journal(self) -> Result<Option<Journal>, AllocError>
        ensures none { (result ≡ Ok None) ↔ ((journal_terms self).keeps ≡ false) }
        ensures lost { IsErr result ↔ (is_lost self ≡ true) }
        ensures terms { IfOk result (λ o. IfSome o (HasTerms (journal_terms self).node)) }
        ensures kept { (L : List NodeEntry) → StandsKept self L
            → IfOk result (λ o. IfSome o (λ j. KeptAs (journal_terms self).node j L)) }
    {
        let Journaled { node, log } = self;
        let Log { kept, counts: _ } = log;
        let terms = node.told_terms();
        journal_in(kept, &terms)
    }
}

// The journal with what was kept.
fn journal_in(kept: Kept, terms: &Terms) -> Result<Option<Journal>, AllocError>
    ensures { IsKeptJournal terms.now kept result }
{
    match kept {
        Kept::Nothing => Ok(None),
        Kept::Lost => Err(AllocError),
        Kept::Entries(entries) => Ok(Some(Journal {
            layout: terms.layout,
            settings: terms.settings,
            callers: terms.callers,
            entries,
        })),
    }
}
