//! A node that counts its calls, so that each is refused once its turns are used up.

ghost use Rattle.std.specs.Prelude.{◌≡◌, ◌≤◌, ◌<◌, ◌^◌, [], List, IfOk};
ghost use Rattle.mtapi_values.specs.declared.handles.Layout.TheVariants.{Two};
ghost use Rattle.mtapi_machine.specs.Legal.{NodeEntry};
ghost use Rattle.node_core.specs.Stands.{NodeStands, terms_of_node as node_terms};
ghost use Rattle.node_core.specs.Logs.{StandsKept, journal_terms};
ghost use Rattle.node_handle.specs.Turns.{StandsCounted, MadeCall, MadeOrRefused, JournalGiven, seats_of, terms_counted};

use history::Object;
use mtapi_values::{MtapiStatus, NodeAttr};
use node_core::{Journal, Journaled, Node, Op, Reply};
use std::alloc::{AllocError, Global};

// So many calls are made at most.
const LIMIT: u64 = 0x4000_0000_0000_0000;

/// A node, and how many calls it has had.
#[derive(Drop)]
pub struct CountedNode {
    node: Journaled,
    turns: u64,
}

// An object for the node, which keeps a journal or doesn't.
fn journaled(alloc: Global, node: Node, keeps: bool) -> Journaled
    ensures terms { journal_terms result ≡ record { node = node_terms node; keeps = keeps } }
    ensures stands { NodeStands node [] → StandsKept result [] }
{
    if keeps {
        Journaled::with(alloc, node)
    } else {
        Journaled::without(node)
    }
}

impl CountedNode {
    /// A new node with these settings, for 1 to 9 callers, with a journal or without.
    pub fn new(
        alloc: Global,
        attr: NodeAttr,
        callers: u32,
        keeps: bool,
    ) -> Result<CountedNode, AllocError>
        requires some_caller { 1 ≤ callers }
        requires few_callers { callers ≤ 9 }
        ensures terms { IfOk result (λ n. terms_counted n ≡ record { node = record { layout = Two; settings = attr; callers = callers }; keeps = keeps }) }
        ensures counts { IfOk result (λ n. StandsCounted n []) }
    {
        let node = Node::init(alloc, attr, callers)?;
        Ok(CountedNode {
            node: journaled(alloc, node, keeps),
            turns: 0,
        })
    }

    // One call of the node.
    fn turn(&mut self, who: u32, op: Op) -> Reply
        requires seat { who < seats_of self.old }
        requires room { self.old.turns < 2 ^ 62 }
        requires counts { (L : List NodeEntry) × StandsCounted self.old L }
        ensures { MadeCall self.old who op result self.new }
    {
        self.turns += 1;
        self.node.apply(who, op)
    }

    /// One call by a seat. It is refused where there is no such seat, and where the turns are used up.
    pub fn call(&mut self, who: u32, op: Op) -> Reply
        requires counts { (L : List NodeEntry) × StandsCounted self.old L }
        ensures { MadeOrRefused self.old who op result self.new }
    {
        if who >= self.node.seats() {
            return Reply::Mtapi(MtapiStatus::ErrParameter);
        }
        if self.turns >= LIMIT {
            return Reply::Mtapi(MtapiStatus::ErrSpent);
        }
        self.turn(who, op)
    }

    /// Gives the journal of the calls: none where none is kept. It fails where memory was short for it at some call.
    pub fn into_journal(self) -> Result<Option<Journal>, AllocError>
        ensures { JournalGiven self result }
    {
        self.node.into_journal()
    }
}
