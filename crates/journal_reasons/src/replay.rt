//! A replay: a node that does what the entries of a journal say, under handles of its own. It tells what the node would answer.
//!
//! Its contracts say that it may go on, and nothing of its answers: what is made of them is tried by the judge.
ghost use Rattle.std.specs.Prelude.{◌<◌, ◌+◌, ◌^◌};
ghost use Rattle.node_steps.specs.Stands.{seat_count, terms_of};
ghost use Rattle.journal_reasons.specs.Replays.{StandsForSome};

use journal_text::object_made;
use mtapi_layouts::answered_kind;
use mtapi_machine::{Entry, Op, Reply};
use mtapi_renaming::{OtherHandles, Rename, renamed_answer, renamed_op};
use mtapi_values::{NodeAttr, ObjectKind};
use node_journals::{Journal, ShortEntry};
use node_steps::PoolNode;
use std::alloc::{AllocError, Global};
use std::marker::Model;

/// The kind of the object that an op makes.
pub(crate) fn made_kind(op: &Op) -> Option<ObjectKind> {
    match op {
        Op::QueueGet { .. } | Op::MutexGet { .. } | Op::SemGet { .. } => None,
        Op::RwlGet { .. } | Op::ShmemGet { .. } => None,
        _ => answered_kind(op),
    }
}

/// A node that did what the entries so far say.
#[derive(Drop)]
pub(crate) struct Replay {
    node: PoolNode,
    // The node's handle beside each one of the journal, and the other way round.
    names: OtherHandles,
    back: OtherHandles,
    // No fewer than the entries so far.
    count: u64,
}

impl Model for Replay {
    ghost use Rattle.std.specs.Prelude.{ℕ};
    ghost use Rattle.journal_reasons.specs.Replays.{StandsForSome};

    ghost Value = { ℕ };

    ghost view = { λ r. r.count };

    ghost invariant = { λ r. StandsForSome r.node r.count };
}

// One step of the node; where the wanted answer is that a worker takes some task, it takes this one if it may.
#[tactic(auto, using(crate::proofs::Replays::has_room))]
fn step(node: &mut PoolNode, count: u64, who: u32, op: Op, wanted: &Reply) -> Reply
    requires seat { who < seat_count (terms_of node.old) }
    requires stands { StandsForSome node.old count }
    requires few { count < 2 ^ 62 }
    ensures { StandsForSome node.new (count + 1) }
{
    if let (Op::Pick, Reply::Picked { task, action, .. }) = (&op, wanted) {
        return node.pick_toward(who, *task, *action);
    }
    node.step(who, op)
}

impl Replay {
    /// The replay before the first entry. None for a journal with no caller, or with more than nine.
    #[tactic(auto, using(crate::proofs::Replays::before_all))]
    pub(crate) fn new(alloc: Global, journal: &Journal) -> Result<Option<Replay>, AllocError> {
        if journal.callers < 1 || journal.callers > 9 {
            return Ok(None);
        }
        // No slot ends: the limit of generations is the judge's to see to.
        let mut own = journal.settings;
        let _ = own.set(NodeAttr::GENERATIONS, 4_294_967_295);
        Ok(Some(Replay {
            node: PoolNode::init(alloc, own, journal.callers)?,
            names: OtherHandles::new(alloc),
            back: OtherHandles::new(alloc),
            count: 0,
        }))
    }

    // What the node answers to the call of an entry, with its own handles. None where there is no such seat.
    fn call(&mut self, entry: &Entry) -> Option<Reply> {
        if entry.who >= self.node.seats() || self.count >= 1 << 61 {
            return None;
        }
        let wanted = renamed_answer(&self.names, answered_kind(&entry.op), entry.reply.again());
        let op = renamed_op(&self.names, entry.op.again());
        let reply = step(&mut self.node, self.count, entry.who, op, &wanted);
        self.count += 1;
        Some(reply)
    }

    // Keeps that the node has its own handle for an object of the journal.
    fn note(&mut self, kind: ObjectKind, handle: u64, own: u64) -> Result<(), AllocError> {
        self.names.add(kind, handle, own)?;
        self.back.add(kind, own, handle)
    }

    /// Does what an entry says.
    pub(crate) fn follow(&mut self, entry: &Entry) -> Result<(), AllocError> {
        // What was refused changes nothing; the node itself may have room where the journal's has none.
        if made_kind(&entry.op).is_some() && object_made(&entry.op, &entry.reply).is_none() {
            return Ok(());
        }
        let reply = self.call(entry);
        let Some(object) = object_made(&entry.op, &entry.reply) else {
            return Ok(());
        };
        match reply {
            Some(Reply::Handle(own)) => self.note(object.kind, object.handle, own),
            _ => Ok(()),
        }
    }

    /// Does what these entries say.
    pub(crate) fn follow_all(&mut self, shorts: &[ShortEntry]) -> Result<(), AllocError> {
        for short in shorts {
            self.follow(&short.full())?;
        }
        Ok(())
    }

    /// What is answered to the call of an entry, by the handles of the journal; of a new object the handle is the node's own. None
    /// where there is no such seat.
    pub(crate) fn answer(&mut self, entry: &Entry) -> Option<Reply> {
        let reply = self.call(entry)?;
        Some(renamed_answer(&self.back, answered_kind(&entry.op), reply))
    }

    /// Whether an object of the journal is live.
    pub(crate) fn is_live(&self, kind: ObjectKind, handle: u64) -> bool {
        let own = self.names.other(kind, handle);
        self.node.is_live(kind, own)
    }

    /// How many objects of a kind are live.
    pub(crate) fn live(&self, kind: ObjectKind) -> u32 {
        self.node.live(kind)
    }
}
