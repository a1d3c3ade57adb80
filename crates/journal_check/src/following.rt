//! A follower: a node that does what a journal's entries say, under handles of its own.

ghost use Rattle.std.specs.Prelude.{◌≡◌, ◌<◌, ◌≤◌, ◌++◌, [], ◌∷◌, ℕ, Bool, true, false, List, Option, Some, None, IfOk, IsTrue, length};
ghost use Rattle.history.specs.Histories.{entry};
ghost use Rattle.mtapi_values.specs.declared.handles.ObjectKind.{ObjectKind};
ghost use Rattle.mtapi_machine.specs.State.{terms_with};
ghost use Rattle.mtapi_machine.specs.Legal.{NodeEntry, IsHonest, after};
ghost use Rattle.mtapi_machine.specs.Row.{Allows};
ghost use Rattle.mtapi_machine.specs.Rows.{row};
ghost use Rattle.mtapi_renaming.specs.Kinds.{made_kind, is_full_of, takes_task};
ghost use Rattle.mtapi_renaming.specs.Refusals.{refusal_of};
ghost use Rattle.node_steps.specs.Stands.{PoolNodeStands, terms_of, seat_count};
ghost use Rattle.journal_check.specs.Follow.{HasFollowed, JudgesEntry, JudgesNext};

use crate::laws::laws;
use crate::made::Made;
use crate::room::limit_of;
use mtapi_layouts::answered_kind;
use mtapi_machine::{Entry, Op, Reply, Terms};
use mtapi_renaming::{OtherHandles, renamed_answer, renamed_op, same_reply};
use mtapi_values::{Layout, NodeAttr, ObjectKind};
use node_steps::PoolNode;
use std::alloc::{AllocError, Global};

/// A node with the journal's settings whose slots don't end, its handle beside each one of the journal, and what was made of each kind.
#[derive(Drop)]
pub(crate) struct Following {
    // The journal's own terms.
    pub(crate) terms: Terms,
    pub(crate) node: PoolNode,
    pub(crate) names: OtherHandles,
    pub(crate) made: Made,
}

// The kind of the object that an op makes.
fn made_kind(op: &Op) -> Option<ObjectKind>
    ensures { result ≡ made_kind op.now }
{
    match op {
        Op::ActionCreate { .. } => Some(ObjectKind::Action),
        Op::TaskStart { .. } => Some(ObjectKind::Task),
        Op::TaskEnqueue { .. } => Some(ObjectKind::Task),
        Op::GroupCreate => Some(ObjectKind::Group),
        Op::QueueCreate { .. } => Some(ObjectKind::Queue),
        Op::MutexCreate { .. } => Some(ObjectKind::Mutex),
        Op::SemCreate { .. } => Some(ObjectKind::Sem),
        Op::RwlCreate { .. } => Some(ObjectKind::Rwl),
        Op::ShmemCreate { .. } => Some(ObjectKind::Shmem),
        _ => None,
    }
}

// The one object that an entry may end: what it deletes, or the task that it cancels, finishes or hands out.
// It is a hint where to look, and promises nothing: whether the object has ended is asked of the node.
fn named_object(entry: &Entry) -> Option<(ObjectKind, u64)> {
    match (&entry.op, &entry.reply) {
        (Op::ActionDelete { action }, _) => Some((ObjectKind::Action, action.0)),
        (Op::TaskLook { task, .. }, _) => Some((ObjectKind::Task, task.0)),
        (Op::TaskCancel { task }, _) => Some((ObjectKind::Task, task.0)),
        (Op::Finish { task, .. }, _) => Some((ObjectKind::Task, task.0)),
        (Op::AnyLook { .. }, Reply::Given(task, _)) => Some((ObjectKind::Task, task.0)),
        (Op::GroupDelete { group }, _) => Some((ObjectKind::Group, group.0)),
        (Op::QueueDelete { queue }, _) => Some((ObjectKind::Queue, queue.0)),
        (Op::MutexDelete { mutex }, _) => Some((ObjectKind::Mutex, mutex.0)),
        (Op::SemDelete { sem }, _) => Some((ObjectKind::Sem, sem.0)),
        (Op::RwlDelete { rwl }, _) => Some((ObjectKind::Rwl, rwl.0)),
        (Op::ShmemDelete { shmem }, _) => Some((ObjectKind::Shmem, shmem.0)),
        _ => None,
    }
}

// What the type of an answered `finish` promises.
fn is_honest(op: &Op)
    ensures { IsHonest op.now }
{
    if let Op::Finish { done, .. } = op {
        let _ = done.kind();
        let _ = done.args();
    }
}

// What the node answers to an op that makes nothing; where the wanted answer is that a worker takes
// some task, it takes this one if it may.
fn answer(node: &mut PoolNode, who: u32, op: Op, wanted: &Reply) -> Reply
    requires seat { who < seat_count (terms_of node.old) }
    requires room { (L : List NodeEntry) × PoolNodeStands node.old L × (length L < 4294967295) }
    ensures terms { terms_of node.new ≡ terms_of node.old }
    ensures stands { (L : List NodeEntry) → PoolNodeStands node.old L → PoolNodeStands node.new (L ++ entry who op result ∷ []) }
    ensures toward { (L : List NodeEntry) → PoolNodeStands node.old L → takes_task op wanted.now ≡ true
        → Allows (row (after (terms_of node.old) L) who op wanted.now) wanted.now → result ≡ wanted.now }
{
    match (&op, wanted) {
        (Op::Pick, Reply::Picked { task, action, .. }) => node.pick_toward(who, *task, *action),
        _ => node.step(who, op),
    }
}

impl Following {
    /// A follower before the first entry, of a journal with these terms. It fails for want of memory alone.
    pub(crate) fn new(
        alloc: Global,
        layout: Layout,
        settings: NodeAttr,
        callers: u32,
    ) -> Result<Following, AllocError>
        requires some_caller { 1 ≤ callers }
        requires few_callers { callers ≤ 9 }
        ensures terms { IfOk result (λ f. f.terms ≡ terms_with layout settings callers) }
        ensures begins { IfOk result (λ f. HasFollowed f []) }
    {
        laws();
        let mut own = settings;
        let _ = own.set(NodeAttr::GENERATIONS, 4_294_967_295);
        let node = PoolNode::init(alloc, own, callers)?;
        Ok(Following {
            terms: Terms {
                layout,
                settings,
                callers,
            },
            node,
            names: OtherHandles::new(alloc),
            made: Made::new(alloc),
        })
    }

    // An entry whose op makes nothing.
    fn execute(&mut self, entry: &Entry) -> bool
        requires seat { entry.now.who < seat_count (terms_of self.old.node) }
        requires idle { made_kind entry.now.op ≡ None }
        requires room { (L : List NodeEntry) × HasFollowed self.old L × (length L < 4294967295) }
        ensures judges { JudgesEntry self.old entry.now result self.new }
        ensures made { self.new.made ≡ self.old.made }
    {
        laws();
        let told = renamed_answer(&self.names, answered_kind(&entry.op), entry.reply.again());
        let op = renamed_op(&self.names, entry.op.again());
        let given = answer(&mut self.node, entry.who, op, &told);
        same_reply(&told, &given)
    }

    // An entry whose op makes nothing. Where it ends the object that it names, that is kept: so it is known
    // how many slots are taken without a walk over all handles.
    fn go_on(&mut self, entry: &Entry) -> bool
        requires seat { entry.now.who < seat_count (terms_of self.old.node) }
        requires idle { made_kind entry.now.op ≡ None }
        requires room { (L : List NodeEntry) × HasFollowed self.old L × (length L < 4294967295) }
        ensures { JudgesEntry self.old entry.now result self.new }
    {
        laws();
        let Some((kind, handle)) = named_object(entry) else {
            return self.execute(entry);
        };
        if !self.is_live(kind, handle) {
            return self.execute(entry);
        }
        if !self.execute(entry) {
            return false;
        }
        if self.is_live(kind, handle) {
            return true;
        }
        self.made
            .end_one(kind, u64::from(self.terms.settings.generations()), handle);
        true
    }

    // An entry whose op makes an object of this kind, where nothing but want of room refuses it, and
    // there is room: the node makes its own, and both handles are kept.
    fn make(&mut self, entry: &Entry, kind: ObjectKind) -> Result<bool, AllocError>
        requires seat { entry.now.who < seat_count (terms_of self.old.node) }
        requires makes { made_kind entry.now.op ≡ Some kind }
        requires room { (L : List NodeEntry) × HasFollowed self.old L × (length L < 4294967295) }
        requires accepted { (L : List NodeEntry) → HasFollowed self.old L
            → refusal_of (after self.old.terms L) entry.now.who entry.now.op ≡ None }
        requires more { (L : List NodeEntry) → HasFollowed self.old L
            → is_full_of kind (after self.old.terms L) ≡ false }
        ensures { IfOk result (λ passes. JudgesEntry self.old entry.now passes self.new) }
    {
        laws();
        let Reply::Handle(handle) = entry.reply else {
            return Ok(false);
        };
        if !self.is_next(kind, handle) {
            return Ok(false);
        }
        let op = renamed_op(&self.names, entry.op.again());
        let Reply::Handle(other) = self.node.step(entry.who, op) else {
            return Ok(false);
        };
        self.names.add(kind, handle, other)?;
        self.made
            .note(kind, u64::from(self.terms.settings.generations()), handle)?;
        Ok(true)
    }

    // An entry whose op makes an object of this kind, where nothing but want of room refuses it.
    fn place(&mut self, entry: &Entry, kind: ObjectKind) -> Result<bool, AllocError>
        requires seat { entry.now.who < seat_count (terms_of self.old.node) }
        requires makes { made_kind entry.now.op ≡ Some kind }
        requires room { (L : List NodeEntry) × HasFollowed self.old L × (length L < 4294967295) }
        requires accepted { (L : List NodeEntry) → HasFollowed self.old L
            → refusal_of (after self.old.terms L) entry.now.who entry.now.op ≡ None }
        ensures { IfOk result (λ passes. JudgesEntry self.old entry.now passes self.new) }
    {
        laws();
        if self.is_full(kind) {
            return Ok(same_reply(&entry.reply, &limit_of(kind)));
        }
        self.make(entry, kind)
    }

    // An entry whose op makes an object of this kind.
    fn create(&mut self, entry: &Entry, kind: ObjectKind) -> Result<bool, AllocError>
        requires seat { entry.now.who < seat_count (terms_of self.old.node) }
        requires makes { made_kind entry.now.op ≡ Some kind }
        requires room { (L : List NodeEntry) × HasFollowed self.old L × (length L < 4294967295) }
        ensures { IfOk result (λ passes. JudgesEntry self.old entry.now passes self.new) }
    {
        laws();
        let op = renamed_op(&self.names, entry.op.again());
        match self.node.refusal(entry.who, &op) {
            Some(refused) => Ok(same_reply(&entry.reply, &refused)),
            None => self.place(entry, kind),
        }
    }

    /// Judges whether an entry may come next, and where it may, goes on behind it. It fails for want
    /// of memory alone.
    pub(crate) fn judge(&mut self, entry: &Entry) -> Result<bool, AllocError>
        requires room { (L : List NodeEntry) × HasFollowed self.old L × (length L < 4294967295) }
        ensures { IfOk result (λ passes. JudgesNext self.old entry.now passes self.new) }
    {
        laws();
        if entry.who >= self.node.seats() {
            return Ok(false);
        }
        is_honest(&entry.op);
        match made_kind(&entry.op) {
            Some(kind) => self.create(entry, kind),
            None => Ok(self.go_on(entry)),
        }
    }
}
