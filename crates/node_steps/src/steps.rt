//! One op of the node after another, and what is told of a node between them.

ghost use Rattle.std.specs.Prelude.{◌≡◌, ◌+◌, ◌^◌, ◌<◌, List, [], ◌∷◌, ◌++◌, length};
ghost use Rattle.history.specs.Histories.{entry};
ghost use Rattle.mtapi_machine.specs.Legal.{NodeEntry, after};
ghost use Rattle.mtapi_machine.specs.Kept.{pends_alike};
ghost use Rattle.mtapi_layouts.specs.Ops.{IssuesSmall, inward_op};
ghost use Rattle.node_steps.specs.Stands.{Lists, Live, PoolNodeStands, state_of, terms_of, seat_count};

use crate::node::PoolNode;
use crate::running::is_seat;
use mtapi_layouts::Inwards;
use mtapi_machine::{Op, Reply, Terms};
use mtapi_renaming::Rename;
use mtapi_values::{Layout, ObjectKind};

// Each handle stands for itself.
struct Same;

impl Rename for Same {
    ghost renaming = { λ s kind handle. handle };

    /// The handle itself.
    fn other(&self, _kind: ObjectKind, handle: u64) -> u64 {
        handle
    }
}

impl PoolNode {
    /// Tells the number of seats, 2 to 25, which are numbered from 0: first the workers, then main,
    /// then the further callers. It never changes.
    pub fn seats(&self) -> u32
        ensures { result ≡ seat_count (terms_of self.now) }
    {
        self.scheduler.workers() + u32::from(self.core.callers)
    }

    /// Copies the node's terms, which never change.
    pub fn terms(&self) -> Terms
        ensures { result ≡ terms_of self.now }
    {
        Terms {
            layout: Layout::One,
            settings: *self.scheduler.settings(),
            callers: u32::from(self.core.callers),
        }
    }

    /// Executes one op by the seat `who`. It has no error of its own, since what the node refuses
    /// it says in its reply. The slot in the handle of a new object is below 2^24.
    pub fn step(&mut self, who: u32, op: Op) -> Reply
        requires seat { who < seat_count (terms_of self.old) }
        requires room { (L : List NodeEntry) × PoolNodeStands self.old L × (length L < 2 ^ 62 + 16) }
        ensures terms { terms_of self.new ≡ terms_of self.old }
        ensures stands { (L : List NodeEntry) → PoolNodeStands self.old L → PoolNodeStands self.new (L ++ entry who op result ∷ []) }
        ensures small { IssuesSmall op result }
    {
        let reply = self.dispatch(&Same, who, &op);
        self.scheduler.is_kept();
        reply
    }

    /// Executes the op that a caller asked, with each handle as the pool of its kind has it: it does
    /// what `step` does with that op. The op is read where it stands, and the reply put where it is wanted.
    pub fn step_inward(&mut self, who: u32, op: &Op, reply: &mut Reply)
        requires seat { who < seat_count (terms_of self.old) }
        requires room { (L : List NodeEntry) × PoolNodeStands self.old L × (length L < 2 ^ 62 + 16) }
        ensures terms { terms_of self.new ≡ terms_of self.old }
        ensures stands { (L : List NodeEntry) → PoolNodeStands self.old L
            → PoolNodeStands self.new (L ++ entry who (inward_op op.now) reply.new ∷ []) }
        ensures small { IssuesSmall (inward_op op.now) reply.new }
    {
        *reply = self.dispatch(&Inwards, who, op);
        self.scheduler.is_kept();
    }

    /// Tells whether the state would stay as it is, were this op answered Pending.
    pub fn pends_alike(&self, who: u32, op: &Op) -> bool
        ensures { (L : List NodeEntry) → PoolNodeStands self.now L
            → pends_alike (after (terms_of self.now) L) who op.now ≡ result }
    {
        self.looks_alike(who, op)
    }

    // The same, by what the pools hold: it is no look at a task that changes who waits for it.
    fn looks_alike(&self, who: u32, op: &Op) -> bool
        ensures { (l : Lists) → Live self.now l → pends_alike (state_of self.now l) who op.now ≡ result }
    {
        match op {
            Op::TaskLook { task, .. } => match self.scheduler.task(*task) {
                Some(found) => is_seat(who, found.waiter()),
                None => false,
            },
            _ => true,
        }
    }
}
