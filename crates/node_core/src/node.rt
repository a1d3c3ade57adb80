//! The node, as an object whose calls make one history.

ghost use Rattle.std.specs.Prelude.{◌≡◌, ◌+◌, ◌^◌, ◌<◌, ◌≤◌, List, [], ◌∷◌, ◌++◌, length, IfOk};
ghost use Rattle.history.specs.Histories.{entry};
ghost use Rattle.mtapi_values.specs.declared.handles.Layout.TheVariants.{Two};
ghost use Rattle.mtapi_machine.specs.Legal.{NodeEntry, after};
ghost use Rattle.mtapi_machine.specs.Kept.{pends_alike};
ghost use Rattle.node_core.specs.Stands.{NodeStands, terms_of_node, seat_count};
ghost use Rattle.node_core.specs.Parts.{Agrees};

use history::Object;
use mtapi_layouts::{Inwards, answered_kind, turn_outward};
use mtapi_machine::{Op, Reply, Terms};
use mtapi_renaming::other_task;
use mtapi_values::{Layout, NodeAttr};
use std::alloc::{AllocError, Global};

/// A node: it executes each op as the machine of one thread says. One node stands for MTAPI and
/// MRAPI.
///
/// Callers see handles of layout two, each of which names the kind of its object. They are turned
/// here, at an op and at its reply, and nowhere else: the node inside has the handles of its pools.
#[derive(Drop)]
pub struct Node {
    inner: node_steps::PoolNode,
}

impl Object for Node {
    type Op = Op;

    type Reply = Reply;

    type Terms = Terms;

    ghost use Rattle.mtapi_machine.specs.Legal.{Legal};
    ghost use Rattle.mtapi_machine.proofs.Lists.{Legal-prefix};
    ghost use Rattle.node_core.specs.Stands.{NodeStands, terms_of_node, seat_count, some_terms, node_history_of};

    ghost blank = { some_terms };

    ghost terms = { terms_of_node };

    ghost seat_count = { seat_count };

    ghost legal = { Legal };

    ghost stands = { NodeStands };

    ghost prefix_legal = { Legal-prefix };

    ghost stands_legal = { node_history_of };

    fn seats(&self) -> u32 {
        self.inner.seats()
    }

    fn told_terms(&self) -> Terms {
        Terms {
            layout: Layout::Two,
            settings: *self.inner.settings(),
            callers: self.inner.terms().callers,
        }
    }

    fn apply(&mut self, who: u32, op: Op) -> Reply {
        self.step(who, op)
    }
}

impl Node {
    /// Makes a new node with these settings, for 1 to 9 callers, main included, and takes all the
    /// memory that its objects will use. It fails for want of memory alone.
    ///
    /// Stands for the arguments of `mtapi_initialize` and `mrapi_initialize`; the op `Initialize`
    /// opens the node.
    #[tactic(auto, using(crate::proofs::NodeLemmas::new_node))]
    pub fn init(alloc: Global, attr: NodeAttr, callers: u32) -> Result<Node, AllocError>
        requires some_caller { 1 ≤ callers }
        requires few_callers { callers ≤ 9 }
        ensures terms { IfOk result (λ n. terms_of_node n ≡ record { layout = Two; settings = attr; callers = callers }) }
        ensures stands { IfOk result (λ n. NodeStands n []) }
    {
        let inner = node_steps::PoolNode::init(alloc, attr, callers)?;
        Ok(Node { inner })
    }

    /// Shows the settings of the node, which never change.
    pub fn settings(&self) -> &NodeAttr
        ensures { result.now ≡ (terms_of_node self.now).settings }
    {
        self.inner.settings()
    }

    /// Executes one op by the seat `who`: it does what `apply` does. It has no error of its own,
    /// since what the node refuses it says in its reply.
    pub fn step(&mut self, who: u32, op: Op) -> Reply
        requires seat { who < seat_count (terms_of_node self.old) }
        requires room { (L : List NodeEntry) × NodeStands self.old L × (length L < 2 ^ 62 + 16) }
        ensures terms { terms_of_node self.new ≡ terms_of_node self.old }
        ensures stands { (L : List NodeEntry) → NodeStands self.old L → NodeStands self.new (L ++ entry who op result ∷ []) }
    {
        let mut reply = Reply::Idle;
        self.execute(who, &op, &mut reply);
        reply
    }

    // The same. The op is read where it stands, and the reply put where it is wanted.
    pub(crate) fn execute(&mut self, who: u32, op: &Op, reply: &mut Reply)
        requires seat { who < seat_count (terms_of_node self.old) }
        requires room { (L : List NodeEntry) × NodeStands self.old L × (length L < 2 ^ 62 + 16) }
        ensures terms { terms_of_node self.new ≡ terms_of_node self.old }
        ensures stands { (L : List NodeEntry) → NodeStands self.old L
            → NodeStands self.new (L ++ entry who op.now reply.new ∷ []) }
    {
        let kind = answered_kind(op);
        self.inner.step_inward(who, op, reply);
        turn_outward(kind, reply);
    }

    /// What a node is that stands for a list: it agrees with the state that its callers see, kind by kind and index by index. It
    /// does nothing.
    pub fn agrees(&self)
        ensures { (L : List NodeEntry) → NodeStands self.now L → Agrees self.now (after (terms_of_node self.now) L) }
    {}

    // Where this op is answered Pending, does the state stay as it was?
    pub(crate) fn pends_alike(&self, who: u32, op: &Op) -> bool
        ensures { (L : List NodeEntry) → NodeStands self.now L
            → pends_alike (after (terms_of_node self.now) L) who op.now ≡ result }
    {
        match op {
            Op::TaskLook { task, last } => {
                let (task, last) = (other_task(&Inwards, *task), *last);
                self.inner.pends_alike(who, &Op::TaskLook { task, last })
            }
            _ => true,
        }
    }
}
