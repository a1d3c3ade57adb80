//! What somebody asks of a node who has it follow a list of entries, whose handles are others.

ghost use Rattle.std.specs.Prelude.{◌≡◌, ◌+◌, ◌^◌, ◌<◌, List, [], ◌∷◌, ◌++◌, length, ℤ, IsSome};
ghost use Rattle.std.specs.Option.{option_map};
ghost use Rattle.history.specs.Histories.{entry};
ghost use Rattle.mtapi_values.specs.declared.kinds.Kind.{Kind};
ghost use Rattle.mtapi_machine.specs.declared.ops.Op.TheVariants as op;
ghost use Rattle.mtapi_machine.specs.declared.replies.Reply.TheVariants as reply;
ghost use Rattle.mtapi_machine.specs.Row.{Allows};
ghost use Rattle.mtapi_machine.specs.Rows.{row};
ghost use Rattle.mtapi_machine.specs.Legal.{NodeEntry, after};
ghost use Rattle.mtapi_renaming.specs.Kinds.{made_kind, live_in, is_live_of};
ghost use Rattle.mtapi_renaming.specs.Refusals.{refusal_of};
ghost use Rattle.node_steps.specs.Stands.{Lists, Live, PoolNodeStands, state_of, terms_of, seat_count};

use crate::node::PoolNode;
use mtapi_machine::{Op, Reply};
use mtapi_values::{
    ActionHandle, GroupHandle, MrapiStatus, MtapiStatus, MutexHandle, ObjectKind, QueueHandle,
    RwlHandle, SemHandle, ShmemHandle, TaskHandle,
};

// A refusal as the reply that tells it.
fn mtapi(status: Option<MtapiStatus>) -> Option<Reply>
    ensures { option_map reply.Mtapi status ≡ result }
{
    Some(Reply::Mtapi(status?))
}

fn mrapi(status: Option<MrapiStatus>) -> Option<Reply>
    ensures { option_map reply.Mrapi status ≡ result }
{
    Some(Reply::Mrapi(status?))
}

impl PoolNode {
    /// Tells how many objects of a kind are live.
    pub fn live(&self, kind: ObjectKind) -> u32
        ensures { (L : List NodeEntry) → PoolNodeStands self.now L → live_in kind (after (terms_of self.now) L) ≡ result }
    {
        match kind {
            ObjectKind::Action => self.scheduler.live_actions(),
            ObjectKind::Task => self.scheduler.live_tasks(),
            ObjectKind::Group => self.scheduler.live_groups(),
            ObjectKind::Queue => self.scheduler.live_queues(),
            ObjectKind::Mutex => self.resources.live_mutexes(),
            ObjectKind::Sem => self.resources.live_sems(),
            ObjectKind::Rwl => self.resources.live_rwls(),
            ObjectKind::Shmem => self.resources.live_segments(),
        }
    }

    /// Whether a handle names a live object of a kind.
    pub fn is_live(&self, kind: ObjectKind, handle: u64) -> bool
        ensures { (L : List NodeEntry) → PoolNodeStands self.now L
            → is_live_of kind (after (terms_of self.now) L) handle ≡ result }
    {
        match kind {
            ObjectKind::Action => self.scheduler.is_action(ActionHandle(handle)),
            ObjectKind::Task => self.scheduler.task(TaskHandle(handle)).is_some(),
            ObjectKind::Group => self.scheduler.left(GroupHandle(handle)).is_some(),
            ObjectKind::Queue => self.scheduler.queue(QueueHandle(handle)).is_some(),
            ObjectKind::Mutex => self.resources.is_mutex(MutexHandle(handle)),
            ObjectKind::Sem => self.resources.is_sem(SemHandle(handle)),
            ObjectKind::Rwl => self.resources.is_rwl(RwlHandle(handle)),
            ObjectKind::Shmem => self.resources.is_segment(ShmemHandle(handle)),
        }
    }

    /// Tells why an op that makes an object is refused, whether there is room or not. None where
    /// only want of room can refuse it.
    pub fn refusal(&self, who: u32, op: &Op) -> Option<Reply>
        requires makes { IsSome (made_kind op.now) }
        ensures { (L : List NodeEntry) → PoolNodeStands self.now L
            → refusal_of (after (terms_of self.now) L) who op.now ≡ result }
    {
        self.create_refusal(who, op)
    }

    // The same, by what the pools hold.
    fn create_refusal(&self, who: u32, op: &Op) -> Option<Reply>
        requires { IsSome (made_kind op.now) }
        ensures { (l : Lists) → Live self.now l → refusal_of (state_of self.now l) who op.now ≡ result }
    {
        match op {
            Op::ActionCreate { job, .. } => mtapi(self.action_refusal(*job)),
            Op::TaskStart {
                job,
                priority,
                cores,
                detached,
                group,
                ..
            } => mtapi(self.task_refusal(*job, *priority, *cores, *detached, *group)),
            Op::TaskEnqueue {
                queue,
                cores,
                detached,
                group,
                ..
            } => mtapi(self.enqueue_refusal(*queue, *cores, *detached, *group)),
            Op::GroupCreate => mtapi(self.group_refusal()),
            Op::QueueCreate {
                id,
                job,
                priority,
                limit,
                ..
            } => mtapi(self.queue_refusal(*id, *job, *priority, *limit)),
            Op::MutexCreate { id, .. } => mrapi(self.mutex_refusal(who, *id)),
            Op::SemCreate { id, limit } => mrapi(self.sem_refusal(who, *id, *limit)),
            Op::RwlCreate { id, limit } => mrapi(self.rwl_refusal(who, *id, *limit)),
            Op::ShmemCreate { id, cells } => mrapi(self.shmem_refusal(who, *id, *cells)),
            // No other op makes an object.
            _ => unreachable!(),
        }
    }

    /// Executes `Pick` by the seat `who`, toward a wanted task and action: the worker takes this
    /// task by this action wherever it may.
    pub fn pick_toward(&mut self, who: u32, task: TaskHandle, action: ActionHandle) -> Reply
        requires seat { who < seat_count (terms_of self.old) }
        requires room { (L : List NodeEntry) × PoolNodeStands self.old L × (length L < 2 ^ 62 + 16) }
        ensures terms { terms_of self.new ≡ terms_of self.old }
        ensures stands { (L : List NodeEntry) → PoolNodeStands self.old L
            → PoolNodeStands self.new (L ++ entry who op.Pick result ∷ []) }
        ensures toward { (L : List NodeEntry) (kind : Kind) (args : List ℤ) → PoolNodeStands self.old L
            → Allows (row (after (terms_of self.old) L) who op.Pick (reply.Picked task action kind args)) (reply.Picked task action kind args)
            → result ≡ reply.Picked task action kind args }
    {
        let reply = self.pick_wanted(who, Some((task, action)));
        self.scheduler.is_kept();
        reply
    }
}
