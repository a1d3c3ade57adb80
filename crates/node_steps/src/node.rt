//! The node, and what it keeps beside its objects.

ghost use Rattle.std.specs.Prelude.{◌≡◌, ◌^◌, ◌<◌, ◌≤◌, [], IfOk};
ghost use Rattle.mtapi_values.specs.declared.handles.Layout.TheVariants.{One};
ghost use Rattle.mtapi_renaming.specs.Ops.{renamed_op};
ghost use Rattle.node_steps.specs.Stands.{Lists, Live, PoolNodeSteps, PoolNodeStands, state_of, terms_of};
ghost use Rattle.node_steps.specs.Sound.{Sound};

use mtapi_machine::{Op, Phase, Reply};
use mtapi_renaming::{Rename, other_action, other_group, other_member, other_queue, other_task};
use mtapi_values::NodeAttr;
use node_resources::Resources;
use std::alloc::{AllocError, Global};
use task_board::Scheduler;

/// What a node keeps beside its objects.
#[derive(Drop)]
pub(crate) struct Core {
    // The number of callers, main included.
    pub(crate) callers: u8,
    pub(crate) phase: Phase,
    // Main has let the further callers enter.
    pub(crate) released: bool,
    // The workers that have stopped, by their seats.
    pub(crate) stopped: [bool; 25],
}

/// A node: it executes each op as the machine of one thread says.
#[derive(Drop)]
pub struct PoolNode {
    pub(crate) core: Core,
    pub(crate) scheduler: Scheduler,
    pub(crate) resources: Resources,
}

impl PoolNode {
    /// Makes a new node with these settings, for 1 to 9 callers, main included, and takes all the
    /// memory that its objects will use. It fails for want of memory alone.
    pub fn init(alloc: Global, attr: NodeAttr, callers: u32) -> Result<PoolNode, AllocError>
        requires some_caller { 1 ≤ callers }
        requires few_callers { callers ≤ 9 }
        ensures terms { IfOk result (λ n. terms_of n ≡ record { layout = One; settings = attr; callers = callers }) }
        ensures stands { IfOk result (λ n. PoolNodeStands n []) }
    {
        attr.is_kept();
        let scheduler = Scheduler::new(alloc, attr)?;
        let resources = Resources::init(alloc, attr)?;
        scheduler.is_kept();
        Ok(PoolNode {
            core: Core {
                callers: callers as u8,
                phase: Phase::New,
                released: false,
                stopped: [false; 25],
            },
            scheduler,
            resources,
        })
    }

    /// Shows the settings of the node, which never change.
    pub fn settings(&self) -> &NodeAttr
        ensures { result.now ≡ (terms_of self.now).settings }
    {
        self.scheduler.settings()
    }

    // One op, by its own method. The pools have other handles for those that it names.
    pub(crate) fn dispatch<R: Rename>(&mut self, names: &R, who: u32, op: &Op) -> Reply
        requires few_starts { self.old.scheduler.tasks.starts < 2 ^ 63 }
        requires seat { who < 25 }
        ensures { (l : Lists) → Live self.old l → Sound (state_of self.old l)
            → PoolNodeSteps self.old l who (renamed_op (R.renaming names.now) op.now) result self.new }
    {
        match op {
            Op::Initialize => self.initialize(),
            Op::Release => self.release(),
            Op::Enter => self.enter(),
            Op::Close => self.close(),
            Op::Final => self.finalize(),
            Op::JobGet { job } => self.job_get(*job),
            Op::ActionCreate { job, kind, cores } => self.action_create(*job, *kind, *cores),
            Op::ActionDelete { action } => self.action_delete(other_action(names, *action)),
            Op::ActionDisable { action } => self.action_disable(other_action(names, *action)),
            Op::ActionEnable { action } => self.action_enable(other_action(names, *action)),
            Op::TaskStart {
                job,
                args,
                priority,
                cores,
                detached,
                group,
            } => self.task_start(
                *job,
                args,
                *priority,
                *cores,
                *detached,
                other_member(names, *group),
            ),
            Op::TaskEnqueue {
                queue,
                args,
                cores,
                detached,
                group,
            } => self.task_enqueue(
                other_queue(names, *queue),
                args,
                *cores,
                *detached,
                other_member(names, *group),
            ),
            Op::TaskLook { task, last } => self.task_look(who, other_task(names, *task), *last),
            Op::TaskCancel { task } => self.task_cancel(other_task(names, *task)),
            Op::GroupCreate => self.group_create(),
            Op::GroupDelete { group } => self.group_delete(other_group(names, *group)),
            Op::AllLook { group, last } => self.all_look(other_group(names, *group), *last),
            Op::AnyLook { group, last } => self.any_look(other_group(names, *group), *last),
            Op::QueueCreate {
                id,
                job,
                priority,
                limit,
                ordered,
                retain,
            } => self.queue_create(*id, *job, *priority, *limit, *ordered, *retain),
            Op::QueueGet { id } => self.queue_get(*id),
            Op::QueueEnable { queue } => self.queue_enable(other_queue(names, *queue)),
            Op::QueueDisable { queue } => self.queue_disable(other_queue(names, *queue)),
            Op::QueueDelete { queue } => self.queue_delete(other_queue(names, *queue)),
            Op::Pick => self.pick_wanted(who, None),
            Op::Finish { task, done } => self.finish(who, other_task(names, *task), done),
            Op::Asked { task } => self.asked(who, other_task(names, *task)),
            Op::WatchEnd { task } => self.watch_end(who, other_task(names, *task)),
            Op::TallyLock { task } => self.tally_lock(who, other_task(names, *task)),
            Op::TallyRead { task } => self.tally_read(who, other_task(names, *task)),
            Op::TallyWrite { task, value } => self.tally_write(
                who,
                other_task(names, *task),
                *value,
            ),
            Op::TallyEnd { task } => self.tally_end(who, other_task(names, *task)),
            _ => self.resource_op(names, who, op),
        }
    }
}
