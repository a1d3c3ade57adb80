//! The client of a node whose workers run work that splits: it starts the root, and waits until all is done.

ghost use Rattle.std.specs.Prelude.{[], ◌∷◌, pos, Some};
ghost use Rattle.mtapi_values.specs.declared.kinds.Kind.TheVariants.{Echo};
ghost use Rattle.mtapi_machine.specs.declared.ops.Op.TheVariants.{ActionCreate};
ghost use Rattle.sched_workers.specs.Answers.{Called, with_handle_number, start_of};
ghost use Rattle.workload_runners.specs.Replies.{handle_told, mtapi_standard};
ghost use Rattle.typed_pieces.specs.Runs.{every_worker};

use crate::runner::JOB;
use mtapi_values::{
    ActionAttr, ActionHandle, GroupHandle, Kind, MtapiStatus, TaskAttr, TaskHandle, Timeout,
};
use node_with_workers::Client;
use sched_workers::Caller;
use std::sync::{OnceLock, Wait};
use typed_pieces::args_of;

// Makes the action whose tasks run pieces.
fn make_action<R: Wait>(rt: &R, caller: &mut Caller) -> Result<ActionHandle, MtapiStatus>
    ensures { Called mtapi_standard handle_told (ActionCreate 1 Echo every_worker) caller.old caller.new (with_handle_number (λ h. h.0) result) }
{
    caller.action_create(rt, JOB, Kind::Echo, ActionAttr::new())
}

// Starts a task of it for the root.
fn start_root<R: Wait>(
    rt: &R,
    caller: &mut Caller,
    attr: TaskAttr,
    group: GroupHandle,
) -> Result<TaskHandle, MtapiStatus>
    ensures { Called mtapi_standard handle_told (start_of 1 (pos 0 ∷ []) attr (Some group)) caller.old caller.new (with_handle_number (λ h. h.0) result) }
{
    caller.task_start(rt, JOB, &args_of(0), attr, Some(group))
}

/// Starts a task for the root in a group, and waits for the group, in which the workers start further ones.
#[derive(Drop)]
pub struct Root<'a> {
    /// Where it says in which group all tasks start.
    pub group: &'a OnceLock<GroupHandle>,
}

impl<'a> Client for Root<'a> {
    ghost use Rattle.std.specs.Prelude.{IfOk, IfErr};
    ghost use Rattle.typed_pieces.specs.Runs.{HasAwaited, StopsAt};

    type Told = Result<(), MtapiStatus>;

    ghost promise = { λ _ old new told. IfOk told (λ _. HasAwaited 1 old new) × IfErr told (λ status. StopsAt 1 status old new) };

    #[tactic(auto, using(node_with_workers::proofs::Calls::further_calls))]
    fn call<R: Wait>(self, rt: &R, caller: &mut Caller) -> Result<(), MtapiStatus> {
        make_action(rt, caller)?;
        let group = caller.group_create(rt)?;
        let _ = self.group.try_set(group);
        start_root(rt, caller, TaskAttr::new(), group)?;
        caller.group_wait_all(rt, group, Timeout::Infinite)
    }
}
