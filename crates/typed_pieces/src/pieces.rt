//! The pieces of a node, as its client sees them.

ghost use Rattle.std.specs.Prelude.{◌≡◌, [], ◌∷◌, pos, Some, None, IfSome, IfErr};
ghost use Rattle.typed_pieces.specs.Places.{IsKeptAt};
ghost use Rattle.sched_workers.specs.Answers.{Called, Waited, with_handle_number, enqueue_of, start_of};
ghost use Rattle.workload_runners.specs.Replies.{done, handle_told, mtapi_standard};
ghost use Rattle.workload_runs.specs.declared.calls.Wanted.TheVariants.{FirstMember};
ghost use Rattle.mtapi_values.specs.Timeouts.{looks_of};
ghost use Rattle.mtapi_values.specs.declared.kinds.Kind.TheVariants.{Echo};
ghost use Rattle.mtapi_machine.specs.declared.ops.Op.TheVariants.{ActionCreate, TaskCancel};
ghost use Rattle.typed_pieces.specs.Runs.{every_worker};
ghost use Rattle.typed_pieces.specs.Told as told;
ghost use Rattle.typed_pieces.specs.declared.refusal.PieceCall.TheVariants as call;

use crate::piece::Piece;
use crate::refusal::{PieceCall, PieceRefusal};
use crate::shared::Shared;
use crate::table::Handed;
use mtapi_values::{
    ActionAttr, ActionHandle, Args, GroupHandle, Kind, MtapiStatus, QueueHandle, TaskAttr, TaskEnd,
    TaskHandle, Timeout,
};
use sched_workers::Caller;
use std::sync::Wait;

/// The arguments of a task that runs the piece of this place. Its action has to be of kind `echo`, as that of `Pieces::action` is: a task of
/// another kind runs no piece, and ends as its kind says.
pub fn args_of(place: u32) -> Args
    ensures { result ≡ pos place ∷ [] }
{
    let mut args = Args::new();
    let _ = args.push(i64::from(place));
    args
}

// This number, if it can be a place.
#[tactic(auto, using(crate::proofs::Told::place_is))]
fn as_place(number: i64) -> Option<u32>
    ensures { result ≡ told.as_place number }
{
    u32::try_from(number).ok()
}

// The place of the piece whose task ended so.
fn place_of(end: &TaskEnd) -> Option<u32>
    ensures { result ≡ told.place_in_end end.now }
{
    match end {
        TaskEnd::Completed(args) => match args.as_slice() {
            [number] => as_place(*number),
            _ => None,
        },
        _ => None,
    }
}

// The place alone of what a wait for any member of a group gave.
fn place_alone(
    member: Result<(TaskHandle, TaskEnd), MtapiStatus>,
) -> Result<Option<u32>, MtapiStatus>
    ensures { result ≡ told.place_alone member }
{
    match member {
        Ok((_, end)) => Ok(place_of(&end)),
        Err(status) => Err(status),
    }
}

// The same answer, whose refusal has its call and its place.
fn named<A>(
    answer: Result<A, MtapiStatus>,
    call: PieceCall,
    place: Option<u32>,
) -> Result<A, PieceRefusal>
    ensures same { told.with_status_alone result ≡ answer }
    ensures named { IfErr result (λ r. (r.call ≡ call) × (r.place ≡ place)) }
{
    match answer {
        Ok(given) => Ok(given),
        Err(status) => Err(PieceRefusal {
            call,
            place,
            status,
        }),
    }
}

/// Makes an action of this job whose tasks run pieces, as `Pieces::action` does.
pub(crate) fn make_action<R: Wait>(
    rt: &R,
    caller: &mut Caller,
    job: u32,
) -> Result<ActionHandle, MtapiStatus>
    ensures { Called mtapi_standard handle_told (ActionCreate job Echo every_worker) caller.old caller.new (with_handle_number (λ h. h.0) result) }
{
    caller.action_create(rt, job, Kind::Echo, ActionAttr::new())
}

/// Starts the piece of this place, as `Pieces::start` does.
pub(crate) fn start_place<R: Wait>(
    rt: &R,
    caller: &mut Caller,
    place: u32,
    job: u32,
    attr: TaskAttr,
    group: Option<GroupHandle>,
) -> Result<TaskHandle, MtapiStatus>
    ensures { Called mtapi_standard handle_told (start_of job (pos place ∷ []) attr group) caller.old caller.new (with_handle_number (λ h. h.0) result) }
{
    caller.task_start(rt, job, &args_of(place), attr, group)
}

// Enqueues the piece of this place, as `Pieces::enqueue` does.
fn enqueue_place<R: Wait>(
    rt: &R,
    caller: &mut Caller,
    place: u32,
    queue: QueueHandle,
    attr: TaskAttr,
    group: Option<GroupHandle>,
) -> Result<TaskHandle, MtapiStatus>
    ensures { Called mtapi_standard handle_told (enqueue_of queue (pos place ∷ []) attr group) caller.old caller.new (with_handle_number (λ h. h.0) result) }
{
    caller.task_enqueue(rt, queue, &args_of(place), attr, group)
}

/// The pieces of a node.
#[derive(Drop)]
pub struct Pieces<'a, L: Handed<J>, J: Piece> {
    pub(crate) shared: &'a Shared<L, J>,
}

impl<'a, L: Handed<J>, J: Piece> Pieces<'a, L, J> {
    /// Makes an action of this job whose tasks run pieces: of kind `echo`, for every worker.
    ///
    /// # Errors
    ///
    /// Those of `action_create`.
    pub fn action<R: Wait>(
        &self,
        rt: &R,
        caller: &mut Caller,
        job: u32,
    ) -> Result<ActionHandle, PieceRefusal>
        ensures called { Called mtapi_standard handle_told (ActionCreate job Echo every_worker) caller.old caller.new (with_handle_number (λ h. h.0) (told.with_status_alone result)) }
        ensures named { IfErr result (λ r. (r.call ≡ call.Action) × (r.place ≡ None)) }
    {
        named(make_action(rt, caller, job), PieceCall::Action, None)
    }

    /// Starts a task of this job that runs the piece of this place. The job's action has to be one of `action`: a task of another kind runs no
    /// piece, and ends as its kind says.
    ///
    /// # Errors
    ///
    /// Those of `task_start`.
    pub fn start<R: Wait>(
        &self,
        rt: &R,
        caller: &mut Caller,
        place: u32,
        job: u32,
        attr: TaskAttr,
        group: Option<GroupHandle>,
    ) -> Result<TaskHandle, PieceRefusal>
        ensures called { Called mtapi_standard handle_told (start_of job (pos place ∷ []) attr group) caller.old caller.new (with_handle_number (λ h. h.0) (told.with_status_alone result)) }
        ensures named { IfErr result (λ r. (r.call ≡ call.Start) × (r.place ≡ Some place)) }
    {
        let started = start_place(rt, caller, place, job, attr, group);
        named(started, PieceCall::Start, Some(place))
    }

    /// Puts a task into a queue that runs the piece of this place. The action of the queue's job has to be one of `action`: a task of another
    /// kind runs no piece, and ends as its kind says.
    ///
    /// # Errors
    ///
    /// Those of `task_enqueue`.
    pub fn enqueue<R: Wait>(
        &self,
        rt: &R,
        caller: &mut Caller,
        place: u32,
        queue: QueueHandle,
        attr: TaskAttr,
        group: Option<GroupHandle>,
    ) -> Result<TaskHandle, PieceRefusal>
        ensures called { Called mtapi_standard handle_told (enqueue_of queue (pos place ∷ []) attr group) caller.old caller.new (with_handle_number (λ h. h.0) (told.with_status_alone result)) }
        ensures named { IfErr result (λ r. (r.call ≡ call.Enqueue) × (r.place ≡ Some place)) }
    {
        let enqueued = enqueue_place(rt, caller, place, queue, attr, group);
        named(enqueued, PieceCall::Enqueue, Some(place))
    }

    /// Cancels this task, which runs the piece of this place: if it hasn't begun, it won't, and the piece isn't run; if it runs, the piece sees
    /// it by `TaskContext::should_cancel`, and the task completes with what it gives then; if it has ended, it stays as it is.
    ///
    /// # Errors
    ///
    /// Those of `task_cancel`. The piece sees nothing of it then.
    #[tactic(auto, using(crate::proofs::Cancels::has_cancelled))]
    pub fn cancel<R: Wait>(
        &self,
        rt: &R,
        caller: &mut Caller,
        place: u32,
        task: TaskHandle,
    ) -> Result<(), PieceRefusal>
        ensures called { Called mtapi_standard done (TaskCancel task) caller.old caller.new (told.with_status_alone result) }
        ensures named { IfErr result (λ r. (r.call ≡ call.Cancel) × (r.place ≡ Some place)) }
    {
        named(caller.task_cancel(rt, task), PieceCall::Cancel, Some(place))?;
        let _ = self.shared.cancels.add(rt, place as usize, caller, task);
        Ok(())
    }

    /// Waits until a task of this group has ended, and gives the place of its piece: each task once, in the order of their ends. It is `None` if
    /// the task was cancelled before it began, or has other arguments than one place. Of a task of another kind than `echo`, whose piece wasn't
    /// run, it may be any number that the kind answers.
    ///
    /// # Errors
    ///
    /// Those of `group_wait_any`.
    pub fn wait_any<R: Wait>(
        &self,
        rt: &R,
        caller: &mut Caller,
        group: GroupHandle,
        timeout: Timeout,
    ) -> Result<Option<u32>, PieceRefusal>
        ensures called { Waited mtapi_standard told.first_place (FirstMember group) (looks_of timeout) caller.old caller.new (told.with_status_alone result) }
        ensures named { IfErr result (λ r. (r.call ≡ call.WaitAny) × (r.place ≡ None)) }
    {
        let place = place_alone(caller.group_wait_any(rt, group, timeout));
        named(place, PieceCall::WaitAny, None)
    }

    /// Takes the result of this place while the node runs, if its piece has run. It is none of the results in the end.
    pub fn take_done<R: Wait>(&self, rt: &R, place: u32) -> Option<J::Done>
        ensures { IfSome result (λ d. ∥ IsKeptAt J.promise L.pieces place d ∥₁) }
    {
        self.shared.table.lock(rt).results.take(place as usize)
    }
}
