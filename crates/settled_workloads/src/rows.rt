//! What the statements of a workload ask for.
ghost use Rattle.std.specs.Prelude.{◌≡◌};
ghost use Rattle.std.specs.Option.{option_map};
ghost use Rattle.action_fn.specs.Answers.{is_pure};
ghost use Rattle.settled_runs.specs.Plain.{action_in, queue_in, queue_at, task_in};
ghost use Rattle.settled_workloads.specs.Rows.{action_row, queue_row, row_task, fault_by, kind_found};

use action_fn::{ActEnd, answer_of};
use mtapi_values::{Args, Kind, Mask, MtapiStatus};
use workload_file::{Deed, Statement};

/// An action: its job, its kind, and the cores that may run it.
#[derive(Clone, Copy, Drop)]
pub struct ActionRow {
    pub job: u32,
    pub kind: Kind,
    pub cores: Mask,
}

/// A queue: its id, how many tasks it holds at most, and the job and the priority of its tasks.
#[derive(Clone, Copy, Drop)]
pub struct QueueRow {
    pub id: u32,
    pub job: u32,
    pub priority: u32,
    pub limit: u32,
}

/// A task that is asked for. The group and the queue are places of statements.
#[derive(Clone, Copy, Drop)]
pub struct TaskRow<'a> {
    pub job: u32,
    pub args: &'a Args,
    pub priority: u32,
    pub cores: Mask,
    pub detached: bool,
    pub group: Option<u32>,
    pub queue: Option<u32>,
}

/// The action that a statement makes.
pub fn action_in(deed: &Deed) -> Option<ActionRow>
    ensures { action_row result ≡ action_in deed.now }
{
    match deed {
        Deed::Action { job, kind, cores } => Some(ActionRow {
            job: *job,
            kind: *kind,
            cores: *cores,
        }),
        _ => None,
    }
}

/// The queue that a statement makes.
pub fn queue_in(deed: &Deed) -> Option<QueueRow>
    ensures { result ≡ option_map queue_row (queue_in deed.now) }
{
    match deed {
        Deed::Queue {
            id,
            job,
            priority,
            limit,
            ..
        } => Some(QueueRow {
            id: *id,
            job: *job,
            priority: *priority,
            limit: *limit,
        }),
        _ => None,
    }
}

/// The queue that the statement at this place makes.
pub fn queue_at(statements: &[Statement], place: u32) -> Option<QueueRow>
    ensures { result ≡ option_map queue_row (queue_at statements.now place) }
{
    match statements.get(place as usize) {
        Some(statement) => queue_in(&statement.deed),
        None => None,
    }
}

fn enqueued<'a>(
    statements: &[Statement],
    queue: u32,
    args: &'a Args,
    cores: Mask,
    detached: bool,
    group: Option<u32>,
) -> Option<TaskRow<'a>>
    ensures { option_map row_task result ≡ option_map (λ q. record { job = q.job; args = args.now; priority = q.priority; cores = cores.0; detached = detached; group = group; queue = Some queue }) (queue_at statements.now queue) }
{
    match queue_at(statements, queue) {
        Some(row) => Some(TaskRow {
            job: row.job,
            args,
            priority: row.priority,
            cores,
            detached,
            group,
            queue: Some(queue),
        }),
        None => None,
    }
}

/// The task that a statement asks for, of the statements of its part.
#[tactic(auto, unfolding(settled_runs::specs::Plain::task_in))]
pub fn task_in<'a>(statements: &[Statement], deed: &'a Deed) -> Option<TaskRow<'a>>
    ensures { option_map row_task result ≡ task_in statements.now deed.now }
{
    match deed {
        Deed::Start {
            job,
            args,
            priority,
            cores,
            detached,
            group,
        } => Some(TaskRow {
            job: *job,
            args,
            priority: *priority,
            cores: *cores,
            detached: *detached,
            group: *group,
            queue: None,
        }),
        Deed::Enqueue {
            queue,
            args,
            cores,
            detached,
            group,
        } => enqueued(statements, *queue, args, *cores, *detached, *group),
        _ => None,
    }
}

/// The kind of the first of these actions that has the job.
pub fn kind_of(actions: &[ActionRow], job: u32) -> Option<Kind>
    ensures { result ≡ kind_found job actions.now }
{
    for action in actions {
        if action.job == job {
            return Some(action.kind);
        }
    }
    None
}

/// Whether the answers of a kind depend on its arguments alone.
#[tactic(auto, unfolding(action_fn::specs::Answers::answer_of))]
pub fn is_pure(kind: Kind) -> bool
    ensures { result ≡ is_pure kind }
{
    !matches!(kind, Kind::Watch | Kind::Tally)
}

/// The status of what a kind answers to these arguments, where that isn't completed.
#[tactic(auto, using(crate::proofs::Actions::not_pure))]
pub fn fault_by(kind: Kind, args: &Args) -> Option<MtapiStatus>
    ensures { result ≡ fault_by kind args.now }
{
    if !is_pure(kind) {
        return Some(MtapiStatus::ErrActionFailed);
    }
    match answer_of(kind, args) {
        ActEnd::Done(_) => None,
        ActEnd::Fails(status) => Some(status),
    }
}
