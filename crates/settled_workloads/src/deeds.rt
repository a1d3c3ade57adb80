//! Which statements a settled workload may have.
ghost use Rattle.std.specs.Prelude.{◌≡◌, ◌<◌, ◌≤◌, ◌++◌, ◌==◌, ◌&&◌, List, option_and_then, slice_get, not};
ghost use Rattle.std.specs.List.{list_any};
ghost use Rattle.std.specs.Option.{option_map};
ghost use Rattle.mtapi_values.specs.Conditions.{holds};
ghost use Rattle.mtapi_values.specs.Masks.{in_mask};
ghost use Rattle.action_fn.specs.Answers.{is_pure};
ghost use Rattle.mtapi_objects.specs.Actions.{is_eligible, has_job};
ghost use Rattle.settled_runs.specs.Plain.{action_in, actions_in, task_in};
ghost use Rattle.settled_runs.specs.Settled.{serves, is_startable, is_infinite, is_alone, waits_for, is_settled_deed};
ghost use Rattle.settled_workloads.specs.Rows.{row_task};

use crate::rows::{TaskRow, action_in, is_pure, task_in};
use mtapi_values::{Mask, NodeAttr, Timeout};
use workload_file::{Deed, Statement};

fn in_mask(core: u32, mask: Mask) -> bool
    requires { core < 64 }
    ensures { result ≡ in_mask core mask.0 }
{
    mask.0 >> core & 1 == 1
}

// Whether the action that a statement makes, if any, may run such a task on this worker.
fn serves_here(workers: u32, worker: u32, job: u32, cores: Mask, deed: &Deed) -> bool
    requires { worker < 64 }
    ensures { result ≡ list_any (is_eligible workers worker job cores.0) (action_in deed.now) }
{
    match action_in(deed) {
        Some(action) => {
            action.job == job
                && worker < workers
                && in_mask(worker, action.cores)
                && in_mask(worker, cores)
        }
        None => false,
    }
}

fn any_serves_here(
    workers: u32,
    worker: u32,
    job: u32,
    cores: Mask,
    statements: &[Statement],
) -> bool
    requires { worker < 64 }
    ensures { result ≡ list_any (λ s. list_any (is_eligible workers worker job cores.0) (action_in s.deed)) statements.now }
{
    statements
        .iter()
        .any(|s| serves_here(workers, worker, job, cores, &s.deed))
}

// The same of one of the actions that these statements make.
fn any_serves(workers: u32, worker: u32, job: u32, cores: Mask, statements: &[Statement]) -> bool
    requires { worker < 64 }
    ensures { list_any (is_eligible workers worker job cores.0) (actions_in statements.now) ≡ result }
{
    any_serves_here(workers, worker, job, cores, statements)
}

// The same of one of those that the earlier statements or these make.
#[tactic(auto, using(crate::proofs::Actions::any_both))]
fn serves_on(
    workers: u32,
    worker: u32,
    job: u32,
    cores: Mask,
    earlier: &[Statement],
    before: &[Statement],
) -> bool
    requires { worker < 64 }
    ensures { list_any (is_eligible workers worker job cores.0) (actions_in earlier.now ++ actions_in before.now) ≡ result }
{
    any_serves(workers, worker, job, cores, earlier)
        || any_serves(workers, worker, job, cores, before)
}

// Whether some worker may take such a task by one of the actions that these statements make.
#[tactic(auto, using(crate::proofs::Actions::below_next))]
fn serves(workers: u32, job: u32, cores: Mask, earlier: &[Statement], before: &[Statement]) -> bool
    requires { workers ≤ 64 }
    ensures { serves workers (actions_in earlier.now ++ actions_in before.now) job cores.0 ≡ result }
{
    for worker in 0..workers {
        if serves_on(workers, worker, job, cores, earlier, before) {
            return true;
        }
    }
    false
}

// Whether a task may be started behind these statements.
fn is_startable(
    settings: &NodeAttr,
    earlier: &[Statement],
    before: &[Statement],
    task: Option<TaskRow>,
) -> bool
    ensures { result ≡ is_startable settings.now (actions_in earlier.now ++ actions_in before.now) (option_map row_task task.entry) }
{
    match task {
        Some(row) => {
            !row.detached
                && row.priority < settings.priorities()
                && serves(settings.workers(), row.job, row.cores, earlier, before)
        }
        None => false,
    }
}

fn is_infinite(timeout: Timeout) -> bool
    ensures { result ≡ is_infinite timeout }
{
    matches!(timeout, Timeout::Infinite)
}

fn has_job(job: u32, deed: &Deed) -> bool
    ensures { result ≡ list_any (has_job job) (action_in deed.now) }
{
    match action_in(deed) {
        Some(action) => action.job == job,
        None => false,
    }
}

fn any_has_job_here(job: u32, statements: &[Statement]) -> bool
    ensures { result ≡ list_any (λ s. list_any (has_job job) (action_in s.deed)) statements.now }
{
    statements.iter().any(|s| has_job(job, &s.deed))
}

fn any_has_job(job: u32, statements: &[Statement]) -> bool
    ensures { list_any (has_job job) (actions_in statements.now) ≡ result }
{
    any_has_job_here(job, statements)
}

#[tactic(auto, using(crate::proofs::Actions::any_both))]
fn is_job_there(job: u32, earlier: &[Statement], before: &[Statement]) -> bool
    ensures { list_any (has_job job) (actions_in earlier.now ++ actions_in before.now) ≡ result }
{
    any_has_job(job, earlier) || any_has_job(job, before)
}

// Whether the statement at this place asks for a task that is in no group.
fn is_alone(all: &[Statement], place: u32) -> bool
    ensures { result ≡ is_alone (option_and_then (λ s. task_in all.now s.deed) (slice_get all.now place)) }
{
    match all.get(place as usize) {
        Some(statement) => match task_in(all, &statement.deed) {
            Some(row) => row.group.is_none(),
            None => false,
        },
        None => false,
    }
}

fn waits_for(place: u32, deed: &Deed) -> bool
    ensures { result ≡ waits_for place deed.now }
{
    match deed {
        Deed::Wait { place: other, .. } => *other == place,
        _ => false,
    }
}

fn is_waited_for(place: u32, before: &[Statement]) -> bool
    ensures { result ≡ list_any (λ s. waits_for place s.deed) before.now }
{
    before.iter().any(|s| waits_for(place, &s.deed))
}

/// Whether a settled workload may have this statement behind those before it in its part, and behind the earlier ones of another part,
/// which make actions.
#[tactic(auto, unfolding(settled_runs::specs::Settled::is_settled_deed))]
pub fn is_settled_deed(
    settings: &NodeAttr,
    earlier: &[Statement],
    before: &[Statement],
    all: &[Statement],
    deed: &Deed,
) -> bool
    ensures { result ≡ is_settled_deed settings.now (actions_in earlier.now ++ actions_in before.now) before.now all.now deed.now }
{
    match deed {
        Deed::Begin | Deed::Group => true,
        Deed::Action { kind, .. } => is_pure(*kind),
        Deed::Queue { job, priority, .. } => {
            *priority < settings.priorities() && is_job_there(*job, earlier, before)
        }
        Deed::Start { .. } | Deed::Enqueue { .. } => {
            is_startable(settings, earlier, before, task_in(all, deed))
        }
        Deed::Wait { place, timeout } => {
            is_infinite(*timeout) && is_alone(all, *place) && !is_waited_for(*place, before)
        }
        Deed::WaitAll { timeout, .. } => is_infinite(*timeout),
        _ => false,
    }
}
