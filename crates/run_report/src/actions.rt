//! The live actions of a run.
ghost use Rattle.std.specs.Prelude.{◌≡◌, ◌≤◌, ◌<◌, ◌&&◌};
ghost use Rattle.std.specs.List.{list_any};
ghost use Rattle.mtapi_values.specs.Masks.{in_mask};
ghost use Rattle.mtapi_objects.specs.Actions.{some_below, has_worker, with_enabled};
ghost use Rattle.run_report.specs.Seen.{machine_action, live_pairs, with_action, without_action};
ghost use Rattle.run_report.specs.Standings.{can_run, place_of_action};

use crate::changes::LiveAction;
use mtapi_values::Mask;

fn has_both(a: Mask, b: Mask, core: u32) -> bool
    requires { core < 64 }
    ensures { result ≡ (in_mask core a.0 && in_mask core b.0) }
{
    a.0 >> core & 1 == 1 && b.0 >> core & 1 == 1
}

// Whether some core below this number is in both masks.
#[tactic(auto, using(crate::proofs::LiveActions::below_next))]
fn share_core(cores: u32, a: Mask, b: Mask) -> bool
    requires { cores ≤ 64 }
    ensures { some_below cores (λ w. in_mask w a.0 && in_mask w b.0) ≡ result }
{
    for core in 0..cores {
        if has_both(a, b, core) {
            return true;
        }
    }
    false
}

// Whether some worker may run a task of this job on these cores by the action.
fn can_run(workers: u32, job: u32, cores: Mask, action: &LiveAction) -> bool
    requires { workers ≤ 64 }
    ensures { result ≡ can_run workers job cores.0 (machine_action action.now) }
{
    action.enabled && action.job == job && share_core(workers, action.cores, cores)
}

fn some_can_run(workers: u32, job: u32, cores: Mask, actions: &[LiveAction]) -> bool
    requires { workers ≤ 64 }
    ensures { result ≡ list_any (λ a. can_run workers job cores.0 (machine_action a)) actions.now }
{
    actions.iter().any(|a| can_run(workers, job, cores, a))
}

/// Whether some worker has an eligible action for a task of this job on these cores. It walks the actions, and the workers at those
/// of the job that are enabled.
#[tactic(auto, using(crate::proofs::LiveActions::worker_by_actions))]
pub fn has_worker(workers: u32, job: u32, cores: Mask, actions: &[LiveAction]) -> bool
    requires { workers ≤ 64 }
    ensures { has_worker workers job cores.0 (live_pairs actions.now) ≡ result }
{
    some_can_run(workers, job, cores, actions)
}

#[tactic(auto, using(crate::proofs::LiveActions::place_found))]
fn place_of(actions: &[LiveAction], handle: u64) -> Option<usize>
    ensures { place_of_action handle actions.now ≡ result }
{
    for (i, action) in actions.iter().enumerate() {
        if action.handle == handle {
            return Some(i);
        }
    }
    None
}

/// Enables or disables the action of this handle, where it is there.
#[tactic(auto, using(crate::proofs::LiveActions::place_below, crate::proofs::LiveActions::place_set, crate::proofs::LiveActions::place_none_set))]
pub fn set_enabled(actions: &mut Vec<LiveAction>, handle: u64, enabled: bool)
    ensures { live_pairs actions.new.items ≡ with_action handle (with_enabled enabled) (live_pairs actions.old.items) }
{
    if let Some(place) = place_of(actions, handle) {
        actions[place].enabled = enabled;
    }
}

/// Takes the action of this handle out, where it is there.
#[tactic(auto, using(crate::proofs::LiveActions::place_below, crate::proofs::LiveActions::place_out, crate::proofs::LiveActions::place_none_out))]
pub fn take_out(actions: &mut Vec<LiveAction>, handle: u64)
    ensures { live_pairs actions.new.items ≡ without_action handle (live_pairs actions.old.items) }
{
    if let Some(place) = place_of(actions, handle) {
        actions.remove(place);
    }
}
