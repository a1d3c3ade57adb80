//! Which parts a settled workload may have.
ghost use Rattle.std.specs.Prelude.{◌≡◌, ◌++◌, [], ◌&&◌, not};
ghost use Rattle.std.specs.List.{list_any, list_all};
ghost use Rattle.workload_file.specs.Deeds.{is_begin};
ghost use Rattle.settled_runs.specs.Plain.{actions_in};
ghost use Rattle.settled_runs.specs.Settled.{are_settled, sets_up, set_up, sets_up_first, is_settled_further, is_settled_part, are_settled_parts};

use crate::deeds::is_settled_deed;
use mtapi_values::NodeAttr;
use workload_file::{Deed, Part, Statement};

// Whether each of these statements of a part is one that a settled workload may have.
fn are_settled(settings: &NodeAttr, earlier: &[Statement], all: &[Statement]) -> bool
    ensures { are_settled settings.now (actions_in earlier.now) all.now [] all.now ≡ result }
{
    for (i, s) in all.iter().enumerate() {
        if !is_settled_deed(settings, earlier, &all[..i], all, &s.deed) {
            return false;
        }
    }
    true
}

fn sets_up(deed: &Deed) -> bool
    ensures { result ≡ sets_up deed.now }
{
    matches!(deed, Deed::Action { .. } | Deed::Queue { .. })
}

fn set_up(statements: &[Statement]) -> bool
    ensures { result ≡ set_up statements.now }
{
    statements.iter().any(|s| sets_up(&s.deed))
}

#[tactic(auto, unfolding(workload_file::specs::Deeds::is_begin))]
fn is_begin(deed: &Deed) -> bool
    ensures { result ≡ is_begin deed.now }
{
    matches!(deed, Deed::Begin)
}

// Whether one of these statements is `begin`, and none behind it makes an action or a queue.
fn sets_up_first(statements: &[Statement]) -> bool
    ensures { sets_up_first statements.now ≡ result }
{
    for (i, s) in statements.iter().enumerate() {
        if is_begin(&s.deed) {
            return !set_up(&statements[i + 1..]);
        }
    }
    false
}

fn is_settled_further(settings: &NodeAttr, first: &Part, part: &Part) -> bool
    ensures { result ≡ is_settled_further settings.now (actions_in first.now.statements) part.now }
{
    !set_up(part.statements.as_slice())
        && are_settled(
            settings,
            first.statements.as_slice(),
            part.statements.as_slice(),
        )
}

fn all_further(settings: &NodeAttr, first: &Part, parts: &[Part]) -> bool
    ensures { result ≡ list_all (is_settled_further settings.now (actions_in first.now.statements)) parts.now }
{
    parts.iter().all(|p| is_settled_further(settings, first, p))
}

/// Whether these are the parts of a settled workload, each looked at alone.
pub fn are_settled_parts(settings: &NodeAttr, parts: &[Part]) -> bool
    ensures { result ≡ are_settled_parts settings.now parts.now }
{
    match parts {
        [] => false,
        [only] => are_settled(settings, &[], only.statements.as_slice()),
        [first, rest @ ..] => {
            sets_up_first(first.statements.as_slice())
                && are_settled(settings, &[], first.statements.as_slice())
                && all_further(settings, first, rest)
        }
    }
}
