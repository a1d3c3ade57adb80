//! What a settled workload keeps as a whole.
ghost use Rattle.std.specs.Prelude.{◌≡◌, ◌++◌, ◌==◌, ◌&&◌, ◌||◌, not, nat_le, nat_lt, map, [], IfOk, OnOk};
ghost use Rattle.std.specs.List.{list_any, list_all, flat_map};
ghost use Rattle.std.specs.Option.{option_to_list};
ghost use Rattle.mtapi_values.specs.Conditions.{holds};
ghost use Rattle.mtapi_values.specs.Statuses.{mtapi_number};
ghost use Rattle.mtapi_objects.specs.Tasks.{kind_number};
ghost use Rattle.handle_pool.specs.Issued.{how_many};
ghost use Rattle.settled_runs.specs.Plain.{action_in, actions_in, all_statements, queue_in, task_in};
ghost use Rattle.settled_runs.specs.Settled.{is_settled, are_alike, has_one_kind_a_job, has_different_ids, has_room, keep_limits, deed_puts_into, fault_in, have_one_fault_a_group, has_one_fault_a_group};
ghost use Rattle.settled_workloads.specs.Rows.{row_action, first_is_alike, id_in, ids_of, first_differs, differ, first_agrees};
ghost use Rattle.settled_workloads.specs.Made.{makes_made};

use crate::parts::are_settled_parts;
use crate::rows::{ActionRow, action_in, fault_by, kind_of, queue_in, task_in};
use mtapi_values::{Kind, MtapiStatus, NodeAttr};
use std::alloc::{AllocError, Global};
use workload_file::{Deed, Part, Statement, Workload};

// Puts the action that a statement makes, if any, behind the others.
fn push_action(rows: &mut Vec<ActionRow>, deed: &Deed) -> Result<(), AllocError>
    ensures { OnOk result (map row_action rows.new.items ≡ map row_action rows.old.items ++ action_in deed.now) }
{
    match action_in(deed) {
        Some(row) => {
            rows.push(row)?;
            Ok(())
        }
        None => Ok(()),
    }
}

// Puts the actions that these statements make behind the others.
fn push_actions(rows: &mut Vec<ActionRow>, statements: &[Statement]) -> Result<(), AllocError>
    ensures { OnOk result (map row_action rows.new.items ≡ map row_action rows.old.items ++ actions_in statements.now) }
{
    for s in statements {
        push_action(rows, &s.deed)?;
    }
    Ok(())
}

// The actions that the statements of these parts make.
fn all_actions(alloc: Global, parts: &[Part]) -> Result<Vec<ActionRow>, AllocError>
    ensures { IfOk result (λ rows. map row_action rows.items ≡ actions_in (flat_map (λ p. p.statements) parts.now)) }
{
    let mut rows = Vec::new(alloc);
    for part in parts {
        push_actions(&mut rows, part.statements.as_slice())?;
    }
    Ok(rows)
}

#[tactic(auto, unfolding(mtapi_objects::specs::Tasks::kind_number))]
fn kind_number(kind: Kind) -> u32
    ensures { result ≡ kind_number kind }
{
    match kind {
        Kind::Add => 1,
        Kind::Mul => 2,
        Kind::Max => 3,
        Kind::Div => 4,
        Kind::Gcd => 5,
        Kind::Echo => 6,
        Kind::Triangle => 7,
        Kind::Fail => 8,
        Kind::Watch => 9,
        Kind::Tally => 10,
    }
}

fn are_alike(a: &ActionRow, b: &ActionRow) -> bool
    ensures { result ≡ are_alike (row_action a.now) (row_action b.now) }
{
    a.job != b.job || kind_number(a.kind) == kind_number(b.kind)
}

fn alike_all(row: &ActionRow, rest: &[ActionRow]) -> bool
    ensures { result ≡ list_all (λ r. are_alike (row_action row.now) (row_action r)) rest.now }
{
    rest.iter().all(|r| are_alike(row, r))
}

fn first_is_alike(rows: &[ActionRow]) -> bool
    ensures { result ≡ first_is_alike rows.now }
{
    match rows {
        [] => true,
        [row, rest @ ..] => alike_all(row, rest),
    }
}

// Whether two actions of one job have one kind.
fn has_one_kind_a_job(rows: &[ActionRow]) -> bool
    ensures { has_one_kind_a_job (map row_action rows.now) ≡ result }
{
    for (i, _) in rows.iter().enumerate() {
        if !first_is_alike(&rows[i..]) {
            return false;
        }
    }
    true
}

// Puts the id of the queue that a statement makes, if any, behind the others.
fn push_id(ids: &mut Vec<u32>, deed: &Deed) -> Result<(), AllocError>
    ensures { OnOk result (ids.new.items ≡ ids.old.items ++ id_in (queue_in deed.now)) }
{
    match queue_in(deed) {
        Some(queue) => {
            ids.push(queue.id)?;
            Ok(())
        }
        None => Ok(()),
    }
}

// Puts the ids of the queues that these statements make behind the others.
fn push_ids(ids: &mut Vec<u32>, statements: &[Statement]) -> Result<(), AllocError>
    ensures { OnOk result (ids.new.items ≡ ids.old.items ++ ids_of statements.now) }
{
    for s in statements {
        push_id(ids, &s.deed)?;
    }
    Ok(())
}

// The ids of the queues that the statements of these parts make.
fn all_ids(alloc: Global, parts: &[Part]) -> Result<Vec<u32>, AllocError>
    ensures { IfOk result (λ ids. ids.items ≡ ids_of (flat_map (λ p. p.statements) parts.now)) }
{
    let mut ids = Vec::new(alloc);
    for part in parts {
        push_ids(&mut ids, part.statements.as_slice())?;
    }
    Ok(ids)
}

fn is_among(id: u32, ids: &[u32]) -> bool
    ensures { result ≡ list_any (λ other. other == id) ids.now }
{
    ids.iter().any(|other| *other == id)
}

fn first_differs(ids: &[u32]) -> bool
    ensures { result ≡ first_differs ids.now }
{
    match ids {
        [] => true,
        [id, rest @ ..] => !is_among(*id, rest),
    }
}

// Whether the ids differ.
fn differ(ids: &[u32]) -> bool
    ensures { differ ids.now ≡ result }
{
    for (i, _) in ids.iter().enumerate() {
        if !first_differs(&ids[i..]) {
            return false;
        }
    }
    true
}

/// What a statement makes, of which there is room for so many.
#[derive(Clone, Copy, Drop)]
pub enum Made {
    Action,
    Group,
    Queue,
    Task,
}

fn makes(made: Made, deed: &Deed) -> bool
    ensures { result ≡ makes_made made deed.now }
{
    match made {
        Made::Action => matches!(deed, Deed::Action { .. }),
        Made::Group => matches!(deed, Deed::Group),
        Made::Queue => matches!(deed, Deed::Queue { .. }),
        Made::Task => matches!(deed, Deed::Start { .. } | Deed::Enqueue { .. }),
    }
}

#[tactic(auto, using(crate::proofs::Loops::how_many_is))]
fn count_made(made: Made, statements: &[Statement]) -> usize
    ensures { result ≡ how_many (λ s. makes_made made s.deed) statements.now }
{
    statements.iter().filter(|s| makes(made, &s.deed)).count()
}

// Whether the statements of these parts make at most so many.
fn makes_at_most(made: Made, most: u32, parts: &[Part]) -> bool
    ensures { nat_le (how_many (λ s. makes_made made s.deed) (flat_map (λ p. p.statements) parts.now)) most ≡ result }
{
    let mut left = most as usize;
    for part in parts {
        let count = count_made(made, part.statements.as_slice());
        if left < count {
            return false;
        }
        left -= count;
    }
    true
}

fn has_room(settings: &NodeAttr, parts: &[Part]) -> bool
    ensures { result ≡ has_room settings.now (flat_map (λ p. p.statements) parts.now) }
{
    makes_at_most(Made::Action, settings.actions(), parts)
        && makes_at_most(Made::Group, settings.groups(), parts)
        && makes_at_most(Made::Queue, settings.queues(), parts)
        && makes_at_most(Made::Task, settings.tasks(), parts)
}

fn puts_into(place: usize, deed: &Deed) -> bool
    ensures { result ≡ deed_puts_into place deed.now }
{
    match deed {
        Deed::Enqueue { queue, .. } => *queue as usize == place,
        _ => false,
    }
}

#[tactic(auto, using(crate::proofs::Loops::how_many_is))]
fn count_put(place: usize, statements: &[Statement]) -> usize
    ensures { result ≡ how_many (λ s. deed_puts_into place s.deed) statements.now }
{
    statements
        .iter()
        .filter(|s| puts_into(place, &s.deed))
        .count()
}

fn is_over(all: &[Statement], place: usize, deed: &Deed) -> bool
    ensures { result ≡ holds (λ q. nat_lt q.limit (how_many (λ e. deed_puts_into place e.deed) all.now)) (queue_in deed.now) }
{
    match queue_in(deed) {
        Some(queue) => (queue.limit as usize) < count_put(place, all),
        None => false,
    }
}

// Whether no queue of a part gets more tasks than its limit.
fn keep_limits(all: &[Statement]) -> bool
    ensures { keep_limits all.now 0 all.now ≡ result }
{
    for (place, s) in all.iter().enumerate() {
        if is_over(all, place, &s.deed) {
            return false;
        }
    }
    true
}

fn all_keep_limits(parts: &[Part]) -> bool
    ensures { result ≡ list_all (λ p. keep_limits p.statements 0 p.statements) parts.now }
{
    parts.iter().all(|p| keep_limits(p.statements.as_slice()))
}

// The fault of a statement's task, with its group, where there are both.
#[tactic(auto, unfolding(settled_runs::specs::Plain::plain_fault, settled_runs::specs::Plain::plain_end), using(crate::proofs::Loops::kind_is_found))]
fn fault_in(rows: &[ActionRow], all: &[Statement], deed: &Deed) -> Option<(u32, MtapiStatus)>
    ensures { option_to_list result ≡ fault_in (map row_action rows.now) (task_in all.now deed.now) }
{
    let task = task_in(all, deed)?;
    let group = task.group?;
    let kind = kind_of(rows, task.job)?;
    let fault = fault_by(kind, task.args)?;
    Some((group, fault))
}

// Puts the fault of a statement's task, if any, behind the others.
fn push_fault(
    faults: &mut Vec<(u32, MtapiStatus)>,
    rows: &[ActionRow],
    all: &[Statement],
    deed: &Deed,
) -> Result<(), AllocError>
    ensures { OnOk result (faults.new.items ≡ faults.old.items ++ fault_in (map row_action rows.now) (task_in all.now deed.now)) }
{
    match fault_in(rows, all, deed) {
        Some(fault) => {
            faults.push(fault)?;
            Ok(())
        }
        None => Ok(()),
    }
}

// The faults of the tasks of a part that are in groups.
fn faults_in(
    alloc: Global,
    rows: &[ActionRow],
    all: &[Statement],
) -> Result<Vec<(u32, MtapiStatus)>, AllocError>
    ensures { IfOk result (λ v. v.items ≡ flat_map (λ s. fault_in (map row_action rows.now) (task_in all.now s.deed)) all.now) }
{
    let mut faults = Vec::new(alloc);
    for s in all {
        push_fault(&mut faults, rows, all, &s.deed)?;
    }
    Ok(faults)
}

fn agree(fault: (u32, MtapiStatus), rest: &[(u32, MtapiStatus)]) -> bool
    ensures { result ≡ list_all (λ y. not (fault.0 == y.0) || (mtapi_number fault.1 == mtapi_number y.1)) rest.now }
{
    rest.iter()
        .all(|y| fault.0 != y.0 || fault.1.number() == y.1.number())
}

fn first_agrees(faults: &[(u32, MtapiStatus)]) -> bool
    ensures { result ≡ first_agrees faults.now }
{
    match faults {
        [] => true,
        [fault, rest @ ..] => agree(*fault, rest),
    }
}

// Whether the faults of a group have one status.
fn have_one_fault_a_group(faults: &[(u32, MtapiStatus)]) -> bool
    ensures { have_one_fault_a_group faults.now ≡ result }
{
    for (i, _) in faults.iter().enumerate() {
        if !first_agrees(&faults[i..]) {
            return false;
        }
    }
    true
}

fn has_one_fault_a_group(alloc: Global, rows: &[ActionRow], part: &Part) -> Result<bool, AllocError>
    ensures { IfOk result (λ one. one ≡ has_one_fault_a_group (map row_action rows.now) part.now) }
{
    let faults = faults_in(alloc, rows, part.statements.as_slice())?;
    Ok(have_one_fault_a_group(&faults))
}

// Whether this is so of each part.
fn all_have_one_fault(alloc: Global, rows: &[ActionRow], parts: &[Part]) -> Result<bool, AllocError>
    ensures { IfOk result (λ one. list_all (has_one_fault_a_group (map row_action rows.now)) parts.now ≡ one) }
{
    for part in parts {
        if !has_one_fault_a_group(alloc, rows, part)? {
            return Ok(false);
        }
    }
    Ok(true)
}

/// Whether a workload is settled: every run of it has the same report, whatever the order of its calls. It fails for want of memory alone.
#[tactic(auto, unfolding(settled_runs::specs::Settled::is_settled), using(crate::proofs::Loops::ids_differ))]
pub fn is_settled(alloc: Global, load: &Workload) -> Result<bool, AllocError>
    ensures { IfOk result (λ settled. settled ≡ is_settled load.now) }
{
    let parts = load.parts.as_slice();
    if !has_room(&load.settings, parts) || !are_settled_parts(&load.settings, parts) {
        return Ok(false);
    }
    let rows = all_actions(alloc, parts)?;
    let ids = all_ids(alloc, parts)?;
    if !has_one_kind_a_job(&rows) || !differ(&ids) || !all_keep_limits(parts) {
        return Ok(false);
    }
    all_have_one_fault(alloc, &rows, parts)
}
