//! The conditions by which the machine refuses a call, in words. Nothing here is promised.
use crate::case::{Case, kind_text, line_of, most_of, object_text, seat_text};
use crate::handles::{holding, liveness, progress};
use crate::traces::phases_before;
use journal_text::{NodeObject, object_named};
use mtapi_layouts::answered_kind;
use mtapi_machine::Op;
use mtapi_values::{GroupHandle, MrapiStatus, MtapiStatus, ObjectKind};
use std::alloc::AllocError;

// The id that a call names.
fn id_of(op: &Op) -> u32 {
    match op {
        Op::QueueCreate { id, .. } | Op::QueueGet { id } => *id,
        Op::MutexCreate { id, .. } | Op::MutexGet { id } => *id,
        Op::SemCreate { id, .. } | Op::SemGet { id } => *id,
        Op::RwlCreate { id, .. } | Op::RwlGet { id } => *id,
        Op::ShmemCreate { id, .. } | Op::ShmemGet { id } => *id,
        _ => 0,
    }
}

fn kind_of(op: &Op) -> &'static str {
    match answered_kind(op) {
        Some(kind) => kind_text(kind),
        None => "object",
    }
}

fn text(case: &Case, words: &str) -> Result<String, AllocError> {
    String::from_str(case.alloc, words)
}

// The object that the call names, as it is written.
fn named(case: &Case) -> Result<String, AllocError> {
    match object_named(&case.given.op) {
        Some(object) => object_text(case, object),
        None => text(case, "the object"),
    }
}

fn with_named(case: &Case, words: &str) -> Result<String, AllocError> {
    let name = named(case)?;
    format!(in case.alloc; "{name} {words}")
}

fn liveness_of_named(case: &Case) -> Result<String, AllocError> {
    match object_named(&case.given.op) {
        Some(object) => liveness(case, object),
        None => text(case, "there is no such object"),
    }
}

fn holding_of_named(case: &Case) -> Result<String, AllocError> {
    match object_named(&case.given.op) {
        Some(object) => holding(case, object),
        None => text(case, "it is held"),
    }
}

fn with_seat(case: &Case, words: &str) -> Result<String, AllocError> {
    let seat = seat_text(case, case.given.who)?;
    let name = named(case)?;
    format!(in case.alloc; "{seat} {words} {name}")
}

// In which phase the node is.
fn phase(case: &Case) -> Result<String, AllocError> {
    let phases = phases_before(case);
    let (words, number) = match (phases.finalized, phases.closed, phases.opened) {
        (Some(number), _, _) => ("the node was finalized", number),
        (None, Some(number), _) => ("the node is closing: it was closed", number),
        (None, None, Some(number)) => ("the node is open: it was initialized", number),
        (None, None, None) => return text(case, "the node isn't initialized"),
    };
    let line = line_of(case, number);
    format!(in case.alloc; "{words} in line {line}")
}

fn not_ended(case: &Case) -> Result<String, AllocError> {
    match &case.given.op {
        Op::Final => match phases_before(case).closed {
            Some(_) => text(case, "not each worker has stopped"),
            None => phase(case),
        },
        _ => phase(case),
    }
}

fn full(case: &Case, kind: ObjectKind) -> Result<String, AllocError> {
    let most = most_of(case, kind);
    let word = kind_text(kind);
    format!(in case.alloc; "there is no room for a further {word}: the node has room for {most}")
}

fn queue_full(case: &Case) -> Result<String, AllocError> {
    match &case.given.op {
        Op::TaskEnqueue { .. } => with_named(case, "has as many unended tasks as its limit"),
        _ => full(case, ObjectKind::Queue),
    }
}

fn group_liveness(case: &Case, group: Option<GroupHandle>) -> Result<String, AllocError> {
    match group {
        Some(group) => liveness(
            case,
            NodeObject {
                kind: ObjectKind::Group,
                handle: group.0,
            },
        ),
        None => liveness_of_named(case),
    }
}

fn group_invalid(case: &Case) -> Result<String, AllocError> {
    match &case.given.op {
        Op::TaskStart { group, .. } => group_liveness(case, *group),
        Op::TaskEnqueue { group, .. } => group_liveness(case, *group),
        _ => liveness_of_named(case),
    }
}

fn queue_invalid(case: &Case) -> Result<String, AllocError> {
    match &case.given.op {
        Op::QueueGet { id } => format!(in case.alloc; "no live queue has the id {id}"),
        _ => liveness_of_named(case),
    }
}

fn job_invalid(case: &Case) -> Result<String, AllocError> {
    match &case.given.op {
        Op::ActionCreate { job, .. } => format!(in case.alloc;
            "the job {job} is none of 1 to 65,535"
        ),
        Op::TaskStart { job, .. } | Op::QueueCreate { job, .. } | Op::JobGet { job } => {
            format!(in case.alloc; "no live action has the job {job}")
        }
        _ => with_named(case, "has a job that no live action has"),
    }
}

fn task_invalid(case: &Case) -> Result<String, AllocError> {
    match &case.given.op {
        Op::TaskLook { .. } | Op::TaskCancel { .. } => liveness_of_named(case),
        op => match object_named(op) {
            Some(object) => {
                let words = progress(case, object.handle)?;
                let seat = seat_text(case, case.given.who)?;
                format!(in case.alloc;
                    "{seat} runs no such task of this kind with these arguments: {words}"
                )
            }
            None => text(case, "there is no such task"),
        },
    }
}

// Which argument of a start is outside its range.
fn start_parameter(case: &Case, priority: u32) -> Result<String, AllocError> {
    let most = case.journal.settings.priorities();
    if priority >= most {
        return format!(in case.alloc; "the priority {priority} isn't below {most}");
    }
    text(case, "a task is detached and in a group")
}

fn queue_parameter(case: &Case, priority: u32, limit: u32) -> Result<String, AllocError> {
    let most = case.journal.settings.priorities();
    if priority >= most {
        return format!(in case.alloc; "the priority {priority} isn't below {most}");
    }
    format!(in case.alloc; "the limit {limit} is none of 1 to 65,536")
}

fn is_work(op: &Op) -> bool {
    matches!(
        op,
        Op::Pick
            | Op::Finish { .. }
            | Op::Asked { .. }
            | Op::WatchEnd { .. }
            | Op::TallyLock { .. }
            | Op::TallyRead { .. }
            | Op::TallyWrite { .. }
            | Op::TallyEnd { .. }
    )
}

fn work_parameter(case: &Case) -> Result<String, AllocError> {
    let seat = seat_text(case, case.given.who)?;
    if case.given.who >= case.journal.settings.workers() {
        return format!(in case.alloc; "{seat} is no worker");
    }
    match &case.given.op {
        Op::Pick => format!(in case.alloc; "{seat} runs a task that hasn't ended"),
        _ => with_named(case, "isn't at this step"),
    }
}

fn parameter(case: &Case) -> Result<String, AllocError> {
    if is_work(&case.given.op) {
        return work_parameter(case);
    }
    match &case.given.op {
        Op::TaskStart { priority, .. } => start_parameter(case, *priority),
        Op::TaskEnqueue { .. } => text(case, "a task is detached and in a group"),
        Op::QueueCreate {
            priority,
            limit,
            ..
        } => queue_parameter(case, *priority, *limit),
        Op::TaskLook { .. } => with_named(case, "is detached, or in a group"),
        _ => text(case, "an argument is outside its range"),
    }
}

fn timeout(case: &Case) -> Result<String, AllocError> {
    match &case.given.op {
        Op::AllLook { .. } => with_named(case, "has a member that hasn't ended"),
        Op::AnyLook { .. } => with_named(case, "has members, of which none has ended"),
        Op::TaskLook { task, .. } => progress(case, task.0),
        _ => holding_of_named(case),
    }
}

/// Why a call is answered that it isn't time yet.
pub(crate) fn pending(case: &Case) -> Result<String, AllocError> {
    match &case.given.op {
        Op::Enter => text(case, "main hasn't released"),
        Op::TallyLock { .. } => text(case, "another seat owns the mutex"),
        _ => timeout(case),
    }
}

/// The condition by which a call is refused with a status of MTAPI.
pub(crate) fn mtapi_condition(case: &Case, status: MtapiStatus) -> Result<String, AllocError> {
    match status {
        MtapiStatus::Timeout => timeout(case),
        MtapiStatus::GroupCompleted => with_named(case, "has no member left"),
        MtapiStatus::ErrParameter => parameter(case),
        MtapiStatus::ErrNodeInitialized => not_ended(case),
        MtapiStatus::ErrNodeNotinit => phase(case),
        MtapiStatus::ErrActionInvalid => liveness_of_named(case),
        MtapiStatus::ErrActionLimit => full(case, ObjectKind::Action),
        MtapiStatus::ErrActionDisabled => start_only(
            case,
            "each live action of the job is disabled",
        ),
        MtapiStatus::ErrJobInvalid => job_invalid(case),
        MtapiStatus::ErrNoCore => start_only(
            case,
            "no worker has an enabled action of the job for these cores",
        ),
        MtapiStatus::ErrTaskInvalid => task_invalid(case),
        MtapiStatus::ErrTaskLimit => full(case, ObjectKind::Task),
        MtapiStatus::ErrGroupInvalid => group_invalid(case),
        MtapiStatus::ErrGroupLimit => full(case, ObjectKind::Group),
        MtapiStatus::ErrQueueInvalid => queue_invalid(case),
        MtapiStatus::ErrQueueLimit => queue_full(case),
        MtapiStatus::ErrQueueDisabled => with_named(case, "is disabled, and doesn't retain"),
        MtapiStatus::ErrQueueExists => existing(case),
        MtapiStatus::ErrWaitPending => with_named(case, "is waited for by another caller"),
        _ => start_only(case, "it is refused"),
    }
}

// What a start is refused for; of a wait for a group, how a member ended.
fn start_only(case: &Case, words: &str) -> Result<String, AllocError> {
    match &case.given.op {
        Op::AllLook { .. } => with_named(
            case,
            "has members that ended so, and this one ended first of these",
        ),
        _ => text(case, words),
    }
}

fn existing(case: &Case) -> Result<String, AllocError> {
    let id = id_of(&case.given.op);
    let kind = kind_of(&case.given.op);
    format!(in case.alloc; "a live {kind} has the id {id}")
}

fn missing(case: &Case) -> Result<String, AllocError> {
    let id = id_of(&case.given.op);
    let kind = kind_of(&case.given.op);
    format!(in case.alloc; "no live {kind} has the id {id}")
}

fn resource_parameter(case: &Case) -> Result<String, AllocError> {
    if case.given.who < case.journal.settings.workers() {
        let seat = seat_text(case, case.given.who)?;
        return format!(in case.alloc; "{seat} is a worker, and callers alone may ask this");
    }
    match &case.given.op {
        Op::ShmemRead { cell, .. } | Op::ShmemWrite { cell, .. } => {
            let name = named(case)?;
            format!(in case.alloc; "{name} has no cell {cell}")
        }
        _ => text(
            case,
            "the limit, or the number of cells, is outside its range",
        ),
    }
}

fn attached(case: &Case) -> Result<String, AllocError> {
    match &case.given.op {
        Op::ShmemAttach { .. } => with_seat(case, "is attached already to"),
        _ => with_named(case, "has a seat attached"),
    }
}

/// The condition by which a call is refused with a status of MRAPI.
pub(crate) fn mrapi_condition(case: &Case, status: MrapiStatus) -> Result<String, AllocError> {
    match status {
        MrapiStatus::Timeout => timeout(case),
        MrapiStatus::ErrParameter => resource_parameter(case),
        MrapiStatus::ErrNodeNotinit => phase(case),
        MrapiStatus::ErrMutexInvalid
        | MrapiStatus::ErrSemInvalid
        | MrapiStatus::ErrRwlInvalid
        | MrapiStatus::ErrShmInvalid => liveness_of_named(case),
        MrapiStatus::ErrMutexIdInvalid
        | MrapiStatus::ErrSemIdInvalid
        | MrapiStatus::ErrRwlIdInvalid
        | MrapiStatus::ErrShmIdInvalid => missing(case),
        MrapiStatus::ErrMutexExists
        | MrapiStatus::ErrSemExists
        | MrapiStatus::ErrRwlExists
        | MrapiStatus::ErrShmExists => existing(case),
        MrapiStatus::ErrMutexLimit => full(case, ObjectKind::Mutex),
        MrapiStatus::ErrSemLimit => full(case, ObjectKind::Sem),
        MrapiStatus::ErrRwlLimit => full(case, ObjectKind::Rwl),
        MrapiStatus::ErrShmLimit => full(case, ObjectKind::Shmem),
        MrapiStatus::ErrMutexLocked | MrapiStatus::ErrSemLocked | MrapiStatus::ErrRwlLocked => {
            holding_of_named(case)
        }
        MrapiStatus::ErrMutexNotlocked | MrapiStatus::ErrSemNotlocked => {
            with_seat(case, "doesn't hold")
        }
        MrapiStatus::ErrRwlNotlocked => with_seat(case, "doesn't hold in this mode"),
        MrapiStatus::ErrMutexKey => text(case, "the key is 0, or above the depth of the lock"),
        MrapiStatus::ErrMutexLockorder => text(case, "the key is below the depth of the lock"),
        MrapiStatus::ErrShmAttached => attached(case),
        MrapiStatus::ErrShmNotattached => with_seat(case, "isn't attached to"),
        _ => text(case, "it is refused"),
    }
}
