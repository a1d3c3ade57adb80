//! What became of an object. Nothing here is promised.
use crate::case::{Case, kind_text, line_of, names_kind, object_text, seat_text};
use crate::picks::standings_before;
use crate::traces::{Trace, trace_of};
use journal_text::{NodeObject, end_word};
use mtapi_machine::Op;
use mtapi_values::ObjectKind;
use std::alloc::AllocError;

// How the call of an entry makes a task stop being live.
fn task_left(op: &Op) -> &'static str {
    match op {
        Op::TaskLook { .. } => "a wait for it returned",
        Op::AllLook { .. } => "it was freed with its group's members",
        Op::AnyLook { .. } => "it was given out of its group",
        Op::TaskCancel { .. } => "it was detached, and was cancelled",
        Op::GroupDelete { .. } => "its group was deleted, and it had ended",
        _ => "it was detached, and ended",
    }
}

fn left_words(case: &Case, kind: ObjectKind, number: u64) -> &'static str {
    if kind != ObjectKind::Task {
        return "it was deleted";
    }
    let place = number.saturating_sub(1) as usize;
    match case.journal.entries.shorts().get(place) {
        Some(short) => task_left(&short.full().op),
        None => "it ended",
    }
}

/// Why a handle names no live object of its kind, or where that was made.
pub(crate) fn liveness(case: &Case, object: NodeObject) -> Result<String, AllocError> {
    let name = object_text(case, object)?;
    let kind = kind_text(object.kind);
    if !names_kind(case, object) {
        return format!(in case.alloc;
            "the handle is of no {kind}: it names another kind of object, or none"
        );
    }
    let trace = trace_of(case, object)?;
    match (trace.made, trace.gone) {
        (None, _) => format!(in case.alloc;
            "{name} is no live {kind}: none was made with this handle"
        ),
        (Some(_), Some(gone)) => {
            let how = left_words(case, object.kind, gone);
            let line = line_of(case, gone);
            format!(in case.alloc; "{name} is no live {kind}: {how} in line {line}")
        }
        (Some(made), None) => {
            let line = line_of(case, made);
            format!(in case.alloc; "{name} is a live {kind}: it was made in line {line}")
        }
    }
}

fn run_words(case: &Case, name: &String, task: u64, trace: &Trace) -> Result<String, AllocError> {
    if let Some(ended) = trace.ended {
        let line = line_of(case, ended);
        return format!(in case.alloc; "{name} ended in line {line}");
    }
    match trace.begun {
        Some(begun) => {
            let line = line_of(case, begun.number);
            let seat = seat_text(case, begun.who)?;
            format!(in case.alloc; "{name} runs on {seat}, which took it in line {line}")
        }
        None => unbegun_words(case, name, task),
    }
}

// A task that no worker took: it may have ended all the same.
fn unbegun_words(case: &Case, name: &String, task: u64) -> Result<String, AllocError> {
    match standings_before(case)?.ended.get(&task) {
        Some(end) => {
            let how = end_word(&end.full());
            format!(in case.alloc; "{name} ended before it began: {how}")
        }
        None => format!(in case.alloc; "{name} hasn't begun"),
    }
}

/// How far a task has come.
pub(crate) fn progress(case: &Case, task: u64) -> Result<String, AllocError> {
    let object = NodeObject {
        kind: ObjectKind::Task,
        handle: task,
    };
    let trace = trace_of(case, object)?;
    if trace.made.is_none() || trace.gone.is_some() {
        return liveness(case, object);
    }
    run_words(case, &object_text(case, object)?, task, &trace)
}

/// Who took a lock at last.
pub(crate) fn holding(case: &Case, object: NodeObject) -> Result<String, AllocError> {
    let name = object_text(case, object)?;
    match trace_of(case, object)?.taken {
        Some(taken) => {
            let line = line_of(case, taken.number);
            let seat = seat_text(case, taken.who)?;
            format!(in case.alloc; "{name} is held: {seat} took it in line {line}")
        }
        None => format!(in case.alloc; "{name} is held"),
    }
}
