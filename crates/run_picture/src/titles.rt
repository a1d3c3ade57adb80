//! The names in a picture, and the title of each mark.

use crate::lanes::lane_of;
use crate::lists::at;
use crate::marks::{Chart, Mark, Style};
use crate::names::{Names, name_bound, seat_name, statement_of};
use crate::objects::object_of;
use crate::sheet::Row;
use crate::words::{call_word, kind_word, note_of, told};
use journal_text::{NodeObject, handle_word, object_named};
use mtapi_machine::{Entry, Op};
use mtapi_values::ObjectKind;
use std::alloc::{AllocError, Global};
use std::collections::HashMap;

/// All that is drawn.
#[derive(Clone, Copy, Drop)]
pub struct Scene<'a> {
    pub alloc: Global,
    pub entries: &'a [Entry],
    pub names: &'a Names<'a>,
    pub chart: &'a Chart,
    /// Where the rows stand.
    pub rows: &'a [Row],
}

/// What a map has for a handle.
fn found(map: &HashMap<u64, usize>, handle: u64) -> Option<usize> {
    match map.get(&handle) {
        Some(place) => Some(*place),
        None => None,
    }
}

/// The place at which an object was made, if an entry made it.
fn place_made(chart: &Chart, object: NodeObject) -> Option<usize> {
    match object.kind {
        ObjectKind::Action => found(&chart.actions, object.handle),
        ObjectKind::Group => found(&chart.groups, object.handle),
        ObjectKind::Task => match chart.tasks.get(&object.handle) {
            Some(task) => Some(task.made),
            None => None,
        },
        _ => match lane_of(chart.lanes.as_slice(), object) {
            Some(number) => match at(chart.lanes.as_slice(), number) {
                Some(lane) => Some(lane.made),
                None => None,
            },
            None => None,
        },
    }
}

/// The name of an object: one that somebody gave it, else that by which the workload made it, and else its handle.
pub fn object_name(scene: &Scene, object: NodeObject) -> Result<String, AllocError> {
    let handle = handle_word(scene.alloc, object)?;
    if let Some(own) = scene.names.own.name_of(&handle) {
        return String::from_str(scene.alloc, own);
    }
    if let Some(place) = place_made(scene.chart, object)
        && let Some(entry) = scene.entries.get(place)
    {
        let name = name_bound(scene.alloc, scene.names, entry.who, place)?;
        if name.len() > 0 {
            return Ok(name);
        }
    }
    Ok(handle)
}

/// The object of the row in which a mark stands, if that is one of an object.
fn object_of_row(chart: &Chart, row: usize) -> Option<NodeObject> {
    match row.checked_sub(chart.seats.len()) {
        Some(number) => match at(chart.lanes.as_slice(), number) {
            Some(lane) => Some(lane.object),
            None => None,
        },
        None => None,
    }
}

/// The name of the row of an object.
pub fn lane_name(scene: &Scene, object: NodeObject) -> Result<String, AllocError> {
    let word = kind_word(object.kind);
    let name = object_name(scene, object)?;
    format!(in scene.alloc; "{word} {name}")
}

/// The object for which a seat waits: of a tally the mutex.
fn awaited(chart: &Chart, op: &Op) -> Option<NodeObject> {
    let lane = match op {
        Op::TallyLock { task } => found(&chart.tallies, task.0),
        _ => None,
    };
    match lane {
        Some(number) => match at(chart.lanes.as_slice(), number) {
            Some(lane) => Some(lane.object),
            None => None,
        },
        None => object_named(op),
    }
}

/// The object that a mark is of: that of its row, that for which a seat waits, or that of which its entry speaks.
fn object_of_mark(scene: &Scene, mark: &Mark, entry: &Entry) -> Option<NodeObject> {
    match (object_of_row(scene.chart, mark.row), mark.style) {
        (Some(object), _) => Some(object),
        (None, Style::Wait) => awaited(scene.chart, &entry.op),
        (None, _) => object_of(entry),
    }
}

/// The name of what a mark is of; that which its statement was to bind if it made nothing. It is empty if there is none.
fn object_words(scene: &Scene, mark: &Mark, entry: &Entry) -> Result<String, AllocError> {
    match object_of_mark(scene, mark, entry) {
        Some(object) => object_name(scene, object),
        None => name_bound(scene.alloc, scene.names, mark.seat, mark.entry),
    }
}

/// The word of the call that a mark is of, where its object alone doesn't say what was asked.
fn asked(mark: &Mark, entry: &Entry) -> &'static str {
    match mark.style {
        Style::Refusal | Style::Told | Style::Timeout | Style::Call => call_word(&entry.op),
        Style::Wait if object_named(&entry.op).is_none() => call_word(&entry.op),
        _ => "",
    }
}

/// What a mark is of, in words.
pub fn subject(scene: &Scene, mark: &Mark) -> Result<String, AllocError> {
    let Some(entry) = scene.entries.get(mark.entry) else {
        return Ok(String::new(scene.alloc));
    };
    let asked = asked(mark, entry);
    let name = object_words(scene, mark, entry)?;
    let between = if asked.len() > 0 && name.len() > 0 {
        " "
    } else {
        ""
    };
    format!(in scene.alloc; "{asked}{between}{name}")
}

/// Whether the call of a mark ends all tasks of a queue or of an action, or those of the queues that are disabled.
fn ends_several(scene: &Scene, mark: &Mark) -> bool {
    match scene.entries.get(mark.entry) {
        Some(entry) => matches!(
            entry.op,
            Op::QueueDisable { .. }
                | Op::QueueDelete { .. }
                | Op::ActionDisable { .. }
                | Op::ActionDelete { .. }
                | Op::Close
        ),
        None => false,
    }
}

/// What stands behind the seat in the title of a wait: the task, if a tally waits, and how many looks were left out.
fn wait_note(scene: &Scene, mark: &Mark) -> Result<String, AllocError> {
    let count = mark.count;
    match scene.entries.get(mark.entry) {
        Some(
            Entry {
                op: Op::TallyLock { task },
                ..
            },
        ) => {
            let task = NodeObject {
                kind: ObjectKind::Task,
                handle: task.0,
            };
            let name = object_name(scene, task)?;
            if count == 0 {
                format!(in scene.alloc; " ({name})")
            } else {
                format!(in scene.alloc; " ({name}, {count} looks left out)")
            }
        }
        _ if count == 0 => Ok(String::new(scene.alloc)),
        _ => format!(in scene.alloc; " ({count} looks left out)"),
    }
}

/// What stands behind the seat in the title of a mark.
fn note(scene: &Scene, mark: &Mark) -> Result<String, AllocError> {
    let count = mark.count;
    match mark.style {
        Style::Wait => wait_note(scene, mark),
        Style::NeverCancelled | Style::NeverFailed if ends_several(scene, mark) => {
            let tasks = if count == 1 { "task" } else { "tasks" };
            format!(in scene.alloc; " ({count} {tasks})")
        }
        _ => match scene.entries.get(mark.entry) {
            Some(entry) => {
                let word = note_of(entry);
                if word.len() == 0 {
                    return Ok(String::new(scene.alloc));
                }
                format!(in scene.alloc; " ({word})")
            }
            None => Ok(String::new(scene.alloc)),
        },
    }
}

/// The entries of a mark, counted from 1.
fn span(scene: &Scene, mark: &Mark) -> Result<String, AllocError> {
    let first = mark.from.saturating_add(1);
    let last = mark.to.saturating_add(1);
    if first == last {
        format!(in scene.alloc; ", entry {first}")
    } else {
        format!(in scene.alloc; ", entries {first} to {last}")
    }
}

/// The line of the workload that made a mark's entry; empty if none is known.
fn line(scene: &Scene, mark: &Mark) -> Result<String, AllocError> {
    match statement_of(scene.names, mark.seat, mark.entry) {
        Some(statement) => {
            let line = statement.line;
            format!(in scene.alloc; ", line {line}")
        }
        None => Ok(String::new(scene.alloc)),
    }
}

/// The title of a level.
fn level_title(scene: &Scene, mark: &Mark) -> Result<String, AllocError> {
    let name = subject(scene, mark)?;
    let count = mark.count;
    let most = if mark.times > 1 { "at most " } else { "" };
    let span = span(scene, mark)?;
    format!(in scene.alloc; "{name}: {most}{count} waiting{span}")
}

/// The title of marks that are drawn as one.
fn joined_title(scene: &Scene, mark: &Mark) -> Result<String, AllocError> {
    let times = mark.times;
    let told = told(mark.style);
    let seat = seat_name(scene.alloc, scene.names, mark.seat)?;
    let span = span(scene, mark)?;
    format!(in scene.alloc; "{times} times {told} {seat}{span}")
}

/// The title of one mark.
fn single_title(scene: &Scene, mark: &Mark) -> Result<String, AllocError> {
    let subject = subject(scene, mark)?;
    let told = told(mark.style);
    let seat = seat_name(scene.alloc, scene.names, mark.seat)?;
    let note = note(scene, mark)?;
    let span = span(scene, mark)?;
    let line = line(scene, mark)?;
    format!(in scene.alloc; "{subject}: {told} {seat}{note}{span}{line}")
}

/// The title of a mark.
pub fn title(scene: &Scene, mark: &Mark) -> Result<String, AllocError> {
    if mark.style == Style::Level {
        level_title(scene, mark)
    } else if mark.times > 1 {
        joined_title(scene, mark)
    } else {
        single_title(scene, mark)
    }
}
