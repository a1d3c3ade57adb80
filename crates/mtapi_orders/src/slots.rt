//! Which statement each line of a report is of.

use number_text::{cut_at, push_number};
use std::alloc::{AllocError, Global};
use workload_file::{Deed, Name, Part, Statement, Workload};

/// A statement of which a report may have a line.
#[derive(Drop)]
pub struct Slot {
    /// The line of the statement in the workload.
    pub line: u64,
    /// Whether the line tells what a call answered, behind a sign; else it tells what became of a task.
    call: bool,
    /// How the line begins, behind the sign and a space, up to the space before what it tells.
    key: Vec<u8>,
    /// The line that stands for it where it has none.
    pub absent: Vec<u8>,
}

impl Slot {
    /// Whether this line of a report is of the statement.
    fn has(&self, line: &[u8]) -> bool {
        let rest = if self.call {
            match line {
                [_, _, rest @ ..] => rest,
                _ => return false,
            }
        } else {
            line
        };
        rest.starts_with(&self.key)
    }
}

/// Appends these bytes.
pub fn push_bytes(out: &mut Vec<u8>, bytes: &[u8]) -> Result<(), AllocError> {
    out.extend_from_slice(bytes)
}

/// The line of a task.
fn task_slot(alloc: Global, part: &Part, name: &Name, line: u64) -> Result<Slot, AllocError> {
    let mut key = Vec::new(alloc);
    push_bytes(&mut key, part.name.as_slice())?;
    push_bytes(&mut key, b".")?;
    push_bytes(&mut key, name.as_slice())?;
    push_bytes(&mut key, b" ")?;
    let mut absent = Vec::new(alloc);
    push_bytes(&mut absent, b"(no ")?;
    push_bytes(&mut absent, part.name.as_slice())?;
    push_bytes(&mut absent, b".")?;
    push_bytes(&mut absent, name.as_slice())?;
    push_bytes(&mut absent, b")")?;
    Ok(Slot {
        line,
        call: false,
        key,
        absent,
    })
}

/// The line of a call.
fn call_slot(alloc: Global, part: &Part, line: u64) -> Result<Slot, AllocError> {
    let mut key = Vec::new(alloc);
    push_bytes(&mut key, part.name.as_slice())?;
    push_bytes(&mut key, b" ")?;
    push_number(alloc, &mut key, line)?;
    push_bytes(&mut key, b" ")?;
    let mut absent = Vec::new(alloc);
    push_bytes(&mut absent, b"(no line ")?;
    push_number(alloc, &mut absent, line)?;
    push_bytes(&mut absent, b" of ")?;
    push_bytes(&mut absent, part.name.as_slice())?;
    push_bytes(&mut absent, b")")?;
    Ok(Slot {
        line,
        call: true,
        key,
        absent,
    })
}

/// Whether a statement makes a task.
fn makes_task(deed: &Deed) -> bool {
    matches!(deed, Deed::Start { .. } | Deed::Enqueue { .. })
}

/// Adds the line of a task that a statement makes, if it makes one.
fn add_task(
    alloc: Global,
    slots: &mut Vec<Slot>,
    part: &Part,
    statement: &Statement,
) -> Result<(), AllocError> {
    if let Some(name) = &statement.name {
        if makes_task(&statement.deed) {
            slots.push(task_slot(alloc, part, name, statement.line)?)?;
        }
    }
    Ok(())
}

/// Adds the line of what another statement's call answers.
fn add_call(
    alloc: Global,
    slots: &mut Vec<Slot>,
    part: &Part,
    statement: &Statement,
) -> Result<(), AllocError> {
    if !makes_task(&statement.deed) {
        slots.push(call_slot(alloc, part, statement.line)?)?;
    }
    Ok(())
}

/// The lines that a report of this workload may have, in their order.
pub fn slots_of(alloc: Global, load: &Workload) -> Result<Vec<Slot>, AllocError> {
    let mut slots = Vec::new(alloc);
    for part in load.parts.as_slice() {
        for statement in part.statements.as_slice() {
            add_task(alloc, &mut slots, part, statement)?;
        }
    }
    for part in load.parts.as_slice() {
        for statement in part.statements.as_slice() {
            add_call(alloc, &mut slots, part, statement)?;
        }
    }
    Ok(slots)
}

/// The lines of a report, one for each slot: an empty one where the report has none.
pub fn lines_of<'a>(
    alloc: Global,
    slots: &[Slot],
    text: &'a [u8],
) -> Result<Vec<&'a [u8]>, AllocError> {
    let mut lines = Vec::new(alloc);
    let mut rest = text;
    for slot in slots {
        let (line, after) = cut_at(rest, b'\n');
        if slot.has(line) {
            lines.push(line)?;
            rest = after.unwrap_or(&text[..0]);
        } else {
            lines.push(&text[..0])?;
        }
    }
    Ok(lines)
}
