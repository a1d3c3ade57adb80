//! Journals with one line changed, behind the workload of the run.

use crate::asking::answer;
use std::alloc::{AllocError, Global};
use std::sync::Wait;
use std::thread::Threads;

/// Adds a line, with its line feed.
fn add_line(bytes: &mut Vec<u8>, line: &str) -> Result<(), AllocError> {
    bytes.extend_from_slice(line.as_bytes())?;
    Ok(bytes.push(b'\n')?)
}

/// Adds a line with a change: `left out`, `doubled`, or another line in its place.
fn add_changed(bytes: &mut Vec<u8>, line: &str, change: &str) -> Result<(), AllocError> {
    if change == "left out" {
        return Ok(());
    }
    if change == "doubled" {
        add_line(bytes, line)?;
        return add_line(bytes, line);
    }
    add_line(bytes, change)
}

/// The workload, and behind it the journal with this line changed, counted from 0; an `exchanged` line stands behind the next one.
fn changed(
    alloc: Global,
    load: &str,
    journal: &str,
    number: usize,
    change: &str,
) -> Result<Vec<u8>, AllocError> {
    let mut bytes = load.as_bytes().to_vec(alloc)?;
    let mut waiting = None;
    for (place, line) in journal.lines().enumerate() {
        if place != number {
            add_line(&mut bytes, line)?;
            if let Some(before) = waiting {
                add_line(&mut bytes, before)?;
                waiting = None;
            }
        } else if change == "exchanged" {
            waiting = Some(line);
        } else {
            add_changed(&mut bytes, line, change)?;
        }
    }
    Ok(bytes)
}

/// Whether `check` says of the changed journal what the row says: the number of a line, the change, and the answer, with ` | ` between
/// them.
pub(crate) fn judged_as_said<R: Threads + Wait + Sync>(
    rt: &R,
    alloc: Global,
    load: &str,
    journal: &str,
    row: &str,
) -> Result<bool, AllocError> {
    let Some((number, rest)) = row.split_once(" | ") else {
        return Ok(false);
    };
    let Some((change, said)) = rest.split_once(" | ") else {
        return Ok(false);
    };
    let Ok(number) = number.parse::<usize>() else {
        return Ok(false);
    };
    let input = changed(alloc, load, journal, number, change)?;
    let text = answer(rt, alloc, &["check"], input)?;
    // The status is one digit, and the line feed behind it.
    let Some(line) = text.get(2..) else {
        return Ok(false);
    };
    Ok(line.strip_suffix(b"\n") == Some(said.as_bytes()))
}
