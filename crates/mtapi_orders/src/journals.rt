//! The journals of the examples.

use crate::page::{Alternatives, push_numbered};
use crate::slots::{Slot, lines_of, push_bytes};
use crate::told::Told;
use journal_text::write_journal;
use node_journals::Journal;
use number_text::push_number;
use std::alloc::{AllocError, Global};
use workload_orders::{Deadlock, Report};

/// A line that names an example, and its journal.
fn push_journal(
    alloc: Global,
    out: &mut Vec<u8>,
    what: &[u8],
    number: usize,
    journal: &Journal,
) -> Result<(), AllocError> {
    push_numbered(alloc, out, what, number, b"\n")?;
    push_bytes(out, &write_journal(alloc, journal)?)
}

/// The first report in which this text stands at a place.
fn report_with<'a>(
    alloc: Global,
    slots: &[Slot],
    reports: &'a [Report],
    place: usize,
    text: &[u8],
) -> Result<Option<&'a Report>, AllocError> {
    for report in reports {
        let lines = lines_of(alloc, slots, &report.text)?;
        if let Some(line) = lines.get(place) {
            if *line == text {
                return Ok(Some(report));
            }
        }
    }
    Ok(None)
}

/// An example of each text of a line, behind a line that names it.
fn push_line_journals(
    alloc: Global,
    out: &mut Vec<u8>,
    slots: &[Slot],
    reports: &[Report],
    place: usize,
    alternatives: &Alternatives,
) -> Result<(), AllocError> {
    let Some(slot) = slots.get(place) else {
        return Ok(());
    };
    let mut number = 0usize;
    for text in &alternatives.texts {
        number = number.saturating_add(1);
        if let Some(report) = report_with(alloc, slots, reports, place, text)? {
            push_bytes(out, b"journal of line ")?;
            push_number(alloc, out, slot.line)?;
            push_journal(alloc, out, b" text ", number, &report.journal)?;
        }
    }
    Ok(())
}

/// An example of each text of each line that differs.
fn push_all_lines(
    alloc: Global,
    out: &mut Vec<u8>,
    slots: &[Slot],
    all: &[Alternatives],
    reports: &[Report],
) -> Result<(), AllocError> {
    for (place, alternatives) in all.iter().enumerate() {
        if alternatives.differ() {
            push_line_journals(alloc, out, slots, reports, place, alternatives)?;
        }
    }
    Ok(())
}

/// An example of each report.
fn push_reports(alloc: Global, out: &mut Vec<u8>, reports: &[Report]) -> Result<(), AllocError> {
    let mut number = 0usize;
    for report in reports {
        number = number.saturating_add(1);
        push_journal(alloc, out, b"journal of report ", number, &report.journal)?;
    }
    Ok(())
}

/// The way to each deadlock, or to each stop that isn't shown to be one.
fn push_stops(
    alloc: Global,
    out: &mut Vec<u8>,
    what: &[u8],
    stops: &[Deadlock],
) -> Result<(), AllocError> {
    let mut number = 0usize;
    for stop in stops {
        number = number.saturating_add(1);
        push_journal(alloc, out, what, number, &stop.journal)?;
    }
    Ok(())
}

/// An example of each report, or of each text of a line where these aren't all reports, and of each deadlock, behind lines that name
/// them.
pub fn push_journals(
    alloc: Global,
    out: &mut Vec<u8>,
    slots: &[Slot],
    all: &[Alternatives],
    told: &Told,
) -> Result<(), AllocError> {
    if told.whole {
        push_reports(alloc, out, &told.orders.reports)?;
    } else {
        push_all_lines(alloc, out, slots, all, &told.orders.reports)?;
    }
    push_stops(alloc, out, b"journal of deadlock ", &told.orders.deadlocks)?;
    push_stops(alloc, out, b"journal of stop ", &told.orders.stops)
}
